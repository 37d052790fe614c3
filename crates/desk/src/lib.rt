// The check for the desk tool, which hands an arena over as bytes.
#![tactic(auto)]

ghost use Rattle.std.specs.Prelude.{◌≡◌, ◌*◌, length};
ghost use Rattle.layout.specs.Reasons.{arena_gate};
ghost use Rattle.spelling.specs.Words.{words_of};
ghost use Rattle.desk.specs.Checks.{gate_number, bytes_gate};

use layout::Reason;

// Whether the words that bytes spell, four bytes each, the lowest first, are a sound arena; or why not: Length,
// then Damaged.
#[tactic(auto, using(crate::proofs::Checks::reasons))]
fn check_words(spelled: &[u8]) -> Result<(), Reason>
    ensures { result ≡ bytes_gate spelled.now }
{
    let n = spelled.len() / 4;
    if spelled.len() % 4 != 0 || !layout::is_lawful(n) {
        return Err(Reason::Length);
    }
    let mut words = [0u32; layout::GREATEST_LENGTH];
    load_and_check(spelled, &mut words[..n])
}

// Loads the words that bytes spell, and checks them.
fn load_and_check(spelled: &[u8], words: &mut [u32]) -> Result<(), Reason>
    requires { length spelled.now ≡ 4 * length words.old }
    ensures { result ≡ arena_gate (words_of spelled.now) }
{
    spelling::load(spelled, words);
    walk::check_arena(words)
}

// The check of an arena that comes as bytes: 0 where it is sound, 1 where no arena has so many bytes, 2 where it is not
// sound. A number and no Result: it is what C is handed, and the pages name it so.
pub fn check(spelled: &[u8]) -> u32
    ensures { result ≡ gate_number (bytes_gate spelled.now) }
{
    match check_words(spelled) {
        Ok(()) => 0,
        Err(why) => u32::from(why),
    }
}
