// The layout of an arena: which words are lawful, what stands in them, and what a request needs.
#![tactic(auto)]

ghost use Rattle.std.specs.Prelude.{◌≡◌, true, ◌+◌, ◌-◌, ◌≤◌};
ghost use Rattle.layout.specs.Numbers.{lawful, greatest_length, header_words, live_mark};
ghost use Rattle.layout.specs.Numbers.{need as need_of};
ghost use Rattle.layout.specs.Walk.{is_live, asked_in};
ghost use Rattle.layout.specs.Reasons.{request_gate};
ghost use Rattle.layout.specs.Reasons.{number as number_of};

// The words before the first chunk.
pub const CONTROL_WORDS: usize = 2;
// The word that names the first free chunk.
pub const LIST_WORD: usize = 1;
// Where the first chunk starts.
pub const FIRST_CHUNK: usize = CONTROL_WORDS;
// A chunk's size and its second word.
pub const HEADER_WORDS: usize = 2;
// The least size of a chunk.
pub const LEAST_SIZE: usize = 4;
// The least and the greatest length of an arena.
pub const LEAST_LENGTH: usize = 6;

pub const GREATEST_LENGTH: usize = 16384;
// If this many words or more are left over, they are split off as a chunk of their own.
pub const LEAST_SPLIT: usize = 8;
// The second word of a live chunk is this number and the words that were asked for; that of a free chunk is below it.
const LIVE_MARK: u32 = 2147483648;

// What fits a word is below this number.
pub const WORD_VALUES: u64 = 4294967296;

// Why a call says no, with the reason's number.
#[derive(Clone, Copy, Debug, PartialEq, Eq)]
pub enum Reason {
    Length = 1,
    Damaged = 2,
    NotABlock = 3,
    Zero = 4,
    TooLarge = 5,
    NoRoom = 6,
    Frame = 7,
    WouldMove = 8,
    TextRoom = 11,
}

impl From<Reason> for u32 {
    ghost from_gives = { λ why number. number ≡ number_of why };

    fn from(why: Reason) -> u32 {
        why as u32
    }
}

// Whether an arena may have `n` words.
pub fn is_lawful(n: usize) -> bool
    ensures { result ≡ lawful n }
{
    n % 2 == 0 && LEAST_LENGTH <= n && n <= GREATEST_LENGTH
}

// What a request comes to: how many words a chunk needs for it, and how many were asked for.
#[derive(Clone, Copy)]
pub struct Ask {
    pub need: usize,
    pub asked: u32,
}

// The words that a request for `n` needs.
pub fn need(n: usize) -> usize
    requires { n ≤ greatest_length }
    ensures { result ≡ need_of n }
{
    n + n % 2 + HEADER_WORDS
}

// The words of a block whose chunk has `size` words.
pub fn block_words(size: usize) -> usize
    ensures { result ≡ size - header_words }
{
    size.saturating_sub(HEADER_WORDS)
}

// A live chunk's second word, where so many words were asked for.
pub fn live_word(asked: u32) -> u32
    requires { asked ≤ greatest_length }
    ensures { result ≡ live_mark + asked }
{
    LIVE_MARK + asked
}

// Whether a chunk's second word says that it is live.
pub fn is_live(second: u32) -> bool
    ensures { result ≡ is_live second }
{
    LIVE_MARK <= second
}

// The words that were asked for, in a live chunk's second word.
pub fn asked_in(second: u32) -> u32
    requires { is_live second ≡ true }
    ensures { result ≡ asked_in second }
{
    second - LIVE_MARK
}

// The reasons for which a request of `n` words is refused in an arena of `size` words: Zero, then TooLarge.
#[tactic(auto, unfolding(crate::specs::Reasons::request_gate))]
pub fn check_request(size: usize, n: usize) -> Result<(), Reason>
    requires { lawful size ≡ true }
    ensures { result ≡ request_gate size n }
{
    if n == 0 {
        return Err(Reason::Zero);
    }
    if n <= size - (CONTROL_WORDS + HEADER_WORDS) {
        Ok(())
    } else {
        Err(Reason::TooLarge)
    }
}
