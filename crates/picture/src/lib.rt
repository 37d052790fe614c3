// A picture of an arena: written into a lent text, and read back from one. A call asks nothing of its caller: it is
// done as the rules say, or it is refused with a reason, and then neither lent slice has changed.
#![tactic(auto)]

pub use answers::{Finish, Written};
use layout::Reason;

mod reading;
mod writing;

ghost use Rattle.std.specs.Prelude.{◌≤◌, length};
ghost use Rattle.layout.specs.Numbers.{greatest_length};
ghost use Rattle.rules.specs.Answers.{Gives};
ghost use Rattle.rules.specs.Calls.{read_on};
ghost use Rattle.answers.specs.Readings.{finish_numbers, written_numbers};
ghost use Rattle.picture.specs.Writing.{Writes};
ghost use Rattle.picture.specs.Decoding.{Accepts};

// Writes the picture of a sound arena to the start of the text, whose rest stays, and answers how many bytes it has.
#[tactic(auto, using(crate::proofs::LineByLine::open_length, rules::proofs::Pictures::picture_length_lem))]
pub fn write(a: &[u32], text: &mut [u8]) -> Written
    ensures { Writes a.now text.old (written_numbers result) text.new }
{
    walk::check_arena(a)?;
    if text.len() < frames::picture_length(a.len()) {
        return Err(Reason::TextRoom);
    }
    Ok(writing::put_picture(a, text) as u32)
}

// Reads a picture: the arena becomes the words that it shows. Nothing is stored before they are known to be sound.
#[tactic(auto, using(crate::proofs::Decoding::reads_bad))]
pub fn read(text: &[u8], a: &mut [u32]) -> Finish
    ensures { Gives (read_on text.now a.old) (finish_numbers result) a.new }
{
    let mut words = [0u32; layout::GREATEST_LENGTH];
    let n = reading::decode(text, &mut words).ok_or(Reason::Frame)?;
    accept(&words, n, a)
}

// Makes the arena the first `n` words, if it has as many and they are a sound arena. Where fewer than `n` are there,
// `n` is more than any arena has.
#[tactic(auto, using(crate::proofs::Decoding::accept_unlawful))]
fn accept(words: &[u32], n: usize, a: &mut [u32]) -> Finish
    requires { greatest_length ≤ length words.now }
    ensures { Accepts n words.now a.old (finish_numbers result) a.new }
{
    if n != a.len() {
        return Err(Reason::Length);
    }
    let words = words.get(..n).ok_or(Reason::Length)?;
    walk::check_arena(words)?;
    a.copy_from_slice(words);
    Ok(())
}
