// Words from a reader and to a writer, as bytes, for the programs that the tests run.
#![tactic(auto)]

ghost use Rattle.std.specs.Prelude.{◌*◌, ◌≤◌, length, OnOk};
ghost use Rattle.std.specs.Io.KnownBytes.{Appends, Consumes};
ghost use Rattle.spelling.specs.Words.{bytes_of};
ghost use Rattle.wire.specs.Steps.{UntilOneFails};

use std::io;
use std::io::{Read, Write};

// Reads as many words as `words` has, by way of `bytes`; an error where the input is cut short.
pub fn read_words<R: Read>(input: &mut R, words: &mut [u32], bytes: &mut [u8]) -> io::Result<()>
    requires { 4 * length words.old ≤ length bytes.old }
    ensures { OnOk result (Consumes (R.remaining input.old) (R.remaining input.new)
        (bytes_of words.new)) }
{
    let count = 4 * words.len();
    let spelled = &mut bytes[..count];
    input.read_exact(spelled)?;
    spelling::load(spelled, words);
    Ok(())
}

// Writes the words, by way of `bytes`; an error where they cannot be written.
pub fn write_words<W: Write>(output: &mut W, words: &[u32], bytes: &mut [u8]) -> io::Result<()>
    requires { 4 * length words.now ≤ length bytes.old }
    ensures { OnOk result (Appends (W.contents output.old) (W.contents output.new)
        (bytes_of words.now)) }
{
    let count = 4 * words.len();
    let spelled = &mut bytes[..count];
    spelling::store(words, spelled);
    output.write_all(spelled)
}

// Takes steps until one fails, and hands the step back as it then is. A proved loop has to end, so the steps are
// counted, up to a number that no run reaches.
pub fn run_until_it_fails<F: FnMut() -> io::Result<()>>(mut step: F) -> F
    requires { F.IsAlwaysCallable step }
    ensures { UntilOneFails F.step step result }
{
    for _ in 0..u64::MAX {
        if step().is_err() {
            return step;
        }
    }
    step
}
