// A reply's bytes, written into a lent text.
ghost use Rattle.std.specs.Prelude.{◌+◌, ◌≤◌, length};
ghost use Rattle.answers.specs.Padded.{answer_in};
ghost use Rattle.digits.specs.Putting.{Puts};
ghost use Rattle.replies.specs.Boards.{reply_text, reply_length};

use answers::Numbers;

// The digits of a field.
const FIELD_DIGITS: usize = 4;

// Writes the reply to a request of this kind, a number since it is printed, and gives where it ends. What stands before
// `at` and behind the end of the caller's text stays.
pub(crate) fn put_reply(out: &mut [u8], at: usize, kind: u32, numbers: Numbers) -> usize
    requires { (numbers.count ≤ length numbers.fields) × (at + reply_length numbers.count ≤ length out.old) }
    ensures { Puts at (reply_text kind (answer_in numbers)) out.old result out.new }
{
    let fields = &numbers.fields[..numbers.count];
    digits::put_line::<2, FIELD_DIGITS>(out, at, kind, numbers.code, fields)
}
