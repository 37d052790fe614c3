// Request lines: a text is heard piece by piece, and each line of it is answered by a call on the lent words.
#![tactic(auto)]

ghost use Rattle.std.specs.Prelude.{◌≡◌, ◌+◌, ◌*◌, ◌≤◌, length};
ghost use Rattle.replies.specs.Boards.{lending, longest_reply};
ghost use Rattle.lines.specs.Pieces.{nothing_heard, ending, board_of, answerable, HearsAll};
ghost use Rattle.lines.specs.OneByte.{HearsByte, HearsBytes};

use replies::Board;
pub use requests::Place;

// The longest reply, that of a report, in bytes.
pub const LONGEST_REPLY: usize = 21;

// What came of a piece: the place after it, how many words are lent, how many bytes of it were taken, and how many
// bytes of reply were written.
#[derive(Clone, Copy)]
pub struct Heard {
    pub place: Place,
    pub lent: usize,
    pub taken: usize,
    pub written: usize,
}

// The beginning of a text: nothing is heard, and no words are lent. A function and no Default: the pages name it.
pub fn nothing_heard() -> Heard
    ensures { result ≡ nothing_heard }
{
    Heard {
        place: requests::at_start(),
        lent: 0,
        taken: 0,
        written: 0,
    }
}

// Hears one byte: the end of a line, which is answered, or one more byte of it. Gives the place after it, and where its
// reply ends.
fn hear_byte(
    place: Place,
    b: u8,
    board: &mut Board<'_>,
    out: &mut [u8],
    at: usize,
) -> (Place, usize)
    requires { at + longest_reply ≤ length out.old }
    ensures same_reference { board.new.words.ghost_name ≡ board.old.words.ghost_name }
    ensures heard { HearsByte place (lending board.old.words.now board.old.lent) b
        result.0 board.new.words.now board.new.lent at out.old result.1 out.new }
{
    if b == b'\n' {
        let end = board.answer(requests::request_at(place), out, at);
        return (requests::at_start(), end);
    }
    (requests::onward(place, b), at)
}

// Hears these bytes, one after the other; `out` has room to answer them all.
fn hear_bytes(from: Place, bytes: &[u8], board: &mut Board<'_>, out: &mut [u8]) -> (Place, usize)
    requires { length bytes.now * longest_reply ≤ length out.old }
    ensures same_reference { board.new.words.ghost_name ≡ board.old.words.ghost_name }
    ensures heard { HearsBytes from (lending board.old.words.now board.old.lent) bytes.now out.old
        result.0 board.new.lent result.1 board.new.words.now out.new }
{
    let mut place = from;
    let mut end = 0;
    for &b in bytes {
        (place, end) = hear_byte(place, b, board, out, end);
    }
    (place, end)
}

// Goes on from `last` with a piece of the text: hears as many bytes of it as `out` has room to answer, and writes the
// replies at the start of `out`.
pub fn hear(last: Heard, words: &mut [u32], piece: &[u8], out: &mut [u8]) -> Heard
    ensures { HearsAll last.place (board_of words.old last.lent)
        (answerable piece.now out.old) out.old result words.new out.new }
{
    let most = piece.len().min(out.len() / LONGEST_REPLY);
    let bytes = &piece[..most];
    let lent = last.lent.min(words.len());
    let mut board = Board { words, lent };
    let (place, written) = hear_bytes(last.place, bytes, &mut board, out);
    Heard {
        place,
        lent: board.lent,
        taken: most,
        written,
    }
}

// Goes on from `last` with the end of the text: a line that has no end is answered if something has come of it.
pub fn close(last: Heard, words: &mut [u32], out: &mut [u8]) -> Heard
    ensures { HearsAll last.place (board_of words.old last.lent)
        (answerable (ending last.place) out.old) out.old result words.new out.new }
{
    if last.place.digits == 0 {
        return hear(last, words, &[], out);
    }
    hear(last, words, b"\n", out)
}
