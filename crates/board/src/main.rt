// The board's program: request lines on standard input, replies on standard output, as soon as each piece of input is
// answered.
#![tactic(auto)]

ghost use Rattle.std.specs.Prelude.{◌*◌, ◌<◌, ◌≤◌, length, IfSome, IfOk, OnOk, IsNone};
ghost use Rattle.std.specs.Io.KnownBytes.{Appends};
ghost use Rattle.replies.specs.Boards.{lending, longest_reply};
ghost use Rattle.lines.specs.Pieces.{board_of, ending, HearsAll};
ghost use Rattle.lines.specs.Texts.{means};
ghost use Rattle.board.specs.Turns.{Roomy, Turned, Continues, Finishes};

use lines::Heard;
use std::io;
use std::io::{Read, Write};

// The most bytes that are read at once.
const PIECE: usize = 1024;

// Room for all that they can ask for.
const ROOM: usize = PIECE * lines::LONGEST_REPLY;

// Hears a whole piece: the text has room to answer it. `lines::hear` hears as much as there is room for; this states,
// for the turn, that nothing is left of the piece.
fn hear_whole(last: Heard, words: &mut [u32], piece: &[u8], out: &mut [u8]) -> Heard
    requires { length piece.now * longest_reply ≤ length out.old }
    ensures hears_all { HearsAll last.place (board_of words.old last.lent)
        piece.now out.old result words.new out.new }
    ensures written_in_bounds { result.written ≤ length out.new }
{
    lines::hear(last, words, piece, out)
}

// Hears the end of the text: states, for the turn, that nothing is left of it.
fn hear_end(last: Heard, words: &mut [u32], out: &mut [u8]) -> Heard
    requires { longest_reply ≤ length out.old }
    ensures hears_all { HearsAll last.place (board_of words.old last.lent)
        (ending last.place) out.old result words.new out.new }
    ensures written_in_bounds { result.written ≤ length out.new }
{
    lines::close(last, words, out)
}

// Reads once into `piece`, and answers what came, or the last line where nothing came. The replies are written at the
// start of `out`, and then to the output. There is something to go on from as long as there may be more to come; an
// error says that not all was read, or not all written.
fn turn<R: Read, W: Write>(
    input: &mut R,
    output: &mut W,
    last: Heard,
    words: &mut [u32],
    piece: &mut [u8],
    out: &mut [u8],
) -> io::Result<Option<Heard>>
    requires { Roomy piece.old out.old }
    ensures turned { (heard : Heard) × Turned last.place (board_of words.old last.lent)
        piece.new out.old heard words.new out.new }
    ensures goes_on { IfOk result (λ next. IfSome next (λ heard. Continues last.place
        (board_of words.old last.lent) piece.new out.old heard words.new out.new
        (R.remaining input.old) (R.remaining input.new) (W.contents output.old) (W.contents output.new))) }
    ensures ended { IfOk result (λ next. IsNone next → (heard : Heard) × Finishes last.place
        (board_of words.old last.lent) piece.old out.old heard words.new out.new
        (R.remaining input.old) (W.contents output.old) (W.contents output.new)) }
{
    match input.read(piece) {
        Ok(count @ 1..) => {
            let heard = hear_whole(last, words, &piece[..count], out);
            output.write_all(&out[..heard.written])?;
            Ok(Some(heard))
        }
        ended => {
            let end = hear_end(last, words, out);
            output.write_all(&out[..end.written])?;
            ended.map(|_| None)
        }
    }
}

// Answers all input; an error says that it was not read to its end, or that not all replies were written. A proved loop
// has to end, and nothing says that an input does: so the turns are counted, up to a number that no run reaches.
fn answer_all<R: Read, W: Write>(
    input: &mut R,
    output: &mut W,
    words: &mut [u32],
    piece: &mut [u8],
    out: &mut [u8],
) -> io::Result<()>
    requires { Roomy piece.old out.old }
    ensures { OnOk result (0 < length piece.old → IfSome (R.remaining input.old) (λ text.
        Appends (W.contents output.old) (W.contents output.new) (means text (lending words.old 0)).reply)) }
{
    let mut heard = lines::nothing_heard();
    for _ in 0..u64::MAX {
        let Some(next) = turn(input, output, heard, words, piece, out)? else {
            return Ok(());
        };
        heard = next;
    }
    Err(io::ErrorKind::TimedOut.into())
}

// The board's words are all zero, and none of them is lent before the first start. A run that fails ends as any other:
// what it could not read or write is all that it would tell.
fn main(rt: HostRuntime) {
    let mut words = [0u32; layout::GREATEST_LENGTH];
    let mut piece = [0u8; PIECE];
    let mut out = [0u8; ROOM];
    let _ = answer_all(
        &mut rt.stdin(),
        &mut rt.stdout(),
        &mut words,
        &mut piece,
        &mut out,
    );
}
