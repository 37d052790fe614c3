// A need is taken from a free chunk: words of it become live.
ghost use Rattle.passes.specs.Places.{FitsAt};
ghost use Rattle.stores.specs.Taken.{TakesAt};

use layout::Ask;
use passes::places::Place;

// A live chunk: where it starts, and its words.
#[derive(Clone, Copy)]
pub struct Piece {
    pub chunk: usize,
    pub words: usize,
}

// Makes the needed words of the free chunk at a place live: its last ones, or all of them where too few would be over.
pub fn take(a: &mut [u32], place: Place, ask: Ask) -> Piece
    requires { FitsAt a.old place.link place.chunk ask.need ask.asked }
    ensures { TakesAt a.old place.link place.chunk ask.need ask.asked result a.new }
{
    let chunk = place.chunk;
    let size = a[chunk] as usize;
    let next = a[chunk + 1] as usize;
    let rest = size - ask.need;
    if rest < layout::LEAST_SPLIT {
        super::change(a, place.link, next);
        super::put_live(a, chunk, size, ask.asked);
        return Piece { chunk, words: size };
    }
    super::put(a, chunk, rest, next);
    super::put_live(a, chunk + rest, ask.need, ask.asked);
    Piece {
        chunk: chunk + rest,
        words: ask.need,
    }
}
