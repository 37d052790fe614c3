// Freeing a chunk, and the room that it has with the free chunk after it.
ghost use Rattle.std.specs.Prelude.{◌≡◌, ◌<◌, length};
ghost use Rattle.passes.specs.Places.{LiveAt};
ghost use Rattle.stores.specs.RoomAt.{RoomAt, FreedAt, free_before};

use passes::places::Place;

// A chunk together with a free chunk right after it, if there is one: their words, and the next free chunk behind them.
#[derive(Clone, Copy)]
pub struct Room {
    pub words: usize,
    pub next: usize,
}

// The room of the live chunk at a place.
pub fn room_at(a: &[u32], place: Place) -> Room
    requires { LiveAt a.now place.link place.chunk }
    ensures { RoomAt a.now place.link place.chunk result }
{
    let size = a[place.chunk] as usize;
    let next = a[place.link] as usize;
    if next == place.chunk + size {
        let words = size + a[next] as usize;
        return Room {
            words,
            next: a[next + 1] as usize,
        };
    }
    Room { words: size, next }
}

// The start of the free chunk whose second word is the place's link word, if it ends where the place's chunk starts.
#[tactic(auto, using(crate::proofs::Releasing::before_none, crate::proofs::Releasing::before_where))]
fn free_before(a: &[u32], place: Place) -> Option<usize>
    requires { (place.link < place.chunk) × (place.chunk < length a.now) }
    ensures { result ≡ free_before a.now place.link place.chunk }
{
    if place.link <= layout::LIST_WORD {
        return None;
    }
    let left = place.link - 1;
    (a[left] as usize == place.chunk - left).then_some(left)
}

// Frees the live chunk at a place: merges it with a free chunk right after it, then with one right before it.
pub fn release(a: &mut [u32], place: Place)
    requires { LiveAt a.old place.link place.chunk }
    ensures { FreedAt a.old place.link place.chunk a.new }
{
    let Room { words, next } = room_at(a, place);
    match free_before(a, place) {
        Some(left) => super::put(a, left, place.chunk - left + words, next),
        None => {
            super::change(a, place.link, place.chunk);
            super::put(a, place.chunk, words, next);
        }
    }
}
