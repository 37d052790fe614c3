// Ways 1 and 2: a block is granted anew where it stands.
ghost use Rattle.std.specs.Prelude.{◌≡◌, ◌≤◌, length};
ghost use Rattle.rules.specs.Rules.{trim, resized};
ghost use Rattle.rules.specs.Rooms.{Needed, kept_of};
ghost use Rattle.passes.specs.Places.{LiveAt};
ghost use Rattle.stores.specs.RoomAt.{room_written};
ghost use Rattle.ways.specs.Ways.{FollowsAt};
ghost use Rattle.ways.specs.Trims.{RoomFor};

use answers::Grant;
use layout::Ask;
use passes::places::Place;
use stores::release::Room;
use stores::taking::Piece;

// How many words a block of `size` words keeps for its need, of a room of `words`: just the need, where its own words
// are enough and the free chunk after it takes those over; otherwise the need, or all where too few would be over.
fn kept_words(need: usize, size: usize, words: usize) -> usize
    requires { need ≤ words }
    ensures { result ≡ kept_of need size words }
{
    if size < words && need <= size {
        return need;
    }
    if words - need < layout::LEAST_SPLIT {
        return words;
    }
    need
}

// The chunk at a place keeps the first `keep` words of its room, where `asked` words are asked for; those over, if
// there are any, become a free chunk.
#[tactic(auto, unfolding(stores::specs::RoomAt::room_written, layout::specs::Chunks::write))]
fn trim(a: &mut [u32], place: Place, keep: usize, asked: u32, room: Room)
    requires { RoomFor (length a.old) place.link place.chunk keep asked room }
    ensures { a.new ≡ room_written place.link place.chunk (trim keep asked room.words) room.next a.old }
{
    let Room { words, next } = room;
    if words <= keep {
        stores::change(a, place.link, next);
        stores::put_live(a, place.chunk, keep, asked);
        return;
    }
    let rest = place.chunk + keep;
    stores::change(a, place.link, rest);
    stores::put_live(a, place.chunk, keep, asked);
    stores::put(a, rest, words - keep, next);
}

// Ways 1 and 2: the block stays where it is.
pub fn resize_at(a: &mut [u32], place: Place, ask: Ask) -> Option<Grant>
    requires { LiveAt a.old place.link place.chunk × Needed ask.need ask.asked }
    ensures { FollowsAt resized a.old place.link place.chunk ask.need ask.asked result a.new }
{
    let chunk = place.chunk;
    let size = a[chunk] as usize;
    let room = stores::release::room_at(a, place);
    if room.words < ask.need {
        return None;
    }
    let keep = kept_words(ask.need, size, room.words);
    trim(a, place, keep, ask.asked, room);
    Some(super::grant(Piece { chunk, words: keep }))
}
