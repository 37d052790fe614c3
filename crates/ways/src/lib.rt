// The ways to grant: a new block (`allot`), and a block anew (`regrant_at`), where it stands (`staying`) or elsewhere
// (`moving`). Where the block stands (`LiveAt`) is said of the arena's words in each contract: a type would have to
// hold these words, which each way then stores to. `Needed` is said of the Ask alone, and is a clause all the same: a
// ghost field of Ask would want its proof wherever specs/ makes an Ask of any number (`ask_of`). Place and ask are two
// values, since what the ways call takes one of them, or another place.
#![tactic(auto)]

pub mod moving;
pub mod staying;

ghost use Rattle.std.specs.Prelude.{◌≡◌, ◌≤◌};
ghost use Rattle.layout.specs.Numbers.{greatest_length};
ghost use Rattle.rules.specs.Rules.{regranted};
ghost use Rattle.rules.specs.Rooms.{Needed};
ghost use Rattle.passes.specs.Places.{LiveAt};
ghost use Rattle.ways.specs.Ways.{FollowsAt, Picked, FollowsFrom, grant_of};

use answers::Grant;
use layout::Ask;
use passes::places::Place;
use stores::taking::Piece;

// A live chunk as a grant; no `From`, since it asks for a bound.
pub(crate) fn grant(piece: Piece) -> Grant
    requires { (piece.chunk ≤ greatest_length) × (piece.words ≤ greatest_length) }
    ensures { result ≡ grant_of piece }
{
    Grant {
        block: (piece.chunk + layout::HEADER_WORDS) as u32,
        granted: layout::block_words(piece.words) as u32,
    }
}

// Grants what is asked from the free chunk that a search found, if it found one; where nothing is granted, nothing was
// changed.
pub fn allot(a: &mut [u32], place: Option<Place>, ask: Ask) -> Option<Grant>
    requires { Picked a.old ask.need ask.asked place }
    ensures { FollowsFrom a.old ask.need ask.asked place result a.new }
{
    Some(grant(stores::taking::take(a, place?, ask)))
}

// The three ways in their order: the block stays where it is or, if it cannot, it moves.
pub fn regrant_at(a: &mut [u32], place: Place, ask: Ask) -> Option<Grant>
    requires { LiveAt a.old place.link place.chunk × Needed ask.need ask.asked }
    ensures { FollowsAt regranted a.old place.link place.chunk ask.need ask.asked result a.new }
{
    match staying::resize_at(a, place, ask) {
        None => moving::relocate_at(a, place, ask),
        stayed => stayed,
    }
}
