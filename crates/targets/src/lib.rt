// What a call asks for, once nothing stands in its way, and what it answers. The reasons are looked for in the order of
// their numbers.
#![tactic(auto)]

ghost use Rattle.std.specs.Prelude.{◌≡◌, true};
ghost use Rattle.layout.specs.Numbers.{lawful};
ghost use Rattle.ways.specs.Ways.{Picked};
ghost use Rattle.targets.specs.Targets.{need_in, asked_for, located, target_of, GrantsFrom, StartSmall, start_in};

use answers::Granted;
use layout::{Ask, Reason};
use passes::places;
use passes::places::Place;

// What a request for `n` words in an arena of `words` words comes to, or why it is refused.
#[tactic(auto, using(rules::proofs::Gates::request_small), unfolding(crate::specs::Targets::need_in))]
fn need_in(words: usize, n: u32) -> Result<Ask, Reason>
    requires { lawful words ≡ true }
    ensures { result ≡ need_in words n }
{
    layout::check_request(words, n as usize)?;
    Ok(Ask {
        need: layout::need(n as usize),
        asked: n,
    })
}

// A request for a new block of `n` words: the arena is checked, and then the request.
#[tactic(auto, using(crate::proofs::Locating::gate_lawful), unfolding(crate::specs::Targets::asked_for))]
pub fn ask(a: &[u32], n: u32) -> Result<Ask, Reason>
    ensures { result ≡ asked_for a.now n }
{
    walk::check_arena(a)?;
    need_in(a.len(), n)
}

// Where block `b` stands: the arena is checked, and the block is searched for.
#[tactic(auto, using(rules::proofs::Gates::gate_open), unfolding(crate::specs::Targets::located))]
pub fn locate(a: &[u32], b: u32) -> Result<Place, Reason>
    ensures { result ≡ located a.now b }
{
    walk::check_arena(a)?;
    places::find(a, b as usize).ok_or(Reason::NotABlock)
}

// A block that is granted anew, and what is asked.
#[derive(Clone, Copy)]
pub struct Target {
    pub place: Place,
    pub ask: Ask,
}

// Block `b` and a request for `n` words: the block is looked for first.
#[tactic(auto, using(crate::proofs::Locating::located_lawful), unfolding(crate::specs::Targets::target_of))]
pub fn target_of(a: &[u32], b: u32, n: u32) -> Result<Target, Reason>
    ensures { result ≡ target_of a.now b n }
{
    let place = locate(a, b)?;
    let ask = need_in(a.len(), n)?;
    Ok(Target { place, ask })
}

// A new block for what is asked, from the free chunk that a search found, as an alloc answers it.
#[tactic(auto, using(crate::proofs::Granting::way_gives))]
pub fn grant(a: &mut [u32], place: Option<Place>, ask: Ask) -> Granted
    requires { Picked a.old ask.need ask.asked place }
    ensures { GrantsFrom a.old ask.need ask.asked place result a.new }
{
    ways::allot(a, place, ask).ok_or(Reason::NoRoom)
}

// The start of a chunk that a search found; `rover` where it found none.
pub fn start_of(place: Option<Place>, rover: u32) -> u32
    requires { StartSmall place }
    ensures { result ≡ start_in rover place }
{
    place.map_or(rover, |found| found.chunk as u32)
}
