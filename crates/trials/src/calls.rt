// The calls by their numbers, and their answers in numbers.
ghost use Rattle.std.specs.Prelude.{◌≡◌};
ghost use Rattle.answers.specs.Readings.{granted_numbers};
ghost use Rattle.answers.specs.Padded.{padded, Settles};
ghost use Rattle.trials.specs.Trials.{with_rover, outcome_of};

use answers::{Numbers, Roved};
use layout::Reason;

// What alloc_next answers, in numbers: what alloc does, and the rover as one field more; no `From`, since it adds one.
fn roved_numbers(roved: Roved) -> Numbers
    ensures { result ≡ padded (with_rover (granted_numbers roved.granted) roved.rover) }
{
    let numbers = answers::in_numbers(roved.granted);
    let [block, granted, ..] = numbers.fields;
    Numbers {
        count: 3,
        fields: [block, granted, roved.rover, 0],
        ..numbers
    }
}

// Makes the call of number `call` on the arena; a number that names none of these ten is answered as a malformed line
// is. Where a rover is lent, it is `b`. A call's number comes from a test, and is read in two matches, here and, for
// the two views, in `reply_to`: an enum would say the same rows once more.
#[tactic(auto, using(answers::proofs::Padded::settled), unfolding(crate::specs::Trials::outcome_of))]
pub(crate) fn answer(call: u32, b: u32, n: u32, a: &mut [u32]) -> Numbers
    ensures { Settles (outcome_of call b n a.old) result a.new }
{
    match call {
        1 => answers::in_numbers(arena::start(a)),
        2 => answers::in_numbers(arena::alloc(a, n)),
        3 => answers::in_numbers(arena::free(a, b)),
        4 => answers::in_numbers(arena::realloc(a, b, n)),
        5 => answers::in_numbers(arena::report(a)),
        6 => answers::in_numbers(arena::size(a, b)),
        9 => answers::in_numbers(arena::resize(a, b, n)),
        10 => answers::in_numbers(arena::relocate(a, b, n)),
        11 => answers::in_numbers(arena::alloc_best(a, n)),
        12 => roved_numbers(arena::alloc_next(a, b, n)),
        _ => answers::refusal_numbers(0, Reason::Frame),
    }
}
