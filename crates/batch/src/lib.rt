// A request of a batch: a call by its kind, and its answer as the request's record has it. The loop over a lent list of
// records is `zv_batch`, for C.
#![tactic(auto)]

pub mod words;

ghost use Rattle.rules.specs.Libraries.{ours};
ghost use Rattle.rules.specs.Batches.{wanted, made_singly, Serves};
ghost use Rattle.answers.specs.Padded.{Settles};

use answers::Numbers;
use layout::Reason;
pub use rules::{Request, Served};

// Makes the call of this kind, if there is one. A kind is a number, since a record that C fills in may hold any, and it
// is read here alone.
#[tactic(auto, using(answers::proofs::Padded::settled), unfolding(rules::specs::Batches::wanted))]
fn call(a: &mut [u32], kind: u32, b: u32, n: u32) -> Numbers
    ensures { Settles (made_singly ours (wanted kind b n) a.old) result a.new }
{
    match kind {
        1 => answers::in_numbers(arena::alloc(a, n)),
        2 => answers::in_numbers(arena::free(a, b)),
        3 => answers::in_numbers(arena::realloc(a, b, n)),
        4 => answers::in_numbers(arena::resize(a, b, n)),
        5 => answers::in_numbers(arena::relocate(a, b, n)),
        6 => answers::in_numbers(arena::size(a, b)),
        _ => answers::refusal_numbers(0, Reason::Frame),
    }
}

// Serves one request: a kind and two numbers, of which it ignores what the kind does not take.
pub fn serve(a: &mut [u32], kind: u32, b: u32, n: u32) -> Served
    ensures { Serves (made_singly ours (wanted kind b n) a.old) result a.new }
{
    Served::from(call(a, kind, b, n))
}
