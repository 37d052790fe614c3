// What the functions for C tell their callers: the code is handed back, and the fields of the answer go into a lent
// array.
#![tactic(auto)]

ghost use Rattle.std.specs.Prelude.{◌≡◌, ◌≤◌};
ghost use Rattle.answers.specs.Readings.{read};
ghost use Rattle.telling.specs.Returned.{returned};

use answers::Fields;
use layout::Reason;

// The fields of an answer go into the lent array, which has room for them and no more: none after start, free
// and the reading of a picture. The code is handed back.
#[tactic(auto, using(crate::proofs::Returned::told))]
pub fn tell<F: Fields, const N: usize>(answer: Result<F, Reason>, fields: &mut [u32; N]) -> u32
    requires { F.COUNT ≡ N }
    ensures { returned result fields.new ≡ read F.values F.COUNT answer }
{
    let numbers = answers::in_numbers(answer);
    // One by one: slices are copied by way of memory, and then a short call takes up to twice its time.
    for (i, field) in fields.iter_mut().enumerate() {
        *field = numbers.fields[i];
    }
    numbers.code
}
