// The part of an arena that a view hands back.
ghost use Rattle.std.specs.Prelude.{◌≤◌, length};
ghost use Rattle.rules.specs.Calls.{view_on};
ghost use Rattle.spelling.specs.Copies.{Begins};
ghost use Rattle.trials.specs.Trials.{Overwrites};

// Copies the view of block `b` to the start of `part`, and answers how many words it has.
pub(crate) fn look(a: &[u32], b: u32, part: &mut [u32]) -> usize
    requires { length a.now ≤ length part.old }
    ensures { Begins part.new result (view_on a.now b) }
{
    spelling::copy(arena::view(a, b), part)
}

// Copies the words that view_mut hands back to the start of `part`, answers how many they are, and makes each of them
// `n`. Of the arena afterwards the contract says its length alone: view_mut spends the arena, and no contract can say
// what it holds once a word was stored through the part. That is run and compared.
pub(crate) fn overwrite(a: &mut [u32], b: u32, n: u32, part: &mut [u32]) -> usize
    requires { length a.old ≤ length part.old }
    ensures { Overwrites a.old b result part.new a.new }
{
    let block = arena::view_mut(a, b);
    let count = spelling::copy(block, part);
    block.fill(n);
    count
}
