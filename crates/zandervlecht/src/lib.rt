// The calls for C: each returns its code, and stores the fields of its answer, if it has any, into a lent array;
// `zv_batch` stores both into its records. The header is include/zandervlecht.h. A view needs no function: it is the
// words from the block's number on, as many as `zv_size` answers granted.
#![tactic(auto)]

ghost use Rattle.std.specs.Prelude.{◌≡◌, []};
ghost use Rattle.rules.specs.Answers.{Gives};
ghost use Rattle.rules.specs.Calls.{start_on, alloc_on, alloc_best_on, Roves, free_on, resize_on, relocate_on, realloc_on, size_on, report_on, read_on};
ghost use Rattle.rules.specs.Batches.{batch_on, Fills};
ghost use Rattle.picture.specs.Writing.{Writes};
ghost use Rattle.desk.specs.Checks.{gate_number, bytes_gate};
ghost use Rattle.telling.specs.Returned.{returned};

use batch::Request;
use rules::Rover;

// Makes the whole arena one free chunk.
#[unsafe(no_mangle)]
pub extern "C" fn zv_start(a: &mut [u32]) -> u32
    ensures { Gives (start_on a.old) (returned result []) a.new }
{
    telling::tell(arena::start(a), &mut [])
}

// Grants a block of at least `n` words by first fit.
#[unsafe(no_mangle)]
pub extern "C" fn zv_alloc(a: &mut [u32], n: u32, answer: &mut [u32; 2]) -> u32
    ensures { Gives (alloc_on a.old n) (returned result answer.new) a.new }
{
    telling::tell(arena::alloc(a, n), answer)
}

// Grants a block of at least `n` words by best fit.
#[unsafe(no_mangle)]
pub extern "C" fn zv_alloc_best(a: &mut [u32], n: u32, answer: &mut [u32; 2]) -> u32
    ensures { Gives (alloc_best_on a.old n) (returned result answer.new) a.new }
{
    telling::tell(arena::alloc_best(a, n), answer)
}

// Grants a block of at least `n` words by next fit, and moves the rover to the start of the chunk that was found.
#[unsafe(no_mangle)]
pub extern "C" fn zv_alloc_next(
    a: &mut [u32],
    rover: &mut Rover,
    n: u32,
    answer: &mut [u32; 2],
) -> u32
    ensures { Roves a.old rover.old.at n (returned result answer.new) a.new rover.new.at }
{
    let roved = arena::alloc_next(a, rover.at, n);
    rover.at = roved.rover;
    telling::tell(roved.granted, answer)
}

// Frees block `b`.
#[unsafe(no_mangle)]
pub extern "C" fn zv_free(a: &mut [u32], b: u32) -> u32
    ensures { Gives (free_on a.old b) (returned result []) a.new }
{
    telling::tell(arena::free(a, b), &mut [])
}

// Makes block `b` one of at least `n` words where it stands.
#[unsafe(no_mangle)]
pub extern "C" fn zv_resize(a: &mut [u32], b: u32, n: u32, answer: &mut [u32; 2]) -> u32
    ensures { Gives (resize_on a.old b n) (returned result answer.new) a.new }
{
    telling::tell(arena::resize(a, b, n), answer)
}

// Moves block `b` to a new block of at least `n` words.
#[unsafe(no_mangle)]
pub extern "C" fn zv_relocate(a: &mut [u32], b: u32, n: u32, answer: &mut [u32; 2]) -> u32
    ensures { Gives (relocate_on a.old b n) (returned result answer.new) a.new }
{
    telling::tell(arena::relocate(a, b, n), answer)
}

// Makes block `b` one of at least `n` words, where it stands or elsewhere.
#[unsafe(no_mangle)]
pub extern "C" fn zv_realloc(a: &mut [u32], b: u32, n: u32, answer: &mut [u32; 2]) -> u32
    ensures { Gives (realloc_on a.old b n) (returned result answer.new) a.new }
{
    telling::tell(arena::realloc(a, b, n), answer)
}

// The words that were asked for when block `b` was granted last, and its granted words.
#[unsafe(no_mangle)]
pub extern "C" fn zv_size(a: &[u32], b: u32, answer: &mut [u32; 2]) -> u32
    ensures { Gives (size_on a.now b) (returned result answer.new) a.now }
{
    telling::tell(arena::size(a, b), answer)
}

// The free words, the largest request that would be granted now, the live blocks and the free chunks.
#[unsafe(no_mangle)]
pub extern "C" fn zv_report(a: &[u32], answer: &mut [u32; 4]) -> u32
    ensures { Gives (report_on a.now) (returned result answer.new) a.now }
{
    telling::tell(arena::report(a), answer)
}

// Writes the picture of the arena to the start of the text, and answers how many bytes it has.
#[unsafe(no_mangle)]
pub extern "C" fn zv_write(a: &[u32], text: &mut [u8], answer: &mut [u32; 1]) -> u32
    ensures { Writes a.now text.old (returned result answer.new) text.new }
{
    telling::tell(picture::write(a, text), answer)
}

// Makes the arena the words that a picture shows.
#[unsafe(no_mangle)]
pub extern "C" fn zv_read(text: &[u8], a: &mut [u32]) -> u32
    ensures { Gives (read_on text.now a.old) (returned result []) a.new }
{
    telling::tell(picture::read(text, a), &mut [])
}

// Checks the arena that bytes spell, four to a word, the lowest first: 0, 1 or 2.
#[unsafe(no_mangle)]
pub extern "C" fn zv_check(spelled: &[u8]) -> u32
    ensures { result ≡ gate_number (bytes_gate spelled.now) }
{
    desk::check(spelled)
}

// Answers each request of a list, in order, in its own record.
#[unsafe(no_mangle)]
pub extern "C" fn zv_batch(a: &mut [u32], requests: &mut [Request])
    ensures { Fills (batch_on a.old requests.old) requests.new a.new }
{
    for request in requests.iter_mut() {
        let served = batch::serve(a, request.kind, request.b, request.n);
        request.code = served.code;
        request.block = served.block;
        request.granted = served.granted;
    }
}
