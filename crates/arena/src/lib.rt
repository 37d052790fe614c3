// An allocator over one lent arena of 32-bit words. A call asks nothing of its caller: it is done as the rules say, or
// it is refused with a reason and changes nothing; a view hands back the block's part of the arena, or no words. The
// three allocs differ in the search, and the three calls that grant a block anew in the way: a function that is handed
// the one step would be as long as the three lines around it.
#![tactic(auto)]

ghost use Rattle.rules.specs.Answers.{Gives};
ghost use Rattle.rules.specs.Calls.{start_on, alloc_on, alloc_best_on, Roves, free_on, resize_on, relocate_on, realloc_on, size_on, report_on};
ghost use Rattle.answers.specs.Readings.{finish_numbers, granted_numbers, sized_numbers, reported_numbers};
ghost use Rattle.arena.specs.Views.{Views};

pub use answers::{Counts, Finish, Grant, Granted, Reported, Roved, Sized, Sizes};
use layout::Reason;
use passes::fits;

// Makes the whole arena one free chunk.
#[tactic(auto, unfolding(rules::specs::Calls::start_on, layout::specs::Chunks::write, layout::specs::Chunks::written))]
pub fn start(a: &mut [u32]) -> Finish
    ensures { Gives (start_on a.old) (finish_numbers result) a.new }
{
    let n = a.len();
    if layout::is_lawful(n) {
        stores::put(a, 0, n, layout::FIRST_CHUNK);
        stores::put(a, layout::FIRST_CHUNK, n - layout::CONTROL_WORDS, 0);
        return Ok(());
    }
    Err(Reason::Length)
}

// Grants a block of at least `n` words by first fit: from the lowest free chunk that fits.
pub fn alloc(a: &mut [u32], n: u32) -> Granted
    ensures { Gives (alloc_on a.old n) (granted_numbers result) a.new }
{
    let ask = targets::ask(a, n)?;
    let place = fits::first_fit(a, ask.need);
    targets::grant(a, place, ask)
}

// Grants a block of at least `n` words by best fit: from the smallest free chunk that fits, the lowest of equals.
pub fn alloc_best(a: &mut [u32], n: u32) -> Granted
    ensures { Gives (alloc_best_on a.old n) (granted_numbers result) a.new }
{
    let ask = targets::ask(a, n)?;
    let place = fits::best_fit(a, ask.need);
    targets::grant(a, place, ask)
}

// Grants a block of at least `n` words by next fit: from the lowest free chunk that fits from word `rover` on; once
// round, from the lowest of all. The rover moves to the start of the chunk that was found.
pub fn alloc_next(a: &mut [u32], rover: u32, n: u32) -> Roved
    ensures { Roves a.old rover n (granted_numbers result.granted) a.new result.rover }
{
    // A match and no `?`: a refusal hands the rover back as well.
    match targets::ask(a, n) {
        Ok(ask) => {
            let place = fits::next_fit(a, rover as usize, ask.need);
            let moved = targets::start_of(place, rover);
            Roved {
                granted: targets::grant(a, place, ask),
                rover: moved,
            }
        }
        Err(why) => Roved {
            granted: Err(why),
            rover,
        },
    }
}

// Frees block `b`.
pub fn free(a: &mut [u32], b: u32) -> Finish
    ensures { Gives (free_on a.old b) (finish_numbers result) a.new }
{
    let place = targets::locate(a, b)?;
    stores::release::release(a, place);
    Ok(())
}

// Makes block `b` one of at least `n` words where it stands; it keeps its number, or the call is refused.
pub fn resize(a: &mut [u32], b: u32, n: u32) -> Granted
    ensures { Gives (resize_on a.old b n) (granted_numbers result) a.new }
{
    let target = targets::target_of(a, b, n)?;
    ways::staying::resize_at(a, target.place, target.ask).ok_or(Reason::WouldMove)
}

// Moves block `b` to a new block of at least `n` words, and its words with it, as many as the shorter of the two has.
pub fn relocate(a: &mut [u32], b: u32, n: u32) -> Granted
    ensures { Gives (relocate_on a.old b n) (granted_numbers result) a.new }
{
    let target = targets::target_of(a, b, n)?;
    ways::moving::relocate_at(a, target.place, target.ask).ok_or(Reason::NoRoom)
}

// Makes block `b` one of at least `n` words: where it stands or, if it would have to move, elsewhere.
pub fn realloc(a: &mut [u32], b: u32, n: u32) -> Granted
    ensures { Gives (realloc_on a.old b n) (granted_numbers result) a.new }
{
    let target = targets::target_of(a, b, n)?;
    ways::regrant_at(a, target.place, target.ask).ok_or(Reason::NoRoom)
}

// The words that were asked for when block `b` was granted last, and its granted words.
pub fn size(a: &[u32], b: u32) -> Sized
    ensures { Gives (size_on a.now b) (sized_numbers result) a.now }
{
    let place = targets::locate(a, b)?;
    Ok(Sizes {
        asked: layout::asked_in(a[place.chunk + 1]),
        granted: layout::block_words(a[place.chunk] as usize) as u32,
    })
}

// The part of the arena that is block `b`, to read; no words where there is no such block.
pub fn view(a: &[u32], b: u32) -> &[u32]
    ensures { Views a.now a.entry.ref_ptr b result.now result.ref_ptr }
{
    let Ok(sizes) = size(a, b) else {
        return &a[..0];
    };
    let from = b as usize;
    let to = from + sizes.granted as usize;
    &a[from..to]
}

// The part of the arena that is block `b`, to read and to store into; no words where there is no such block. The same
// lines as `view` behind another borrow, as the library's own pairs are.
pub fn view_mut(a: &mut [u32], b: u32) -> &mut [u32]
    ensures { Views a.old a.entry.ref_ptr b result.now result.ref_ptr }
{
    let Ok(sizes) = size(a, b) else {
        return &mut a[..0];
    };
    let from = b as usize;
    let to = from + sizes.granted as usize;
    &mut a[from..to]
}

// The free words, the largest request that would be granted now, the live blocks and the free chunks.
#[tactic(auto, using(crate::proofs::Reporting::report_laws), unfolding(rules::specs::Calls::report_on))]
pub fn report(a: &[u32]) -> Reported
    ensures { Gives (report_on a.now) (reported_numbers result) a.now }
{
    let chunks = walk::count_chunks(a)?;
    let listed = passes::tally::count_free(a);
    let live = chunks - listed.chunks;
    Ok(Counts {
        free_words: listed.words as u32,
        largest: listed.largest as u32,
        live_blocks: live as u32,
        free_chunks: listed.chunks as u32,
    })
}
