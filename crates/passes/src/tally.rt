// Counting for the report: the free chunks along their list.
ghost use Rattle.std.specs.Prelude.{◌≡◌, true};
ghost use Rattle.layout.specs.Walk.{sound, chunks_of};
ghost use Rattle.passes.specs.Tallies.{free_tally};

// The free chunks counted: their words, the largest request that one of them holds, how many they are.
#[derive(Clone, Copy)]
pub struct FreeTally {
    pub words: usize,
    pub largest: usize,
    pub chunks: usize,
}

// Counts the free chunks of a sound arena by following their list: word 1 names the first, each names the next, and 0
// ends the list. No live chunk is looked at.
pub fn count_free(a: &[u32]) -> FreeTally
    requires { sound a.now ≡ true }
    ensures { result ≡ free_tally (chunks_of a.now) }
{
    let mut words = 0;
    let mut largest = 0;
    let mut chunks = 0;
    let mut chunk = a[layout::LIST_WORD] as usize;
    while chunk != 0 {
        let size = a[chunk] as usize;
        words += size;
        largest = largest.max(layout::block_words(size));
        chunks += 1;
        chunk = a[chunk + 1] as usize;
    }
    FreeTally {
        words,
        largest,
        chunks,
    }
}
