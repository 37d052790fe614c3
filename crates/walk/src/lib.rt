// The check walk: whether words are a sound arena, and how many chunks it has.
#![tactic(auto)]

ghost use Rattle.std.specs.Prelude.{◌≡◌, true, false, cond, ◌≤◌, ◌<◌, length, Option, None, Some};
ghost use Rattle.layout.specs.Walk.{second_fits};
ghost use Rattle.layout.specs.Reasons.{arena_gate};
ghost use Rattle.walk.specs.Steps.{size_at, chunk_count};

use layout::{FIRST_CHUNK, LEAST_SIZE, LIST_WORD, Reason, is_live};

// Whether a chunk of `size` words may have this second word: one that says live asks for one word or more, and for no
// more than the block has.
fn second_fits(size: usize, second: u32) -> bool
    ensures { result ≡ second_fits size second }
{
    if is_live(second) {
        let asked = layout::asked_in(second) as usize;
        return 1 <= asked && asked <= layout::block_words(size);
    }
    true
}

// The size of the chunk that may stand at word `c`.
#[tactic(auto, unfolding(crate::specs::Steps::size_at))]
fn size_at(a: &[u32], c: usize) -> Option<usize>
    requires { c < length a.now }
    ensures { result ≡ size_at a.now c }
{
    let s = a[c] as usize;
    if s % 2 == 0 && LEAST_SIZE <= s && s <= a.len() - c && second_fits(s, a[c + 1]) {
        return Some(s);
    }
    None
}

// The check walk in the words of an arena: the word that it has come to, and how many chunks it has met by then.
// Its methods borrow it: passed by value it lies in memory anew for each call, and the walkers' calls are no tail
// calls. The walkers answer whether the walk comes whole to its end, and the count is `met` afterwards: an Option of
// the count, as their result, was tried and took up to half as long again, since it comes back in two registers and the
// walkers' calls are then no tail calls.
#[derive(Clone, Copy)]
struct Walk<'a> {
    words: &'a [u32],
    at: usize,
    met: usize,
    ghost within: { at ≤ length words.now },
    ghost few: { met ≤ at },
}

impl<'a> Walk<'a> {
    ghost use Rattle.walk.specs.Past.{met_from, PastLive};

    // Goes past the live chunks that stand here, and ends where none stands: at a free chunk, at the end, or at words
    // that are no chunk.
    #[tactic(auto, using(crate::proofs::Meeting::size_bounds))]
    fn pass_live(&mut self)
        ensures { PastLive self.old self.new }
    {
        while self.at < self.words.len() {
            let Some(s) = size_at(self.words, self.at) else {
                break;
            };
            if !is_live(self.words[self.at + 1]) {
                break;
            }
            self.at += s;
            self.met += 1;
        }
    }

    // Goes on where a live chunk or the control words end: whether the walk comes whole to the end, with all chunks
    // met. `want` is where the last link says that the next free chunk starts (0: there is none).
    #[cycle(after_free_after_live)]
    #[tactic(auto, using(crate::proofs::Steps::past_laws))]
    fn after_live(&mut self, want: usize) -> bool
        ensures { met_from self.old want false ≡ cond result (Some self.new.met) None }
    {
        self.pass_live();
        let a = self.words;
        let at = self.at;
        if at == a.len() {
            return want == 0;
        }
        if want != at {
            return false;
        }
        let Some(s) = size_at(a, at) else {
            return false;
        };
        self.at += s;
        self.met += 1;
        self.after_free(a[at + 1] as usize)
    }

    // Goes on where a free chunk ends: only a live chunk or the end may follow.
    #[cycle(after_free_after_live)]
    #[tactic(auto, using(crate::proofs::Meeting::place_laws))]
    fn after_free(&mut self, want: usize) -> bool
        ensures { met_from self.old want true ≡ cond result (Some self.new.met) None }
    {
        let a = self.words;
        let at = self.at;
        if at == a.len() {
            return want == 0;
        }
        let Some(s) = size_at(a, at) else {
            return false;
        };
        if !is_live(a[at + 1]) {
            return false;
        }
        self.at += s;
        self.met += 1;
        self.after_live(want)
    }
}

// How many chunks a sound arena has; or why the words are none: Length, then Damaged.
#[tactic(auto, using(crate::proofs::Counted::count_laws))]
pub fn count_chunks(a: &[u32]) -> Result<usize, Reason>
    ensures { result ≡ chunk_count a.now }
{
    if !layout::is_lawful(a.len()) {
        return Err(Reason::Length);
    }
    if a[0] as usize != a.len() {
        return Err(Reason::Damaged);
    }
    let mut walk = Walk {
        words: a,
        at: FIRST_CHUNK,
        met: 0,
    };
    if walk.after_live(a[LIST_WORD] as usize) {
        Ok(walk.met)
    } else {
        Err(Reason::Damaged)
    }
}

// The reasons for which words that have to be a sound arena are refused: Length, then Damaged.
#[tactic(auto, using(crate::proofs::Counted::chunks_open, crate::proofs::Counted::no_chunks_shut))]
pub fn check_arena(a: &[u32]) -> Result<(), Reason>
    ensures { result ≡ arena_gate a.now }
{
    count_chunks(a)?;
    Ok(())
}
