// The three fits: searches for a free chunk that fits a need. Each follows the links from the list's first word on.
ghost use Rattle.std.specs.Prelude.{◌≡◌, true};
ghost use Rattle.layout.specs.Numbers.{first_chunk};
ghost use Rattle.layout.specs.Walk.{sound, chunks_of};
ghost use Rattle.rules.specs.Spots.{lowest};
ghost use Rattle.rules.specs.Fits.{fits_from, first_fit_policy, best_fit_policy, next_fit_policy};
ghost use Rattle.passes.specs.Places.{place_of};

use super::places::Place;

// The lowest free chunk of at least `need` words that starts at word `from` or above.
fn lowest_fit(a: &[u32], from: usize, need: usize) -> Option<Place>
    requires { sound a.now ≡ true }
    ensures { result ≡ place_of (lowest (fits_from from need) first_chunk (chunks_of a.now)) }
{
    let mut link = layout::LIST_WORD;
    let chunk = loop {
        let next = a[link] as usize;
        if next == 0 {
            return None;
        }
        if from <= next && need <= a[next] as usize {
            break next;
        }
        link = next + 1;
    };
    Some(Place { link, chunk })
}

// First fit: the lowest free chunk of at least `need` words.
pub fn first_fit(a: &[u32], need: usize) -> Option<Place>
    requires { sound a.now ≡ true }
    ensures { result ≡ place_of (first_fit_policy need (chunks_of a.now)) }
{
    lowest_fit(a, 0, need)
}

// Best fit: the smallest free chunk of at least `need` words, the lowest of equals. A chunk is better than the best so
// far where it has fewer than `least` words; once one fits exactly, none can be.
pub fn best_fit(a: &[u32], need: usize) -> Option<Place>
    requires { sound a.now ≡ true }
    ensures { result ≡ place_of (best_fit_policy need (chunks_of a.now)) }
{
    let mut best = None;
    let mut least = a.len();
    let mut link = layout::LIST_WORD;
    while need < least {
        let next = a[link] as usize;
        if next == 0 {
            return best;
        }
        let size = a[next] as usize;
        if need <= size && size < least {
            best = Some(Place { link, chunk: next });
            least = size;
        }
        link = next + 1;
    }
    best
}

// Next fit: the lowest free chunk of at least `need` words that starts at word `rover` or above; where there is none,
// once round, the lowest of all.
pub fn next_fit(a: &[u32], rover: usize, need: usize) -> Option<Place>
    requires { sound a.now ≡ true }
    ensures { result ≡ place_of (next_fit_policy rover need (chunks_of a.now)) }
{
    lowest_fit(a, rover, need).or_else(|| first_fit(a, need))
}
