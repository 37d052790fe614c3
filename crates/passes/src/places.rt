// The search for a block by its number, and what a search answers.
ghost use Rattle.std.specs.Prelude.{◌≡◌, true};
ghost use Rattle.layout.specs.Walk.{sound, chunks_of};
ghost use Rattle.rules.specs.Spots.{held};
ghost use Rattle.passes.specs.Places.{place_of};

// A chunk that a search found: its link word (the list's first word, or the second word of the last free chunk below
// it), and its start.
#[derive(Clone, Copy)]
pub struct Place {
    pub link: usize,
    pub chunk: usize,
}

// The live chunk that block number `b` names: passes the chunks below the word where it would start, from the first on,
// as the check walk does, and looks whether it stands there.
pub fn find(a: &[u32], b: usize) -> Option<Place>
    requires { sound a.now ≡ true }
    ensures { result ≡ place_of (held b (chunks_of a.now)) }
{
    if a.len() <= b {
        return None;
    }
    let start = b.checked_sub(layout::HEADER_WORDS)?;
    let mut link = layout::LIST_WORD;
    let mut chunk = layout::FIRST_CHUNK;
    while chunk < start {
        if !layout::is_live(a[chunk + 1]) {
            link = chunk + 1;
        }
        chunk += a[chunk] as usize;
    }
    if chunk != start || !layout::is_live(a[chunk + 1]) {
        return None;
    }
    Some(Place { link, chunk })
}
