// Way 3: a block is granted anew elsewhere.
ghost use Rattle.std.specs.Prelude.{◌≡◌, ◌≤◌};
ghost use Rattle.layout.specs.Numbers.{greatest_length};
ghost use Rattle.rules.specs.Rules.{relocated};
ghost use Rattle.rules.specs.Rooms.{Needed};
ghost use Rattle.passes.specs.Places.{LiveAt};
ghost use Rattle.ways.specs.Ways.{FollowsAt};
ghost use Rattle.ways.specs.Relinks.{link_after};

use answers::Grant;
use layout::Ask;
use passes::places::Place;

// The word that names the first free chunk after a block, once the chunk `new` was made of the free chunk at `gap`:
// where that was taken whole, its second word is a link no more, and the word that named it now names the next free
// chunk.
#[tactic(auto, unfolding(crate::specs::Relinks::link_after))]
fn link_after(link: usize, gap: Place, new: usize) -> usize
    requires { gap.chunk ≤ greatest_length }
    ensures { result ≡ link_after link gap.link gap.chunk new }
{
    if gap.chunk == new && gap.chunk + 1 == link {
        gap.link
    } else {
        link
    }
}

// Way 3: the block moves, and the old one is freed once as many words are copied as the shorter of the two has.
pub fn relocate_at(a: &mut [u32], place: Place, ask: Ask) -> Option<Grant>
    requires { LiveAt a.old place.link place.chunk × Needed ask.need ask.asked }
    ensures { FollowsAt relocated a.old place.link place.chunk ask.need ask.asked result a.new }
{
    let gap = passes::fits::first_fit(a, ask.need)?;
    let chunk = place.chunk;
    let old_words = layout::block_words(a[chunk] as usize);
    let piece = stores::taking::take(a, gap, ask);
    let new = piece.chunk;
    let count = old_words.min(layout::block_words(piece.words));
    stores::copy(
        a,
        chunk + layout::HEADER_WORDS,
        new + layout::HEADER_WORDS,
        count,
    );
    let link = link_after(place.link, gap, new);
    stores::release::release(a, Place { link, chunk });
    Some(super::grant(piece))
}
