// What changes the words of an arena: the stores themselves, the need that is taken from a free chunk (`taking`), and
// the chunk that is freed (`release`). Words come as the indices that callers reckon with, so each store asks that they
// fit a word.
#![tactic(auto)]

pub mod release;
pub mod taking;

ghost use Rattle.std.specs.Prelude.{◌≡◌, ◌+◌, ◌≤◌, ◌<◌, length, set};
ghost use Rattle.layout.specs.Numbers.{greatest_length, word_values, live_mark};
ghost use Rattle.layout.specs.Chunks.{header};
ghost use Rattle.rules.specs.Rules.{copied};

// Word `i` becomes `v`. One that is `v` already is not stored to: no call writes a word that its rule leaves as it is.
pub fn change(a: &mut [u32], i: usize, v: usize)
    requires { (i < length a.old) × (v < word_values) }
    ensures { a.new ≡ set a.old i v }
{
    if a[i] as usize == v {
        return;
    }
    a[i] = v as u32;
}

// Words `i` and `i + 1` become `v` and `w`.
#[tactic(auto, unfolding(layout::specs::Chunks::header))]
pub fn put(a: &mut [u32], i: usize, v: usize, w: usize)
    requires { (i + 1 < length a.old) × (v < word_values) × (w < word_values) }
    ensures { a.new ≡ header i v w a.old }
{
    change(a, i, v);
    change(a, i + 1, w);
}

// The header of a live chunk of `words` words at word `i`, where `asked` words were asked for.
pub fn put_live(a: &mut [u32], i: usize, words: usize, asked: u32)
    requires { (i + 1 < length a.old) × (words < word_values) × (asked ≤ greatest_length) }
    ensures { a.new ≡ header i words (live_mark + asked) a.old }
{
    put(a, i, words, layout::live_word(asked) as usize);
}

// Copies `count` words from word `from` on to the words from `to` on.
pub fn copy(a: &mut [u32], from: usize, to: usize, count: usize)
    requires { (from + count ≤ length a.old) × (to + count ≤ length a.old) }
    ensures { a.new ≡ copied from to count a.old }
{
    a.copy_within(from..from + count, to);
}
