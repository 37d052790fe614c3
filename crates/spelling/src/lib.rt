// Words handed over: as the four bytes that spell each, the lowest first, and as they are.
#![tactic(auto)]

ghost use Rattle.std.specs.Prelude.{◌≡◌, ◌*◌, ◌≤◌, length};
ghost use Rattle.spelling.specs.Words.{words_of, bytes_of};
ghost use Rattle.spelling.specs.Copies.{Begins};

// Makes `words` the words that `bytes` spell.
pub fn load(bytes: &[u8], words: &mut [u32])
    requires { length bytes.now ≡ 4 * length words.old }
    ensures { words.new ≡ words_of bytes.now }
{
    let (spelled, _) = bytes.as_chunks::<4>();
    // By index, since no contract says what is stored through a zip with `iter_mut`.
    for (i, word) in words.iter_mut().enumerate() {
        *word = u32::from_le_bytes(spelled[i]);
    }
}

// Makes `bytes` the bytes that spell `words`.
pub fn store(words: &[u32], bytes: &mut [u8])
    requires { length bytes.old ≡ 4 * length words.now }
    ensures { bytes.new ≡ bytes_of words.now }
{
    // By index, since no contract says what is stored through `chunks_exact_mut`.
    for (i, word) in words.iter().enumerate() {
        let at = 4 * i;
        bytes[at..at + 4].copy_from_slice(&word.to_le_bytes());
    }
}

// Copies the words of `from` to the start of `to`, and answers how many they are.
pub fn copy(from: &[u32], to: &mut [u32]) -> usize
    requires { length from.now ≤ length to.old }
    ensures { Begins to.new result from.now }
{
    let count = from.len();
    to[..count].copy_from_slice(from);
    count
}
