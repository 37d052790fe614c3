// The lines of a picture: how long they are, how they are put into a lent text, and how they are found in one.
#![tactic(auto)]

ghost use Rattle.std.specs.Prelude.{◌≡◌, map, ◌+◌, ◌*◌, ◌≤◌, ◌<◌, length, drop};
ghost use Rattle.digits.specs.Digits.{upper, four_digit_values};
ghost use Rattle.digits.specs.Putting.{Puts};
ghost use Rattle.rules.specs.Pictures.{frame_words, line, line_length, picture_length, words_in, standing_count, same};
ghost use Rattle.frames.specs.Lines.{kind_number, has_line};

// The kinds of lines, by the number that a line begins with: the first one, with the number of words, and a frame.
#[derive(Clone, Copy)]
pub enum Kind {
    Size = 6,
    Frame = 7,
}

// The words of a full frame.
pub const FRAME_WORDS: usize = 8;
// The digits of a word.
const WORD_DIGITS: usize = 8;
// The bytes of a line before its words, those of a line without words, and those of the longest line.
pub const LINE_HEAD: usize = 6;

const BARE_LINE: usize = LINE_HEAD + 1;

const LONGEST_LINE: usize = BARE_LINE + FRAME_WORDS * WORD_DIGITS;

// The bytes of a line with so many words.
pub fn line_length(count: usize) -> usize
    requires { count ≤ frame_words }
    ensures { result ≡ line_length count }
{
    BARE_LINE + count * WORD_DIGITS
}

// The bytes of the picture of `n` words.
pub fn picture_length(n: usize) -> usize
    requires { n < four_digit_values }
    ensures { result ≡ picture_length n }
{
    (1 + n.div_ceil(FRAME_WORDS)) * BARE_LINE + n * WORD_DIGITS
}

// Writes a line, and gives where it ends. What stands before `at` and behind the end of the caller's text stays, so the
// whole text is lent.
pub fn put_line(out: &mut [u8], at: usize, kind: Kind, number: u32, words: &[u32]) -> usize
    requires { at + line_length (length words.now) ≤ length out.old }
    ensures { Puts at (line (kind_number kind) number words.now) out.old result out.new }
{
    digits::put_line::<4, WORD_DIGITS>(out, at, kind as u32, number, words)
}

// Makes `words` the words that stand in a text from byte `at` on, whatever bytes these are: if one is no digit the
// number may be too large for a word, and the text is bad anyway.
pub fn load_words(text: &[u8], at: usize, words: &mut [u32])
    requires { at + length words.old * 8 ≤ length text.now }
    ensures { words.new ≡ words_in (length words.old) (drop at text.now) }
{
    for (i, word) in words.iter_mut().enumerate() {
        *word = (digits::number_at::<WORD_DIGITS>(text, at + i * WORD_DIGITS)
            % layout::WORD_VALUES) as u32;
    }
}

// How many words the first line of a text tells, whatever bytes stand there.
pub fn words_told(text: &[u8]) -> usize
    requires { line_length 0 ≤ length text.now }
    ensures { result ≡ standing_count text.now }
{
    (digits::number_at::<4>(text, 2) % digits::FOUR_DIGIT_VALUES) as usize
}

// Whether a part of a text, its letters as capitals, is this line. No early end: so several bytes are compared at once.
fn matches(part: &[u8], expected: &[u8]) -> bool
    requires { length part.now ≡ length expected.now }
    ensures { result ≡ same (map upper part.now) expected.now }
{
    let mut alike = true;
    for (i, b) in part.iter().enumerate() {
        alike &= digits::upper(*b) == expected[i];
    }
    alike
}

// Whether this line stands in a text at byte `at`, digits of either case.
pub fn has_line(text: &[u8], at: usize, kind: Kind, number: u32, words: &[u32]) -> bool
    requires { (length words.now ≤ frame_words) × (at + line_length (length words.now) ≤ length text.now) }
    ensures { result ≡ has_line (line (kind_number kind) number words.now) (drop at text.now) }
{
    let mut expected = [0u8; LONGEST_LINE];
    let count = put_line(&mut expected, 0, kind, number, words);
    matches(&text[at..at + count], &expected[..count])
}
