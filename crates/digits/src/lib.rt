// Hexadecimal digits as bytes: what a byte is worth, numbers found in a text, and numbers put into a lent one.
#![tactic(auto)]

ghost use Rattle.std.specs.Prelude.{◌≡◌, ◌+◌, ◌*◌, ◌≤◌, ◌<◌, length, [], ◌∷◌, ◌++◌};
ghost use Rattle.digits.specs.Digits.{line_end, digits_of, in_digits};
ghost use Rattle.digits.specs.Digits.{worth as worth_of, upper as upper_of, glyph as glyph_of};
ghost use Rattle.digits.specs.Putting.{Puts};
ghost use Rattle.digits.specs.NumbersFound.{NumberAt, most_of};

// What four digits make is below this number.
pub const FOUR_DIGIT_VALUES: u64 = 65536;

// What a byte is worth as a digit, 16 where it is none: no Option, since a number is read over a bad byte all the same,
// and what checks its text finds that byte.
#[tactic(auto, unfolding(crate::specs::Digits::worth, crate::specs::Digits::upper), using(std::proofs::lemmas::Bool::Decides::nat_tests))]
pub fn worth(b: u8) -> u64
    ensures { result ≡ worth_of b }
{
    // How far the capital lies above 0 and above A, round a byte's end: so no case needs a branch.
    let capital = upper(b);
    let figure = capital.wrapping_sub(b'0');
    let letter = capital.wrapping_sub(b'A');
    if figure < 10 {
        figure as u64
    } else if letter < 6 {
        letter as u64 + 10
    } else {
        16
    }
}

// A letter a to f as the capital A to F, any other byte as it is (`to_ascii_uppercase` would change other letters too).
#[tactic(auto, unfolding(crate::specs::Digits::upper), using(std::proofs::lemmas::Bool::Decides::nat_tests))]
pub fn upper(b: u8) -> u8
    ensures { result ≡ upper_of b }
{
    match b {
        b'a'..=b'f' => b - b'a' + b'A',
        _ => b,
    }
}

// The byte of a digit; the library's digits are small letters.
#[tactic(auto, unfolding(crate::specs::Digits::glyph), using(std::proofs::lemmas::Bool::Decides::nat_tests))]
fn glyph(d: u32) -> u8
    requires { d < 16 }
    ensures { result ≡ glyph_of d }
{
    match d {
        0..=9 => b'0' + d as u8,
        _ => b'A' + (d - 10) as u8,
    }
}

// The number that so many digits from byte `at` on make; a byte that is no digit counts for 16.
pub fn number_at<const DIGITS: usize>(text: &[u8], at: usize) -> u64
    requires few { DIGITS ≤ 8 }
    requires there { at + DIGITS ≤ length text.now }
    ensures { NumberAt text.now at DIGITS (most_of DIGITS) result }
{
    let mut number = 0;
    for &b in &text[at..at + DIGITS] {
        number = number * 16 + worth(b);
    }
    number
}

// Writes a number's last digits, so many of them. The whole text is lent, since all but these bytes of it stays.
pub fn put<const DIGITS: usize>(out: &mut [u8], at: usize, v: u32)
    requires { at + DIGITS ≤ length out.old }
    ensures { Puts at (digits_of DIGITS v) out.old (at + DIGITS) out.new }
{
    let mut rest = v;
    for i in (0..DIGITS).rev() {
        out[at + i] = glyph(rest % 16);
        rest /= 16;
    }
}

// Writes numbers, each in so many digits, and gives where they end.
pub fn put_all<const DIGITS: usize>(out: &mut [u8], at: usize, numbers: &[u32]) -> usize
    requires { at + length numbers.now * DIGITS ≤ length out.old }
    ensures { Puts at (in_digits (digits_of DIGITS) numbers.now) out.old result out.new }
{
    let mut end = at;
    for &v in numbers {
        put::<DIGITS>(out, end, v);
        end += DIGITS;
    }
    end
}

// Writes a line, and gives where it ends: its kind in two digits, a number and words in so many each, and the line's
// end.
pub fn put_line<const NUMBER: usize, const WORD: usize>(
    out: &mut [u8],
    at: usize,
    kind: u32,
    number: u32,
    words: &[u32],
) -> usize
    requires { at + (2 + NUMBER + length words.now * WORD) < length out.old }
    ensures { Puts at
        (digits_of 2 kind ++ (digits_of NUMBER number ++ (in_digits (digits_of WORD) words.now ++ line_end ∷ [])))
        out.old result out.new }
{
    put::<2>(out, at, kind);
    put::<NUMBER>(out, at + 2, number);
    let end = put_all::<WORD>(out, at + 2 + NUMBER, words);
    out[end] = b'\n';
    end + 1
}
