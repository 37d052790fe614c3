// A picture, put into a text line by line.
ghost use Rattle.std.specs.Prelude.{◌≤◌, ◌<◌, length};
ghost use Rattle.digits.specs.Digits.{four_digit_values};
ghost use Rattle.digits.specs.Putting.{Puts};
ghost use Rattle.rules.specs.Pictures.{picture_of};

// Writes the picture of these words to the start of a text, and gives how long it is.
#[tactic(auto, using(rules::proofs::Pictures::picture_length_lem))]
pub(crate) fn put_picture(words: &[u32], text: &mut [u8]) -> usize
    requires { (length words.now < four_digit_values) × (length (picture_of words.now) ≤ length text.old) }
    ensures { Puts 0 (picture_of words.now) text.old result text.new }
{
    let mut at = frames::put_line(text, 0, frames::Kind::Size, words.len() as u32, &[]);
    for (k, frame) in words.chunks(frames::FRAME_WORDS).enumerate() {
        let first = k * frames::FRAME_WORDS;
        at = frames::put_line(text, at, frames::Kind::Frame, first as u32, frame);
    }
    at
}
