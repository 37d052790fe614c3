// What a text says, found frame by frame.
ghost use Rattle.std.specs.Prelude.{◌≡◌, ◌+◌, ◌≤◌, ◌<◌, length};
ghost use Rattle.digits.specs.Digits.{four_digit_values};
ghost use Rattle.rules.specs.Pictures.{frame_words, line_length, picture_length, said};
ghost use Rattle.picture.specs.Decoding.{ReadsFrame, Slot, ReadsFrames, Finds};

// Makes `words` those of the frame at byte `at`, and tells whether it is the frame of these whose first has this index.
fn read_frame(text: &[u8], at: usize, index: usize, words: &mut [u32]) -> bool
    requires { (length words.old ≤ frame_words) × (at + line_length (length words.old) ≤ length text.now) × (index < four_digit_values) }
    ensures { ReadsFrame text.now at index (length words.old) result words.new }
{
    frames::load_words(text, at + frames::LINE_HEAD, words);
    frames::has_line(text, at, frames::Kind::Frame, index as u32, words)
}

// Where `count` words from word `i` on are put in a buffer of `room` words: in their place or, where that lies beyond
// the buffer, at its start, since nobody will look at them.
fn slot_for(i: usize, count: usize, room: usize) -> usize
    requires { count ≤ room }
    ensures { Slot i count room result }
{
    if i <= room - count {
        return i;
    }
    0
}

// Reads the frames of `n` words into the buffer, and tells whether the text has them all. Frames and `at` go by
// number, and no iterator cuts them: the buffer may have fewer words than the text says, and a last line is shorter.
fn read_frames(text: &[u8], n: usize, buffer: &mut [u32]) -> bool
    requires { (frame_words ≤ length buffer.old) × (n < four_digit_values) × (length text.now ≡ picture_length n) }
    ensures { ReadsFrames text.now n result buffer.new }
{
    let mut at = frames::line_length(0);
    for k in 0..n.div_ceil(frames::FRAME_WORDS) {
        let i = k * frames::FRAME_WORDS;
        let count = frames::FRAME_WORDS.min(n - i);
        let slot = slot_for(i, count, buffer.len());
        let end = slot + count;
        if !read_frame(text, at, i, &mut buffer[slot..end]) {
            return false;
        }
        at += frames::line_length(count);
    }
    true
}

// Reads the words that a text says into the buffer, as far as these fit, and tells how many they are; none of a text
// that is bad.
#[tactic(auto, using(crate::proofs::Decoding::findings))]
pub(crate) fn decode(text: &[u8], buffer: &mut [u32]) -> Option<usize>
    requires { frame_words ≤ length buffer.old }
    ensures { Finds (said text.now) result buffer.new }
{
    if text.len() < frames::line_length(0) {
        return None;
    }
    let n = frames::words_told(text);
    if text.len() != frames::picture_length(n) {
        return None;
    }
    if !frames::has_line(text, 0, frames::Kind::Size, n as u32, &buffer[..0]) {
        return None;
    }
    if read_frames(text, n, buffer) {
        return Some(n);
    }
    None
}
