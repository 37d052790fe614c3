// Runs cases of pictures from standard input until it ends: a lent text, an arena and a call on them, answered with all
// that came of the call, for tests to compare.
// A case is the words: call, how many bytes the text has, how many words the arena has; then the text's bytes, and the
// arena's words.
// A reply is the words: code, and the one field or 0; then the text's bytes and the arena's words after the call.
#![tactic(auto)]

use answers::Numbers;
use layout::Reason;
use std::io;
use std::io::{Read, Write};

// The most bytes of a text, and the most words of an arena: more than any picture has, and than is lawful.
const MOST_TEXT: usize = 600000;

const MOST_WORDS: usize = 66000;

// The bytes that spell the words of an arena.
const MOST_BYTES: usize = 4 * MOST_WORDS;

// What a case is read to and written from: its text, its arena, and the bytes that spell the arena.
#[derive(Drop)]
struct Buffers {
    page: [u8; MOST_TEXT],
    space: [u32; MOST_WORDS],
    bytes: [u8; MOST_BYTES],
}

// Makes the call of this number: 1 writes the picture of the arena to the text, 2 reads the text into the arena, and 3
// checks the arena that the text's bytes spell. The number comes from a test, and is read here alone.
fn answer(call: u32, text: &mut [u8], a: &mut [u32]) -> Numbers {
    match call {
        1 => answers::in_numbers(picture::write(a, text)),
        2 => answers::in_numbers(picture::read(text, a)),
        3 => Numbers {
            code: desk::check(text),
            count: 0,
            fields: [0; 4],
        },
        _ => answers::refusal_numbers(0, Reason::Frame),
    }
}

// Runs one case, whose text and arena are read to the start of `page` and `space`; an error where there is no whole
// case, where they are too long for these, or where the reply cannot be written.
fn run_case<R: Read, W: Write>(
    input: &mut R,
    output: &mut W,
    buffers: &mut Buffers,
) -> io::Result<()> {
    // Whole slices first: of an array's field no smaller part can be lent at once.
    let page = &mut buffers.page[..];
    let space = &mut buffers.space[..];
    let bytes = &mut buffers.bytes[..];
    let mut head = [0u32; 3];
    wire::read_words(input, &mut head, bytes)?;
    let [call, text_bytes, words] = head;
    let text_count = text_bytes as usize;
    let word_count = words as usize;
    if page.len() < text_count || space.len() < word_count {
        return Err(io::ErrorKind::InvalidData.into());
    }
    let text = &mut page[..text_count];
    let a = &mut space[..word_count];
    input.read_exact(text)?;
    wire::read_words(input, a, bytes)?;
    let Numbers { code, fields, .. } = answer(call, text, a);
    wire::write_words(output, &[code, fields[0]], bytes)?;
    output.write_all(text)?;
    wire::write_words(output, a, bytes)
}

// Lends the buffers, whose arrays differ from program to program, and runs cases until one cannot be run.
fn main(rt: HostRuntime) {
    let mut input = rt.stdin();
    let mut output = rt.stdout();
    let mut buffers = Buffers {
        page: [0; MOST_TEXT],
        space: [0; MOST_WORDS],
        bytes: [0; MOST_BYTES],
    };
    wire::run_until_it_fails(|| run_case(&mut input, &mut output, &mut buffers));
}
