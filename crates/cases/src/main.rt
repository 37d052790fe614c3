// Runs cases from standard input until it ends: an arena and a call on it, answered with all that came of the call, for
// tests to compare.
// A case is the words: call, b, n, how many words the arena has, and the arena's words.
// A reply is the words: code, four fields, how many words were handed back, those words as they were handed back, and
// the arena's words after the call.
#![tactic(auto)]

use std::io;
use std::io::{Read, Write};
use trials::replies;

// The most words that the arena of a case may have: some more than is lawful, for the tests to try.
const MOST_WORDS: usize = layout::GREATEST_LENGTH + 16;

// The bytes that spell them.
const MOST_BYTES: usize = 4 * MOST_WORDS;

// What a case is read to and written from: its arena, the part that a view hands back, and the bytes that spell either.
#[derive(Drop)]
struct Buffers {
    space: [u32; MOST_WORDS],
    part: [u32; MOST_WORDS],
    bytes: [u8; MOST_BYTES],
}

// Runs one case, whose arena is read to the start of `space`; an error where there is no whole case, where its arena
// has more words than that, or where the reply cannot be written.
fn run_case<R: Read, W: Write>(
    input: &mut R,
    output: &mut W,
    buffers: &mut Buffers,
) -> io::Result<()> {
    // Whole slices first: of an array's field no smaller part can be lent at once.
    let space = &mut buffers.space[..];
    let part = &mut buffers.part[..];
    let bytes = &mut buffers.bytes[..];
    let mut head = [0u32; 4];
    wire::read_words(input, &mut head, bytes)?;
    let [call, b, n, words] = head;
    let count = words as usize;
    if space.len() < count {
        return Err(io::ErrorKind::InvalidData.into());
    }
    let a = &mut space[..count];
    wire::read_words(input, a, bytes)?;
    let reply = replies::reply_to(call, b, n, a, part);
    wire::write_words(output, &replies::numbers(reply), bytes)?;
    wire::write_words(output, &part[..reply.count], bytes)?;
    wire::write_words(output, a, bytes)
}

// Lends the buffers, whose arrays differ from program to program, and runs cases until one cannot be run.
fn main(rt: HostRuntime) {
    let mut input = rt.stdin();
    let mut output = rt.stdout();
    let mut buffers = Buffers {
        space: [0; MOST_WORDS],
        part: [0; MOST_WORDS],
        bytes: [0; MOST_BYTES],
    };
    wire::run_until_it_fails(|| run_case(&mut input, &mut output, &mut buffers));
}
