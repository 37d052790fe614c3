// Runs batches from standard input until it ends, and answers each with all that came of it, for tests to compare.
// A case is the words: how many words the records have, how many words the arena has; then the records' words, and the
// arena's. A reply is the records' words and the arena's words after the batch.
#![tactic(auto)]

use batch::words;
use std::io;
use std::io::{Read, Write};

// The most words of the records, and of an arena: those of a few hundred records, and more than is lawful.
const MOST_RECORD_WORDS: usize = 4096;

const MOST_WORDS: usize = layout::GREATEST_LENGTH + 16;

// The bytes that spell the words of either.
const MOST_BYTES: usize = 4 * MOST_WORDS;

// What a case is read to and written from: its records, its arena, and the bytes that spell either.
#[derive(Drop)]
struct Buffers {
    list: [u32; MOST_RECORD_WORDS],
    space: [u32; MOST_WORDS],
    bytes: [u8; MOST_BYTES],
}

// Runs one case, whose records and arena are read to the start of `list` and `space`; an error where there is no whole
// case, where they are too long for these, or where the reply cannot be written.
fn run_case<R: Read, W: Write>(
    input: &mut R,
    output: &mut W,
    buffers: &mut Buffers,
) -> io::Result<()> {
    // Whole slices first: of an array's field no smaller part can be lent at once.
    let list = &mut buffers.list[..];
    let space = &mut buffers.space[..];
    let bytes = &mut buffers.bytes[..];
    let mut head = [0u32; 2];
    wire::read_words(input, &mut head, bytes)?;
    let [record_words, arena_words] = head.map(|count| count as usize);
    if list.len() < record_words || space.len() < arena_words {
        return Err(io::ErrorKind::InvalidData.into());
    }
    let records = &mut list[..record_words];
    let a = &mut space[..arena_words];
    wire::read_words(input, records, bytes)?;
    wire::read_words(input, a, bytes)?;
    words::run(a, records);
    wire::write_words(output, records, bytes)?;
    wire::write_words(output, a, bytes)
}

// Lends the buffers, whose arrays differ from program to program, and runs cases until one cannot be run.
fn main(rt: HostRuntime) {
    let mut input = rt.stdin();
    let mut output = rt.stdout();
    let mut buffers = Buffers {
        list: [0; MOST_RECORD_WORDS],
        space: [0; MOST_WORDS],
        bytes: [0; MOST_BYTES],
    };
    wire::run_until_it_fails(|| run_case(&mut input, &mut output, &mut buffers));
}
