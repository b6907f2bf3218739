//! How a call ends: what is said, and the exit number.

use crate::answers::answer;
use shim_runs::Ended;
use shim_runs::report_text::{put, put_number};
use shim_runs::vidi_bits::Memory;
use shim_runs::vidi_io::{Failed, Shelf, Sink, Words};
use std::alloc::Global;

/// What is said where no memory was found.
const NO_MEMORY: &[u8] = b"vidi: out of memory\n";

/// Says to `out` what the words of a case are answered, and answers the exit number: 0 where there is an answer, 1 where they are
/// no words of this program, 3 where nothing can be said, 4 where a wrapped file doesn't run, 8 where no memory was found.
pub fn say<S: Shelf, O: Sink>(alloc: Global, words: &Words, shelf: &mut S, out: &mut O) -> u8 {
    match answer(alloc, words.as_slice(), shelf) {
        Ok(text) => push(out, text.as_slice(), 0),
        Err(Ended::Usage) => push(out, b"no such words\n", 1),
        Err(Ended::Memory) => push(out, NO_MEMORY, 8),
        Err(Ended::NoTop { number }) => match no_top(alloc, number) {
            Ok(line) => push(out, line.as_slice(), 4),
            Err(Memory) => push(out, NO_MEMORY, 8),
        },
    }
}

/// `no top EN`
fn no_top(alloc: Global, number: u32) -> Result<Vec<u8>, Memory> {
    let mut line = Vec::new(alloc);
    put(&mut line, b"no top E")?;
    put_number(&mut line, number)?;
    put(&mut line, b"\n")?;
    Ok(line)
}

fn push<O: Sink>(out: &mut O, text: &[u8], exit: u8) -> u8 {
    match out.push(text) {
        Ok(()) => exit,
        Err(Failed) => 3,
    }
}
