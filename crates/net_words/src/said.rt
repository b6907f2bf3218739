//! How a call ends: what is said, and the exit number.

use crate::answers::answer;
use net_sim::vidi_bits::{Bytes, Memory};
use std::alloc::Global;
use vlog_words::Ended;
use vlog_words::report_text::{Draft, Word, reason_line};
use vlog_words::vidi_io::{Failed, Shelf, Sink, Words};

/// What is said where no memory was found.
const NO_MEMORY: &[u8] = b"vidi: out of memory\n";

/// Says to `out` what the words of a case are answered, and answers the exit number: 0 where there is an answer, 1 where they are
/// no words of this program, 3 where nothing can be said, 4 where the text is refused, 8 where no memory was found.
pub fn say<S: Shelf, O: Sink>(alloc: Global, words: &Words, shelf: &mut S, out: &mut O) -> u8 {
    let mut page = Draft::new(alloc);
    match answer(alloc, words.as_slice(), shelf, &mut page) {
        Ok(()) => push_line(page.finish(), out, 0),
        Err(Ended::Usage) => push(b"no such words\n", out, 1),
        Err(Ended::NoDesign) => push(b"no design\n", out, 4),
        Err(Ended::Memory) => push(NO_MEMORY, out, 8),
        Err(Ended::Refused(reason)) => {
            push_line(reason_line(alloc, Word::Design, &reason), out, 4)
        }
    }
}

/// Pushes a text, or that there was no memory for it.
fn push_line<O: Sink>(text: Result<Bytes, Memory>, out: &mut O, exit: u8) -> u8 {
    match text {
        Ok(text) => push(text.as_slice(), out, exit),
        Err(Memory) => push(NO_MEMORY, out, 8),
    }
}

fn push<O: Sink>(text: &[u8], out: &mut O, exit: u8) -> u8 {
    match out.push(text) {
        Ok(()) => exit,
        Err(Failed) => 3,
    }
}
