//! Lines and numbers with ample memory.

use std::alloc::Global;
use vidi_lines::{Line, lines_of};

/// Whether these are lines of two words, none and three.
fn are_counted(lines: &[Line]) -> bool {
    lines.len() == 3
        && lines[0].words.len() == 2
        && lines[1].words.len() == 0
        && lines[2].words.len() == 3
}

/// The same of the lines of a file whose last line has no newline.
fn is_file_counted(alloc: Global) -> bool {
    match lines_of(alloc, b"top p # x\n\nin a b\r") {
        Ok(lines) => are_counted(lines.as_slice()),
        Err(_) => false,
    }
}

#[test]
fn lines_with_ample_memory(rt: HostRuntime) {
    assert!(rt; is_file_counted(rt.alloc()));
}
