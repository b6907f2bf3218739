//! What plays a case.

use std::alloc::Global;
use vidi_io::{MemShelf, MemSink, Words};

/// What the words of a case are given to.
pub trait Caller {
    /// Does what the words of a case ask for over these files, says its text to `out`, and answers the exit number. The
    /// name of the case file tells whose words they are.
    fn call(
        &self,
        alloc: Global,
        case_file: &str,
        words: &Words,
        shelf: &mut MemShelf,
        out: &mut MemSink,
    ) -> u8;
}
