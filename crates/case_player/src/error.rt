//! What ends the playing of cases.

use std::alloc::{AllocError, AllocFailed};
use thiserror::Error;
use vidi_io::Failed;
use vidi_io::vidi_bits::Memory;

/// Why no score was reported.
#[derive(Clone, Copy, Debug, Error)]
pub enum PlayError {
    /// No memory was found.
    #[error("out of memory")]
    Memory,
    /// A word of the program isn't UTF-8.
    #[error("a word isn't UTF-8")]
    Words,
    /// The report couldn't be written.
    #[error("write failed")]
    Write,
}

impl From<Memory> for PlayError {
    fn from(_error: Memory) -> PlayError {
        PlayError::Memory
    }
}

impl From<AllocError> for PlayError {
    fn from(_error: AllocError) -> PlayError {
        PlayError::Memory
    }
}

impl From<Failed> for PlayError {
    fn from(_error: Failed) -> PlayError {
        PlayError::Write
    }
}

/// Why the cases of a file can't be told.
#[derive(Clone, Copy, Debug, Error)]
pub enum FileError {
    /// The file isn't there, or can't be read.
    #[error("can't be read")]
    Unread,
    /// It isn't a text in UTF-8.
    #[error("isn't a text")]
    NoText,
    /// A line is in no case and belongs to no file, or has no line feed.
    #[error("line {line} can't be read")]
    Line { line: usize },
    /// No case stands in it.
    #[error("has no case")]
    NoCase,
    /// No memory was found.
    #[error("out of memory")]
    Memory,
}

impl From<Memory> for FileError {
    fn from(_error: Memory) -> FileError {
        FileError::Memory
    }
}

impl From<AllocError> for FileError {
    fn from(_error: AllocError) -> FileError {
        FileError::Memory
    }
}

impl<T: Drop> From<AllocFailed<T>> for FileError {
    fn from(_error: AllocFailed<T>) -> FileError {
        FileError::Memory
    }
}
