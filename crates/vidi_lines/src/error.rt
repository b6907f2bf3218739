//! Why a text is not read as lines.

ghost use Rattle.std.specs.Prelude.{◌≡◌};

use std::alloc::AllocError;
use thiserror::Error;
use vidi_bits::Memory;

/// Why a file has no list of lines.
#[derive(Clone, Copy, Debug, PartialEq, Eq, Error)]
pub enum LineError {
    /// The first line, counted from 1, in which a byte stands outside a comment that may not.
    #[error("line {line}: a byte that may not stand here")]
    BadLine { line: u32 },
    #[error("out of memory")]
    Memory,
}

impl From<Memory> for LineError {
    ghost use Rattle.vidi_lines.specs.declared.error.LineError.{LineError};

    ghost from_gives = { λ _ e. e ≡ LineError.Memory };

    fn from(_error: Memory) -> LineError {
        LineError::Memory
    }
}

impl From<AllocError> for LineError {
    ghost use Rattle.vidi_lines.specs.declared.error.LineError.{LineError};

    ghost from_gives = { λ _ e. e ≡ LineError.Memory };

    fn from(_error: AllocError) -> LineError {
        LineError::Memory
    }
}
