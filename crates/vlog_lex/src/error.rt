//! Why a text has no tokens.

ghost use Rattle.std.specs.Prelude.{◌≡◌};

use std::alloc::{AllocError, AllocFailed};
use thiserror::Error;
use vidi_bits::Memory;

/// Why a text has no tokens.
#[derive(Clone, Copy, Debug, PartialEq, Eq, Error)]
pub enum LexError {
    /// At a place of this line neither a token, white space nor a comment begins.
    #[error("line {line}: no token begins here")]
    Word { line: u32 },
    #[error("out of memory")]
    Memory,
}

impl From<Memory> for LexError {
    ghost use Rattle.vlog_lex.specs.declared.error.LexError.{LexError};

    ghost from_gives = { λ _ e. e ≡ LexError.Memory };

    fn from(_error: Memory) -> LexError {
        LexError::Memory
    }
}

impl From<AllocError> for LexError {
    ghost use Rattle.vlog_lex.specs.declared.error.LexError.{LexError};

    ghost from_gives = { λ _ e. e ≡ LexError.Memory };

    fn from(_error: AllocError) -> LexError {
        LexError::Memory
    }
}

impl<T: Drop> From<AllocFailed<T>> for LexError {
    ghost use Rattle.vlog_lex.specs.declared.error.LexError.{LexError};

    ghost from_gives = { λ _ e. e ≡ LexError.Memory };

    fn from(_error: AllocFailed<T>) -> LexError {
        LexError::Memory
    }
}
