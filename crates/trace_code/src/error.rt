//! Why a trace is not read or written.

ghost use Rattle.std.specs.Prelude.{◌≡◌};

use std::alloc::{AllocError, AllocFailed};
use thiserror::Error;
use vec_clock::vidi_bits::Memory;

/// Why bytes give no trace.
#[derive(Clone, Copy, Debug, PartialEq, Eq, Error)]
pub enum CodeError {
    /// The bytes are no encoding of a well-formed trace; `at` is the length in bytes of the header and
    /// of the whole lawful packets before the fault, 0 where the header is at fault.
    #[error("bad trace at {at}")]
    BadTrace { at: u64 },
    #[error("out of memory")]
    Memory,
}

/// No such part of a trace stands at the front of these bytes.
pub const FAULT: CodeError = CodeError::BadTrace { at: 0 };

impl From<Memory> for CodeError {
    ghost use Rattle.trace_code.specs.declared.error.CodeError.{CodeError};

    ghost from_gives = { λ _ e. e ≡ CodeError.Memory };

    fn from(_error: Memory) -> CodeError {
        CodeError::Memory
    }
}

impl From<AllocError> for CodeError {
    ghost use Rattle.trace_code.specs.declared.error.CodeError.{CodeError};

    ghost from_gives = { λ _ e. e ≡ CodeError.Memory };

    fn from(_error: AllocError) -> CodeError {
        CodeError::Memory
    }
}

impl<T: Drop> From<AllocFailed<T>> for CodeError {
    ghost use Rattle.trace_code.specs.declared.error.CodeError.{CodeError};

    ghost from_gives = { λ _ e. e ≡ CodeError.Memory };

    fn from(_error: AllocFailed<T>) -> CodeError {
        CodeError::Memory
    }
}
