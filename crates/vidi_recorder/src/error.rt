//! Why a recording was cut off, and how one ends.

ghost use Rattle.std.specs.Prelude.{◌≡◌};

use std::alloc::{AllocError, AllocFailed};
use thiserror::Error;
use vidi_io::Failed;
use vidi_io::vidi_bits::Memory;

/// Why a recording was cut off.
#[derive(Clone, Copy, Debug, PartialEq, Eq, Error)]
pub enum RecordError {
    /// A push failed, and the sink's count of faults rose.
    #[error("write fault")]
    WriteFault,
    /// No memory was found when the recording was opened. Nothing was pushed.
    #[error("out of memory")]
    Memory,
}

impl From<Memory> for RecordError {
    ghost use Rattle.vidi_recorder.specs.declared.error.RecordError.{RecordError};

    ghost from_gives = { λ _ e. e ≡ RecordError.Memory };

    fn from(_error: Memory) -> RecordError {
        RecordError::Memory
    }
}

impl From<AllocError> for RecordError {
    ghost use Rattle.vidi_recorder.specs.declared.error.RecordError.{RecordError};

    ghost from_gives = { λ _ e. e ≡ RecordError.Memory };

    fn from(_error: AllocError) -> RecordError {
        RecordError::Memory
    }
}

impl<T: Drop> From<AllocFailed<T>> for RecordError {
    ghost use Rattle.vidi_recorder.specs.declared.error.RecordError.{RecordError};

    ghost from_gives = { λ _ e. e ≡ RecordError.Memory };

    fn from(_error: AllocFailed<T>) -> RecordError {
        RecordError::Memory
    }
}

impl From<Failed> for RecordError {
    ghost use Rattle.vidi_recorder.specs.declared.error.RecordError.{RecordError};

    ghost from_gives = { λ _ e. e ≡ RecordError.WriteFault };

    fn from(_error: Failed) -> RecordError {
        RecordError::WriteFault
    }
}

/// How a recording ends.
#[derive(Clone, Copy, Debug, PartialEq, Eq)]
pub enum Outcome {
    /// The run has all its cycles.
    Whole {
        packets: u32,
    },
    /// The run ends before its first unstable row, in this cycle; the lowest channel on which that row is unstable is named.
    Unstable {
        channel: usize,
        cycle: u32,
        packets: u32,
    },
}
