//! Why a completion isn't moved.

ghost use Rattle.std.specs.Prelude.{◌≡◌};

use thiserror::Error;
use trace_model::vidi_bits::Memory;

/// Why a completion isn't moved.
#[derive(Clone, Copy, Debug, PartialEq, Eq, Error)]
pub enum EditError {
    /// The trace has no such completion: 1 for the one that is moved, 2 for the other.
    #[error("no end {which}")]
    NoEnd { which: u32 },
    /// Both are one completion.
    #[error("same end")]
    SameEnd,
    /// The number of the lowest packet that the completion can't be moved over.
    #[error("blocked by packet {packet}")]
    Blocked { packet: u32 },
    #[error("out of memory")]
    Memory,
}

impl From<Memory> for EditError {
    ghost use Rattle.trace_edit.specs.declared.error.EditError.{EditError};

    ghost from_gives = { λ _ e. e ≡ EditError.Memory };

    fn from(_error: Memory) -> EditError {
        EditError::Memory
    }
}
