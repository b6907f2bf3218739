//! Why the names of a design text are refused.

ghost use Rattle.std.specs.Prelude.{◌≡◌};

use std::alloc::{AllocError, AllocFailed};
use vlog_size::vidi_bits::{Memory, Name};

/// Why the names of a design text are refused.
#[derive(Drop)]
pub enum NameError {
    /// E3: this name stands twice.
    Twice { name: Name },
    /// E4: this name isn't declared.
    Unknown { name: Name },
    Memory,
}

impl From<Memory> for NameError {
    ghost use Rattle.vlog_names.specs.declared.error.NameError.{NameError};

    ghost from_gives = { λ _ e. e ≡ NameError.Memory };

    fn from(_error: Memory) -> NameError {
        NameError::Memory
    }
}
