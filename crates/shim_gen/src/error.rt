//! Why a design isn't wrapped.

ghost use Rattle.std.specs.Prelude.{◌≡◌};

use vlog_copy::vidi_bits::{Memory, Name};

/// Why a design isn't wrapped.
#[derive(Drop)]
pub enum WrapError {
    /// A module has this name, which begins with `vidi_`.
    Reserved { name: Name },
    Memory,
}

impl From<Memory> for WrapError {
    ghost use Rattle.shim_gen.specs.declared.error.WrapError.{WrapError};

    ghost from_gives = { λ _ e. e ≡ WrapError.Memory };

    fn from(_error: Memory) -> WrapError {
        WrapError::Memory
    }
}
