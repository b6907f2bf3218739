//! Why a wrapped file doesn't run.

ghost use Rattle.std.specs.Prelude.{◌≡◌};

use net_sim::vidi_bits::Memory;
use std::alloc::AllocError;

/// Why a wrapped file doesn't run as one flat design.
#[derive(Drop)]
pub enum CosimError {
    /// The reason of this number, E3 to E13, holds of the file with this top, first in the order of the reasons.
    Top { number: u32 },
    Memory,
}

impl From<Memory> for CosimError {
    ghost use Rattle.shim_cosim.specs.declared.error.CosimError.{CosimError};

    ghost from_gives = { λ _ e. e ≡ CosimError.Memory };

    fn from(_error: Memory) -> CosimError {
        CosimError::Memory
    }
}

impl From<AllocError> for CosimError {
    ghost use Rattle.shim_cosim.specs.declared.error.CosimError.{CosimError};

    ghost from_gives = { λ _ e. e ≡ CosimError.Memory };

    fn from(_error: AllocError) -> CosimError {
        CosimError::Memory
    }
}
