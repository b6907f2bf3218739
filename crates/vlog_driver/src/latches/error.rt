//! Why an always block is refused.

ghost use Rattle.std.specs.Prelude.{◌≡◌};

use net_drive::vidi_bits::{Memory, Name};

/// Why an always block is refused.
#[derive(Drop)]
pub enum BlockError {
    /// E9: bits of this net keep their number on some path, or are read before they are surely assigned. The line is that of
    /// `always`.
    Latch { name: Name, line: u32 },
    Memory,
}

impl From<Memory> for BlockError {
    ghost use Rattle.vlog_driver.specs.declared.latches.error.BlockError.{BlockError};

    ghost from_gives = { λ _ e. e ≡ BlockError.Memory };

    fn from(_error: Memory) -> BlockError {
        BlockError::Memory
    }
}
