//! Why room is not made.

ghost use Rattle.std.specs.Prelude.{◌≡◌};

use std::alloc::{AllocError, AllocFailed};
use thiserror::Error;

/// Why there is no room.
#[derive(Clone, Copy, Debug, PartialEq, Eq, Error)]
pub enum RoomError {
    /// The capacity that was given is below what all channels, and a permit to reset, need together, in bytes.
    #[error("too small: {need} bytes are needed, {given} are given")]
    TooSmall { need: u32, given: u32 },
    #[error("out of memory")]
    Memory,
}

impl From<AllocError> for RoomError {
    ghost use Rattle.room_ledger.specs.declared.error.RoomError.{RoomError};

    ghost from_gives = { λ _ e. e ≡ RoomError.Memory };

    fn from(_error: AllocError) -> RoomError {
        RoomError::Memory
    }
}

impl<T: Drop> From<AllocFailed<T>> for RoomError {
    ghost use Rattle.room_ledger.specs.declared.error.RoomError.{RoomError};

    ghost from_gives = { λ _ e. e ≡ RoomError.Memory };

    fn from(_error: AllocFailed<T>) -> RoomError {
        RoomError::Memory
    }
}
