//! An order of drivers, or why there is none.

ghost use Rattle.std.specs.Prelude.{◌≡◌};

use std::alloc::{AllocError, AllocFailed};
use vidi_bits::{Memory, Numbers};

/// An order of drivers: the number of each, once, after those whose bits it reads.
#[derive(Drop)]
pub struct Order {
    pub drivers: Numbers,
}

/// Why drivers have no order.
#[derive(Drop)]
pub enum OrderError {
    /// A loop: each driver listed reads a bit of the one before, and the first a bit of the last. None is listed twice, and the
    /// least number is first.
    Loop { drivers: Numbers },
    Memory,
}

impl From<Memory> for OrderError {
    ghost use Rattle.net_order.specs.declared.answer.OrderError.{OrderError};

    ghost from_gives = { λ _ e. e ≡ OrderError.Memory };

    fn from(_error: Memory) -> OrderError {
        OrderError::Memory
    }
}

impl From<AllocError> for OrderError {
    ghost use Rattle.net_order.specs.declared.answer.OrderError.{OrderError};

    ghost from_gives = { λ _ e. e ≡ OrderError.Memory };

    fn from(_error: AllocError) -> OrderError {
        OrderError::Memory
    }
}
