//! Why a reader reads nothing.

ghost use Rattle.std.specs.Prelude.{◌≡◌};

use std::alloc::{AllocError, AllocFailed};
use vlog_tree::vidi_bits::Memory;

/// Why a reader read nothing.
#[derive(Clone, Copy, PartialEq, Eq)]
pub enum Unread {
    /// The tokens don't begin with what was to be read.
    Fault,
    Memory,
}

impl From<Memory> for Unread {
    ghost use Rattle.vlog_expr.specs.declared.unread.Unread.{Unread};

    ghost from_gives = { λ _ e. e ≡ Unread.Memory };

    fn from(_error: Memory) -> Unread {
        Unread::Memory
    }
}

impl From<AllocError> for Unread {
    ghost use Rattle.vlog_expr.specs.declared.unread.Unread.{Unread};

    ghost from_gives = { λ _ e. e ≡ Unread.Memory };

    fn from(_error: AllocError) -> Unread {
        Unread::Memory
    }
}

impl<T: Drop> From<AllocFailed<T>> for Unread {
    ghost use Rattle.vlog_expr.specs.declared.unread.Unread.{Unread};

    ghost from_gives = { λ _ e. e ≡ Unread.Memory };

    fn from(_error: AllocFailed<T>) -> Unread {
        Unread::Memory
    }
}
