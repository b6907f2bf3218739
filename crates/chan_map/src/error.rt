//! Why a map is refused.

ghost use Rattle.std.specs.Prelude.{◌≡◌};

use std::alloc::{AllocError, AllocFailed};
use vidi_lines::LineError;
use vidi_lines::vidi_bits::{Memory, Name};

/// A limit of a map.
#[derive(Clone, Copy, PartialEq, Eq)]
pub enum MapLimit {
    /// The number of channels, 1 to `MOST_CHANNELS`.
    Channels,
    /// The number of content ports of a channel, at most 16.
    Ports,
    /// The number of content bytes of all channels, at most `MOST_CONTENT_BYTES`.
    Bytes,
}

/// Why a map is refused.
#[derive(Drop)]
pub enum MapError {
    /// M1: the line, counted from 1, that is bad, of no form or missing.
    Line { line: u32 },
    /// M2: the line, counted from 1, that doesn't fit the design.
    Port { line: u32 },
    /// M3: a port of the top, and how often the lines name it, which isn't once.
    Cover { port: Name, times: u32 },
    /// M4: a limit, and what is outside it.
    Limit { what: MapLimit, got: u32 },
    Memory,
}

impl From<Memory> for MapError {
    ghost use Rattle.chan_map.specs.declared.error.MapError.{MapError};

    ghost from_gives = { λ _ e. e ≡ MapError.Memory };

    fn from(_error: Memory) -> MapError {
        MapError::Memory
    }
}

impl From<AllocError> for MapError {
    ghost use Rattle.chan_map.specs.declared.error.MapError.{MapError};

    ghost from_gives = { λ _ e. e ≡ MapError.Memory };

    fn from(_error: AllocError) -> MapError {
        MapError::Memory
    }
}

impl<T: Drop> From<AllocFailed<T>> for MapError {
    ghost use Rattle.chan_map.specs.declared.error.MapError.{MapError};

    ghost from_gives = { λ _ e. e ≡ MapError.Memory };

    fn from(_error: AllocFailed<T>) -> MapError {
        MapError::Memory
    }
}

impl From<LineError> for MapError {
    ghost use Rattle.chan_map.specs.Text.{line_error};

    ghost from_gives = { λ x e. e ≡ line_error x };

    fn from(error: LineError) -> MapError {
        match error {
            LineError::BadLine { line } => MapError::Line { line },
            LineError::Memory => MapError::Memory,
        }
    }
}
