//! Why a script or a stall plan is refused.

ghost use Rattle.std.specs.Prelude.{◌≡◌};

use run_model::vidi_bits::Memory;
use thiserror::Error;

/// Why a script is refused. Lines are counted from 1.
#[derive(Clone, Copy, Debug, PartialEq, Eq, Error)]
pub enum ScriptError {
    /// S1: the line that is bad by its bytes, has no form, or stands where `cycles N` is missing.
    #[error("line {line}: no line of a script")]
    Line { line: u32 },
    /// S2: the line that names a channel that isn't in the map, sends on an outward one or takes on an inward one.
    #[error("line {line}: no such channel")]
    Channel { line: u32 },
    /// S3: the line with a number out of range, or with numbers that don't fit the channel's content ports.
    #[error("line {line}: a number out of range")]
    Number { line: u32 },
    #[error("out of memory")]
    Memory,
}

impl From<Memory> for ScriptError {
    ghost use Rattle.env_script.specs.declared.error.ScriptError.{ScriptError};

    ghost from_gives = { λ _ e. e ≡ ScriptError.Memory };

    fn from(_error: Memory) -> ScriptError {
        ScriptError::Memory
    }
}

/// Why a stall plan is refused. Lines are counted from 1.
#[derive(Clone, Copy, Debug, PartialEq, Eq, Error)]
pub enum StallError {
    /// P1: the line that is bad by its bytes, has no form or a number out of range, or stands where `capacity N` is
    /// missing.
    #[error("line {line}: no line of a stall plan")]
    Line { line: u32 },
    #[error("out of memory")]
    Memory,
}

impl From<Memory> for StallError {
    ghost use Rattle.env_script.specs.declared.error.StallError.{StallError};

    ghost from_gives = { λ _ e. e ≡ StallError.Memory };

    fn from(_error: Memory) -> StallError {
        StallError::Memory
    }
}
