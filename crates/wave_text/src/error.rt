//! Why a text is not read as a wave.

ghost use Rattle.std.specs.Prelude.{◌≡◌};

use std::alloc::AllocError;
use thiserror::Error;
use vlog_lex::vidi_bits::Memory;

/// Why a text is not read as a wave.
#[derive(Clone, Copy, Debug, PartialEq, Eq, Error)]
pub enum WaveError {
    /// It is the text of no wave.
    #[error("the text of no wave")]
    BadWave,
    #[error("out of memory")]
    Memory,
}

impl From<Memory> for WaveError {
    ghost use Rattle.wave_text.specs.declared.error.WaveError.{WaveError};

    ghost from_gives = { λ _ e. e ≡ WaveError.Memory };

    fn from(_error: Memory) -> WaveError {
        WaveError::Memory
    }
}

impl From<AllocError> for WaveError {
    ghost use Rattle.wave_text.specs.declared.error.WaveError.{WaveError};

    ghost from_gives = { λ _ e. e ≡ WaveError.Memory };

    fn from(_error: AllocError) -> WaveError {
        WaveError::Memory
    }
}
