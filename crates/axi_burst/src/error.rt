//! Why an AXI file is refused, and why a trace has no bursts.

ghost use Rattle.std.specs.Prelude.{◌≡◌};

use std::alloc::AllocError;
use thiserror::Error;
use vidi_lines::vidi_bits::Memory;

/// Why an AXI file is refused. Lines are counted from 1.
#[derive(Clone, Copy, Debug, PartialEq, Eq, Error)]
pub enum AxiError {
    /// A1: the line that is bad by its bytes, of no form or said before; or the number behind the last line's, where a line is
    /// missing.
    #[error("line {line}: no line of an AXI file")]
    Line { line: u32 },
    /// A2: the line that doesn't fit the channels.
    #[error("line {line}: no port of an AXI file")]
    Port { line: u32 },
    #[error("out of memory")]
    Memory,
}

impl From<Memory> for AxiError {
    ghost use Rattle.axi_burst.specs.declared.error.AxiError.{AxiError};

    ghost from_gives = { λ _ e. e ≡ AxiError.Memory };

    fn from(_error: Memory) -> AxiError {
        AxiError::Memory
    }
}

impl From<AllocError> for AxiError {
    ghost use Rattle.axi_burst.specs.declared.error.AxiError.{AxiError};

    ghost from_gives = { λ _ e. e ≡ AxiError.Memory };

    fn from(_error: AllocError) -> AxiError {
        AxiError::Memory
    }
}

/// Why a trace has no bursts.
#[derive(Clone, Copy, Debug, PartialEq, Eq, Error)]
pub enum BurstError {
    /// The first rule that is broken, and the number among its channel's transactions of the one that breaks it.
    #[error("broken rule {rule} {channel} {index}")]
    Broken {
        rule: u32,
        channel: usize,
        index: u32,
    },
    #[error("out of memory")]
    Memory,
}

impl From<Memory> for BurstError {
    ghost use Rattle.axi_burst.specs.declared.error.BurstError.{BurstError};

    ghost from_gives = { λ _ e. e ≡ BurstError.Memory };

    fn from(_error: Memory) -> BurstError {
        BurstError::Memory
    }
}

impl From<AllocError> for BurstError {
    ghost use Rattle.axi_burst.specs.declared.error.BurstError.{BurstError};

    ghost from_gives = { λ _ e. e ≡ BurstError.Memory };

    fn from(_error: AllocError) -> BurstError {
        BurstError::Memory
    }
}
