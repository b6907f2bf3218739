//! Why the words of a case have no text.

use report_text::vidi_io::ReadError;
use shim_cosim::CosimError;
use shim_cosim::chan_map::MapError;
use shim_cosim::env_script::{ScriptError, StallError};
use shim_cosim::net_order::OrderError;
use shim_cosim::room_ledger::RoomError;
use shim_cosim::shim_gen::WrapError;
use shim_cosim::trace_code::CodeError;
use shim_cosim::vidi_lines::LineError;
use shim_cosim::vidi_recorder::RecordError;
use shim_cosim::vlog_elab::ElabError;
use std::alloc::{AllocError, AllocFailed};
use vlog_parse::ParseError;
use vlog_parse::vidi_bits::Memory;
use vlog_parse::vlog_lex::LexError;

/// Why the words of a case have no text.
#[derive(Drop)]
pub enum Ended {
    /// They are none of this program's, or a file that they name isn't there, has another form or is refused.
    Usage,
    /// The wrapped file isn't accepted with one of its tops, for the reason of this number.
    NoTop { number: u32 },
    Memory,
}

impl From<Memory> for Ended {
    fn from(_error: Memory) -> Ended {
        Ended::Memory
    }
}

impl From<AllocError> for Ended {
    fn from(_error: AllocError) -> Ended {
        Ended::Memory
    }
}

impl<T: Drop> From<AllocFailed<T>> for Ended {
    fn from(_error: AllocFailed<T>) -> Ended {
        Ended::Memory
    }
}

impl From<ReadError> for Ended {
    fn from(error: ReadError) -> Ended {
        match error {
            ReadError::Memory => Ended::Memory,
            _ => Ended::Usage,
        }
    }
}

impl From<LineError> for Ended {
    fn from(error: LineError) -> Ended {
        match error {
            LineError::Memory => Ended::Memory,
            LineError::BadLine { line: _ } => Ended::Usage,
        }
    }
}

impl From<LexError> for Ended {
    fn from(error: LexError) -> Ended {
        match error {
            LexError::Memory => Ended::Memory,
            LexError::Word { line: _ } => Ended::Usage,
        }
    }
}

impl From<ParseError> for Ended {
    fn from(error: ParseError) -> Ended {
        match error {
            ParseError::Memory => Ended::Memory,
            _ => Ended::Usage,
        }
    }
}

impl From<ElabError> for Ended {
    fn from(error: ElabError) -> Ended {
        match error {
            ElabError::Memory => Ended::Memory,
            _ => Ended::Usage,
        }
    }
}

impl From<OrderError> for Ended {
    fn from(error: OrderError) -> Ended {
        match error {
            OrderError::Memory => Ended::Memory,
            OrderError::Loop { drivers: _ } => Ended::Usage,
        }
    }
}

impl From<MapError> for Ended {
    fn from(error: MapError) -> Ended {
        match error {
            MapError::Memory => Ended::Memory,
            _ => Ended::Usage,
        }
    }
}

impl From<WrapError> for Ended {
    fn from(error: WrapError) -> Ended {
        match error {
            WrapError::Memory => Ended::Memory,
            WrapError::Reserved { name: _ } => Ended::Usage,
        }
    }
}

impl From<CosimError> for Ended {
    fn from(error: CosimError) -> Ended {
        match error {
            CosimError::Memory => Ended::Memory,
            CosimError::Top { number } => Ended::NoTop { number },
        }
    }
}

impl From<ScriptError> for Ended {
    fn from(error: ScriptError) -> Ended {
        match error {
            ScriptError::Memory => Ended::Memory,
            _ => Ended::Usage,
        }
    }
}

impl From<StallError> for Ended {
    fn from(error: StallError) -> Ended {
        match error {
            StallError::Memory => Ended::Memory,
            StallError::Line { line: _ } => Ended::Usage,
        }
    }
}

impl From<RoomError> for Ended {
    fn from(error: RoomError) -> Ended {
        match error {
            RoomError::Memory => Ended::Memory,
            _ => Ended::Usage,
        }
    }
}

/// No push of a sink in memory fails, unless memory runs out.
impl From<RecordError> for Ended {
    fn from(_error: RecordError) -> Ended {
        Ended::Memory
    }
}

impl From<CodeError> for Ended {
    fn from(error: CodeError) -> Ended {
        match error {
            CodeError::Memory => Ended::Memory,
            CodeError::BadTrace { at: _ } => Ended::Usage,
        }
    }
}
