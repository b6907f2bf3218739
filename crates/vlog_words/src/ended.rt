//! Why the words of a case have no text.

use report_text::Reason;
use report_text::vidi_io::ReadError;
use report_text::vidi_lines::LineError;
use std::alloc::{AllocError, AllocFailed};
use vlog_driver::BlockError;
use vlog_driver::vlog_size::SizeError;
use vlog_print::vidi_bits::Memory;
use vlog_print::vlog_expr::Unread;
use vlog_print::vlog_lex::LexError;
use vlog_print::vlog_parse::ParseError;

/// Why the words of a case have no text.
#[derive(Drop)]
pub enum Ended {
    /// They are none of this program's, or a file that they name isn't there or has another form.
    Usage,
    /// The Verilog text of the case is refused.
    Refused(Reason),
    /// A design text is refused where it is elaborated.
    NoDesign,
    Memory,
}

impl From<Memory> for Ended {
    fn from(_error: Memory) -> Ended {
        Ended::Memory
    }
}

impl From<AllocError> for Ended {
    fn from(_error: AllocError) -> Ended {
        Ended::Memory
    }
}

impl<T: Drop> From<AllocFailed<T>> for Ended {
    fn from(_error: AllocFailed<T>) -> Ended {
        Ended::Memory
    }
}

impl From<ReadError> for Ended {
    fn from(error: ReadError) -> Ended {
        match error {
            ReadError::Memory => Ended::Memory,
            _ => Ended::Usage,
        }
    }
}

impl From<LineError> for Ended {
    fn from(error: LineError) -> Ended {
        match error {
            LineError::Memory => Ended::Memory,
            LineError::BadLine { line: _ } => Ended::Usage,
        }
    }
}

impl From<LexError> for Ended {
    fn from(error: LexError) -> Ended {
        match error {
            LexError::Word { line } => Ended::Refused(Reason::Word { line }),
            LexError::Memory => Ended::Memory,
        }
    }
}

impl From<ParseError> for Ended {
    fn from(error: ParseError) -> Ended {
        match error {
            ParseError::Deep { line } => Ended::Refused(Reason::Deep { line }),
            ParseError::Item { line } => Ended::Refused(Reason::Item { line }),
            ParseError::Memory => Ended::Memory,
        }
    }
}

/// Words that are no expression or target are refused at their first one.
impl From<Unread> for Ended {
    fn from(error: Unread) -> Ended {
        match error {
            Unread::Fault => Ended::Refused(Reason::Item { line: 1 }),
            Unread::Memory => Ended::Memory,
        }
    }
}

impl From<SizeError> for Ended {
    fn from(error: SizeError) -> Ended {
        match error {
            SizeError::Const { line } => Ended::Refused(Reason::Const { line }),
            SizeError::Width { line, got } => Ended::Refused(Reason::Width { line, got }),
        }
    }
}

impl From<BlockError> for Ended {
    fn from(error: BlockError) -> Ended {
        match error {
            BlockError::Latch { name, line } => Ended::Refused(Reason::Latch { name, line }),
            BlockError::Memory => Ended::Memory,
        }
    }
}
