//! Why no tree was read.

use thiserror::Error;

/// Why no tree was read.
#[derive(Clone, Copy, Debug, PartialEq, Eq, Error)]
pub enum ParseError {
    /// A limit of nesting or length is passed, first at a token of this line.
    #[error("line {line}: nested too deep or too long")]
    Deep { line: u32 },
    /// No tree of good shape has these tokens. The line is that of the first token behind the longest list of whole
    /// units, or where no token follows the last token's, 1 if there is none.
    #[error("line {line}: not in the grammar")]
    Item { line: u32 },
    #[error("out of memory")]
    Memory,
}
