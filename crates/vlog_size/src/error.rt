//! Why an expression has no constant or no width.

use thiserror::Error;

/// Why an expression has no constant or no width.
#[derive(Clone, Copy, Debug, PartialEq, Eq, Error)]
pub enum SizeError {
    /// A literal, a read, an operator or a value on this line can't stand where it does.
    #[error("line {line}: not a lawful constant")]
    Const { line: u32 },
    /// On this line a width is 0 or above 128, or a constant index or bound is out of order or
    /// outside the declared range; `got` is that width, index or bound.
    #[error("line {line}: width, index or bound {got}")]
    Width { line: u32, got: u128 },
}
