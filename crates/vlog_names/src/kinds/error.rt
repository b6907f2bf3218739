//! Why the uses of names in a design text are refused.

use thiserror::Error;

/// E7: a name or an assignment on this line is of a wrong kind.
#[derive(Clone, Copy, Debug, PartialEq, Eq, Error)]
#[error("line {line}: a wrong kind")]
pub struct KindError {
    pub line: u32,
}
