//! Expressions, targets and always blocks as code (IEEE 1364-2005, clauses 5 and 9; this project's profile).
//!
//! `specs/Value` has the number of an expression of the trees at a width, `specs/Targets` what an assignment to a target changes, and
//! `specs/Updates` what the statements of a block change. `specs/Bits` and `specs/Written` have the bits of nets that they read,
//! may write and surely assign, and `specs/Sources` says what names are in code.
#![tactic(auto)]

mod bind;
mod block;
mod faultless;
mod makers;
mod source;
mod target;

pub use bind::bind_expr;
pub use block::block_code;
pub use faultless::is_faultless;
pub use target::bind_target;
pub use vlog_size;
