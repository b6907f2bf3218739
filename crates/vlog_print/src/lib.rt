//! Trees of design texts written as tokens and as text, and the trees that can be written so (IEEE
//! 1364-2005, this project's profile).
//!
//! The definitions stand in `vlog_tree/specs/`: `Spelling` (the tokens of a tree) and `Shape` (good shape:
//! what the grammar can spell); and here in `specs/Printed` (the text).
#![tactic(auto)]

mod laws;
mod printing;
mod shape;
mod spelling;

pub use laws::{printed_is_read, printed_is_spelled};
pub use printing::print;
pub use shape::good_shape;
pub use spelling::tokens_of;
pub use vlog_parse;
pub use vlog_parse::{vidi_bits, vlog_expr, vlog_lex};
