//! Copies of syntax trees: the same plain data (`vlog_tree/specs/Plain`), lines included.
#![tactic(auto)]

mod expr;
mod listed;
mod module;
mod stmt;

pub use module::{copy_module, copy_port};
pub use vlog_tree::vidi_bits;
