//! Trees spelled as tokens.

mod expr;
mod listed;
mod module;
mod stmt;
mod token;

pub use module::tokens_of;
