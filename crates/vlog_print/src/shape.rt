//! Tests of good shape: what the grammar can spell.

mod expr;
mod listed;
mod module;
mod stmt;
mod token;

pub use module::good_shape;
