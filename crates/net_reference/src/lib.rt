//! The definitions of flat designs, evaluated as they are written: slow and simple.
//!
//! `expression` gives the number of an expression, `statement` the updates of code, and `reference` settled
//! maps, initial states, next states and output pins.
#![tactic(auto)]

mod expression;
mod reference;
mod statement;

pub use expression::value_of;
pub use reference::{after_block, initial_state, is_settled, next_state, output_pins};
