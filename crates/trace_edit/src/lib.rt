//! Traces that are changed: a completion brought earlier or later, next to another one (this project's profile).
//!
//! The definitions stand in `specs/`: `Moved` (the trace, what blocks, the refusals), `Stories` (what a channel does, in order), `Parts`
//! (the clocks on both sides of a move).
#![tactic(auto)]

mod blocking;
mod copying;
mod error;
mod laws;
mod moving;
mod place;

pub use error::EditError;
pub use laws::{examples, move_keeps, no_channel_no_end, one_move, stories_alternate};
pub use moving::move_end;
pub use place::Move;
pub use trace_model;
