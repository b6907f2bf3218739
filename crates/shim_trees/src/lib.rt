//! What is generated round a design: the monitors and the replayers of its channels and the two tops, as trees (this project's profile).
//!
//! The definitions stand in `specs/`: `Pieces` (names with numbers, and the pieces of trees), `Monitor` and `Replayer` (the modules of a
//! channel), `Links` (what the design's ports are joined to), `RecordTop` and `ReplayTop` (the design behind its monitors and between its
//! replayers), `Wrapped` (a file with all of these) and `Laws`.
#![tactic(auto)]

mod laws;

pub use chan_map;
pub use chan_map::{trace_model, vidi_lines};
pub use laws::wrapped_is_good;
pub use vlog_size;
