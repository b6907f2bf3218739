//! The definitions of runs and replays, evaluated as they are written: slow and simple. Tests and faster machines are compared
//! with it.
//!
//! `pins` makes the numbers of the input pins, `row` the row that a block shows, `play` runs a block cycle by cycle, and `waiting`
//! says what a replay that hasn't ended holds back and waits for.
#![tactic(auto)]

mod pins;
mod play;
mod replay;
mod row;
mod waiting;

pub use play::run_rows;
pub use replay::replay_rows;
pub use run_model;
pub use run_model::{chan_map, trace_model, vidi_bits};
pub use waiting::{held, waits};
