//! One stage, one cycle and one loop over cycles, for runs, recordings and replays.
//!
//! A stage is a design that is given something in each cycle and shows a row for it; each shell and each replay shell is one. A player
//! says what is given, keeps the rows, and may ask for a reset in mid-run. `play_stretches` goes through the cycles, and `play` where no
//! reset comes. The definitions stand in `specs/`: `Given` (what is given, and the rows that are shown for it), `Playing` (what a stage
//! promises of a cycle, and how cycles end) and `Stretching` (the same with resets).
#![tactic(auto)]

mod cycle;
mod ending;
mod fed;
mod gated;
mod given;
mod player;
mod stage;
mod straight;
mod stretch_player;
mod two_rows;

pub use chan_replayer;
pub use chan_replayer::{chan_map, chan_monitor, run_model};
pub use cycle::play_stretches;
pub use ending::Ending;
pub use given::{Gated, Given};
pub use player::Player;
pub use stage::Stage;
pub use straight::play;
pub use stretch_player::StretchPlayer;
pub use two_rows::TwoRows;
