//! Laws of runs and replays with resets in mid-run: what holds of each stretch between two resets, and what holds of all.
//!
//! The statements stand in `specs/StretchLaws`, over the definitions of `run_model`.
#![tactic(auto)]

mod stretches;

pub use run_model;
pub use stretches::{
    no_circle_in_stretches, one_ending_in_stretches, one_replay_in_stretches, one_run_in_stretches,
    order_in_stretches, replay_stretches_keep_contents, run_stretches_keep_contents,
};
