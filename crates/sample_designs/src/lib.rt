//! Small designs that tests run, as texts with their maps, and how tests compare rows.
#![tactic(auto)]

mod rows;
mod stages;
mod texts;

pub use net_sim;
pub use rows::is_row;
pub use stages::{Stage, flick_channels, sample_stage, stage_channels, two_channel_stage};
pub use texts::Sample;
