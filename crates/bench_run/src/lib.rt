//! The plain run: a block in its environment for a number of cycles, without a store.
//!
//! `Plain` in `specs/` says which run this is: *IsRun* with all gates up, as an answer. `Laws` says that it is one and keeps contents.
#![tactic(auto)]

mod laws;
mod lent;
mod plain;
mod player;

pub use env_script;
pub use env_script::trace_model;
pub use laws::{one_plain_run, plain_run_keeps_contents};
pub use lent::Lent;
pub use plain::{PlainRun, Spot, run_plain, spot_of};
pub use player::{copied_row, given_now};
pub use run_laws;
pub use run_stage;
pub use run_stage::chan_monitor;
pub use run_stage::chan_monitor::{chan_map, vidi_bits};
