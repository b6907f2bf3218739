//! The recorder: it runs a design behind the gates of its channels and writes the trace of the run as it goes.
//!
//! The definitions stand in `specs/`: `Course` (which run is recorded), `Standing` (where a recording stands between two cycles),
//! `Recording` (what a recording leaves, by its answer), `Laws` (what a recorded trace holds, and what gates do to a run) and
//! `ScriptLaws` (the same of a script's run).
#![tactic(auto)]

mod cells;
mod error;
mod laws;
mod record;
mod recorder;
mod script_laws;
mod steps;

pub use env_script;
pub use error::{Outcome, RecordError};
pub use laws::{drained_run_is_plain, no_hidden_gate, one_recorded_run, the_run_is_kept};
pub use record::record_run;
pub use room_ledger;
pub use script_laws::{full_plan_drains, one_script_run, script_run_is_kept};
pub use vidi_io;
