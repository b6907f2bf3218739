//! The replay of a trace: a design runs behind replayers until the trace has ended, a row is unstable, or the cycles are used.
//!
//! The definitions stand in `specs/`: `Replaying` (what a replay answers), `Ended` (how it ends), `Epochs` (the epochs of a trace), `Standing`
//! (where a replay stands between two cycles), `Output` (what is written of its trace), `Behind` (cursors behind so many completions of each
//! channel in an epoch), `Feeding` (feeds that are alike on some channels), `Lists` (what the lists of *End of replay* are made of) and `Laws`.
#![tactic(auto)]

mod bits;
mod cursors;
mod feeder;
mod feeding;
mod laws;
mod lists;
mod outcome;
mod output;
mod replaying;

pub use laws::one_outcome;
pub use outcome::{ReplayOutcome, Replayed};
pub use replaying::replay;
pub use run_laws;
pub use run_stage;
pub use run_stage::chan_replayer::{Feed, Needs, ReplayMachines, ReplayShell};
pub use run_stage::run_model::{Await, Awaits, Held, Helds};
pub use run_stage::{chan_map, chan_monitor, chan_replayer, run_model};
pub use trace_code;
pub use trace_code::{trace_model, vidi_bits};
