//! Wrapped designs in lock step with monitors and replayers, in code: the Verilog of a wrapped file is elaborated and simulated as one flat
//! design, which is a shell with the rows of the design behind monitors, and one with the rows of the design behind replayers.
//!
//! The definitions stand in `specs/`: `Top` (the flat design of a wrapped file, the reasons, nets by name), `Held` (the inputs that are
//! held), `Recorded` and `Rewrapped` (the other ports of `vidi_record_top` and of `vidi_replay_top`), `Recording` and `Replaying` (what a
//! wrapped design that runs stands for), `Records` and `Replays` (recordings and replays of one design by two shells).
#![tactic(auto)]

mod cycles;
mod error;
mod fed_inputs;
mod held;
mod recorded;
mod records;
mod replays;
mod rewrapped;
mod shown_row;
mod top;
mod wrapped;

pub use error::CosimError;
pub use net_sim;
pub use net_sim::net_order;
pub use records::records_alike;
pub use replay_run;
pub use replay_run::{
    chan_map, chan_monitor, chan_replayer, run_model, run_stage, trace_code, trace_model,
};
pub use replays::replays_alike;
pub use rewrapped::{RerunShell, Rewrapped};
pub use shim_gen;
pub use shim_gen::vidi_lines;
pub use vidi_recorder;
pub use vidi_recorder::{env_script, room_ledger};
pub use vlog_design;
pub use vlog_design::vlog_elab;
pub use wrapped::{RecordShell, Wrapped};
