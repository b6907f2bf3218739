//! Monitors: the gates between the sources and the sinks of channels, and a design that runs behind them.
//!
//! The definitions stand in `specs/`: `Passing` (what a monitor makes of a cycle, against *Row*) and `Shell` (what a shell
//! promises of a cycle, against *IsRun*).
#![tactic(auto)]

mod cycles;
mod machines;
mod monitor;
mod pins;
mod rows;
mod shell;

pub use cycles::run_cycles;
pub use machines::Machines;
pub use monitor::{Monitor, Passed};
pub use pins::reset_value;
pub use run_model;
pub use run_model::{chan_map, vidi_bits};
pub use shell::Shell;
