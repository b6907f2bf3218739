//! Replayers: a design behind machines that let each recorded event come once everything that completed before it in the
//! recording has completed again.
//!
//! The definitions stand in `specs/`: `Feed` (what replayers are told of each channel's next event), `Needs` (clocks that channels share), `Shell` (what a replayed
//! design promises of a cycle, against *IsReplay*), `Fed` (the offers that replayers make of a feed) and `Laws`.
#![tactic(auto)]

mod fed;
mod feed;
mod laws;
mod machines;
mod needs;
mod offers;
mod replayer;
mod shell;

pub use chan_monitor;
pub use chan_monitor::{chan_map, run_model};
pub use fed::FedShell;
pub use feed::{Feed, kind_of};
pub use laws::fed_rows_replay;
pub use machines::ReplayMachines;
pub use needs::Needs;
pub use offers::{clear_content, clear_contents};
pub use replayer::Replayer;
pub use shell::ReplayShell;
