//! Monitors and replayers as Verilog round a design (this project's profile).
//!
//! A wrapped file has the design's modules, then for each channel its monitor and its replayer, then a top that records and one that
//! replays. The definitions of all of them stand in `shim_trees/specs`.
#![tactic(auto)]

mod conns;
mod design;
mod error;
mod exprs;
mod items;
mod links;
mod monitor;
mod names;
mod ports;
mod record_top;
mod replay_top;
mod replayer;
mod wrapping;

pub use error::WrapError;
pub use monitor::monitor_tree;
pub use replayer::replayer_tree;
pub use shim_trees;
pub use shim_trees::{chan_map, trace_model, vidi_lines};
pub use wrapping::{ports_of, wrap};
