//! The command `wrap` of `vidi`: a design with the monitors and replayers of its channels round it. `specs/Wraps` has what it owes.
#![tactic(auto)]

mod shims;
mod wrapping;

pub use shim_gen::{chan_map, vidi_lines};
pub use vidi_bench;
pub use vidi_bench::{net_order, run_model, vidi_io, vlog_design};
pub use vlog_print::{vidi_bits, vlog_lex, vlog_parse};
pub use wrapping::wrap;
