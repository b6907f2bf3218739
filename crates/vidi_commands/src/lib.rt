//! The commands of `vidi`, behind its one public call. `specs/Answer` has what a call owes.
#![tactic(auto)]

mod command;
mod top;

pub use sample_command::{env_script, replay_run, trace_code};
pub use top::vidi;
pub use trace_commands::trace_edit;
pub use trace_commands::vidi_answer::trace_v2;
pub use wrap_command::vidi_bench::{Reason, Status, Word};
pub use wrap_command::{
    chan_map, net_order, run_model, vidi_bits, vidi_io, vlog_design, vlog_lex, vlog_parse,
};
