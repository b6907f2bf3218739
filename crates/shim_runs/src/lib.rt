//! Recordings and replays of a design as words of a case ask for them: by monitors and replayers round the design, and by the Verilog of
//! the wrapped file as it is simulated. docs/CASES.md has the words.
#![tactic(auto)]

mod ended;
mod outcomes;
mod plans;
mod records;
mod replays;
mod stages;
mod texts;

pub use ended::Ended;
pub use plans::{Plan, plan_in, recorded};
pub use records::record;
pub use replays::replay;
pub use report_text;
pub use report_text::vidi_io;
pub use shim_cosim;
pub use shim_cosim::{
    chan_map, chan_monitor, chan_replayer, env_script, net_sim, run_stage, trace_model, vidi_lines,
};
pub use stages::{Stage, stage_in};
pub use texts::{cycles_of, lines_in, put_net};
pub use vlog_parse::vidi_bits;
