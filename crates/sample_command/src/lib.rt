//! The command `sample` of `vidi`: a recording and a replay in memory. `specs/Samples` has what it owes.
#![tactic(auto)]

mod sampling;

pub use replay_command;
pub use replay_command::{replay_run, trace_code};
pub use run_commands;
pub use sample_gen;
pub use sample_gen::env_script;
pub use sampling::sample;
