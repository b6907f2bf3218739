//! The command `replay` of `vidi`. `specs/Replays` has what it owes.
#![tactic(auto)]

mod replaying;

pub use replay_run;
pub use replay_run::trace_code;
pub use replaying::{decoded, played, replay, told, trace_over};
pub use vidi_bench;
pub use vidi_bench::{report_text, trace_compare, vidi_io};
