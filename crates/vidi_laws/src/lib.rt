//! Laws of what a call of `vidi` owes: it has one answer, its runs and its replay exist and are one, the trace of a recording keeps its
//! run, a replay keeps the order of its trace, and a wrapped design is read as it was made.
//!
//! `specs/OneAnswer`, `specs/OneRun`, `specs/Headline` and `specs/Alike` have the statements.
#![tactic(auto)]

mod laws;
mod runs;

pub use laws::{
    built_alike, drained_recording_is_the_run, one_answer, recorded_run_is_kept,
    replay_is_faithful, wrapped_is_read_back,
};
pub use runs::{
    broken_recording_is_salvaged, migrated_trace_is_replayed, one_printed_run, one_recording,
    one_replay_of_files, printed_run_keeps_contents, recorded_trace_is_replayable,
    recorded_trace_is_short, recording_hides_no_gate, salvaged_trace_is_replayable,
    wide_plan_drains,
};
