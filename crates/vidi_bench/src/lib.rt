//! What the commands of `vidi` on designs begin with: files are read, and make a design, its map and a script, or end the command with an answer.
#![tactic(auto)]

mod bench;
mod design;
mod device;
mod refusal;

pub use bench::{Bench, Texts, bench_of, read_texts};
pub use design::{design_of, file_of, order_of};
pub use device::{Device, built, device_of, map_text_of};
pub use env_script::run_model;
pub use refusal::{Refusal, refused_for};
pub use vidi_answer;
pub use vidi_answer::{
    Answer, AnswerText, Ended, LINE_BYTES, Reason, Status, TEXT_LIMIT, Word, diverged,
    diverged_text, read_file, recorded_line, refused, report_text, trace_code, trace_compare,
    trace_of, unstable, unstable_line, usage, vidi_io, with_bytes, with_line,
};
pub use vlog_design;
pub use vlog_design::{net_order, vlog_elab};
