//! What a command answers: a status with its text, or what ends it before; the files that it reads, and the traces in them.
#![tactic(auto)]

mod answer;
mod line;
mod read;
mod status;
mod traces;

pub use answer::{Answer, AnswerText, Ended, refused, usage, with_bytes};
pub use line::{LINE_BYTES, recorded_line, unstable, unstable_line, with_line};
pub use read::{TEXT_LIMIT, read_file};
pub use report_text;
pub use report_text::{trace_compare, vidi_io};
pub use status::{Reason, Status, Word};
pub use trace_v2;
pub use trace_v2::trace_code;
pub use traces::{diverged, diverged_text, trace_of, without_reset};
