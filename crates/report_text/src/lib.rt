//! Printed texts, piece by piece: the lines of traces, findings and refusals. `specs/` spells them.
//!
//! A long text is printed on a `Page` of `text_page`.
#![tactic(auto)]

mod reason;
mod report;
mod row_lines;
mod short;
mod text;
mod trace_lines;
mod trace_text;

pub use reason::{Lack, Reason, Word, read_fault_line, reason_line};
pub use report::report_lines;
pub use row_lines::{RunLines, rows_text};
pub use run_model;
pub use run_model::vidi_lines;
pub use short::short_lines;
pub use text::{put, put_number};
pub use text_page::{Draft, Pad, Page, print_number, print_numbers, vidi_io};
pub use trace_compare;
pub use trace_lines::{TraceLines, dump_text};
