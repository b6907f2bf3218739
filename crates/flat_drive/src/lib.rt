//! E8 over a file's instances: each bit of a wire has exactly one driver, and a reg or a memory is written by at most one always block.
//!
//! `specs/Findings` says E8 as the list of all its findings in the instances. `specs/Kinds` says what kind each net of the flat design is,
//! and `specs/Reasons` what is found in it, by full names.
#![tactic(auto)]

mod check;
mod full_names;
mod laws;
mod pins;

pub use check::check_drive;
pub use flat_parts::{vlog_elab, vlog_names, vlog_size};
pub use laws::findings_are_the_files;
pub use pins::kinds;
