//! Input files as lines of words, and the numbers that words write (this project's profile).
//!
//! The definitions stand in `specs/`: `Lines` (a file's lines, what a comment is, which lines are bad, and their
//! words) and `Number` (what a word writes).
#![tactic(auto)]

mod error;
mod lines;
mod numeral;

pub use error::LineError;
pub use lines::{Line, Lines, Names, ReadLines, each_line, lines_of};
pub use numeral::number;
pub use vidi_bits;
