//! The reader of design texts (IEEE 1364-2005, this project's profile), on top of that of items.
//!
//! The definitions stand in `specs/`: `Parsing` (what `parse` owes), `Depth` (the limits of nesting and
//! length), and below them `FileReader` and `UnitReader` (the grammar's rules as readers on lists of
//! tokens), `FileLaws` (what is spelled is read, and what is read is spelled) and `Units` (the whole units
//! of a design text).
#![tactic(auto)]

mod depth;
mod error;
mod laws;
mod module;
mod parameter;
mod parser;
mod units;

pub use error::ParseError;
pub use laws::{
    lined_files_are_files, lines_dont_count, one_depth, one_file, one_item_line, one_lined_file,
    read_is_spelled, spelled_is_read, units_are_spelled,
};
pub use parser::parse;
pub use vlog_item::{vidi_bits, vlog_expr, vlog_lex};
