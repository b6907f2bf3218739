//! The reader of items (IEEE 1364-2005, clauses 6, 9, 12 and A.1 to A.4, this project's profile), on top of
//! that of statements.
//!
//! The definitions stand in `specs/`: `ItemReader` (the grammar's rules as readers on lists of tokens),
//! `BareItem` (items without their lines) and `Laws` (what is spelled is read, and what is read is spelled).
#![tactic(auto)]

mod instance;
mod item;
mod laws;

pub use item::{init_front, item_of, range_front, unboxed};
pub use laws::{lines_dont_count, read_is_spelled, spelled_is_read};
pub use vlog_stmt;
pub use vlog_stmt::{vidi_bits, vlog_expr, vlog_lex};
