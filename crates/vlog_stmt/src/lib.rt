//! The reader of lists with commas and of statements (IEEE 1364-2005, clauses 9 and A.6, this project's
//! profile), on top of that of expressions.
//!
//! The definitions stand in `specs/`: `StmtReader` (the grammar's rules as readers on lists of tokens),
//! `BareStmt` (statements without their lines) and `Laws` (what is spelled is read, and what is read is
//! spelled).
#![tactic(auto)]

mod laws;
mod listed;
mod stmt;

pub use laws::{lines_dont_count, read_is_spelled, spelled_is_read};
pub use listed::{ListReader, more_of, some_of};
pub use stmt::body_of;
pub use vlog_expr;
pub use vlog_expr::{vidi_bits, vlog_lex};
