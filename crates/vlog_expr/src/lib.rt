//! The reader of expressions, names with brackets, and targets (IEEE 1364-2005, clauses 5 and A.8, this
//! project's profile).
//!
//! The definitions stand in `specs/`: `Marks` (tokens, and what stands at their front), `Reader` (the
//! grammar's rules as readers on lists of tokens), `Bare` (tokens and trees without their lines) and `Laws`
//! (what is spelled is read, and what is read is spelled).
#![tactic(auto)]

mod expr;
mod front;
mod lawful;
mod laws;
mod parser;
mod target;
mod unread;

pub use expr::{expr_of, ref_of};
pub use front::{Parsed, after, expect, name_of};
pub use lawful::{are_lawful, lawful_len};
pub use laws::{lines_dont_count, one_expr, read_is_spelled, spelled_is_read};
pub use parser::{fuel_for, parse_expression};
pub use target::target_of;
pub use unread::Unread;
pub use vlog_tree::{vidi_bits, vlog_lex};
