//! The tokens of a design text (IEEE 1364-2005, clause 3, this project's profile).
//!
//! The definitions stand in `specs/`: `Lexeme` (the lawful tokens, kind by kind, and the longest at a
//! place), `Gap` (white space, comments and directives' lines) and `Reading` (*Tokens*: a text as
//! gaps and longest tokens, and where neither begins).
#![tactic(auto)]

mod error;
mod gap;
mod lexer;
mod scan;
mod token;
mod words;

pub use error::LexError;
pub use lexer::{is_token, lex, one_reading, one_stuck_line, read_or_stuck};
pub use token::{Token, TokenKind, Tokens};
pub use vidi_bits;
