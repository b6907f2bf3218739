//! Tokens and their kinds.

use vidi_bits::{Items, Name};

/// The kinds of tokens (IEEE 1364-2005, clause 3).
#[derive(Clone, Copy, Debug, PartialEq, Eq)]
pub enum TokenKind {
    /// A name that is no reserved word.
    Identifier,
    /// A reserved word.
    Reserved,
    /// A decimal number without size and base.
    Decimal,
    /// A number with a base, and perhaps a size.
    Based,
    /// An operator or punctuation.
    Other,
}

/// A token of a design text.
#[derive(Debug, Drop)]
pub struct Token {
    pub kind: TokenKind,
    /// The bytes of the token as they stand in the text.
    pub text: Name,
    /// 1 plus the number of newlines before it.
    pub line: u32,
}

/// A list of tokens, in the order of the text.
pub type Tokens = Items<Token>;
