//! The tokens of a text.

ghost use Rattle.std.specs.Prelude.{◌≡◌, ◌≢◌, ◌<◌, ◌^◌, ◌↔◌, ℕ, List, IsTrue, IfOk, IsErr, MatchOption, MatchResult, length};
ghost use Rattle.vlog_lex.specs.declared.token.Token.{Token};
ghost use Rattle.vlog_lex.specs.declared.token.TokenKind.{TokenKind};
ghost use Rattle.vlog_lex.specs.declared.error.LexError.{LexError};
ghost use Rattle.vlog_lex.specs.Lexeme.{IsToken};
ghost use Rattle.vlog_lex.specs.Reading.{newlines, HasTokens, IsStuck, Lexes, OneReading, OneStuckLine, ReadOrStuck};

use crate::error::LexError;
use crate::gap::gap_len;
use crate::scan::next_token;
use crate::token::{Token, TokenKind, Tokens};
use std::alloc::Global;
use vidi_bits::{Memory, copied};

/// The number of newlines.
fn newlines(text: &[u8]) -> u32
    requires { length text.now < 2 ^ 31 }
    ensures { result ≡ newlines text.now }
{
    text.iter().filter(|b| **b == b'\n').count() as u32
}

/// A token with a copy of this text.
fn token_of(alloc: Global, kind: TokenKind, text: &[u8], line: u32) -> Result<Token, Memory>
    ensures { IfOk result (λ t. t ≡ record { kind = kind; text = text.now; line = line }) }
{
    let text = copied(alloc, text)?;
    Ok(Token { kind, text, line })
}

/// The tokens of a design text, without white space and comments (IEEE 1364-2005, clause 3).
///
/// `Word` comes exactly where at some place neither a token nor white space nor a comment begins, with the
/// line of that place, 1 plus the newlines before it; `Memory` where no memory was found. Each byte is read a bounded number of times.
pub fn lex(alloc: Global, bytes: &[u8]) -> Result<Tokens, LexError>
    requires { length bytes.now < 2 ^ 31 }
    ensures answer { Lexes bytes.now result }
    // Without want of memory, these tokens are answered and no others, and a text without tokens is refused.
    ensures only { (tokens : List Token) → HasTokens bytes.now tokens
        → MatchResult result (λ got. got ≡ tokens) (λ e. e ≡ LexError.Memory) }
    ensures stuck { IsStuck bytes.now → IsErr result }
{
    let mut tokens = Tokens::new(alloc);
    let mut rest = bytes;
    let mut line: u32 = 1;
    while !rest.is_empty() {
        let gap = gap_len(rest);
        if gap > 0 {
            line += newlines(&rest[..gap]);
            rest = &rest[gap..];
        } else {
            let Some((kind, len)) = next_token(rest) else {
                return Err(LexError::Word { line });
            };
            let token = token_of(alloc, kind, &rest[..len], line)?;
            tokens.push(token)?;
            rest = &rest[len..];
        }
    }
    Ok(tokens)
}

/// The kind of token that the whole text is, `None` where it is no token.
pub fn kind_of(text: &[u8]) -> Option<TokenKind>
    ensures { MatchOption result ((kind : TokenKind) → ¬ IsToken kind text.now) (λ kind. IsToken kind text.now) }
{
    let (kind, len) = next_token(text)?;
    if len == text.len() { Some(kind) } else { None }
}

/// Whether the text is a token of this kind.
#[tactic(auto, using(crate::proofs::Longest::one_kind))]
pub fn is_token(kind: TokenKind, text: &[u8]) -> bool
    ensures { IsTrue result ↔ IsToken kind text.now }
{
    match kind_of(text) {
        Some(found) => found == kind,
        None => false,
    }
}

/// No text has two lists of tokens.
pub fn one_reading()
    ensures { OneReading }
{}

/// A text is refused for one line.
pub fn one_stuck_line()
    ensures { OneStuckLine }
{}

/// No text both has tokens and is refused.
pub fn read_or_stuck()
    ensures { ReadOrStuck }
{}
