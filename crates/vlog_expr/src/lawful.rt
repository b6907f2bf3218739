//! Names and numbers that are lawful tokens.

ghost use Rattle.std.specs.Prelude.{◌≡◌, ◌≤◌, ◌↔◌, IsTrue, length, take, drop};
ghost use Rattle.vlog_expr.specs.Marks.{IsLawfulText, all_marked, AreLawful};
ghost use Rattle.vlog_expr.specs.Lawful.{IsUnlawful};

use vlog_tree::vlog_lex::{Token, TokenKind, is_token};

/// Whether the token, where it is a name or a number, is a lawful one.
fn is_lawful(token: &Token) -> bool
    ensures { IsTrue result ↔ IsLawfulText token.now.kind token.now.text }
{
    match token.kind {
        TokenKind::Identifier => is_token(TokenKind::Identifier, token.text.as_slice()),
        TokenKind::Decimal => is_token(TokenKind::Decimal, token.text.as_slice()),
        TokenKind::Based => is_token(TokenKind::Based, token.text.as_slice()),
        TokenKind::Reserved | TokenKind::Other => true,
    }
}

/// Whether each name and each number among the tokens is a lawful one.
pub fn are_lawful(tokens: &[Token]) -> bool
    ensures { IsTrue result ↔ AreLawful (all_marked tokens.now) }
{
    for token in tokens {
        if !is_lawful(token) {
            return false;
        }
    }
    true
}

/// The number of tokens before the first name or number that isn't a lawful one.
pub fn lawful_len(tokens: &[Token]) -> usize
    ensures range { result ≤ length tokens.now }
    ensures lawful { AreLawful (all_marked (take result tokens.now)) }
    ensures unlawful { IsUnlawful (all_marked (drop result tokens.now)) }
{
    let mut len = 0;
    for token in tokens {
        if !is_lawful(token) {
            return len;
        }
        len += 1;
    }
    len
}
