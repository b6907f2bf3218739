//! The tokens at the front.

ghost use Rattle.std.specs.Prelude.{◌≡◌, option_map};
ghost use Rattle.vlog_tree.specs.Plain.{plain_ident, plain_sign};
ghost use Rattle.vlog_expr.specs.Marks.{marked, all_marked, is_terminal, after, name_front, number_of, number_front, unary_of, binary_of};
ghost use Rattle.vlog_expr.specs.Reader.{sign_front, binary_front};
ghost use Rattle.vlog_expr.specs.Given.{Gives};

use crate::unread::Unread;
use std::alloc::Global;
use vlog_tree::vidi_bits::copied;
use vlog_tree::vlog_lex::{Token, TokenKind};
use vlog_tree::{BinaryOp, Ident, NumberKind, Sign, Terminal, UnaryOp, level_of};

/// What was read, and the tokens behind it.
pub type Parsed<'a, T> = Result<(T, &'a [Token]), Unread>;

/// Whether the token is this terminal.
fn is_terminal(terminal: Terminal, token: &Token) -> bool
    ensures { result ≡ is_terminal terminal (marked token.now) }
{
    token.kind == terminal.kind() && token.text.as_slice() == terminal.text()
}

/// The line of this terminal at the front, and the tokens behind it.
pub fn after(terminal: Terminal, tokens: &[Token]) -> Option<(u32, &[Token])>
    ensures { option_map (λ r. (r.0, all_marked r.1.now)) result ≡ after terminal (all_marked tokens.now) }
{
    match tokens {
        [first, rest @ ..] if is_terminal(terminal, first) => Some((first.line, rest)),
        _ => None,
    }
}

/// This terminal, which has to stand at the front.
pub fn expect(terminal: Terminal, tokens: &[Token]) -> Parsed<'_, u32>
    ensures { Gives (λ r. (r.0, all_marked r.1.now)) result (after terminal (all_marked tokens.now)) }
{
    match after(terminal, tokens) {
        Some(found) => Ok(found),
        None => Err(Unread::Fault),
    }
}

/// The name, which has to stand at the front.
pub fn name_of(alloc: Global, tokens: &[Token]) -> Parsed<'_, Ident>
    ensures { Gives (λ r. (plain_ident r.0, all_marked r.1.now)) result (name_front (all_marked tokens.now)) }
{
    match tokens {
        [first, rest @ ..] if first.kind == TokenKind::Identifier => {
            let name = copied(alloc, first.text.as_slice())?;
            let line = first.line;
            Ok((Ident { name, line }, rest))
        }
        _ => Err(Unread::Fault),
    }
}

fn number_kind(kind: TokenKind) -> Option<NumberKind>
    ensures { result ≡ number_of kind }
{
    match kind {
        TokenKind::Decimal => Some(NumberKind::Decimal),
        TokenKind::Based => Some(NumberKind::Based),
        _ => None,
    }
}

/// The number at the front, its token and the tokens behind it.
pub fn number_front(tokens: &[Token]) -> Option<(NumberKind, &Token, &[Token])>
    ensures { option_map (λ r. (record { kind = r.0; text = r.1.now.text; line = r.1.now.line }, all_marked r.2.now)) result
        ≡ number_front (all_marked tokens.now) }
{
    let [first, rest @ ..] = tokens else {
        return None;
    };
    let kind = number_kind(first.kind)?;
    Some((kind, first, rest))
}

fn unary_op(token: &Token) -> Option<UnaryOp>
    ensures { result ≡ unary_of token.now.kind token.now.text }
{
    if token.kind != TokenKind::Other {
        return None;
    }
    match token.text.as_slice() {
        b"+" => Some(UnaryOp::Plus),
        b"-" => Some(UnaryOp::Minus),
        b"!" => Some(UnaryOp::LogicalNot),
        b"~" => Some(UnaryOp::BitNot),
        b"&" => Some(UnaryOp::And),
        b"~&" => Some(UnaryOp::Nand),
        b"|" => Some(UnaryOp::Or),
        b"~|" => Some(UnaryOp::Nor),
        b"^" => Some(UnaryOp::Xor),
        b"~^" => Some(UnaryOp::TildeXor),
        b"^~" => Some(UnaryOp::XorTilde),
        _ => None,
    }
}

/// The operator before an operand, and the tokens behind it.
pub fn sign_front(tokens: &[Token]) -> Option<(Sign, &[Token])>
    ensures { option_map (λ r. (plain_sign r.0, all_marked r.1.now)) result ≡ sign_front (all_marked tokens.now) }
{
    let [first, rest @ ..] = tokens else {
        return None;
    };
    let op = unary_op(first)?;
    let line = first.line;
    Some((Sign { op, line }, rest))
}

fn binary_op(token: &Token) -> Option<BinaryOp>
    ensures { result ≡ binary_of token.now.kind token.now.text }
{
    if token.kind != TokenKind::Other {
        return None;
    }
    match token.text.as_slice() {
        b"||" => Some(BinaryOp::LogicalOr),
        b"&&" => Some(BinaryOp::LogicalAnd),
        b"|" => Some(BinaryOp::Or),
        b"^" => Some(BinaryOp::Xor),
        b"^~" => Some(BinaryOp::XorTilde),
        b"~^" => Some(BinaryOp::TildeXor),
        b"&" => Some(BinaryOp::And),
        b"==" => Some(BinaryOp::Equal),
        b"!=" => Some(BinaryOp::NotEqual),
        b"<" => Some(BinaryOp::Less),
        b"<=" => Some(BinaryOp::LessOrEqual),
        b">" => Some(BinaryOp::Greater),
        b">=" => Some(BinaryOp::GreaterOrEqual),
        b"<<" => Some(BinaryOp::ShiftLeft),
        b">>" => Some(BinaryOp::ShiftRight),
        b"<<<" => Some(BinaryOp::ArithmeticShiftLeft),
        b">>>" => Some(BinaryOp::ArithmeticShiftRight),
        b"+" => Some(BinaryOp::Plus),
        b"-" => Some(BinaryOp::Minus),
        b"*" => Some(BinaryOp::Times),
        _ => None,
    }
}

/// The operator of this level between two operands, and the tokens behind it.
pub fn binary_front(level: u32, tokens: &[Token]) -> Option<(BinaryOp, &[Token])>
    ensures { option_map (λ r. (r.0, all_marked r.1.now)) result ≡ binary_front level (all_marked tokens.now) }
{
    let [first, rest @ ..] = tokens else {
        return None;
    };
    let op = binary_op(first)?;
    if level_of(op) == level {
        Some((op, rest))
    } else {
        None
    }
}
