//! Expressions spelled as tokens.

ghost use Rattle.std.specs.Prelude.{◌≡◌, [], ◌++◌, OnOk, option_map};
ghost use Rattle.vlog_tree.specs.Words.{tokens_of};
ghost use Rattle.vlog_tree.specs.Plain.{plain_sign, plain_expr, plain_prim, plain_unary, plain_ref, plain_sel, plain_exprs};
ghost use Rattle.vlog_tree.specs.Spelling.{unary_terminal, binary_terminal, sign_words, expr_words, prim_words, ref_words, sel_words};
ghost use Rattle.vlog_tree.specs.Spelling.{exprs_words};

use crate::spelling::token::{put_fixed, put_name, put_number, put_two};
use std::alloc::Global;
use vlog_parse::vidi_bits::Memory;
use vlog_parse::vlog_lex::Tokens;
use vlog_tree::{
    BinaryOp, Expr, Operand, Ref, Sel, Sign, Terminal, Unary, UnaryOp, see_concat, see_repeat,
};

fn unary_terminal(op: UnaryOp) -> Terminal
    ensures { result ≡ unary_terminal op }
{
    match op {
        UnaryOp::Plus => Terminal::Plus,
        UnaryOp::Minus => Terminal::Minus,
        UnaryOp::LogicalNot => Terminal::Bang,
        UnaryOp::BitNot => Terminal::Tilde,
        UnaryOp::And => Terminal::Ampersand,
        UnaryOp::Nand => Terminal::TildeAmpersand,
        UnaryOp::Or => Terminal::Bar,
        UnaryOp::Nor => Terminal::TildeBar,
        UnaryOp::Xor => Terminal::Caret,
        UnaryOp::TildeXor => Terminal::TildeCaret,
        UnaryOp::XorTilde => Terminal::CaretTilde,
    }
}

fn binary_terminal(op: BinaryOp) -> Terminal
    ensures { result ≡ binary_terminal op }
{
    match op {
        BinaryOp::LogicalOr => Terminal::BarBar,
        BinaryOp::LogicalAnd => Terminal::AmpersandAmpersand,
        BinaryOp::Or => Terminal::Bar,
        BinaryOp::Xor => Terminal::Caret,
        BinaryOp::XorTilde => Terminal::CaretTilde,
        BinaryOp::TildeXor => Terminal::TildeCaret,
        BinaryOp::And => Terminal::Ampersand,
        BinaryOp::Equal => Terminal::EqualsEquals,
        BinaryOp::NotEqual => Terminal::BangEquals,
        BinaryOp::Less => Terminal::Less,
        BinaryOp::LessOrEqual => Terminal::LessEquals,
        BinaryOp::Greater => Terminal::Greater,
        BinaryOp::GreaterOrEqual => Terminal::GreaterEquals,
        BinaryOp::ShiftLeft => Terminal::LessLess,
        BinaryOp::ShiftRight => Terminal::GreaterGreater,
        BinaryOp::ArithmeticShiftLeft => Terminal::LessLessLess,
        BinaryOp::ArithmeticShiftRight => Terminal::GreaterGreaterGreater,
        BinaryOp::Plus => Terminal::Plus,
        BinaryOp::Minus => Terminal::Minus,
        BinaryOp::Times => Terminal::Star,
    }
}

fn push_sign(alloc: Global, out: &mut Tokens, sign: Option<Sign>) -> Result<(), Memory>
    ensures { OnOk result (out.new ≡ out.old ++ tokens_of (sign_words (option_map plain_sign sign))) }
{
    match sign {
        None => Ok(()),
        Some(sign) => put_fixed(alloc, out, unary_terminal(sign.op)),
    }
}

#[cycle(push)]
pub fn push_expr(alloc: Global, out: &mut Tokens, e: &Expr) -> Result<(), Memory>
    ensures { OnOk result (out.new ≡ out.old ++ tokens_of (expr_words (plain_expr e.now))) }
{
    match e {
        Expr::Unary(unary) => push_unary(alloc, out, unary),
        Expr::Binary { left, op, right } => {
            push_expr(alloc, out, left)?;
            put_fixed(alloc, out, binary_terminal(*op))?;
            push_expr(alloc, out, right)
        }
        Expr::Choice {
            condition,
            then_value,
            else_value,
        } => {
            push_expr(alloc, out, condition)?;
            put_fixed(alloc, out, Terminal::Question)?;
            push_expr(alloc, out, then_value)?;
            put_fixed(alloc, out, Terminal::Colon)?;
            push_expr(alloc, out, else_value)
        }
    }
}

#[cycle(push)]
fn push_unary(alloc: Global, out: &mut Tokens, unary: &Unary) -> Result<(), Memory>
    ensures { OnOk result (out.new ≡ out.old ++ tokens_of (expr_words (plain_unary unary.now))) }
{
    push_sign(alloc, out, unary.sign)?;
    push_prim(alloc, out, &unary.prim)
}

#[cycle(push)]
fn push_prim(alloc: Global, out: &mut Tokens, prim: &Operand) -> Result<(), Memory>
    ensures { OnOk result (out.new ≡ out.old ++ tokens_of (prim_words (plain_prim prim.now))) }
{
    match prim {
        Operand::Number(number) => put_number(alloc, out, number),
        Operand::Ref(name) => push_ref(alloc, out, name),
        Operand::Paren { line: _, inner } => {
            put_fixed(alloc, out, Terminal::ParenOpen)?;
            push_expr(alloc, out, inner)?;
            put_fixed(alloc, out, Terminal::ParenClose)
        }
        Operand::Concat { line, parts } => {
            see_concat(*line, parts);
            put_fixed(alloc, out, Terminal::BraceOpen)?;
            push_exprs(alloc, out, parts.as_slice())?;
            put_fixed(alloc, out, Terminal::BraceClose)
        }
        Operand::Repeat { line, count, parts } => {
            see_repeat(*line, parts);
            put_fixed(alloc, out, Terminal::BraceOpen)?;
            push_expr(alloc, out, count)?;
            put_fixed(alloc, out, Terminal::BraceOpen)?;
            push_exprs(alloc, out, parts.as_slice())?;
            put_two(alloc, out, Terminal::BraceClose, Terminal::BraceClose)
        }
    }
}

#[cycle(push)]
pub fn push_ref(alloc: Global, out: &mut Tokens, name: &Ref) -> Result<(), Memory>
    ensures { OnOk result (out.new ≡ out.old ++ tokens_of (ref_words (plain_ref name.now))) }
{
    put_name(alloc, out, &name.id.name)?;
    if let Some(index) = &name.index {
        put_fixed(alloc, out, Terminal::BracketOpen)?;
        push_expr(alloc, out, index)?;
        put_fixed(alloc, out, Terminal::BracketClose)?;
    }
    if let Some(sel) = &name.sel {
        put_fixed(alloc, out, Terminal::BracketOpen)?;
        push_sel(alloc, out, sel)?;
        put_fixed(alloc, out, Terminal::BracketClose)?;
    }
    Ok(())
}

#[cycle(push)]
fn push_sel(alloc: Global, out: &mut Tokens, sel: &Sel) -> Result<(), Memory>
    ensures { OnOk result (out.new ≡ out.old ++ tokens_of (sel_words (plain_sel sel.now))) }
{
    match sel {
        Sel::Index(e) => push_expr(alloc, out, e),
        Sel::Part { first, second } => {
            push_expr(alloc, out, first)?;
            put_fixed(alloc, out, Terminal::Colon)?;
            push_expr(alloc, out, second)
        }
        Sel::Indexed { base, width } => {
            push_expr(alloc, out, base)?;
            put_fixed(alloc, out, Terminal::PlusColon)?;
            push_expr(alloc, out, width)
        }
    }
}

#[cycle(push)]
fn push_exprs(alloc: Global, out: &mut Tokens, exprs: &[Expr]) -> Result<(), Memory>
    ensures { OnOk result (out.new ≡ out.old ++ tokens_of (exprs_words (plain_exprs exprs.now))) }
{
    match exprs {
        [] => Ok(()),
        [first, rest @ ..] => {
            push_expr(alloc, out, first)?;
            for e in rest {
                put_fixed(alloc, out, Terminal::Comma)?;
                push_expr(alloc, out, e)?;
            }
            Ok(())
        }
    }
}
