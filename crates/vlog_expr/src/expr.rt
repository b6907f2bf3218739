//! The reader of expressions.

ghost use Rattle.std.specs.Prelude.{◌≡◌, ◌≤◌, ◌<◌, ◌+◌, ◌-◌, ◌^◌, ℕ, Some, [], ◌∷◌, map};
ghost use Rattle.vlog_tree.specs.Tree.{ExprOf, BinaryExpr};
ghost use Rattle.vlog_tree.specs.Plain.{plain_ident, plain_expr, plain_prim, plain_ref, plain_sel};
ghost use Rattle.vlog_expr.specs.Marks.{Toks, all_marked};
ghost use Rattle.vlog_expr.specs.Reader.{◌>>=◌ as bind, expr_at, choice_at, binary_at, climb_at, chain_at, unary_at, prim_at, paren_at};
ghost use Rattle.vlog_expr.specs.Reader.{concat_at, repeat_at, parts_at, ref_at, second_at, sel_at, bounds_at, index_of};
ghost use Rattle.vlog_expr.specs.Given.{Gives};

use crate::front::{Parsed, after, binary_front, expect, name_of, number_front, sign_front};
use crate::unread::Unread;
use std::alloc::Global;
use vlog_tree::vidi_bits::copied;
use vlog_tree::vlog_lex::Token;
use vlog_tree::{
    BinaryOp, Expr, Exprs, Ident, Number, Operand, Ref, Sel, Terminal, Unary, concat, repeat,
};

/// The level of an operand with its operator, above all binary operators.
const UNARY: u32 = 11;

/// The expression on the heap.
fn boxed(alloc: Global, e: Expr) -> Result<Box<Expr>, Unread>
    ensures { Gives (λ b. b.value) result (Some e) }
{
    Ok(Box::new(alloc, e)?)
}

/// What stands in a bracket, on the heap.
fn boxed_sel(alloc: Global, sel: Sel) -> Result<Box<Sel>, Unread>
    ensures { Gives (λ b. b.value) result (Some sel) }
{
    Ok(Box::new(alloc, sel)?)
}

/// An expression.
#[cycle(reader)]
pub fn expr_of(alloc: Global, tokens: &[Token], fuel: usize) -> Parsed<'_, Expr>
    ensures { Gives (λ x. (plain_expr x.0, all_marked x.1.now)) result (expr_at fuel (all_marked tokens.now)) }
{
    if fuel == 0 {
        return Err(Unread::Fault);
    }
    let (condition, rest) = binary_of(alloc, tokens, 1, fuel - 1)?;
    choice_of(alloc, condition, rest, fuel - 1)
}

/// The rest of a choice, where a `?` follows its condition.
#[cycle(reader)]
fn choice_of(alloc: Global, condition: Expr, tokens: &[Token], fuel: usize) -> Parsed<'_, Expr>
    ensures { Gives (λ x. (plain_expr x.0, all_marked x.1.now)) result (choice_at fuel (plain_expr condition) (all_marked tokens.now)) }
{
    if fuel == 0 {
        return Err(Unread::Fault);
    }
    let Some((_, rest)) = after(Terminal::Question, tokens) else {
        return Ok((condition, tokens));
    };
    let condition = boxed(alloc, condition)?;
    let (then_value, rest) = expr_of(alloc, rest, fuel - 1)?;
    let then_value = boxed(alloc, then_value)?;
    let (_, rest) = expect(Terminal::Colon, rest)?;
    let (else_value, rest) = expr_of(alloc, rest, fuel - 1)?;
    let else_value = boxed(alloc, else_value)?;
    let choice = Expr::Choice {
        condition,
        then_value,
        else_value,
    };
    Ok((choice, rest))
}

/// An expression of at least this level, 1 to 11.
#[cycle(reader)]
fn binary_of(alloc: Global, tokens: &[Token], level: u32, fuel: usize) -> Parsed<'_, Expr>
    requires { level ≤ 11 }
    ensures { Gives (λ x. (plain_expr x.0, all_marked x.1.now)) result (binary_at fuel level (all_marked tokens.now)) }
{
    let levels = (UNARY - level) as usize;
    if fuel <= levels {
        return Err(Unread::Fault);
    }
    let base = fuel - levels - 1;
    match unary_of(alloc, tokens, base) {
        Ok((operand, rest)) => climb_of(alloc, operand, rest, level, base),
        Err(unread) => Err(unread),
    }
}

/// The operators that follow an operand, from the highest level down to this one.
#[cycle(reader)]
fn climb_of(
    alloc: Global,
    operand: Expr,
    tokens: &[Token],
    level: u32,
    base: usize,
) -> Parsed<'_, Expr>
    requires level { level ≤ 11 }
    requires base { base + (11 - level) < 2 ^ 64 }
    ensures { Gives (λ x. (plain_expr x.0, all_marked x.1.now)) result
        (climb_at base 10 (11 - level) (plain_expr operand, all_marked tokens.now)) }
{
    let mut left = operand;
    let mut rest = tokens;
    let mut fuel = base;
    let mut at = UNARY;
    while at > level {
        at -= 1;
        fuel += 1;
        match binary_front(at, rest) {
            Some((op, behind)) => {
                let (more, behind) = chain_of(alloc, left, op, behind, at, fuel - 1)?;
                left = more;
                rest = behind;
            }
            None => {}
        }
    }
    Ok((left, rest))
}

/// The right operand of this operator, and the operators of its level that follow, from the left.
#[cycle(reader)]
fn chain_of(
    alloc: Global,
    left: Expr,
    op: BinaryOp,
    tokens: &[Token],
    level: u32,
    fuel: usize,
) -> Parsed<'_, Expr>
    requires { level ≤ 10 }
    ensures { Gives {Y = ExprOf ℕ × Toks ℕ} (λ x. (plain_expr x.0, all_marked x.1.now)) result
        (bind (binary_at fuel (level + 1) (all_marked tokens.now)) (λ b. chain_at fuel level (BinaryExpr (plain_expr left) op b.0) b.1)) }
{
    if fuel == 0 {
        return Err(Unread::Fault);
    }
    let left = boxed(alloc, left)?;
    let (right, rest) = binary_of(alloc, tokens, level + 1, fuel)?;
    let right = boxed(alloc, right)?;
    let both = Expr::Binary { left, op, right };
    match binary_front(level, rest) {
        Some((op, rest)) => chain_of(alloc, both, op, rest, level, fuel - 1),
        None => Ok((both, rest)),
    }
}

/// An operand, perhaps with an operator before it.
#[cycle(reader)]
fn unary_of(alloc: Global, tokens: &[Token], fuel: usize) -> Parsed<'_, Expr>
    ensures { Gives (λ x. (plain_expr x.0, all_marked x.1.now)) result (unary_at fuel (all_marked tokens.now)) }
{
    if fuel == 0 {
        return Err(Unread::Fault);
    }
    let Some((sign, rest)) = sign_front(tokens) else {
        let (prim, rest) = prim_of(alloc, tokens, fuel - 1)?;
        return Ok((Expr::Unary(Unary { sign: None, prim }), rest));
    };
    let (prim, rest) = prim_of(alloc, rest, fuel - 1)?;
    let sign = Some(sign);
    Ok((Expr::Unary(Unary { sign, prim }), rest))
}

/// An operand.
#[cycle(reader)]
fn prim_of(alloc: Global, tokens: &[Token], fuel: usize) -> Parsed<'_, Operand>
    ensures { Gives (λ x. (plain_prim x.0, all_marked x.1.now)) result (prim_at fuel (all_marked tokens.now)) }
{
    if fuel == 0 {
        return Err(Unread::Fault);
    }
    if let Some((kind, token, rest)) = number_front(tokens) {
        let text = copied(alloc, token.text.as_slice())?;
        let line = token.line;
        return Ok((Operand::Number(Number { kind, text, line }), rest));
    }
    if let Some((line, rest)) = after(Terminal::ParenOpen, tokens) {
        return paren_of(alloc, line, rest, fuel - 1);
    }
    if let Some((line, rest)) = after(Terminal::BraceOpen, tokens) {
        return concat_of(alloc, line, rest, fuel - 1);
    }
    let (name, rest) = ref_of(alloc, tokens, fuel - 1)?;
    Ok((Operand::Ref(name), rest))
}

/// What stands behind `(`.
#[cycle(reader)]
fn paren_of(alloc: Global, line: u32, tokens: &[Token], fuel: usize) -> Parsed<'_, Operand>
    ensures { Gives (λ x. (plain_prim x.0, all_marked x.1.now)) result (paren_at fuel line (all_marked tokens.now)) }
{
    if fuel == 0 {
        return Err(Unread::Fault);
    }
    let (inner, rest) = expr_of(alloc, tokens, fuel - 1)?;
    let inner = boxed(alloc, inner)?;
    let (_, rest) = expect(Terminal::ParenClose, rest)?;
    Ok((Operand::Paren { line, inner }, rest))
}

/// What stands behind `{`: the parts of a concatenation, or the count of a replication and what it repeats.
#[cycle(reader)]
fn concat_of(alloc: Global, line: u32, tokens: &[Token], fuel: usize) -> Parsed<'_, Operand>
    ensures { Gives (λ x. (plain_prim x.0, all_marked x.1.now)) result (concat_at fuel line (all_marked tokens.now)) }
{
    if fuel == 0 {
        return Err(Unread::Fault);
    }
    let (first, rest) = expr_of(alloc, tokens, fuel - 1)?;
    if let Some((_, rest)) = after(Terminal::BraceOpen, rest) {
        let count = boxed(alloc, first)?;
        return repeat_of(alloc, line, count, rest, fuel - 1);
    }
    let (parts, rest) = parts_of(alloc, first, rest, fuel - 1)?;
    let (_, rest) = expect(Terminal::BraceClose, rest)?;
    Ok((concat(line, parts), rest))
}

/// What a replication repeats, behind its count and `{`.
#[cycle(reader)]
fn repeat_of(
    alloc: Global,
    line: u32,
    count: Box<Expr>,
    tokens: &[Token],
    fuel: usize,
) -> Parsed<'_, Operand>
    ensures { Gives (λ x. (plain_prim x.0, all_marked x.1.now)) result
        (repeat_at fuel line (plain_expr count.value) (all_marked tokens.now)) }
{
    if fuel == 0 {
        return Err(Unread::Fault);
    }
    let (first, rest) = expr_of(alloc, tokens, fuel - 1)?;
    let (parts, rest) = parts_of(alloc, first, rest, fuel - 1)?;
    let (_, inner) = expect(Terminal::BraceClose, rest)?;
    let (_, rest) = expect(Terminal::BraceClose, inner)?;
    Ok((repeat(line, count, parts), rest))
}

/// This part and those that follow it, each behind a comma.
#[cycle(reader)]
#[tactic(auto, using(crate::proofs::Maps::exprs_snoc))]
fn parts_of(alloc: Global, first: Expr, tokens: &[Token], fuel: usize) -> Parsed<'_, Exprs>
    ensures { Gives (λ x. (map plain_expr x.0, all_marked x.1.now)) result
        (parts_at fuel (plain_expr first ∷ []) (all_marked tokens.now)) }
{
    let mut parts = Exprs::new(alloc);
    parts.push(first)?;
    let mut rest = tokens;
    let mut left = fuel;
    while left > 0 {
        left -= 1;
        let Some((_, behind)) = after(Terminal::Comma, rest) else {
            return Ok((parts, rest));
        };
        let (part, behind) = expr_of(alloc, behind, left)?;
        parts.push(part)?;
        rest = behind;
    }
    Err(Unread::Fault)
}

/// A name with at most two brackets.
#[cycle(reader)]
pub fn ref_of(alloc: Global, tokens: &[Token], fuel: usize) -> Parsed<'_, Ref>
    ensures { Gives (λ x. (plain_ref x.0, all_marked x.1.now)) result (ref_at fuel (all_marked tokens.now)) }
{
    if fuel == 0 {
        return Err(Unread::Fault);
    }
    let (id, rest) = name_of(alloc, tokens)?;
    let Some((_, behind)) = after(Terminal::BracketOpen, rest) else {
        return Ok((
            Ref {
                id,
                index: None,
                sel: None,
            },
            rest,
        ));
    };
    let (first, behind) = sel_of(alloc, behind, fuel - 1)?;
    let (_, behind) = expect(Terminal::BracketClose, behind)?;
    second_of(alloc, id, first, behind, fuel - 1)
}

/// The expression of a bracket that holds one alone.
fn index_of(alloc: Global, sel: Box<Sel>) -> Result<Box<Expr>, Unread>
    ensures { Gives (λ b. plain_expr b.value) result (index_of (plain_sel sel.value)) }
{
    match Box::into_inner(sel) {
        Sel::Index(e) => boxed(alloc, e),
        Sel::Part {
            first: _,
            second: _,
        } => Err(Unread::Fault),
        Sel::Indexed { base: _, width: _ } => Err(Unread::Fault),
    }
}

/// The second bracket of a name, where one follows the first.
#[cycle(reader)]
fn second_of(
    alloc: Global,
    id: Ident,
    first: Box<Sel>,
    tokens: &[Token],
    fuel: usize,
) -> Parsed<'_, Ref>
    ensures { Gives (λ x. (plain_ref x.0, all_marked x.1.now)) result (second_at fuel (plain_ident id) (plain_sel first.value)
        (all_marked tokens.now)) }
{
    if fuel == 0 {
        return Err(Unread::Fault);
    }
    let Some((_, rest)) = after(Terminal::BracketOpen, tokens) else {
        let sel = Some(first);
        let index = None;
        return Ok((Ref { id, index, sel }, tokens));
    };
    let index = index_of(alloc, first)?;
    let (last, rest) = sel_of(alloc, rest, fuel - 1)?;
    let (_, rest) = expect(Terminal::BracketClose, rest)?;
    let index = Some(index);
    let sel = Some(last);
    Ok((Ref { id, index, sel }, rest))
}

/// What stands in a bracket.
#[cycle(reader)]
fn sel_of(alloc: Global, tokens: &[Token], fuel: usize) -> Parsed<'_, Box<Sel>>
    ensures { Gives (λ x. (plain_sel x.0.value, all_marked x.1.now)) result (sel_at fuel (all_marked tokens.now)) }
{
    if fuel == 0 {
        return Err(Unread::Fault);
    }
    let (first, rest) = expr_of(alloc, tokens, fuel - 1)?;
    bounds_of(alloc, first, rest, fuel - 1)
}

/// What follows the first expression in a bracket.
#[cycle(reader)]
fn bounds_of(alloc: Global, first: Expr, tokens: &[Token], fuel: usize) -> Parsed<'_, Box<Sel>>
    ensures { Gives (λ x. (plain_sel x.0.value, all_marked x.1.now)) result (bounds_at fuel (plain_expr first) (all_marked tokens.now)) }
{
    if fuel == 0 {
        return Err(Unread::Fault);
    }
    if let Some((_, rest)) = after(Terminal::Colon, tokens) {
        let (second, rest) = expr_of(alloc, rest, fuel - 1)?;
        return Ok((boxed_sel(alloc, Sel::Part { first, second })?, rest));
    }
    if let Some((_, rest)) = after(Terminal::PlusColon, tokens) {
        let (width, rest) = expr_of(alloc, rest, fuel - 1)?;
        let sel = Sel::Indexed { base: first, width };
        return Ok((boxed_sel(alloc, sel)?, rest));
    }
    Ok((boxed_sel(alloc, Sel::Index(first))?, tokens))
}
