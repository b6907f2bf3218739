//! Good shape of expressions.

ghost use Rattle.std.specs.Prelude.{◌≡◌, ◌↔◌, IsTrue};
ghost use Rattle.vlog_tree.specs.Plain.{plain_expr, plain_prim, plain_unary, plain_ref, plain_sel, plain_exprs};
ghost use Rattle.vlog_tree.specs.Shape.{level, IsGoodExpr, IsGoodPrim, IsGoodRef, IsGoodSel, AreGoodExprs};

use crate::shape::token::{good_name, good_number};
use vlog_tree::{Expr, Operand, Ref, Sel, Unary, level_of, see_concat, see_repeat};

/// The level of an expression: 0 for `?:`, that of its operator for a binary one, and else 11.
fn level(e: &Expr) -> u32
    ensures { result ≡ level (plain_expr e.now) }
{
    match e {
        Expr::Unary(_) => 11,
        Expr::Binary { op, .. } => level_of(*op),
        Expr::Choice { .. } => 0,
    }
}

#[cycle(good)]
pub fn good_expr(e: &Expr) -> bool
    ensures { IsTrue result ↔ IsGoodExpr (plain_expr e.now) }
{
    match e {
        Expr::Unary(unary) => good_unary(unary),
        Expr::Binary { left, op, right } => {
            level_of(*op) <= level(left)
                && level_of(*op) < level(right)
                && good_expr(left)
                && good_expr(right)
        }
        Expr::Choice {
            condition,
            then_value,
            else_value,
        } => {
            0 < level(condition)
                && good_expr(condition)
                && good_expr(then_value)
                && good_expr(else_value)
        }
    }
}

#[cycle(good)]
fn good_unary(unary: &Unary) -> bool
    ensures { IsTrue result ↔ IsGoodExpr (plain_unary unary.now) }
{
    good_prim(&unary.prim)
}

#[cycle(good)]
fn good_prim(prim: &Operand) -> bool
    ensures { IsTrue result ↔ IsGoodPrim (plain_prim prim.now) }
{
    match prim {
        Operand::Number(number) => good_number(number),
        Operand::Ref(name) => good_ref(name),
        Operand::Paren { line: _, inner } => good_expr(inner),
        Operand::Concat { line, parts } => {
            see_concat(*line, parts);
            good_exprs(parts.as_slice())
        }
        Operand::Repeat { line, count, parts } => {
            see_repeat(*line, parts);
            good_expr(count) && good_exprs(parts.as_slice())
        }
    }
}

#[cycle(good)]
pub fn good_ref(name: &Ref) -> bool
    ensures { IsTrue result ↔ IsGoodRef (plain_ref name.now) }
{
    if !good_name(&name.id.name) {
        return false;
    }
    match (&name.index, &name.sel) {
        (None, None) => true,
        (None, Some(sel)) => good_sel(sel),
        (Some(_), None) => false,
        (Some(index), Some(sel)) => good_expr(index) && good_sel(sel),
    }
}

#[cycle(good)]
fn good_sel(sel: &Sel) -> bool
    ensures { IsTrue result ↔ IsGoodSel (plain_sel sel.now) }
{
    match sel {
        Sel::Index(e) => good_expr(e),
        Sel::Part { first, second } => good_expr(first) && good_expr(second),
        Sel::Indexed { base, width } => good_expr(base) && good_expr(width),
    }
}

#[cycle(good)]
fn good_exprs(exprs: &[Expr]) -> bool
    ensures { IsTrue result ↔ AreGoodExprs (plain_exprs exprs.now) }
{
    match exprs {
        [] => false,
        [first, rest @ ..] => {
            if !good_expr(first) {
                return false;
            }
            for e in rest {
                if !good_expr(e) {
                    return false;
                }
            }
            true
        }
    }
}
