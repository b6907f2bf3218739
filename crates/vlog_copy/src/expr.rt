//! Copies of expressions.

ghost use Rattle.std.specs.Prelude.{◌≡◌, IfOk, map};
ghost use Rattle.vlog_tree.specs.Plain.{plain_ident, plain_number, plain_expr, plain_prim, plain_unary, plain_ref, plain_sel};

use std::alloc::Global;
use vlog_tree::vidi_bits::{Items, Memory, copied};
use vlog_tree::{
    Expr, Exprs, Ident, Number, Operand, Ref, Sel, Unary, concat, repeat, see_concat, see_repeat,
};

/// A copy of a name, with its line.
pub fn copy_ident(alloc: Global, id: &Ident) -> Result<Ident, Memory>
    ensures { IfOk result (λ c. plain_ident c ≡ plain_ident id.now) }
{
    let name = copied(alloc, id.name.as_slice())?;
    Ok(Ident {
        name,
        line: id.line,
    })
}

fn copy_number(alloc: Global, n: &Number) -> Result<Number, Memory>
    ensures { IfOk result (λ c. plain_number c ≡ plain_number n.now) }
{
    let text = copied(alloc, n.text.as_slice())?;
    Ok(Number {
        kind: n.kind,
        text,
        line: n.line,
    })
}

/// A copy of an expression, on the heap.
#[cycle(copy)]
pub fn copy_boxed(alloc: Global, e: &Expr) -> Result<Box<Expr>, Memory>
    ensures { IfOk result (λ c. plain_expr c.value ≡ plain_expr e.now) }
{
    let copy = copy_expr(alloc, e)?;
    Ok(Box::new(alloc, copy)?)
}

/// A copy of an expression, with the same lines.
#[cycle(copy)]
pub fn copy_expr(alloc: Global, e: &Expr) -> Result<Expr, Memory>
    ensures { IfOk result (λ c. plain_expr c ≡ plain_expr e.now) }
{
    match e {
        Expr::Unary(unary) => {
            let unary = copy_unary(alloc, unary)?;
            Ok(Expr::Unary(unary))
        }
        Expr::Binary { left, op, right } => {
            let left = copy_boxed(alloc, left)?;
            let right = copy_boxed(alloc, right)?;
            Ok(Expr::Binary {
                left,
                op: *op,
                right,
            })
        }
        Expr::Choice {
            condition,
            then_value,
            else_value,
        } => {
            let condition = copy_boxed(alloc, condition)?;
            let then_value = copy_boxed(alloc, then_value)?;
            let else_value = copy_boxed(alloc, else_value)?;
            Ok(Expr::Choice {
                condition,
                then_value,
                else_value,
            })
        }
    }
}

#[cycle(copy)]
fn copy_unary(alloc: Global, unary: &Unary) -> Result<Unary, Memory>
    ensures { IfOk result (λ c. plain_unary c ≡ plain_unary unary.now) }
{
    let prim = copy_prim(alloc, &unary.prim)?;
    Ok(Unary {
        sign: unary.sign,
        prim,
    })
}

#[cycle(copy)]
fn copy_prim(alloc: Global, prim: &Operand) -> Result<Operand, Memory>
    ensures { IfOk result (λ c. plain_prim c ≡ plain_prim prim.now) }
{
    match prim {
        Operand::Number(number) => {
            let number = copy_number(alloc, number)?;
            Ok(Operand::Number(number))
        }
        Operand::Ref(name) => {
            let name = copy_ref(alloc, name)?;
            Ok(Operand::Ref(name))
        }
        Operand::Paren { line, inner } => {
            let inner = copy_boxed(alloc, inner)?;
            Ok(Operand::Paren { line: *line, inner })
        }
        Operand::Concat { line, parts } => {
            see_concat(*line, parts);
            let parts = copy_exprs(alloc, parts.as_slice())?;
            Ok(concat(*line, parts))
        }
        Operand::Repeat { line, count, parts } => {
            see_repeat(*line, parts);
            let count = copy_boxed(alloc, count)?;
            let parts = copy_exprs(alloc, parts.as_slice())?;
            Ok(repeat(*line, count, parts))
        }
    }
}

/// A copy of a name with its brackets.
#[cycle(copy)]
pub fn copy_ref(alloc: Global, name: &Ref) -> Result<Ref, Memory>
    ensures { IfOk result (λ c. plain_ref c ≡ plain_ref name.now) }
{
    let id = copy_ident(alloc, &name.id)?;
    let index = match &name.index {
        None => None,
        Some(e) => Some(copy_boxed(alloc, e)?),
    };
    let sel = match &name.sel {
        None => None,
        Some(sel) => Some(copy_sel(alloc, sel)?),
    };
    Ok(Ref { id, index, sel })
}

#[cycle(copy)]
fn copy_sel(alloc: Global, sel: &Sel) -> Result<Box<Sel>, Memory>
    ensures { IfOk result (λ c. plain_sel c.value ≡ plain_sel sel.now) }
{
    let copy = match sel {
        Sel::Index(e) => Sel::Index(copy_expr(alloc, e)?),
        Sel::Part { first, second } => {
            let first = copy_expr(alloc, first)?;
            let second = copy_expr(alloc, second)?;
            Sel::Part { first, second }
        }
        Sel::Indexed { base, width } => {
            let base = copy_expr(alloc, base)?;
            let width = copy_expr(alloc, width)?;
            Sel::Indexed { base, width }
        }
    };
    Ok(Box::new(alloc, copy)?)
}

/// Copies of all expressions, in their order.
#[cycle(copy)]
pub fn copy_exprs(alloc: Global, exprs: &[Expr]) -> Result<Exprs, Memory>
    ensures { IfOk result (λ c. map plain_expr c ≡ map plain_expr exprs.now) }
{
    let mut copy = Items::new(alloc);
    for e in exprs {
        let e = copy_expr(alloc, e)?;
        copy.push(e)?;
    }
    Ok(copy)
}
