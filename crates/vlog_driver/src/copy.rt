//! Copies of expressions, and the targets that expressions have the form of.

ghost use Rattle.std.specs.Prelude.{◌≡◌, IfOk, OnOk, IfSome, option_map, map};
ghost use Rattle.vlog_tree.specs.Plain.{plain_expr, plain_exprs, plain_prim, plain_ref, plain_sel, plain_unary, plain_target};
ghost use Rattle.vlog_tree.specs.Plain.{plain_targets, plain_ident, plain_number, plain_index, plain_last};
ghost use Rattle.vlog_tree.specs.declared.expr.Ref.{back-Ref-index, back-Ref-sel};
ghost use Rattle.vlog_driver.specs.Items.{target_of, target_of_prim, targets_of};

use net_drive::vidi_bits::{Items, Memory, copied};
use std::alloc::Global;
use std::boxed::Box;
use vlog_tree::{
    Expr, Exprs, Ident, Number, Operand, Ref, Sel, Target, Targets, Unary, concat, concat_target,
    repeat, see_concat, see_repeat,
};

fn copied_ident(alloc: Global, id: &Ident) -> Result<Ident, Memory>
    ensures { IfOk result (λ c. plain_ident c ≡ plain_ident id.now) }
{
    let name = copied(alloc, id.name.as_slice())?;
    Ok(Ident {
        name,
        line: id.line,
    })
}

fn copied_number(alloc: Global, n: &Number) -> Result<Number, Memory>
    ensures { IfOk result (λ c. plain_number c ≡ plain_number n.now) }
{
    let text = copied(alloc, n.text.as_slice())?;
    Ok(Number {
        kind: n.kind,
        text,
        line: n.line,
    })
}

#[cycle(copies)]
fn copied_expr(alloc: Global, e: &Expr) -> Result<Box<Expr>, Memory>
    ensures { IfOk result (λ c. plain_expr c.value ≡ plain_expr e.now) }
{
    match e {
        Expr::Unary(unary) => {
            let prim = copied_prim(alloc, &unary.prim)?;
            let sign = unary.sign;
            Ok(Box::new(alloc, Expr::Unary(Unary { sign, prim }))?)
        }
        Expr::Binary { left, op, right } => {
            let left = copied_expr(alloc, left)?;
            let right = copied_expr(alloc, right)?;
            let op = *op;
            Ok(Box::new(alloc, Expr::Binary { left, op, right })?)
        }
        Expr::Choice {
            condition,
            then_value,
            else_value,
        } => {
            let condition = copied_expr(alloc, condition)?;
            let then_value = copied_expr(alloc, then_value)?;
            let else_value = copied_expr(alloc, else_value)?;
            Ok(Box::new(
                alloc,
                Expr::Choice {
                    condition,
                    then_value,
                    else_value,
                },
            )?)
        }
    }
}

#[cycle(copies)]
fn copied_prim(alloc: Global, prim: &Operand) -> Result<Operand, Memory>
    ensures { IfOk result (λ c. plain_prim c ≡ plain_prim prim.now) }
{
    match prim {
        Operand::Number(n) => Ok(Operand::Number(copied_number(alloc, n)?)),
        Operand::Ref(name) => Ok(Operand::Ref(copied_ref(alloc, name)?)),
        Operand::Paren { line, inner } => {
            let inner = copied_expr(alloc, inner)?;
            Ok(Operand::Paren { line: *line, inner })
        }
        Operand::Concat { line, parts } => {
            see_concat(*line, parts);
            let copies = copied_exprs(alloc, parts.as_slice())?;
            Ok(concat(*line, copies))
        }
        Operand::Repeat { line, count, parts } => {
            see_repeat(*line, parts);
            let count = copied_expr(alloc, count)?;
            let copies = copied_exprs(alloc, parts.as_slice())?;
            Ok(repeat(*line, count, copies))
        }
    }
}

#[cycle(copies)]
fn copied_exprs(alloc: Global, exprs: &[Expr]) -> Result<Exprs, Memory>
    ensures { IfOk result (λ c. map plain_expr c ≡ map plain_expr exprs.now) }
{
    let mut copies = Items::new(alloc);
    for e in exprs {
        let copy = copied_expr(alloc, e)?;
        copies.push(Box::into_inner(copy))?;
    }
    Ok(copies)
}

#[cycle(copies)]
fn copied_ref(alloc: Global, name: &Ref) -> Result<Ref, Memory>
    ensures { IfOk result (λ c. plain_ref c ≡ plain_ref name.now) }
{
    let id = copied_ident(alloc, &name.id)?;
    let index = copied_index(alloc, &name.index)?;
    let sel = copied_last(alloc, &name.sel)?;
    Ok(Ref { id, index, sel })
}

#[cycle(copies)]
fn copied_index(alloc: Global, index: &Option<Box<Expr>>) -> Result<Option<Box<Expr>>, Memory>
    ensures { IfOk result (λ c. plain_index (back-Ref-index c) ≡ plain_index (back-Ref-index index.now)) }
{
    match index {
        None => Ok(None),
        Some(e) => Ok(Some(copied_expr(alloc, e)?)),
    }
}

#[cycle(copies)]
fn copied_last(alloc: Global, last: &Option<Box<Sel>>) -> Result<Option<Box<Sel>>, Memory>
    ensures { IfOk result (λ c. plain_last (back-Ref-sel c) ≡ plain_last (back-Ref-sel last.now)) }
{
    match last {
        None => Ok(None),
        Some(sel) => Ok(Some(copied_sel(alloc, sel)?)),
    }
}

#[cycle(copies)]
fn copied_sel(alloc: Global, sel: &Sel) -> Result<Box<Sel>, Memory>
    ensures { IfOk result (λ c. plain_sel c.value ≡ plain_sel sel.now) }
{
    match sel {
        Sel::Index(e) => {
            let e = copied_expr(alloc, e)?;
            Ok(Box::new(alloc, Sel::Index(Box::into_inner(e)))?)
        }
        Sel::Part { first, second } => {
            let first = copied_expr(alloc, first)?;
            let second = copied_expr(alloc, second)?;
            let first = Box::into_inner(first);
            let second = Box::into_inner(second);
            Ok(Box::new(alloc, Sel::Part { first, second })?)
        }
        Sel::Indexed { base, width } => {
            let base = copied_expr(alloc, base)?;
            let width = copied_expr(alloc, width)?;
            let base = Box::into_inner(base);
            let width = Box::into_inner(width);
            Ok(Box::new(alloc, Sel::Indexed { base, width })?)
        }
    }
}

/// The target that an expression has the form of, where it has one.
#[cycle(forms)]
pub fn target_form(alloc: Global, e: &Expr) -> Result<Option<Target>, Memory>
    ensures { IfOk result (λ o. option_map plain_target o ≡ target_of (plain_expr e.now)) }
{
    match e {
        Expr::Unary(unary) => match unary.sign {
            None => prim_form(alloc, &unary.prim),
            Some(_) => Ok(None),
        },
        Expr::Binary { .. } => Ok(None),
        Expr::Choice { .. } => Ok(None),
    }
}

#[cycle(forms)]
fn prim_form(alloc: Global, prim: &Operand) -> Result<Option<Target>, Memory>
    ensures { IfOk result (λ o. option_map plain_target o ≡ target_of_prim (plain_prim prim.now)) }
{
    match prim {
        Operand::Number(_) => Ok(None),
        Operand::Ref(name) => Ok(Some(Target::Ref(copied_ref(alloc, name)?))),
        Operand::Paren { .. } => Ok(None),
        Operand::Concat { line, parts } => {
            see_concat(*line, parts);
            match part_forms(alloc, parts.as_slice())? {
                None => Ok(None),
                Some(targets) => Ok(Some(concat_target(*line, targets))),
            }
        }
        Operand::Repeat {
            line,
            count: _,
            parts,
        } => {
            see_repeat(*line, parts);
            Ok(None)
        }
    }
}

#[cycle(forms)]
fn part_forms(alloc: Global, parts: &[Expr]) -> Result<Option<Targets>, Memory>
    ensures { IfOk result (λ o. option_map plain_targets o ≡ targets_of (plain_exprs parts.now)) }
{
    let mut targets = Items::new(alloc);
    for part in parts {
        match target_form(alloc, part)? {
            None => return Ok(None),
            Some(target) => targets.push(target)?,
        }
    }
    Ok(Some(targets))
}
