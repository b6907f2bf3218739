//! Names in expressions that aren't declared.

ghost use Rattle.std.specs.Prelude.{◌≡◌, map, option_map};
ghost use Rattle.std.specs.List.{flat_map};
ghost use Rattle.vlog_tree.specs.Plain.{plain_ident, plain_expr, plain_prim, plain_unary, plain_ref, plain_sel, plain_exprs, plain_range};
ghost use Rattle.vlog_size.specs.Kinds.{at_names, at_names_of_prim, at_names_of_ref, at_names_of_sel, at_names_of_all};
ghost use Rattle.vlog_names.specs.Unknown.{unknown_ident, unknown_at, unknown_expr, unknown_value, unknown_bounds, unknown_range};
ghost use Rattle.vlog_size.specs.vidi_bits.Findings.{Judged};
ghost use Rattle.vlog_names.specs.Told.{name_told};

use crate::declaration::Declarations;
use crate::error::NameError;
use std::alloc::Global;
use vlog_size::vidi_bits::copied;
use vlog_tree::{Expr, Ident, Operand, Range, Ref, Sel, Unary, see_concat, see_repeat};

/// Refuses a used name that isn't declared.
pub fn known(alloc: Global, names: &Declarations, ident: &Ident) -> Result<(), NameError>
    ensures { Judged name_told result (unknown_ident names.now (plain_ident ident.now)) }
{
    match names.get(ident.name.as_slice()) {
        Some(_) => Ok(()),
        None => {
            let name = copied(alloc, ident.name.as_slice())?;
            Err(NameError::Unknown { name })
        }
    }
}

/// Refuses a name with brackets that isn't declared.
#[tactic(auto, unfolding(crate::specs::Unknown::unknown_at))]
fn known_at(alloc: Global, names: &Declarations, name: &Ref) -> Result<(), NameError>
    ensures { Judged name_told result (unknown_at names.now (plain_ref name.now)) }
{
    known(alloc, names, &name.id)
}

#[cycle(known)]
pub fn known_expr(alloc: Global, names: &Declarations, e: &Expr) -> Result<(), NameError>
    ensures { Judged name_told result (unknown_expr names.now (plain_expr e.now)) }
{
    match e {
        Expr::Unary(unary) => known_unary(alloc, names, unary),
        Expr::Binary { left, op: _, right } => {
            known_expr(alloc, names, left)?;
            known_expr(alloc, names, right)
        }
        Expr::Choice {
            condition,
            then_value,
            else_value,
        } => {
            known_expr(alloc, names, condition)?;
            known_expr(alloc, names, then_value)?;
            known_expr(alloc, names, else_value)
        }
    }
}

#[cycle(known)]
fn known_unary(alloc: Global, names: &Declarations, unary: &Unary) -> Result<(), NameError>
    ensures { Judged name_told result (unknown_expr names.now (plain_unary unary.now)) }
{
    known_prim(alloc, names, &unary.prim)
}

#[cycle(known)]
fn known_prim(alloc: Global, names: &Declarations, prim: &Operand) -> Result<(), NameError>
    ensures { Judged name_told result (at_names_of_prim (unknown_at names.now) (plain_prim prim.now)) }
{
    match prim {
        Operand::Number(_) => Ok(()),
        Operand::Ref(name) => known_ref(alloc, names, name),
        Operand::Paren { line: _, inner } => known_expr(alloc, names, inner),
        Operand::Concat { line, parts } => {
            see_concat(*line, parts);
            known_exprs(alloc, names, parts.as_slice())
        }
        Operand::Repeat { line, count, parts } => {
            see_repeat(*line, parts);
            known_expr(alloc, names, count)?;
            known_exprs(alloc, names, parts.as_slice())
        }
    }
}

#[cycle(known)]
pub fn known_ref(alloc: Global, names: &Declarations, name: &Ref) -> Result<(), NameError>
    ensures { Judged name_told result (at_names_of_ref (unknown_at names.now) (plain_ref name.now)) }
{
    known_at(alloc, names, name)?;
    if let Some(index) = &name.index {
        known_expr(alloc, names, index)?;
    }
    match &name.sel {
        None => Ok(()),
        Some(sel) => known_sel(alloc, names, sel),
    }
}

#[cycle(known)]
fn known_sel(alloc: Global, names: &Declarations, sel: &Sel) -> Result<(), NameError>
    ensures { Judged name_told result (at_names_of_sel (unknown_at names.now) (plain_sel sel.now)) }
{
    match sel {
        Sel::Index(e) => known_expr(alloc, names, e),
        Sel::Part { first, second } => {
            known_expr(alloc, names, first)?;
            known_expr(alloc, names, second)
        }
        Sel::Indexed { base, width } => {
            known_expr(alloc, names, base)?;
            known_expr(alloc, names, width)
        }
    }
}

#[cycle(known)]
fn known_exprs(alloc: Global, names: &Declarations, exprs: &[Expr]) -> Result<(), NameError>
    ensures { Judged name_told result (at_names_of_all (unknown_at names.now) (plain_exprs exprs.now)) }
{
    for e in exprs {
        known_expr(alloc, names, e)?;
    }
    Ok(())
}

/// Expressions in a row, as the labels of an arm.
pub fn known_labels(alloc: Global, names: &Declarations, labels: &[Expr]) -> Result<(), NameError>
    ensures { Judged name_told result (flat_map (unknown_expr names.now) (map plain_expr labels.now)) }
{
    for label in labels {
        known_expr(alloc, names, label)?;
    }
    Ok(())
}

pub fn known_value(
    alloc: Global,
    names: &Declarations,
    value: &Option<Expr>,
) -> Result<(), NameError>
    ensures { Judged name_told result (unknown_value names.now (option_map plain_expr value.now)) }
{
    match value {
        None => Ok(()),
        Some(e) => known_expr(alloc, names, e),
    }
}

pub fn known_bounds(alloc: Global, names: &Declarations, range: &Range) -> Result<(), NameError>
    ensures { Judged name_told result (unknown_bounds names.now (plain_range range.now)) }
{
    known_expr(alloc, names, &range.first)?;
    known_expr(alloc, names, &range.second)
}

pub fn known_range(
    alloc: Global,
    names: &Declarations,
    range: &Option<Range>,
) -> Result<(), NameError>
    ensures { Judged name_told result (unknown_range names.now (option_map plain_range range.now)) }
{
    match range {
        None => Ok(()),
        Some(range) => known_bounds(alloc, names, range),
    }
}
