//! Targets that can't be written where they stand.

ghost use Rattle.std.specs.Prelude.{◌≡◌};
ghost use Rattle.vlog_tree.specs.Plain.{plain_expr, plain_prim, plain_unary, plain_ref, plain_sel, plain_exprs, plain_target};
ghost use Rattle.vlog_tree.specs.Plain.{plain_targets};
ghost use Rattle.vlog_names.specs.vidi_bits.Findings.{Judged};
ghost use Rattle.vlog_names.specs.Told.{kind_told};
ghost use Rattle.vlog_names.specs.Selects.{is_constant_sel, drives_wire, is_wire_target, is_wire_prim, are_wire_targets};
ghost use Rattle.vlog_names.specs.Uses.{not_driven, in_driven, in_all_driven, not_stored, in_stored, in_all_stored};

use crate::declaration::Declarations;
use crate::kinds::error::KindError;
use crate::kinds::expressions::{check_ref, is_constant, refuse_if};
use crate::kinds::roles::{is_stored, is_wire};
use vlog_tree::{
    Expr, Operand, Ref, Sel, Target, Unary, see_concat, see_concat_target, see_repeat,
};

fn is_constant_sel(names: &Declarations, sel: &Sel) -> bool
    ensures { result ≡ is_constant_sel names.now (plain_sel sel.now) }
{
    match sel {
        Sel::Index(e) => is_constant(names, e),
        Sel::Part { .. } => true,
        Sel::Indexed { base, width: _ } => is_constant(names, base),
    }
}

/// Whether it is a wire or a wire output, with constant selects.
fn drives_wire(names: &Declarations, name: &Ref) -> bool
    ensures { result ≡ drives_wire names.now (plain_ref name.now) }
{
    if !is_wire(names, &name.id) {
        return false;
    }
    match (&name.index, &name.sel) {
        (None, None) => true,
        (None, Some(sel)) => is_constant_sel(names, sel),
        (Some(index), None) => is_constant(names, index),
        (Some(index), Some(sel)) => is_constant(names, index) && is_constant_sel(names, sel),
    }
}

/// Whether it has the form of a target, and drives wires alone, with constant selects.
#[cycle(wire_targets)]
pub fn is_wire_target(names: &Declarations, e: &Expr) -> bool
    ensures { result ≡ is_wire_target names.now (plain_expr e.now) }
{
    match e {
        Expr::Unary(unary) => is_wire_unary(names, unary),
        Expr::Binary { .. } => false,
        Expr::Choice { .. } => false,
    }
}

#[cycle(wire_targets)]
fn is_wire_unary(names: &Declarations, unary: &Unary) -> bool
    ensures { result ≡ is_wire_target names.now (plain_unary unary.now) }
{
    match unary.sign {
        None => is_wire_prim(names, &unary.prim),
        Some(_) => false,
    }
}

#[cycle(wire_targets)]
fn is_wire_prim(names: &Declarations, prim: &Operand) -> bool
    ensures { result ≡ is_wire_prim names.now (plain_prim prim.now) }
{
    match prim {
        Operand::Number(_) => false,
        Operand::Ref(name) => drives_wire(names, name),
        Operand::Paren { .. } => false,
        Operand::Concat { line, parts } => {
            see_concat(*line, parts);
            are_wire_targets(names, parts.as_slice())
        }
        Operand::Repeat {
            line,
            count: _,
            parts,
        } => {
            see_repeat(*line, parts);
            false
        }
    }
}

#[cycle(wire_targets)]
fn are_wire_targets(names: &Declarations, exprs: &[Expr]) -> bool
    ensures { result ≡ are_wire_targets names.now (plain_exprs exprs.now) }
{
    for e in exprs {
        if !is_wire_target(names, e) {
            return false;
        }
    }
    true
}

fn check_driven(names: &Declarations, name: &Ref) -> Result<(), KindError>
    ensures { Judged kind_told result (not_driven names.now (plain_ref name.now)) }
{
    refuse_if(!drives_wire(names, name), name.id.line)
}

/// A target of `assign`.
#[cycle(driven)]
pub fn check_driven_target(names: &Declarations, target: &Target) -> Result<(), KindError>
    ensures { Judged kind_told result (in_driven names.now (plain_target target.now)) }
{
    match target {
        Target::Ref(name) => {
            check_driven(names, name)?;
            check_ref(names, name)
        }
        Target::Concat { line, parts } => {
            see_concat_target(*line, parts);
            check_driven_targets(names, parts.as_slice())
        }
    }
}

#[cycle(driven)]
fn check_driven_targets(names: &Declarations, targets: &[Target]) -> Result<(), KindError>
    ensures { Judged kind_told result (in_all_driven names.now (plain_targets targets.now)) }
{
    for target in targets {
        check_driven_target(names, target)?;
    }
    Ok(())
}

fn check_stored(is_clocked: bool, names: &Declarations, name: &Ref) -> Result<(), KindError>
    ensures { Judged kind_told result (not_stored is_clocked names.now (plain_ref name.now)) }
{
    let stored = is_stored(is_clocked, names, &name.id);
    refuse_if(!stored, name.id.line)
}

/// A target in an always block.
#[cycle(stored)]
pub fn check_stored_target(
    is_clocked: bool,
    names: &Declarations,
    target: &Target,
) -> Result<(), KindError>
    ensures { Judged kind_told result (in_stored is_clocked names.now (plain_target target.now)) }
{
    match target {
        Target::Ref(name) => {
            check_stored(is_clocked, names, name)?;
            check_ref(names, name)
        }
        Target::Concat { line, parts } => {
            see_concat_target(*line, parts);
            check_stored_targets(is_clocked, names, parts.as_slice())
        }
    }
}

#[cycle(stored)]
fn check_stored_targets(
    is_clocked: bool,
    names: &Declarations,
    targets: &[Target],
) -> Result<(), KindError>
    ensures { Judged kind_told result (in_all_stored is_clocked names.now (plain_targets targets.now)) }
{
    for target in targets {
        check_stored_target(is_clocked, names, target)?;
    }
    Ok(())
}
