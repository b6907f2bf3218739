//! What is at fault in one expression, target, range or declared name.

ghost use Rattle.std.specs.Prelude.{◌≡◌, List, map, option_map, Some};
ghost use Rattle.std.specs.List.{flat_map};
ghost use Rattle.vlog_size.specs.vidi_bits.Findings.{first, Judged};
ghost use Rattle.vlog_tree.specs.Plain.{plain_ident, plain_expr, plain_target, plain_range, plain_assign};
ghost use Rattle.vlog_size.specs.declared.error.SizeError.{SizeError};
ghost use Rattle.vlog_size.specs.Names.{readable_in};
ghost use Rattle.vlog_size.specs.Size.{Sizes, sizes_of, sizes_of_target, too_large};
ghost use Rattle.vlog_size.specs.Facts.{Shows};
ghost use Rattle.vlog_scope.specs.Faults as faults;

use crate::extent::Extent;
use crate::fault::FaultKind;
use vlog_size::{Facts, SizeError, View, facts_of, fixed, numbered, target_facts, too_large};
use vlog_tree::{Assign, Expr, Ident, Range, Target};

/// The finding as an error.
fn tell(fault: Option<SizeError>) -> Result<(), SizeError>
    ensures { (all : List SizeError) → fault ≡ first all → Judged Some result all }
{
    match fault {
        Some(e) => Err(e),
        None => Ok(()),
    }
}

/// The fault of this kind in what is said of an expression or a target.
fn told(kind: FaultKind, facts: &Facts) -> Result<(), SizeError>
    ensures { (E : Sizes) → Shows facts.now E → Judged Some result (faults.found kind E) }
{
    match kind {
        FaultKind::Constant => tell(facts.const_fault),
        FaultKind::Width => tell(facts.width_fault),
        FaultKind::Either => tell(facts.const_fault.or(facts.width_fault)),
    }
}

/// The fault of an expression.
pub fn expr_fault(kind: FaultKind, view: &View<'_>, e: &Expr) -> Result<(), SizeError>
    ensures { Judged Some result (faults.expr_faults kind (readable_in view.now) (plain_expr e.now)) }
{
    let facts = facts_of(view, e);
    told(kind, &facts)
}

/// The fault of each expression.
pub fn exprs_fault(kind: FaultKind, view: &View<'_>, list: &[Expr]) -> Result<(), SizeError>
    ensures { Judged Some result (flat_map (faults.expr_faults kind (readable_in view.now)) (map plain_expr list.now)) }
{
    for e in list {
        expr_fault(kind, view, e)?;
    }
    Ok(())
}

/// The fault of an expression in a constant position.
pub fn constant_fault(kind: FaultKind, view: &View<'_>, e: &Expr) -> Result<(), SizeError>
    ensures { Judged Some result (faults.constant_faults kind (readable_in view.now) (plain_expr e.now)) }
{
    expr_fault(kind, &fixed(view), e)
}

/// The fault of an initialiser or an override, where there is one.
pub fn fixed_fault(kind: FaultKind, view: &View<'_>, e: &Option<Expr>) -> Result<(), SizeError>
    ensures { Judged Some result (faults.fixed_faults kind (readable_in view.now) (option_map plain_expr e.now)) }
{
    match e {
        None => Ok(()),
        Some(e) => constant_fault(kind, view, e),
    }
}

/// The fault of the connection of a port, where there is one.
pub fn joined_fault(kind: FaultKind, view: &View<'_>, e: &Option<Expr>) -> Result<(), SizeError>
    ensures { Judged Some result (faults.joined_faults kind (readable_in view.now) (option_map plain_expr e.now)) }
{
    match e {
        None => Ok(()),
        Some(e) => expr_fault(kind, view, e),
    }
}

/// The fault of `target = value`.
pub fn assign_fault(
    kind: FaultKind,
    view: &View<'_>,
    target: &Target,
    value: &Expr,
) -> Result<(), SizeError>
    ensures { Judged Some result (faults.assign_faults kind (readable_in view.now) (plain_target target.now) (plain_expr value.now)) }
{
    let facts = target_facts(view, target);
    told(kind, &facts)?;
    expr_fault(kind, view, value)
}

/// The bound, where it is sized and above 2,147,483,647.
fn large_fault(view: &View<'_>, e: &Expr) -> Result<(), SizeError>
    ensures { Judged Some result (too_large (sizes_of (readable_in view.now) (plain_expr e.now))) }
{
    let bound = numbered(view, e);
    tell(too_large(&bound))
}

/// The fault of a bound.
fn bound_fault(kind: FaultKind, view: &View<'_>, e: &Expr) -> Result<(), SizeError>
    ensures { Judged Some result (faults.bound_faults kind (sizes_of (readable_in view.now) (plain_expr e.now))) }
{
    match kind {
        FaultKind::Constant | FaultKind::Either => {
            large_fault(view, e)?;
            expr_fault(kind, view, e)
        }
        FaultKind::Width => expr_fault(kind, view, e),
    }
}

/// A bound that isn't 0.
fn not_zero(kind: FaultKind, view: &View<'_>, e: &Expr) -> Result<(), SizeError>
    ensures { Judged Some result (faults.not_zero kind (sizes_of (readable_in view.now) (plain_expr e.now))) }
{
    let bound = numbered(view, e);
    match (kind, bound.number) {
        (FaultKind::Constant | FaultKind::Either, Some(n)) if 1 <= n => Err(SizeError::Const {
            line: bound.facts.line,
        }),
        _ => Ok(()),
    }
}

/// The fault of a bound that has to be 0.
fn zero_fault(kind: FaultKind, view: &View<'_>, e: &Expr) -> Result<(), SizeError>
    ensures { Judged Some result (faults.zero_faults kind (sizes_of (readable_in view.now) (plain_expr e.now))) }
{
    not_zero(kind, view, e)?;
    bound_fault(kind, view, e)
}

/// The fault of a vector's range.
fn vector_fault(kind: FaultKind, view: &View<'_>, range: &Range) -> Result<(), SizeError>
    ensures { Judged Some result (faults.vector_faults kind (readable_in view.now) (plain_range range.now)) }
{
    let constants = fixed(view);
    bound_fault(kind, &constants, &range.first)?;
    zero_fault(kind, &constants, &range.second)
}

/// The fault of the range of a memory's words.
pub fn memory_fault(kind: FaultKind, view: &View<'_>, range: &Range) -> Result<(), SizeError>
    ensures { Judged Some result (faults.memory_faults kind (readable_in view.now) (plain_range range.now)) }
{
    let constants = fixed(view);
    zero_fault(kind, &constants, &range.first)?;
    bound_fault(kind, &constants, &range.second)
}

/// The fault of the range of a declaration, where there is one.
pub fn range_fault(kind: FaultKind, view: &View<'_>, range: &Option<Range>) -> Result<(), SizeError>
    ensures { Judged Some result (faults.range_faults kind (readable_in view.now) (option_map plain_range range.now)) }
{
    match range {
        None => Ok(()),
        Some(range) => vector_fault(kind, view, range),
    }
}

/// A range of more than 128 bits, at the name behind it.
pub fn name_fault(kind: FaultKind, extent: Extent, id: &Ident) -> Result<(), SizeError>
    ensures { Judged Some result (faults.name_faults kind extent (plain_ident id.now)) }
{
    match (kind, extent) {
        (FaultKind::Width | FaultKind::Either, Extent::Bits(w)) if w == 0 || 128 < w => Err(
            SizeError::Width {
                line: id.line,
                got: u128::from(w),
            },
        ),
        _ => Ok(()),
    }
}

/// The fault of each name behind a range.
pub fn names_fault(kind: FaultKind, extent: Extent, ids: &[Ident]) -> Result<(), SizeError>
    ensures { Judged Some result (flat_map (faults.name_faults kind extent) (map plain_ident ids.now)) }
{
    for id in ids {
        name_fault(kind, extent, id)?;
    }
    Ok(())
}
