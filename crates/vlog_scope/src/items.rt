//! What is at fault in the items of a module instance.

ghost use Rattle.std.specs.Prelude.{◌≡◌, map, option_map, Some};
ghost use Rattle.std.specs.List.{flat_map};
ghost use Rattle.vlog_size.specs.vidi_bits.Findings.{Judged};
ghost use Rattle.vlog_tree.specs.Plain.{plain_expr, plain_range, plain_tail, plain_named, plain_reg, plain_assign};
ghost use Rattle.vlog_tree.specs.Plain.{plain_conn, plain_instance};
ghost use Rattle.vlog_tree.specs.Plain.{plain_item};
ghost use Rattle.vlog_size.specs.Names.{readable_in};
ghost use Rattle.vlog_scope.specs.Faults as faults;

use crate::expressions::{
    assign_fault, constant_fault, expr_fault, fixed_fault, joined_fault, memory_fault, name_fault,
    names_fault, range_fault,
};
use crate::extent::{Extent, extent_of};
use crate::fault::FaultKind;
use crate::scope::{after_name, declared_after, view_at};
use crate::statements::body_fault;
use vlog_size::{Scope, SizeError, View};
use vlog_tree::{Assign, Conn, Instance, Item, NamedValue, Reg1, RegTail};

/// The fault of each wire behind a range.
fn driven_fault(
    kind: FaultKind,
    view: &View<'_>,
    extent: Extent,
    wires: &[NamedValue],
) -> Result<(), SizeError>
    ensures { Judged Some result (flat_map (faults.driven_faults kind (readable_in view.now) extent) (map plain_named wires.now)) }
{
    for wire in wires {
        name_fault(kind, extent, &wire.id)?;
        expr_fault(kind, view, &wire.value)?;
    }
    Ok(())
}

/// The fault of what stands behind a register's name.
fn tail_fault(kind: FaultKind, view: &View<'_>, tail: &Option<RegTail>) -> Result<(), SizeError>
    ensures { Judged Some result (faults.tail_faults kind (readable_in view.now) (option_map plain_tail tail.now)) }
{
    match tail {
        None => Ok(()),
        Some(RegTail::Init(e)) => constant_fault(kind, view, e),
        Some(RegTail::Memory(range)) => memory_fault(kind, view, range),
    }
}

/// The fault of each register behind a range.
fn regs_fault(
    kind: FaultKind,
    view: &View<'_>,
    extent: Extent,
    regs: &[Reg1],
) -> Result<(), SizeError>
    ensures { Judged Some result (flat_map (faults.reg_faults kind (readable_in view.now) extent) (map plain_reg regs.now)) }
{
    for reg in regs {
        name_fault(kind, extent, &reg.id)?;
        tail_fault(kind, view, &reg.tail)?;
    }
    Ok(())
}

/// The fault of each local parameter behind a range.
fn locals_fault(
    kind: FaultKind,
    scope: &Scope,
    declared: usize,
    extent: Extent,
    list: &[NamedValue],
) -> Result<(), SizeError>
    ensures { Judged Some result (faults.local_faults kind scope.now declared extent (map plain_named list.now)) }
{
    let mut count = declared;
    for v in list {
        name_fault(kind, extent, &v.id)?;
        constant_fault(kind, &view_at(scope, count), &v.value)?;
        count = after_name(&scope.params, count, &v.id);
    }
    Ok(())
}

/// The fault of each assignment.
fn assigns_fault(kind: FaultKind, view: &View<'_>, assigns: &[Assign]) -> Result<(), SizeError>
    ensures { Judged Some result (flat_map (faults.assigned_faults kind (readable_in view.now)) (map plain_assign assigns.now)) }
{
    for assign in assigns {
        assign_fault(kind, view, &assign.target, &assign.value)?;
    }
    Ok(())
}

/// The fault of each connection of a parameter.
fn overrides_fault(kind: FaultKind, view: &View<'_>, conns: &[Conn]) -> Result<(), SizeError>
    ensures { Judged Some result (flat_map (faults.override_faults kind (readable_in view.now)) (map plain_conn conns.now)) }
{
    for conn in conns {
        fixed_fault(kind, view, &conn.value)?;
    }
    Ok(())
}

/// The fault of each connection of a port.
fn conns_fault(kind: FaultKind, view: &View<'_>, conns: &[Conn]) -> Result<(), SizeError>
    ensures { Judged Some result (flat_map (faults.conn_faults kind (readable_in view.now)) (map plain_conn conns.now)) }
{
    for conn in conns {
        joined_fault(kind, view, &conn.value)?;
    }
    Ok(())
}

/// The fault of an instance's connections.
fn instance_fault(kind: FaultKind, view: &View<'_>, instance: &Instance) -> Result<(), SizeError>
    ensures { Judged Some result (faults.instance_faults kind (readable_in view.now) (plain_instance instance.now)) }
{
    overrides_fault(kind, view, instance.parameters.as_slice())?;
    conns_fault(kind, view, instance.ports.as_slice())
}

/// The fault of an item, before which the names of the first `declared` parameters stand.
#[tactic(auto, unfolding(crate::specs::Faults::item_faults))]
fn item_fault(kind: FaultKind, scope: &Scope, declared: usize, item: &Item) -> Result<(), SizeError>
    ensures { Judged Some result (faults.item_faults kind scope.now declared (plain_item item.now)) }
{
    let view = view_at(scope, declared);
    match item {
        Item::Wires { range, names } => {
            range_fault(kind, &view, range)?;
            names_fault(kind, extent_of(&view, range), names.as_slice())
        }
        Item::DrivenWires { range, wires } => {
            range_fault(kind, &view, range)?;
            driven_fault(kind, &view, extent_of(&view, range), wires.as_slice())
        }
        Item::Regs { range, regs } => {
            range_fault(kind, &view, range)?;
            regs_fault(kind, &view, extent_of(&view, range), regs.as_slice())
        }
        Item::Localparams { range, parameters } => {
            range_fault(kind, &view, range)?;
            locals_fault(
                kind,
                scope,
                declared,
                extent_of(&view, range),
                parameters.as_slice(),
            )
        }
        Item::Assign { assigns } => assigns_fault(kind, &view, assigns.as_slice()),
        Item::Always(always) => body_fault(kind, &view, &always.body),
        Item::Instance(instance) => instance_fault(kind, &view, instance),
    }
}

/// The first fault of the items, before which the names of the first `declared` parameters stand.
pub fn items_fault(
    kind: FaultKind,
    scope: &Scope,
    declared: usize,
    items: &[Item],
) -> Result<(), SizeError>
    ensures { Judged Some result (faults.items_faults kind scope.now declared (map plain_item items.now)) }
{
    let mut count = declared;
    for item in items {
        item_fault(kind, scope, count, item)?;
        count = declared_after(scope, count, item);
    }
    Ok(())
}
