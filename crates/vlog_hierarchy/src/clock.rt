//! E13: the one clock.

ghost use Rattle.std.specs.Prelude.{◌≡◌, ◌++◌, map, length, option_map, IfOk, OnOk};
ghost use Rattle.std.specs.List.{flat_map};
ghost use Rattle.vlog_tree.specs.Plain.{plain, plain_expr, plain_event, plain_conn, plain_named, plain_assign, plain_always, plain_item};
ghost use Rattle.vlog_tree.specs.Plain.{plain_module};
ghost use Rattle.vlog_hierarchy.specs.Outlines.{outlines_of, place_of};
ghost use Rattle.vlog_hierarchy.specs.Plain.{plain_path};
ghost use Rattle.vlog_hierarchy.specs.Clock.{event_ports, item_ports, scope_ports, clock_ports, first_port, same_port, marked, clock_marks};
ghost use Rattle.vlog_hierarchy.specs.Clock.{event_faults, body_faults, value_faults, conn_faults, wire_faults, assign_faults};
ghost use Rattle.vlog_hierarchy.specs.Clock.{item_faults, items_at, scope_faults, clock_faults, scopes_of};
ghost use Rattle.vlog_size.specs.vidi_bits.Findings.{Judged};
ghost use Rattle.vlog_hierarchy.specs.Told.{hierarchy_told};

use crate::error::HierarchyError;
use crate::flags::unmarked;
use crate::outline::outlines;
use crate::places::{index_of, place_named};
use crate::reads::{check_body, check_expr, check_target};
use crate::scopes::{Scope, plain_name, port_of, scopes_of};
use std::alloc::Global;
use vlog_size::Table;
use vlog_size::vidi_bits::{Items, Memory, Name};
use vlog_tree::{Always, Assign, Conn, Event, Expr, File, Item, Module, NamedValue};

/// For each clocked block the port to which its name is joined.
pub type ClockPorts = Items<Option<usize>>;

/// Adds the port of a clocked block.
fn add_port(ports: &mut ClockPorts, joined: &Table<usize>, event: &Event) -> Result<(), Memory>
    ensures { OnOk result (ports.new ≡ ports.old ++ event_ports joined.now (plain_event event.now)) }
{
    match event {
        Event::Posedge(id) => {
            ports.push(port_of(joined, id.name.as_slice()))?;
            Ok(())
        }
        Event::Implicit { .. } => Ok(()),
    }
}

/// Adds the port of an item that is a clocked block.
fn add_item_ports(ports: &mut ClockPorts, joined: &Table<usize>, item: &Item) -> Result<(), Memory>
    ensures { OnOk result (ports.new ≡ ports.old ++ item_ports joined.now (plain_item item.now)) }
{
    match item {
        Item::Always(always) => {
            add_port(ports, joined, &always.event)?;
            Ok(())
        }
        _ => Ok(()),
    }
}

/// The items of the module at this place.
fn items_at(modules: &[Module], place: usize) -> &[Item]
    ensures { map plain_item result.now ≡ items_at (map plain_module modules.now) place }
{
    if let Some(found) = modules.get(place) {
        return found.items.as_slice();
    }
    &[]
}

/// Adds the ports of the clocked blocks of an instance.
#[tactic(auto, unfolding(crate::specs::Clock::scope_ports))]
fn add_scope_ports(ports: &mut ClockPorts, modules: &[Module], scope: &Scope) -> Result<(), Memory>
    ensures { OnOk result (ports.new ≡ ports.old ++ scope_ports (map plain_module modules.now) scope.now) }
{
    let items = items_at(modules, scope.place);
    for item in items {
        add_item_ports(ports, &scope.joined, item)?;
    }
    Ok(())
}

/// The ports of all clocked blocks.
#[tactic(auto, unfolding(crate::specs::Clock::clock_ports))]
pub fn clock_ports(
    alloc: Global,
    modules: &[Module],
    scopes: &[Scope],
) -> Result<ClockPorts, Memory>
    ensures { IfOk result (λ ports. ports ≡ clock_ports (map plain_module modules.now) scopes.now) }
{
    let mut ports = Items::new(alloc);
    for scope in scopes {
        add_scope_ports(&mut ports, modules, scope)?;
    }
    Ok(ports)
}

/// The port of the first clocked block.
pub fn first_port(ports: &[Option<usize>]) -> Option<usize>
    ensures { result ≡ first_port ports.now }
{
    match ports {
        [] => None,
        [first, ..] => *first,
    }
}

fn same_port(a: Option<usize>, b: Option<usize>) -> bool
    ensures { result ≡ same_port a b }
{
    match (a, b) {
        (Some(a), Some(b)) => a == b,
        _ => false,
    }
}

/// Marks the port of a clocked block.
fn mark(marks: &mut Items<bool>, port: Option<usize>)
    ensures { marks.new ≡ marked marks.old port }
{
    if let Some(port) = port {
        if port < marks.len() {
            marks.set(port, true);
        }
    }
}

/// For each of the top's 1-bit input ports whether it is a clock.
fn marks_of(alloc: Global, inputs: usize, ports: &[Option<usize>]) -> Result<Items<bool>, Memory>
    ensures { IfOk result (λ marks. marks ≡ clock_marks inputs ports.now) }
{
    let mut marks = unmarked(alloc, inputs)?;
    for port in ports {
        mark(&mut marks, *port);
    }
    Ok(marks)
}

/// Refuses a clocked block whose name isn't joined to the wanted port.
fn check_event(
    wanted: Option<usize>,
    joined: &Table<usize>,
    line: u32,
    event: &Event,
) -> Result<(), HierarchyError>
    ensures { Judged hierarchy_told result (event_faults wanted joined.now line (plain_event event.now)) }
{
    match event {
        Event::Posedge(id) => {
            let port = port_of(joined, id.name.as_slice());
            if same_port(wanted, port) {
                Ok(())
            } else {
                Err(HierarchyError::Clock { line })
            }
        }
        Event::Implicit { .. } => Ok(()),
    }
}

fn check_always(
    wanted: Option<usize>,
    marks: &[bool],
    joined: &Table<usize>,
    always: &Always,
) -> Result<(), HierarchyError>
    ensures { Judged hierarchy_told result (event_faults wanted joined.now always.now.line (plain_always always.now).event
        ++ body_faults marks.now joined.now (plain_always always.now).body) }
{
    check_event(wanted, joined, always.line, &always.event)?;
    check_body(marks, joined, &always.body)
}

/// Refuses reads of the clock in what is connected, unless it is a name alone.
fn check_value(
    marks: &[bool],
    joined: &Table<usize>,
    value: &Option<Expr>,
) -> Result<(), HierarchyError>
    ensures { Judged hierarchy_told result (value_faults marks.now joined.now (option_map plain_expr value.now)) }
{
    match value {
        None => Ok(()),
        Some(e) => match plain_name(e) {
            Some(_) => Ok(()),
            None => check_expr(marks, joined, e),
        },
    }
}

fn check_conns(marks: &[bool], joined: &Table<usize>, conns: &[Conn]) -> Result<(), HierarchyError>
    ensures { Judged hierarchy_told result (flat_map (conn_faults marks.now joined.now) (map plain_conn conns.now)) }
{
    for conn in conns {
        check_value(marks, joined, &conn.value)?;
    }
    Ok(())
}

fn check_wires(
    marks: &[bool],
    joined: &Table<usize>,
    wires: &[NamedValue],
) -> Result<(), HierarchyError>
    ensures { Judged hierarchy_told result (flat_map (wire_faults marks.now joined.now) (map plain_named wires.now)) }
{
    for wire in wires {
        check_expr(marks, joined, &wire.value)?;
    }
    Ok(())
}

fn check_assign(
    marks: &[bool],
    joined: &Table<usize>,
    assign: &Assign,
) -> Result<(), HierarchyError>
    ensures { Judged hierarchy_told result (assign_faults marks.now joined.now (plain_assign assign.now)) }
{
    check_target(marks, joined, &assign.target)?;
    check_expr(marks, joined, &assign.value)
}

fn check_assigns(
    marks: &[bool],
    joined: &Table<usize>,
    assigns: &[Assign],
) -> Result<(), HierarchyError>
    ensures { Judged hierarchy_told result (flat_map (assign_faults marks.now joined.now) (map plain_assign assigns.now)) }
{
    for assign in assigns {
        check_assign(marks, joined, assign)?;
    }
    Ok(())
}

fn check_item(
    wanted: Option<usize>,
    marks: &[bool],
    joined: &Table<usize>,
    item: &Item,
) -> Result<(), HierarchyError>
    ensures { Judged hierarchy_told result (item_faults wanted marks.now joined.now (plain_item item.now)) }
{
    match item {
        Item::Wires { .. } => Ok(()),
        Item::DrivenWires { wires, .. } => check_wires(marks, joined, wires.as_slice()),
        Item::Regs { .. } => Ok(()),
        Item::Localparams { .. } => Ok(()),
        Item::Assign { assigns } => check_assigns(marks, joined, assigns.as_slice()),
        Item::Always(always) => check_always(wanted, marks, joined, always),
        Item::Instance(instance) => check_conns(marks, joined, instance.ports.as_slice()),
    }
}

fn check_items(
    wanted: Option<usize>,
    marks: &[bool],
    joined: &Table<usize>,
    items: &[Item],
) -> Result<(), HierarchyError>
    ensures { Judged hierarchy_told result (flat_map (item_faults wanted marks.now joined.now) (map plain_item items.now)) }
{
    for item in items {
        check_item(wanted, marks, joined, item)?;
    }
    Ok(())
}

/// E13 of an instance.
#[tactic(auto, unfolding(crate::specs::Clock::scope_faults))]
fn check_scope(
    modules: &[Module],
    wanted: Option<usize>,
    marks: &[bool],
    scope: &Scope,
) -> Result<(), HierarchyError>
    ensures { Judged hierarchy_told result (scope_faults (map plain_module modules.now) wanted marks.now scope.now) }
{
    let items = items_at(modules, scope.place);
    check_items(wanted, marks, &scope.joined, items)
}

fn check_scopes(
    modules: &[Module],
    wanted: Option<usize>,
    marks: &[bool],
    scopes: &[Scope],
) -> Result<(), HierarchyError>
    ensures { Judged hierarchy_told result (flat_map (scope_faults (map plain_module modules.now) wanted marks.now) scopes.now) }
{
    for scope in scopes {
        check_scope(modules, wanted, marks, scope)?;
    }
    Ok(())
}

/// E13 of these instances.
#[tactic(auto, unfolding(crate::specs::Clock::clock_faults))]
fn check_all(
    alloc: Global,
    modules: &[Module],
    inputs: usize,
    scopes: &[Scope],
) -> Result<(), HierarchyError>
    ensures { Judged hierarchy_told result (clock_faults (map plain_module modules.now) inputs scopes.now) }
{
    let ports = clock_ports(alloc, modules, scopes)?;
    let wanted = first_port(ports.as_slice());
    let marks = marks_of(alloc, inputs, ports.as_slice())?;
    check_scopes(modules, wanted, marks.as_slice(), scopes)
}

/// E13 `Clock` of a top whose 1-bit input ports are these: the line of the first clocked block whose name isn't
/// joined, by plain names through ports, to one of them, or is joined to another than the first clocked block's,
/// or of the first name that is joined to a clocked block's port and is read in another place than after
/// `posedge` and as a plain connection. The instances are taken in preorder, and each in text order. Nothing is
/// found where the top isn't declared (E4). Ask only where `nodes_of` has an answer: the walk looks at all
/// instances.
pub fn check_clock(
    alloc: Global,
    file: &File,
    top: &[u8],
    inputs: &[&Name],
) -> Result<(), HierarchyError>
    ensures { Judged hierarchy_told result (clock_faults (plain file.now).modules (length inputs.now)
        (scopes_of (outlines_of (plain file.now).modules) (plain_path inputs.now) (place_of (plain file.now).modules top.now))) }
{
    let index = index_of(alloc, file.modules.as_slice())?;
    let place = place_named(&index, top);
    let outlines = outlines(alloc, &index)?;
    let scopes = scopes_of(alloc, outlines.as_slice(), inputs, place)?;
    check_all(
        alloc,
        file.modules.as_slice(),
        inputs.len(),
        scopes.as_slice(),
    )
}
