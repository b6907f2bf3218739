//! The scope of a module instance.

ghost use Rattle.std.specs.Prelude.{◌≡◌, ◌+◌, ◌-◌, ◌^◌, OnOk, IfOk, [], map, min, option_map, take, length};
ghost use Rattle.vlog_tree.specs.Plain.{plain_ident, plain_range, plain_conn, plain_port, plain_named, plain_reg, plain_tail};
ghost use Rattle.vlog_tree.specs.Plain.{plain_item, plain_module};
ghost use Rattle.vlog_size.specs.Names.{readable_in, params_alone};
ghost use Rattle.vlog_scope.specs.Extents.{extent_of, port_extent};
ghost use Rattle.vlog_scope.specs.Scope as scopes;
ghost use Rattle.vlog_scope.specs.declared.extent.Extent.TheVariants.{NoRange};

use crate::extent::{Extent, extent_of, memory_length, net_width, port_extent};
use crate::parameters;
use crate::parameters::{add_parameters, overrides_of};
use std::alloc::Global;
use vlog_size::vidi_bits::{Memory, copied};
use vlog_size::{
    Params, Scope, ScopeMemories, ScopeMemory, ScopeNet, ScopeNets, Table, View, params_view,
};
use vlog_tree::{Conn, Ident, Item, Module, NamedValue, Port, Range, Reg1, RegTail};

/// What may be read where the names of the first `declared` parameters of the scope stand before.
#[tactic(auto, using(crate::proofs::Passed::take_whole))]
pub fn view_at(scope: &Scope, declared: usize) -> View<'_>
    ensures { readable_in result ≡ scopes.readable_at scope.now declared }
{
    View {
        params: &scope.params,
        readable: scope.params.len(),
        declared,
        places: Some(scope),
        is_checked: false,
    }
}

/// The first `declared` parameters.
fn declared_view(params: &Params, declared: usize) -> View<'_>
    ensures { readable_in result ≡ params_alone (take declared params.now) }
{
    View {
        params,
        readable: declared,
        declared,
        places: None,
        is_checked: false,
    }
}

/// The number of parameters whose names stand before what follows a name, where those of the first
/// `declared` ones stand before it.
#[tactic(auto, using(crate::proofs::Fronts::place_below))]
pub fn after_name(params: &Params, declared: usize, id: &Ident) -> usize
    ensures { result ≡ scopes.after_name params.now declared (plain_ident id.now).name }
{
    match params.place(id.name.as_slice()) {
        Some(place) if place < params.len() => declared.max(place + 1),
        _ => declared,
    }
}

/// After the names of a `localparam`.
fn after_names(params: &Params, declared: usize, list: &[NamedValue]) -> usize
    ensures { result ≡ scopes.after_names params.now declared (map plain_named list.now) }
{
    let mut count = declared;
    for v in list {
        count = after_name(params, count, &v.id);
    }
    count
}

/// The number of the scope's parameters whose names stand before what follows an item, where the
/// names of the first `declared` ones stand before the item.
pub fn declared_after(scope: &Scope, declared: usize, item: &Item) -> usize
    ensures { result ≡ scopes.after_item scope.now.params declared (plain_item item.now) }
{
    match item {
        Item::Localparams { parameters, .. } => {
            after_names(&scope.params, declared, parameters.as_slice())
        }
        _ => declared,
    }
}

/// Adds a net behind this range.
fn add_net(alloc: Global, nets: &mut ScopeNets, extent: Extent, id: &Ident) -> Result<(), Memory>
    ensures { OnOk result (nets.new ≡ scopes.with_net extent nets.old (plain_ident id.now).name) }
{
    let name = copied(alloc, id.name.as_slice())?;
    nets.push(
        name,
        ScopeNet {
            width: net_width(extent),
        },
    )
}

/// Adds a port's net, and answers the range that is in force behind it.
fn add_port(alloc: Global, scope: &mut Scope, before: Extent, port: &Port) -> Result<Extent, Memory>
    ensures extent { IfOk result (λ x. x ≡ port_extent (scopes.declared_in scope.old) before (plain_port port.now).head) }
    ensures value { IfOk result (λ x. scope.new ≡ scopes.with_port x scope.old (plain_port port.now).id.name) }
{
    let view = declared_view(&scope.params, scope.declared);
    let extent = port_extent(&view, before, &port.head);
    add_net(alloc, &mut scope.nets, extent, &port.id)?;
    Ok(extent)
}

/// Adds the ports' nets.
fn add_ports(alloc: Global, scope: &mut Scope, ports: &[Port]) -> Result<(), Memory>
    ensures { OnOk result (scope.new ≡ scopes.with_ports NoRange scope.old (map plain_port ports.now)) }
{
    let mut extent = Extent::NoRange;
    for port in ports {
        extent = add_port(alloc, scope, extent, port)?;
    }
    Ok(())
}

/// Adds wires.
fn add_wires(
    alloc: Global,
    nets: &mut ScopeNets,
    extent: Extent,
    ids: &[Ident],
) -> Result<(), Memory>
    ensures { OnOk result (nets.new ≡ scopes.wire_nets extent nets.old (map plain_ident ids.now)) }
{
    for id in ids {
        add_net(alloc, nets, extent, id)?;
    }
    Ok(())
}

/// Adds wires that have values.
fn add_driven(
    alloc: Global,
    nets: &mut ScopeNets,
    extent: Extent,
    wires: &[NamedValue],
) -> Result<(), Memory>
    ensures { OnOk result (nets.new ≡ scopes.driven_nets extent nets.old (map plain_named wires.now)) }
{
    for wire in wires {
        add_net(alloc, nets, extent, &wire.id)?;
    }
    Ok(())
}

/// Adds a memory of so many words behind this range.
fn add_memory(
    alloc: Global,
    memories: &mut ScopeMemories,
    extent: Extent,
    length: u32,
    id: &Ident,
) -> Result<(), Memory>
    ensures { OnOk result (memories.new ≡ scopes.with_memory extent length memories.old (plain_ident id.now).name) }
{
    let name = copied(alloc, id.name.as_slice())?;
    memories.push(
        name,
        ScopeMemory {
            width: net_width(extent),
            length,
        },
    )
}

/// Adds a register: a net, or with a range behind its name a memory.
fn add_reg(alloc: Global, scope: &mut Scope, extent: Extent, reg: &Reg1) -> Result<(), Memory>
    ensures { OnOk result (scope.new ≡ scopes.with_reg extent scope.old (plain_reg reg.now).id.name (plain_reg reg.now).tail) }
{
    match &reg.tail {
        Some(RegTail::Memory(range)) => {
            let view = declared_view(&scope.params, scope.declared);
            let length = memory_length(&view, range);
            add_memory(alloc, &mut scope.memories, extent, length, &reg.id)
        }
        _ => add_net(alloc, &mut scope.nets, extent, &reg.id),
    }
}

/// Adds registers.
fn add_regs(alloc: Global, scope: &mut Scope, extent: Extent, regs: &[Reg1]) -> Result<(), Memory>
    ensures { OnOk result (scope.new ≡ scopes.with_regs extent scope.old (map plain_reg regs.now)) }
{
    for reg in regs {
        add_reg(alloc, scope, extent, reg)?;
    }
    Ok(())
}

/// What a range makes of the names behind it, where it reads the parameters that are declared so far.
fn extent_in(scope: &Scope, range: &Option<Range>) -> Extent
    ensures { result ≡ extent_of (scopes.declared_in scope.now) (option_map plain_range range.now) }
{
    extent_of(&declared_view(&scope.params, scope.declared), range)
}

/// Adds the nets and memories of an item, and goes past its parameters.
fn add_item(alloc: Global, scope: &mut Scope, item: &Item) -> Result<(), Memory>
    ensures { OnOk result (scope.new ≡ scopes.with_item scope.old (plain_item item.now)) }
{
    match item {
        Item::Wires { range, names } => {
            let extent = extent_in(scope, range);
            add_wires(alloc, &mut scope.nets, extent, names.as_slice())
        }
        Item::DrivenWires { range, wires } => {
            let extent = extent_in(scope, range);
            add_driven(alloc, &mut scope.nets, extent, wires.as_slice())
        }
        Item::Regs { range, regs } => {
            let extent = extent_in(scope, range);
            add_regs(alloc, scope, extent, regs.as_slice())
        }
        Item::Localparams { parameters, .. } => {
            scope.declared = after_names(&scope.params, scope.declared, parameters.as_slice());
            Ok(())
        }
        _ => Ok(()),
    }
}

/// Adds the nets and memories of the items.
fn add_items(alloc: Global, scope: &mut Scope, items: &[Item]) -> Result<(), Memory>
    ensures { OnOk result (scope.new ≡ scopes.with_items scope.old (map plain_item items.now)) }
{
    for item in items {
        add_item(alloc, scope, item)?;
    }
    Ok(())
}

/// The scope of a module with these parameters, of which the first `declared` ones are the header's.
fn with_places(
    alloc: Global,
    module: &Module,
    declared: usize,
    params: Params,
) -> Result<Scope, Memory>
    ensures { IfOk result (λ s. s ≡ scopes.with_places (plain_module «module».now) declared params) }
{
    let mut scope = Scope {
        params,
        declared,
        nets: Table::new(alloc),
        memories: Table::new(alloc),
    };
    add_ports(alloc, &mut scope, module.ports.as_slice())?;
    add_items(alloc, &mut scope, module.items.as_slice())?;
    scope.declared = declared;
    Ok(scope)
}

/// The scope of a module whose header has these parameters.
fn scope_after(alloc: Global, module: &Module, header: Params) -> Result<Scope, Memory>
    ensures { IfOk result (λ s. s ≡ scopes.scope_after (plain_module «module».now) header) }
{
    let declared = header.len();
    let mut params = header;
    parameters::add_items(alloc, &mut params, module.items.as_slice())?;
    with_places(alloc, module, declared, params)
}

/// The scope of an instance of a module, whose parent connects these parameters and may read these
/// names where the instance stands: each list in text order, with the header's parameters declared
/// (IEEE 1364-2005, 12.2).
///
/// A parameter with a range has the number that its connection or its own expression gives to so many
/// bits. The scope exists also where something is at fault: then a parameter's number isn't known, and
/// a net or a memory is as large as one can be, so that nothing more is found of what reads it.
///
/// # Errors
///
/// `Memory` alone.
pub fn scope_of(
    alloc: Global,
    parent: &View<'_>,
    conns: &[Conn],
    module: &Module,
) -> Result<Scope, Memory>
    ensures { IfOk result (λ s. s ≡ scopes.scope_of (readable_in parent.now) (map plain_conn conns.now) (plain_module «module».now)) }
{
    let given = overrides_of(alloc, parent, conns)?;
    let mut header = Table::new(alloc);
    add_parameters(alloc, &mut header, &given, module.parameters.as_slice())?;
    scope_after(alloc, module, header)
}

/// The scope of the top, of which no parameter is overridden.
///
/// # Errors
///
/// `Memory` alone.
pub fn top_scope(alloc: Global, module: &Module) -> Result<Scope, Memory>
    ensures { IfOk result (λ s. s ≡ scopes.scope_with [] (plain_module «module».now)) }
{
    let none = Table::new(alloc);
    scope_of(alloc, &params_view(&none), &[], module)
}

/// The number of words of the memory at this place.
fn words_at(memories: &ScopeMemories, place: usize) -> usize
    ensures { result ≡ scopes.words_at memories.now place }
{
    match memories.value_at(place) {
        Some(memory) => memory.length as usize,
        None => 0,
    }
}

/// The number of words of all memories, or the largest number where there are more.
#[tactic(auto, using(crate::proofs::Fronts::words_step))]
pub fn words_of(scope: &Scope) -> usize
    ensures { result ≡ min (scopes.words_of scope.now.memories) (2 ^ 64 - 1) }
{
    let mut words: usize = 0;
    for k in 0..scope.memories.len() {
        words = words.saturating_add(words_at(&scope.memories, k));
    }
    words
}
