//! What the modules of a file hold of the hierarchy.

ghost use Rattle.std.specs.Prelude.{◌≡◌, ◌≤◌, ◌^◌, ◌++◌, map, IfOk, OnOk};
ghost use Rattle.std.specs.List.{sum_by};
ghost use Rattle.vlog_tree.specs.Plain.{plain_item, plain_reg, plain_instance, plain_module};
ghost use Rattle.vlog_hierarchy.specs.Outlines.{reg_nets, item_nets, net_count, child_at, item_children, children_of, outline_of};
ghost use Rattle.vlog_hierarchy.specs.Outlines.{outlines_of, place_of};
ghost use Rattle.vlog_hierarchy.specs.Plain.{plain_child, plain_outline, plain_outlines};
ghost use Rattle.vlog_hierarchy.specs.Places.{IsIndex};

use crate::places::{Index, place_named};
use std::alloc::Global;
use vlog_size::vidi_bits::{Items, Memory};
use vlog_tree::{Instance, Item, Module, Reg1, RegTail};

/// An instance whose module is declared.
#[derive(Clone, Copy)]
pub struct Child<'a> {
    pub instance: &'a Instance,
    /// The place of its module in the file, counted from 0.
    pub place: usize,
}

/// What a module holds of the hierarchy.
#[derive(Drop)]
pub struct Outline<'a> {
    /// The number of nets that it declares: ports, wires and regs, without memories.
    pub nets: u128,
    /// Its instances whose modules are declared, in text order.
    pub children: Items<Child<'a>>,
}

/// 1 for a net, 0 for a memory.
fn reg_nets(reg: &Reg1) -> u128
    ensures { result ≡ reg_nets (plain_reg reg.now) }
{
    match reg.tail {
        Some(RegTail::Memory(_)) => 0,
        _ => 1,
    }
}

/// The number of nets among these regs.
fn regs_nets(regs: &[Reg1]) -> u128
    ensures value { result ≡ sum_by reg_nets (map plain_reg regs.now) }
    ensures few { result ≤ 2 ^ 64 }
{
    let mut nets = 0;
    for reg in regs {
        nets += reg_nets(reg);
    }
    nets
}

/// The number of nets that an item declares.
fn item_nets(item: &Item) -> u128
    ensures value { result ≡ item_nets (plain_item item.now) }
    ensures few { result ≤ 2 ^ 64 }
{
    match item {
        Item::Wires { names, .. } => names.len() as u128,
        Item::DrivenWires { wires, .. } => wires.len() as u128,
        Item::Regs { regs, .. } => regs_nets(regs.as_slice()),
        Item::Localparams { .. } => 0,
        Item::Assign { .. } => 0,
        Item::Always(_) => 0,
        Item::Instance(_) => 0,
    }
}

/// The number of nets that a module declares.
#[tactic(auto, unfolding(crate::specs::Outlines::net_count))]
fn net_count(unit: &Module) -> u128
    ensures { result ≡ net_count (plain_module unit.now) }
{
    let mut nets = unit.ports.len() as u128;
    for item in unit.items.as_slice() {
        nets += item_nets(item);
    }
    nets
}

/// Adds an instance, unless its module isn't declared.
fn add_child<'a>(
    index: &Index<'_>,
    children: &mut Items<Child<'a>>,
    instance: &'a Instance,
) -> Result<(), Memory>
    requires { IsIndex index.now }
    ensures { OnOk result (map plain_child children.new ≡ map plain_child children.old
        ++ child_at (plain_instance instance.now)
        (place_of (map plain_module index.now.modules.now) (plain_instance instance.now).module_id.name)) }
{
    match place_named(index, instance.module_id.name.as_slice()) {
        Some(place) => {
            children.push(Child { instance, place })?;
            Ok(())
        }
        None => Ok(()),
    }
}

/// Adds the instance that an item is.
fn add_item<'a>(
    index: &Index<'_>,
    children: &mut Items<Child<'a>>,
    item: &'a Item,
) -> Result<(), Memory>
    requires { IsIndex index.now }
    ensures { OnOk result (map plain_child children.new ≡ map plain_child children.old
        ++ item_children (map plain_module index.now.modules.now) (plain_item item.now)) }
{
    match item {
        Item::Instance(instance) => {
            add_child(index, children, instance)?;
            Ok(())
        }
        _ => Ok(()),
    }
}

/// The instances of a module.
#[tactic(auto, unfolding(crate::specs::Outlines::children_of))]
fn children_of<'a>(
    alloc: Global,
    index: &Index<'_>,
    unit: &'a Module,
) -> Result<Items<Child<'a>>, Memory>
    requires { IsIndex index.now }
    ensures { IfOk result (λ cs. map plain_child cs ≡ children_of (map plain_module index.now.modules.now) (plain_module unit.now)) }
{
    let mut children = Items::new(alloc);
    for item in unit.items.as_slice() {
        add_item(index, &mut children, item)?;
    }
    Ok(children)
}

fn outline_of<'a>(alloc: Global, index: &Index<'_>, unit: &'a Module) -> Result<Outline<'a>, Memory>
    requires { IsIndex index.now }
    ensures { IfOk result (λ o. plain_outline o ≡ outline_of (map plain_module index.now.modules.now) (plain_module unit.now)) }
{
    let nets = net_count(unit);
    let children = children_of(alloc, index, unit)?;
    Ok(Outline { nets, children })
}

/// The outlines of the modules of a file, in their order.
#[tactic(auto, unfolding(crate::specs::Outlines::outlines_of))]
pub fn outlines<'a>(alloc: Global, index: &Index<'a>) -> Result<Items<Outline<'a>>, Memory>
    requires { IsIndex index.now }
    ensures { IfOk result (λ os. plain_outlines os ≡ outlines_of (map plain_module index.now.modules.now)) }
{
    let mut outlines = Items::new(alloc);
    for module in index.modules {
        let outline = outline_of(alloc, index, module)?;
        outlines.push(outline)?;
    }
    Ok(outlines)
}
