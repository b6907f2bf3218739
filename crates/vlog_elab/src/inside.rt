//! All instances in an instance, in preorder.

ghost use Rattle.std.specs.Prelude.{◌≡◌, ◌<◌, ◌++◌, map, length, slice_get, OnOk};
ghost use Rattle.std.specs.List.{flat_map};
ghost use Rattle.vlog_tree.specs.Plain.{plain_item};
ghost use Rattle.vlog_elab.specs.Instances.{within};
ghost use Rattle.vlog_elab.specs.Inside as inside;
ghost use Rattle.vlog_elab.specs.Plain.{trees_in, listed, plain_instances, IsTable};

use crate::child::item_child;
use crate::instance::ModuleInstance;
use crate::modules::Modules;
use std::alloc::Global;
use vlog_hierarchy::vidi_bits::{Items, Memory};
use vlog_scope::declared_after;
use vlog_tree::Item;

/// Adds an instance, where there is one.
fn add_listed<'a>(
    out: &mut Items<ModuleInstance<'a>>,
    child: Option<ModuleInstance<'a>>,
) -> Result<(), Memory>
    ensures { OnOk result (plain_instances out.new ≡ plain_instances out.old ++ listed child.entry) }
{
    match child {
        Some(child) => out.push(child),
        None => Ok(()),
    }
}

/// Adds the instance that an item is, which stands in the instance at this place of the list.
fn add_child<'a>(
    alloc: Global,
    modules: &Modules<'a, '_>,
    at: usize,
    declared: usize,
    item: &'a Item,
    out: &mut Items<ModuleInstance<'a>>,
) -> Result<(), Memory>
    requires { IsTable modules.now }
    ensures { OnOk result (plain_instances out.new ≡ plain_instances out.old
        ++ inside.one_child (trees_in modules.now) (slice_get (plain_instances out.old) at) declared (plain_item item.now)) }
{
    match out.get(at) {
        Some(parent) => {
            let child = item_child(alloc, modules, parent, declared, item)?;
            add_listed(out, child)
        }
        None => Ok(()),
    }
}

/// The number of parameters that are declared before what follows an item of the instance at this place of the list.
fn declared_past(out: &Items<ModuleInstance<'_>>, at: usize, declared: usize, item: &Item) -> usize
    ensures { result ≡ inside.declared_past (slice_get (plain_instances out.now) at) declared (plain_item item.now) }
{
    match out.get(at) {
        Some(parent) => declared_after(&parent.scope, declared, item),
        None => declared,
    }
}

/// Adds all instances in the instance at this place of the list, at most so many levels deep.
#[cycle(add)]
pub fn add_inside<'a>(
    alloc: Global,
    modules: &Modules<'a, '_>,
    depth: usize,
    at: usize,
    out: &mut Items<ModuleInstance<'a>>,
) -> Result<(), Memory>
    requires { IsTable modules.now }
    ensures { OnOk result (plain_instances out.new ≡ plain_instances out.old
        ++ flat_map (within depth (trees_in modules.now))
        (inside.children_at (trees_in modules.now) (slice_get (plain_instances out.old) at))) }
{
    match out.get(at) {
        Some(parent) => {
            let declared = parent.scope.declared;
            let tree = parent.tree;
            add_items(
                alloc,
                modules,
                depth,
                at,
                declared,
                tree.items.as_slice(),
                out,
            )
        }
        None => Ok(()),
    }
}

/// Adds all instances in these items of the instance at this place of the list.
#[cycle(add)]
fn add_items<'a>(
    alloc: Global,
    modules: &Modules<'a, '_>,
    depth: usize,
    at: usize,
    declared: usize,
    items: &'a [Item],
    out: &mut Items<ModuleInstance<'a>>,
) -> Result<(), Memory>
    requires table { IsTable modules.now }
    requires there { at < length out.old }
    ensures { OnOk result (plain_instances out.new ≡ plain_instances out.old
        ++ flat_map (within depth (trees_in modules.now))
        (inside.children_past (trees_in modules.now) (slice_get (plain_instances out.old) at) declared (map plain_item items.now))) }
{
    if depth == 0 {
        return Ok(());
    }
    let mut count = declared;
    for item in items {
        let next = out.len();
        add_child(alloc, modules, at, count, item, out)?;
        add_inside(alloc, modules, depth - 1, next, out)?;
        count = declared_past(out, at, count, item);
    }
    Ok(())
}
