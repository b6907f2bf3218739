//! The instances that stand in an instance.

ghost use Rattle.std.specs.Prelude.{◌≡◌, ◌++◌, ◌∷◌, [], map, slice_get, IfOk, OnOk, Some};
ghost use Rattle.vlog_tree.specs.Plain.{plain_instance, plain_item, plain_module};
ghost use Rattle.vlog_hierarchy.specs.Plain.{plain_path};
ghost use Rattle.vlog_hierarchy.specs.Outlines.{place_of};
ghost use Rattle.vlog_scope.specs.Scope.{readable_at};
ghost use Rattle.vlog_elab.specs.Instances as instances;
ghost use Rattle.vlog_elab.specs.Plain as plain;

use crate::instance::ModuleInstance;
use crate::modules::{Modules, module_at, place_named};
use std::alloc::Global;
use vlog_hierarchy::vidi_bits::{Items, Memory, Name};
use vlog_scope::{declared_after, scope_of, view_at};
use vlog_tree::{Instance, Item, Module};

/// A path with one more name.
fn longer_path<'a>(
    alloc: Global,
    path: &[&'a Name],
    name: &'a Name,
) -> Result<Items<&'a Name>, Memory>
    ensures { IfOk result (λ p. plain_path p ≡ plain_path path.now ++ name.now ∷ []) }
{
    let mut longer = Items::new(alloc);
    for part in path {
        longer.push(*part)?;
    }
    longer.push(name)?;
    Ok(longer)
}

/// The instance of a module that stands in its parent, of whose parameters so many are declared before it.
fn child_of<'a>(
    alloc: Global,
    parent: &ModuleInstance<'a>,
    declared: usize,
    instance: &'a Instance,
    place: usize,
    tree: &'a Module,
) -> Result<ModuleInstance<'a>, Memory>
    ensures { IfOk result (λ c. plain.plain_instance c ∷ [] ≡ instances.child_of (plain_path parent.now.path)
        (readable_at parent.now.scope declared) (plain_instance instance.now) place (Some (plain_module tree.now))) }
{
    let path = longer_path(alloc, parent.path.as_slice(), &instance.id.name)?;
    let view = view_at(&parent.scope, declared);
    let scope = scope_of(alloc, &view, instance.parameters.as_slice(), tree)?;
    Ok(ModuleInstance {
        path,
        place,
        tree,
        scope,
    })
}

/// The same where its module is at this place, if there is one.
fn child_at<'a>(
    alloc: Global,
    modules: &Modules<'a, '_>,
    parent: &ModuleInstance<'a>,
    declared: usize,
    instance: &'a Instance,
    place: usize,
) -> Result<Option<ModuleInstance<'a>>, Memory>
    ensures { IfOk result (λ o. plain.listed o ≡ instances.child_of (plain_path parent.now.path)
        (readable_at parent.now.scope declared) (plain_instance instance.now) place
        (slice_get (plain.trees_in modules.now) place)) }
{
    match module_at(modules, place) {
        Some(tree) => {
            let child = child_of(alloc, parent, declared, instance, place, tree)?;
            Ok(Some(child))
        }
        None => Ok(None),
    }
}

/// The same of any instance, which is left out where its module isn't declared.
fn child_named<'a>(
    alloc: Global,
    modules: &Modules<'a, '_>,
    parent: &ModuleInstance<'a>,
    declared: usize,
    instance: &'a Instance,
) -> Result<Option<ModuleInstance<'a>>, Memory>
    requires { plain.IsTable modules.now }
    ensures { IfOk result (λ o. plain.listed o ≡ instances.child_at (plain.trees_in modules.now) (plain_path parent.now.path)
        (readable_at parent.now.scope declared) (plain_instance instance.now)
        (place_of (plain.trees_in modules.now) (plain_instance instance.now).module_id.name)) }
{
    match place_named(modules, instance.module_id.name.as_slice()) {
        Some(place) => child_at(alloc, modules, parent, declared, instance, place),
        None => Ok(None),
    }
}

/// The instance that an item is.
pub fn item_child<'a>(
    alloc: Global,
    modules: &Modules<'a, '_>,
    parent: &ModuleInstance<'a>,
    declared: usize,
    item: &'a Item,
) -> Result<Option<ModuleInstance<'a>>, Memory>
    requires { plain.IsTable modules.now }
    ensures { IfOk result (λ o. plain.listed o ≡ instances.item_children (plain.trees_in modules.now) (plain_path parent.now.path)
        (readable_at parent.now.scope declared) (plain_item item.now)) }
{
    match item {
        Item::Instance(instance) => child_named(alloc, modules, parent, declared, instance),
        _ => Ok(None),
    }
}
