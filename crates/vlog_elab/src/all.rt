//! All instances of a design.

ghost use Rattle.vlog_hierarchy.specs.declared.nodes.TheConstants.{MOST_LEVELS};
ghost use Rattle.std.specs.Prelude.{◌≡◌, IfOk, OnOk, [], map};
ghost use Rattle.std.specs.List.{flat_map};
ghost use Rattle.vlog_tree.specs.Plain.{plain, plain_module};
ghost use Rattle.vlog_names.specs.Entries.{modules_of};
ghost use Rattle.vlog_hierarchy.specs.Outlines.{place_of};
ghost use Rattle.vlog_elab.specs.Instances as instances;
ghost use Rattle.vlog_elab.specs.Plain.{trees_in, plain_instances, IsTable};

use crate::inside::add_inside;
use crate::instance::ModuleInstance;
use crate::modules::{Modules, module_at, place_named};
use std::alloc::Global;
use vlog_hierarchy::MOST_LEVELS;
use vlog_hierarchy::vidi_bits::{Items, Memory};
use vlog_names::ModuleTable;
use vlog_scope::top_scope;
use vlog_tree::{File, Module};

/// Adds the instance that the top is.
fn add_top<'a>(
    alloc: Global,
    modules: &Modules<'a, '_>,
    top: &[u8],
    out: &mut Items<ModuleInstance<'a>>,
) -> Result<(), Memory>
    requires table { IsTable modules.now }
    requires none { out.old ≡ [] }
    ensures { OnOk result (plain_instances out.new
        ≡ instances.top_at (trees_in modules.now) (place_of (trees_in modules.now) top.now)) }
{
    let Some(place) = place_named(modules, top) else {
        return Ok(());
    };
    let Some(tree) = module_at(modules, place) else {
        return Ok(());
    };
    let scope = top_scope(alloc, tree)?;
    let path = Items::new(alloc);
    out.push(ModuleInstance {
        path,
        place,
        tree,
        scope,
    })
}

/// The instances of these modules and this top.
fn instances_in<'a>(
    alloc: Global,
    modules: &Modules<'a, '_>,
    top: &[u8],
) -> Result<Items<ModuleInstance<'a>>, Memory>
    requires { IsTable modules.now }
    ensures { IfOk result (λ is. plain_instances is ≡ flat_map (instances.within MOST_LEVELS (trees_in modules.now))
        (instances.top_at (trees_in modules.now) (place_of (trees_in modules.now) top.now))) }
{
    let mut out = Items::new(alloc);
    add_top(alloc, modules, top, &mut out)?;
    add_inside(alloc, modules, MOST_LEVELS - 1, 0, &mut out)?;
    Ok(out)
}

/// The instances of a file, of which `table` has the modules, and its top.
#[tactic(auto, unfolding(crate::specs::Instances::instances, crate::specs::Instances::modules_of))]
pub fn all_instances<'a>(
    alloc: Global,
    table: &ModuleTable,
    file: &'a File,
    top: &[u8],
) -> Result<Items<ModuleInstance<'a>>, Memory>
    requires { table.now ≡ modules_of (plain file.now) }
    ensures { IfOk result (λ is. plain_instances is ≡ instances.instances (plain file.now) top.now) }
{
    let modules = Modules {
        table,
        list: file.modules.as_slice(),
    };
    instances_in(alloc, &modules, top)
}
