//! The modules of a file by name and by place.

ghost use Rattle.std.specs.Prelude.{◌≡◌, map, option_map, slice_get};
ghost use Rattle.vlog_tree.specs.Plain.{plain_module};
ghost use Rattle.vlog_hierarchy.specs.Outlines.{place_of};
ghost use Rattle.vlog_elab.specs.Plain.{plain_borrowed, IsTable};

use vlog_names::ModuleTable;
use vlog_tree::Module;

/// The modules of a file, and what each declares by name.
#[derive(Clone, Copy)]
pub struct Modules<'a, 'b> {
    pub table: &'b ModuleTable,
    pub list: &'a [Module],
}

/// The place of the first module of this name, counted from 0.
#[tactic(auto, using(crate::proofs::Places::same_place))]
pub fn place_named(modules: &Modules<'_, '_>, name: &[u8]) -> Option<usize>
    requires { IsTable modules.now }
    ensures { result ≡ place_of (map plain_module modules.now.list.now) name.now }
{
    modules.table.place(name)
}

/// The module at this place.
pub fn module_at<'a>(modules: &Modules<'a, '_>, place: usize) -> Option<&'a Module>
    ensures { option_map plain_borrowed result ≡ slice_get (map plain_module modules.now.list.now) place }
{
    modules.list.get(place)
}
