//! The names of a whole design text.

ghost use Rattle.std.specs.Prelude.{◌≡◌, ◌++◌, map, IfOk};
ghost use Rattle.std.specs.List.{flat_map};
ghost use Rattle.vlog_tree.specs.Plain.{plain, plain_module};
ghost use Rattle.vlog_names.specs.Entries.{declared, modules_of, module_entry};
ghost use Rattle.vlog_names.specs.Twice.{twice_names};
ghost use Rattle.vlog_names.specs.Unknown.{unknown_in, unknown_module, unknown_top, unknown_names};
ghost use Rattle.vlog_size.specs.vidi_bits.Findings.{Judged};
ghost use Rattle.vlog_names.specs.Told.{name_told};

use crate::declaration::{Declarations, ModuleTable};
use crate::declaring::modules_of;
use crate::error::NameError;
use crate::items::{known_items, known_parameters, known_ports};
use crate::table::names_at;
use std::alloc::Global;
use vlog_size::vidi_bits::copied;
use vlog_tree::{File, Module};

/// A module that declares `names`.
#[tactic(auto, unfolding(crate::specs::Unknown::unknown_in))]
fn known_in(
    alloc: Global,
    modules: &ModuleTable,
    names: &Declarations,
    module: &Module,
) -> Result<(), NameError>
    ensures { Judged name_told result (unknown_in modules.now names.now (plain_module «module».now)) }
{
    known_parameters(alloc, names, module.parameters.as_slice())?;
    known_ports(alloc, names, module.ports.as_slice())?;
    known_items(alloc, modules, names, module.items.as_slice())
}

/// A module that is in the file.
#[tactic(auto, unfolding(crate::specs::Unknown::unknown_module))]
fn known_module(
    alloc: Global,
    modules: &ModuleTable,
    names: &Declarations,
    module: &Module,
) -> Result<(), NameError>
    requires { names.now ≡ declared (plain_module «module».now) }
    ensures { Judged name_told result (unknown_module modules.now (plain_module «module».now)) }
{
    known_in(alloc, modules, names, module)
}

fn known_top(alloc: Global, modules: &ModuleTable, top: &[u8]) -> Result<(), NameError>
    ensures { Judged name_told result (unknown_top modules.now top.now) }
{
    match modules.get(top) {
        Some(_) => Ok(()),
        None => {
            let name = copied(alloc, top)?;
            Err(NameError::Unknown { name })
        }
    }
}

fn known_modules(alloc: Global, modules: &ModuleTable, all: &[Module]) -> Result<(), NameError>
    requires { modules.now ≡ map module_entry (map plain_module all.now) }
    ensures { Judged name_told result (flat_map (unknown_module modules.now) (map plain_module all.now)) }
{
    for (place, module) in all.iter().enumerate() {
        let Some(names) = names_at(modules, place) else {
            return Ok(());
        };
        known_module(alloc, modules, names, module)?;
    }
    Ok(())
}

/// The modules of a file, with what each declares, where no name stands twice, and the top and each used name are
/// declared.
///
/// `Twice` comes first: it names the name whose second standing comes first in the file. `Unknown` names the top where no
/// module has this name, else the first used name that isn't declared: a name in its module, a module, or a port or a
/// parameter in a connection. Names may be declared after their use. `Memory` comes where no memory was found.
#[tactic(auto, unfolding(crate::specs::Unknown::unknown_names, crate::specs::Entries::modules_of))]
pub fn check_names(alloc: Global, file: &File, top: &[u8]) -> Result<ModuleTable, NameError>
    // No finding, or the first one.
    ensures told { Judged name_told result (twice_names (plain file.now) ++ unknown_names (plain file.now) top.now) }
    // The modules, with what each declares.
    ensures modules { IfOk result (λ modules. modules ≡ modules_of (plain file.now)) }
{
    let modules = modules_of(alloc, file)?;
    known_top(alloc, &modules, top)?;
    known_modules(alloc, &modules, file.modules.as_slice())?;
    Ok(modules)
}
