//! The kinds of a whole design text.

ghost use Rattle.std.specs.Prelude.{◌≡◌, map};
ghost use Rattle.std.specs.List.{flat_map};
ghost use Rattle.vlog_tree.specs.Plain.{plain, plain_module};
ghost use Rattle.vlog_names.specs.Entries.{declared, modules_of, module_entry};
ghost use Rattle.vlog_names.specs.vidi_bits.Findings.{Judged};
ghost use Rattle.vlog_names.specs.Told.{kind_told};
ghost use Rattle.vlog_names.specs.Uses.{in_module_with, in_module, wrong_uses};

use crate::declaration::{Declarations, ModuleTable};
use crate::kinds::error::KindError;
use crate::kinds::items::{check_items, check_parameters, check_ports};
use crate::table::names_at;
use vlog_tree::{File, Module};

/// A module that declares `names`.
#[tactic(auto, unfolding(crate::specs::Uses::in_module_with))]
fn check_in(modules: &ModuleTable, names: &Declarations, module: &Module) -> Result<(), KindError>
    ensures { Judged kind_told result (in_module_with modules.now names.now (plain_module «module».now)) }
{
    check_parameters(names, module.parameters.as_slice())?;
    check_ports(names, module.ports.as_slice())?;
    check_items(modules, names, module.items.as_slice())
}

/// A module that is in the file.
#[tactic(auto, unfolding(crate::specs::Uses::in_module))]
fn check_module(
    modules: &ModuleTable,
    names: &Declarations,
    module: &Module,
) -> Result<(), KindError>
    requires { names.now ≡ declared (plain_module «module».now) }
    ensures { Judged kind_told result (in_module modules.now (plain_module «module».now)) }
{
    check_in(modules, names, module)
}

fn check_modules(modules: &ModuleTable, all: &[Module]) -> Result<(), KindError>
    requires { modules.now ≡ map module_entry (map plain_module all.now) }
    ensures { Judged kind_told result (flat_map (in_module modules.now) (map plain_module all.now)) }
{
    for (place, module) in all.iter().enumerate() {
        let Some(names) = names_at(modules, place) else {
            return Ok(());
        };
        check_module(modules, names, module)?;
    }
    Ok(())
}

/// Refuses the first name or assignment of the file that is of a wrong kind (E7), where `modules` are what its modules
/// declare; each module counts, whether or not it is the top or below it.
#[tactic(auto, unfolding(crate::specs::Uses::wrong_uses, crate::specs::Entries::modules_of))]
pub fn check_kinds(modules: &ModuleTable, file: &File) -> Result<(), KindError>
    requires { modules.now ≡ modules_of (plain file.now) }
    ensures { Judged kind_told result (wrong_uses (plain file.now)) }
{
    check_modules(modules, file.modules.as_slice())
}
