//! Tables of names, in which none stands twice.

ghost use Rattle.std.specs.Prelude.{◌≡◌, ◌++◌, ◌∷◌, [], List, ℕ, map, is_some, OnOk, slice_get};
ghost use Rattle.std.specs.Option.{option_copied, option_map};
ghost use Rattle.vlog_tree.specs.Tree.{ModuleOf};
ghost use Rattle.vlog_size.specs.Table.{value_of};
ghost use Rattle.vlog_names.specs.Entries.{entry, declared, module_entry};
ghost use Rattle.vlog_names.specs.Twice.{twice_name};
ghost use Rattle.vlog_size.specs.vidi_bits.Findings.{Judged};
ghost use Rattle.vlog_names.specs.Told.{name_told};

use crate::declaration::{Declarations, ModuleTable};
use crate::error::NameError;
use std::alloc::Global;
use vlog_size::Table;
use vlog_size::vidi_bits::{Name, copied};

/// Whether the table has the name.
fn is_there<V>(table: &Table<V>, name: &[u8]) -> bool
    ensures { result ≡ is_some (value_of table.now name.now) }
{
    match table.get(name) {
        Some(_) => true,
        None => false,
    }
}

/// Refuses a name that the table has.
pub fn check_new<V>(alloc: Global, table: &Table<V>, name: &Name) -> Result<(), NameError>
    ensures { Judged name_told result (twice_name table.now name.now) }
{
    if is_there(table, name.as_slice()) {
        let name = copied(alloc, name.as_slice())?;
        return Err(NameError::Twice { name });
    }
    Ok(())
}

/// Adds a name at the end, and refuses one that the table has.
pub fn declare<V: Drop>(
    alloc: Global,
    table: &mut Table<V>,
    name: &Name,
    value: V,
) -> Result<(), NameError>
    ensures told { Judged name_told result (twice_name table.old name.now) }
    ensures kept { OnOk result (table.new ≡ table.old ++ entry name.now value ∷ []) }
{
    check_new(alloc, table, name)?;
    let copy = copied(alloc, name.as_slice())?;
    table.push(copy, value)?;
    Ok(())
}

/// What the module at this place of the file declares, counted from 0.
pub fn names_at(modules: &ModuleTable, place: usize) -> Option<&Declarations>
    ensures { (ms : List (ModuleOf ℕ)) → modules.now ≡ map module_entry ms
        → option_copied result ≡ option_map declared (slice_get ms place) }
{
    modules.value_at(place)
}
