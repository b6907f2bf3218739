//! Copies of scopes.

ghost use Rattle.std.specs.Prelude.{◌≡◌, ◌<◌, ◌+◌, length, take, IfOk, OnOk};

use flat_parts::vidi_bits::{Memory, copied};
use flat_parts::vlog_size::{Scope, Table};
use std::alloc::Global;

/// Adds the entry at this place to a copy that has those before it.
fn copy_entry<V: Copy + Drop>(
    alloc: Global,
    table: &Table<V>,
    place: usize,
    copy: &mut Table<V>,
) -> Result<(), Memory>
    requires there { place < length table.now }
    requires front { copy.old ≡ take place table.now }
    ensures { OnOk result (copy.new ≡ take (place + 1) table.now) }
{
    let Some(name) = table.name_at(place) else {
        unreachable!();
    };
    let Some(value) = table.value_at(place) else {
        unreachable!();
    };
    let before = copy.len();
    let name = copied(alloc, name)?;
    copy.push(name, *value)?;
    if copy.len() == before {
        return Err(Memory);
    }
    Ok(())
}

fn copied_table<V: Copy + Drop>(alloc: Global, table: &Table<V>) -> Result<Table<V>, Memory>
    ensures { IfOk result (λ copy. copy ≡ table.now) }
{
    let mut copy = Table::new(alloc);
    for place in 0..table.len() {
        copy_entry(alloc, table, place, &mut copy)?;
    }
    Ok(copy)
}

/// A copy of a scope.
pub fn copied_scope(alloc: Global, scope: &Scope) -> Result<Scope, Memory>
    ensures { IfOk result (λ copy. copy ≡ scope.now) }
{
    let params = copied_table(alloc, &scope.params)?;
    let nets = copied_table(alloc, &scope.nets)?;
    let memories = copied_table(alloc, &scope.memories)?;
    Ok(Scope {
        params,
        declared: scope.declared,
        nets,
        memories,
    })
}
