//! What the items of an instance add.

ghost use Rattle.std.specs.Prelude.{◌≡◌, ◌<◌, OnOk, Some, map, length, slice_get};
ghost use Rattle.std.specs.List.{flat_map, AllByRecursion};
ghost use Rattle.vlog_tree.specs.Plain.{plain_item};
ghost use Rattle.flat_parts.specs.vlog_hierarchy.Plain.{plain_path};
ghost use Rattle.flat_parts.specs.vlog_driver.Placed.{placed};
ghost use Rattle.flat_parts.specs.vlog_elab.Instances as instances;
ghost use Rattle.flat_parts.specs.vidi_bits.Findings.{Judged};
ghost use Rattle.flat_parts.specs.vlog_elab.Told.{elab_told};
ghost use Rattle.flat_parts.specs.vlog_driver.Duties.{DoMore};
ghost use Rattle.flat_parts.specs.Seats.{Seat};
ghost use Rattle.flat_parts.specs.Drivers.{seat_duties, seat_blocks};
ghost use Rattle.flat_drivers.specs.Latches.{placed_latches, instance_latches};
ghost use Rattle.flat_drivers.specs.Seated.{IsFlat, instances_in, seats_in};
ghost use Rattle.flat_drivers.specs.Adding.{BlocksMore, placed_in, blocks_in, IsFaultlessPlaced};

use crate::copied::copied_scope;
use crate::flat::{Flat, FlatCode};
use crate::item::{add_item, past_item};
use flat_parts::net_code::Base;
use flat_parts::vidi_bits::Name;
use flat_parts::vlog_driver::Site;
use flat_parts::vlog_elab::ElabError;
use flat_parts::vlog_scope::declared_after;
use flat_parts::vlog_size::Scope;
use std::alloc::Global;
use vlog_tree::Item;

/// Adds what an item of an instance makes, before which so many parameters of its scope are declared.
fn add_placed(
    alloc: Global,
    flat: &Flat<'_, '_>,
    path: &[&Name],
    scope: &Scope,
    base: Base,
    at: usize,
    item: &Item,
    out: &mut FlatCode,
) -> Result<(), ElabError>
    requires flat { IsFlat flat.now }
    requires faultless { IsFaultlessPlaced base scope.now (record { declared = scope.now.declared; item = plain_item item.now }) }
    ensures told { Judged elab_told result (placed_latches scope.now (record { declared = scope.now.declared; item = plain_item item.now })) }
    ensures drivers { OnOk result (DoMore (placed_in (seats_in flat.now) (plain_path path.now) base scope.now
        (record { declared = scope.now.declared; item = plain_item item.now })) out.old.drivers out.new.drivers) }
    ensures blocks { OnOk result (BlocksMore (blocks_in base scope.now
        (record { declared = scope.now.declared; item = plain_item item.now })) out.old.blocks out.new.blocks) }
{
    let site = Site { scope, base };
    add_item(alloc, flat, path, &site, at, item, out)
}

/// Adds what the items of an instance make, the first instance in which stands at this place of the list. The scope is the instance's
/// own copy.
fn add_items(
    alloc: Global,
    flat: &Flat<'_, '_>,
    path: &[&Name],
    scope: &mut Scope,
    base: Base,
    first: usize,
    items: &[Item],
    out: &mut FlatCode,
) -> Result<(), ElabError>
    requires flat { IsFlat flat.now }
    requires faultless { AllByRecursion (IsFaultlessPlaced base scope.old)
        (placed scope.old.params scope.old.declared (map plain_item items.now)) }
    ensures told { Judged elab_told result (flat_map (placed_latches scope.old)
        (placed scope.old.params scope.old.declared (map plain_item items.now))) }
    ensures drivers { OnOk result (DoMore (flat_map (placed_in (seats_in flat.now) (plain_path path.now) base scope.old)
        (placed scope.old.params scope.old.declared (map plain_item items.now))) out.old.drivers out.new.drivers) }
    ensures blocks { OnOk result (BlocksMore (flat_map (blocks_in base scope.old)
        (placed scope.old.params scope.old.declared (map plain_item items.now))) out.old.blocks out.new.blocks) }
{
    let mut at = first;
    for item in items {
        add_placed(alloc, flat, path, scope, base, at, item, out)?;
        at = past_item(flat, at, item);
        scope.declared = declared_after(scope, scope.declared, item);
    }
    Ok(())
}

/// Adds what the instance at this place of the list makes.
pub fn add_seat(
    alloc: Global,
    flat: &Flat<'_, '_>,
    at: usize,
    out: &mut FlatCode,
) -> Result<(), ElabError>
    requires flat { IsFlat flat.now }
    requires there { at < length flat.now.list.now }
    ensures told { (i : instances.ModuleInstance) → slice_get (instances_in flat.now) at ≡ Some i → Judged elab_told result (instance_latches i) }
    ensures drivers { (x : Seat) → slice_get (seats_in flat.now) at ≡ Some x
        → OnOk result (DoMore (seat_duties (seats_in flat.now) x) out.old.drivers out.new.drivers) }
    ensures blocks { (x : Seat) → slice_get (seats_in flat.now) at ≡ Some x
        → OnOk result (BlocksMore (seat_blocks x) out.old.blocks out.new.blocks) }
{
    let instance = &flat.list[at];
    let Some(base) = flat.bases.get(at) else {
        unreachable!();
    };
    let mut scope = copied_scope(alloc, &instance.scope)?;
    add_items(
        alloc,
        flat,
        instance.path.as_slice(),
        &mut scope,
        *base,
        at + 1,
        instance.tree.items.as_slice(),
        out,
    )
}
