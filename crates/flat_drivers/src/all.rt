//! The drivers and clocked blocks of a flat design.

ghost use Rattle.std.specs.Prelude.{◌≡◌, IfOk, OnOk};
ghost use Rattle.std.specs.List.{flat_map, AllZip};
ghost use Rattle.flat_parts.specs.Instances.{HaveOwnPaths, AreDeclaredIn};
ghost use Rattle.flat_parts.specs.vlog_elab.Plain.{plain_instances};
ghost use Rattle.flat_parts.specs.vidi_bits.Findings.{Judged};
ghost use Rattle.flat_parts.specs.vlog_elab.Told.{elab_told};
ghost use Rattle.flat_parts.specs.vlog_driver.Duties.{Does, DoMore};
ghost use Rattle.flat_parts.specs.Seats.{seats_of};
ghost use Rattle.flat_parts.specs.Drivers.{seat_duties, seat_blocks, all_duties, all_blocks, IsBlockOf};
ghost use Rattle.flat_drivers.specs.Latches.{instance_latches};
ghost use Rattle.flat_drivers.specs.Seated.{IsFlat, AreFaultlessInstances, instances_in, seats_in};
ghost use Rattle.flat_drivers.specs.Adding.{BlocksMore};

use crate::flat::{Flat, FlatCode};
use crate::seat::add_seat;
use flat_parts::bases_of;
use flat_parts::vidi_bits::Items;
use flat_parts::vlog_elab::{ElabError, ModuleInstance};
use flat_parts::vlog_names::ModuleTable;
use std::alloc::Global;

/// Adds what all instances make.
fn add_seats(alloc: Global, flat: &Flat<'_, '_>, out: &mut FlatCode) -> Result<(), ElabError>
    requires { IsFlat flat.now }
    ensures told { Judged elab_told result (flat_map instance_latches (instances_in flat.now)) }
    ensures drivers { OnOk result (DoMore (flat_map (seat_duties (seats_in flat.now)) (seats_in flat.now))
        out.old.drivers out.new.drivers) }
    ensures blocks { OnOk result (BlocksMore (flat_map seat_blocks (seats_in flat.now)) out.old.blocks out.new.blocks) }
{
    for at in 0..flat.list.len() {
        add_seat(alloc, flat, at, out)?;
    }
    Ok(())
}

/// The drivers and the clocked blocks of the flat design that these instances make, each in preorder of instances and text order
/// (IEEE 1364-2005, 6.1, 9.7.5, 9.9.2 and 12.3; this project's profile).
///
/// By condition no two instances have the same path, the table has what each instance's module declares, and each instance has a lawful
/// scope, in which E5 and E6 find nothing.
///
/// # Errors
///
/// `Latch`, with the net declared first and the line of the `always @*`: the first finding of E9 over the instances in preorder, each in
/// text order; it comes exactly where there is one. `Memory`: there isn't enough memory, or nets or words can't be counted in 32 bits,
/// or more than 2,048 statements stand within one another, or something is found in a wire or a connection by E4, E5 or E6.
pub fn drivers_of(
    alloc: Global,
    modules: &ModuleTable,
    list: &[ModuleInstance<'_>],
) -> Result<FlatCode, ElabError>
    requires paths { HaveOwnPaths (plain_instances list.now) }
    requires names { AreDeclaredIn modules.now (plain_instances list.now) }
    requires faultless { AreFaultlessInstances (plain_instances list.now) }
    ensures told { Judged elab_told result (flat_map instance_latches (plain_instances list.now)) }
    ensures drivers { IfOk result (λ r. AllZip Does (all_duties (seats_of (plain_instances list.now))) r.drivers) }
    ensures blocks { IfOk result (λ r. AllZip IsBlockOf (all_blocks (seats_of (plain_instances list.now))) r.blocks) }
{
    let bases = bases_of(alloc, list)?;
    let flat = Flat {
        modules,
        list,
        bases: bases.as_slice(),
    };
    let mut out = FlatCode {
        drivers: Items::new(alloc),
        blocks: Items::new(alloc),
    };
    add_seats(alloc, &flat, &mut out)?;
    Ok(out)
}
