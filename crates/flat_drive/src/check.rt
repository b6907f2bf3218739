//! E8 over the instances of a file.

ghost use Rattle.std.specs.List.{AllZip};
ghost use Rattle.flat_parts.specs.vlog_driver.Duties.{Does};
ghost use Rattle.flat_parts.specs.Drivers.{all_duties, all_blocks, IsBlockOf};
ghost use Rattle.flat_drive.specs.Findings.{drive_findings};
ghost use Rattle.std.specs.Prelude.{◌≡◌, min, IfOk};
ghost use Rattle.flat_parts.specs.net_drive.declared.findings.Misdriven.{Misdriven};
ghost use Rattle.flat_parts.specs.vlog_elab.Plain.{plain_instances};
ghost use Rattle.flat_parts.specs.vidi_bits.Findings.{Judged};
ghost use Rattle.flat_parts.specs.vlog_elab.Told.{elab_told};
ghost use Rattle.flat_parts.specs.Seats.{seats_of};
ghost use Rattle.flat_parts.specs.Nets.{flat_nets, flat_memories};
ghost use Rattle.flat_parts.specs.Marks.{reg_marks};
ghost use Rattle.flat_drive.specs.Reasons.{drivers_told, error_of, flat_findings};

use crate::full_names::{memory_name, net_name};
use crate::pins::kinds;
use flat_parts::net_drive::{Misdriven, misdriven};
use flat_parts::vidi_bits::Memory;
use flat_parts::vlog_elab::{ElabError, ModuleInstance};
use net_design::{Code, DesignMemory, Driver, Net};
use std::alloc::Global;

/// A number of drivers in 32 bits.
fn drivers_told(n: u128) -> u32
    ensures { result ≡ drivers_told n }
{
    if n < 4_294_967_295 {
        n as u32
    } else {
        4_294_967_295
    }
}

/// A finding as a reason against the file.
fn error_of(
    alloc: Global,
    list: &[ModuleInstance<'_>],
    found: Misdriven,
) -> Result<ElabError, Memory>
    ensures { IfOk result (λ error. error ≡ error_of (plain_instances list.now) found) }
{
    match found {
        Misdriven::Net { net, bit, drivers } => {
            let name = net_name(alloc, list, net)?;
            let drivers = drivers_told(drivers);
            Ok(ElabError::Drive { name, bit, drivers })
        }
        Misdriven::Memory { memory, drivers } => {
            let name = memory_name(alloc, list, memory)?;
            let drivers = drivers_told(drivers);
            Ok(ElabError::Drive {
                name,
                bit: 0,
                drivers,
            })
        }
    }
}

/// E8 (this project's profile): the first net, and its lowest bit, of which one of two things holds: a bit of a wire, or of a port that
/// isn't `output reg`, hasn't exactly one driver; or a reg is named as a target by more than one always block, with bit 0 and their
/// number. After all nets the first memory that more than one always block names.
///
/// `list` has the instances of the file; `marks` says of each net of the flat design whether it is a reg; `nets` and `memories`,
/// `drivers` and `blocks` are those of the flat design. The answer has the full name: the names of the instances that lead to it and its
/// own, joined by `.`, the top's left out. More than 4,294,967,295 drivers are answered as so many.
///
/// Where the drivers and blocks do what the items of the instances say, this is E8 of the file.
///
/// # Errors
///
/// `Drive`, as above, exactly where something is found; `Memory`.
pub fn check_drive(
    alloc: Global,
    list: &[ModuleInstance<'_>],
    marks: &[bool],
    nets: &[Net],
    memories: &[DesignMemory],
    drivers: &[Driver],
    blocks: &[Code],
) -> Result<(), ElabError>
    requires marks { marks.now ≡ reg_marks (seats_of (plain_instances list.now)) }
    requires nets { nets.now ≡ flat_nets (seats_of (plain_instances list.now)) }
    requires memories { memories.now ≡ flat_memories (seats_of (plain_instances list.now)) }
    ensures told { Judged elab_told result (flat_findings (plain_instances list.now) drivers.now blocks.now) }
    ensures file { AllZip Does (all_duties (seats_of (plain_instances list.now))) drivers.now
        → AllZip IsBlockOf (all_blocks (seats_of (plain_instances list.now))) blocks.now
        → Judged elab_told result (drive_findings (seats_of (plain_instances list.now))) }
{
    let kinds = kinds(alloc, list, marks)?;
    match misdriven(alloc, nets, kinds.as_slice(), memories, drivers, blocks)? {
        Some(found) => Err(error_of(alloc, list, found)?),
        None => Ok(()),
    }
}
