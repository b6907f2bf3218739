//! Nets, memories, drivers and clocked blocks of the flat design, with E9 and E8.

ghost use Rattle.std.specs.Prelude.{◌≡◌, AllPairs, IfOk};
ghost use Rattle.std.specs.List.{AllZip, flat_map};
ghost use Rattle.flat_drive.specs.flat_parts.Instances.{HaveOwnPaths, AreDeclaredIn};
ghost use Rattle.flat_drive.specs.vlog_elab.Plain.{plain_instances};
ghost use Rattle.net_order.specs.vidi_bits.Findings.{Judged};
ghost use Rattle.flat_drive.specs.vlog_elab.Told.{elab_told};
ghost use Rattle.flat_drivers.specs.Duties.{Does};
ghost use Rattle.flat_drive.specs.flat_parts.Seats.{seats_of};
ghost use Rattle.flat_drive.specs.flat_parts.Nets.{flat_nets, flat_memories};
ghost use Rattle.flat_drive.specs.flat_parts.Drivers.{all_duties, all_blocks, IsBlockOf};
ghost use Rattle.flat_drivers.specs.Seated.{AreFaultlessInstances};
ghost use Rattle.flat_drive.specs.Findings.{drive_findings};
ghost use Rattle.vlog_design.specs.Parts.{AreParts};
ghost use Rattle.vlog_design.specs.Reasons.{code_findings_of};

use flat_drive::check_drive;
use flat_drive::vlog_elab::{ElabError, ModuleInstance};
use flat_drive::vlog_names::ModuleTable;
use flat_drivers::{FlatCode, drivers_of};
use flat_layout::{memories, nets};
use flat_registers::reg_marks;
use net_design::{Code, DesignMemory, Driver, Net};
use net_order::vidi_bits::Items;
use std::alloc::Global;

/// Nets and memories of the flat design, and what drives them.
#[derive(Drop)]
pub struct Checked {
    pub nets: Items<Net>,
    pub memories: Items<DesignMemory>,
    pub drivers: Items<Driver>,
    pub blocks: Items<Code>,
}

/// E8 of drivers and clocked blocks that do what the items of these instances say.
fn driven(
    alloc: Global,
    modules: &ModuleTable,
    list: &[ModuleInstance<'_>],
    nets: &Items<Net>,
    memories: &Items<DesignMemory>,
    code: &FlatCode,
) -> Result<(), ElabError>
    requires names { AreDeclaredIn modules.now (plain_instances list.now) }
    requires nets { nets.now ≡ flat_nets (seats_of (plain_instances list.now)) }
    requires memories { memories.now ≡ flat_memories (seats_of (plain_instances list.now)) }
    requires drivers { AllZip Does (all_duties (seats_of (plain_instances list.now))) code.now.drivers }
    requires blocks { AllZip IsBlockOf (all_blocks (seats_of (plain_instances list.now))) code.now.blocks }
    ensures { Judged elab_told result (drive_findings (seats_of (plain_instances list.now))) }
{
    let marks = reg_marks(alloc, modules, list)?;
    check_drive(
        alloc,
        list,
        marks.as_slice(),
        nets.as_slice(),
        memories.as_slice(),
        code.drivers.as_slice(),
        code.blocks.as_slice(),
    )
}

/// What drives the nets of these instances, where E9 and then E8 find nothing.
pub fn checked_code(
    alloc: Global,
    modules: &ModuleTable,
    list: &[ModuleInstance<'_>],
) -> Result<Checked, ElabError>
    requires paths { HaveOwnPaths (plain_instances list.now) }
    requires names { AreDeclaredIn modules.now (plain_instances list.now) }
    requires faultless { AreFaultlessInstances (plain_instances list.now) }
    ensures told { Judged elab_told result (code_findings_of (plain_instances list.now)) }
    ensures parts { IfOk result (λ p. AreParts (plain_instances list.now) p) }
{
    let code = drivers_of(alloc, modules, list)?;
    let nets = nets(alloc, list)?;
    let memories = memories(alloc, list)?;
    driven(alloc, modules, list, &nets, &memories, &code)?;
    let FlatCode { drivers, blocks } = code;
    Ok(Checked {
        nets,
        memories,
        drivers,
        blocks,
    })
}
