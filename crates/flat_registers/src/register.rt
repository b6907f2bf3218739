//! The registers of the flat design.

ghost use Rattle.std.specs.Prelude.{◌≡◌, ℕ, List, IfOk};
ghost use Rattle.std.specs.List.{AllZip};
ghost use Rattle.net_design.specs.declared.design.Driver.{Driver};
ghost use Rattle.flat_parts.specs.net_code.BitMap.{in_map};
ghost use Rattle.flat_parts.specs.vlog_elab.Plain.{plain_instances};
ghost use Rattle.flat_parts.specs.Instances.{AreDeclaredIn};
ghost use Rattle.flat_parts.specs.Seats.{seats_of};
ghost use Rattle.flat_parts.specs.State.{all_regs, always_writes_bit, IsRegisterOf};
ghost use Rattle.flat_registers.specs.Places.{plain_place, plain_places, IsWrittenAt};

use crate::always::always_bits;
use crate::places::{RegNet, reg_nets};
use flat_parts::net_code::BitMap;
use flat_parts::vidi_bits::{Items, Memory, ones};
use flat_parts::vlog_elab::ModuleInstance;
use flat_parts::vlog_names::ModuleTable;
use net_design::{Driver, Register};
use std::alloc::Global;

/// The register of a reg, of which some `always @*` writes these bits. `Memory` where it hasn't 1 to 128 bits.
fn register_of(reg: &RegNet, written: u128) -> Result<Register, Memory>
    ensures { IfOk result (λ r. (drivers : List Driver) → IsWrittenAt drivers reg.now.net written
        → IsRegisterOf drivers (plain_place reg.now) r) }
{
    if reg.width == 0 || 128 < reg.width {
        return Err(Memory);
    }
    let held = ones(reg.width) & !written;
    Ok(Register {
        net: reg.net,
        held,
        initial: reg.initial & held,
    })
}

/// The registers of these regs, where the map has the bits that some `always @*` writes.
fn registers_of(alloc: Global, regs: &[RegNet], written: &BitMap) -> Result<Items<Register>, Memory>
    ensures { IfOk result (λ rs. (drivers : List Driver) → ((m k : ℕ) → in_map written.now m k ≡ always_writes_bit drivers m k)
        → AllZip (IsRegisterOf drivers) (plain_places regs.now) rs) }
{
    let mut out = Items::new(alloc);
    for reg in regs {
        let register = register_of(reg, written.mask(reg.net))?;
        out.push(register)?;
    }
    Ok(out)
}

/// The registers of the flat design that these instances and drivers make: of each reg the bits that no `always @*` writes, with what its
/// initialiser makes of them, else 0 (IEEE 1364-2005, 4.2.2; this project's profile), in the order of the nets. By condition the table has
/// what each instance's module declares.
///
/// # Errors
///
/// `Memory`: there isn't enough memory, a reg hasn't 1 to 128 bits, or the nets can't be counted in 64 bits.
pub fn registers(
    alloc: Global,
    modules: &ModuleTable,
    list: &[ModuleInstance<'_>],
    drivers: &[Driver],
) -> Result<Items<Register>, Memory>
    requires { AreDeclaredIn modules.now (plain_instances list.now) }
    ensures { IfOk result (λ rs. AllZip (IsRegisterOf drivers.now) (all_regs (seats_of (plain_instances list.now))) rs) }
{
    let regs = reg_nets(alloc, modules, list)?;
    let written = always_bits(alloc, drivers)?;
    registers_of(alloc, regs.as_slice(), &written)
}
