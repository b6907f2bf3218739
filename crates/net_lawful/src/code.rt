//! Drivers and clocked blocks.

ghost use Rattle.std.specs.Prelude.{◌≡◌, ◌↔◌, IsTrue, All, IfOk};
ghost use Rattle.net_design.specs.declared.act.Timing.TheVariants.{Blocking, Nonblocking};
ghost use Rattle.net_design.specs.Sized.{IsSizedBlock};
ghost use Rattle.net_design.specs.Bits.{HasBits};
ghost use Rattle.net_design.specs.Lawful.{IsInRange, IsDriver, IsClocked};
ghost use Rattle.net_lawful.specs.Frame.{IsFramed};
ghost use Rattle.net_lawful.specs.Coded.{AreRooms, IsHeld, IsWhole, IsOwn, IsProper, HaveBits, HasCode};

use crate::masks::{are_apart, are_within};
use crate::places::is_equation;
use crate::range::acts_in;
use crate::rooms::{Rooms, design_rooms};
use crate::words::acts_write;
use net_code::vidi_bits::{Items, Memory};
use net_code::{BitMap, surely_assigned};
use net_design::{Act, Code, Design, Driver};
use std::alloc::Global;

/// Whether all that statements name is there, with widths of 1 to 128.
fn is_in_range(design: &Design, rooms: &Rooms, acts: &Items<Act>) -> bool
    requires framed { IsFramed design.now }
    requires rooms { AreRooms design.now rooms.now }
    ensures range { IsTrue result ↔ IsInRange design.now acts.now }
    ensures sized { IsTrue result → IsSizedBlock acts.now }
{
    acts_in(design, rooms, acts)
}

/// Whether each bit that code writes is surely assigned.
fn is_whole(alloc: Global, code: &Code) -> Result<bool, Memory>
    requires { IsSizedBlock code.now.acts }
    ensures { IfOk result (λ b. IsTrue b ↔ IsWhole code.now) }
{
    let sure = surely_assigned(alloc, &code.acts)?;
    Ok(are_within(code.writes.as_slice(), &sure))
}

/// Whether code reads no bit that it writes.
fn is_own(alloc: Global, code: &Code) -> Result<bool, Memory>
    ensures { IfOk result (λ b. IsTrue b ↔ IsOwn code.now) }
{
    let reads = BitMap::of_masks(alloc, code.reads.as_slice())?;
    Ok(are_apart(code.writes.as_slice(), &reads))
}

/// Whether a driver is an equation, or an `always @*` that reads no bit of its own first.
fn is_proper(alloc: Global, driver: &Driver) -> Result<bool, Memory>
    requires { IsSizedBlock driver.now.code.acts }
    ensures { IfOk result (λ b. IsTrue b ↔ IsProper driver.now) }
{
    if driver.always {
        return is_own(alloc, &driver.code);
    }
    is_equation(alloc, &driver.code.acts)
}

/// Whether a driver is lawful.
fn is_driver(alloc: Global, design: &Design, rooms: &Rooms, driver: &Driver) -> Result<bool, Memory>
    requires framed { IsFramed design.now }
    requires rooms { AreRooms design.now rooms.now }
    requires bits { HasBits Blocking driver.now.code }
    ensures { IfOk result (λ b. IsTrue b ↔ IsDriver design.now driver.now) }
{
    if !is_in_range(design, rooms, &driver.code.acts) {
        return Ok(false);
    }
    if acts_write(&driver.code.acts) {
        return Ok(false);
    }
    let whole = is_whole(alloc, &driver.code)?;
    let proper = is_proper(alloc, driver)?;
    Ok(whole && proper)
}

/// Whether a clocked block is lawful.
fn is_clocked(design: &Design, rooms: &Rooms, held: &BitMap, code: &Code) -> bool
    requires framed { IsFramed design.now }
    requires rooms { AreRooms design.now rooms.now }
    requires held { IsHeld design.now held.now }
    requires bits { HasBits Nonblocking code.now }
    ensures { IsTrue result ↔ IsClocked design.now code.now }
{
    is_in_range(design, rooms, &code.acts) && are_within(code.writes.as_slice(), held)
}

#[tactic(auto, using(crate::proofs::CodeLaws::driver_bits))]
fn are_drivers(alloc: Global, design: &Design, rooms: &Rooms) -> Result<bool, Memory>
    requires framed { IsFramed design.now }
    requires rooms { AreRooms design.now rooms.now }
    requires bits { HaveBits design.now }
    ensures { IfOk result (λ b. IsTrue b ↔ All (IsDriver design.now) design.now.drivers) }
{
    for driver in design.drivers.as_slice() {
        if !is_driver(alloc, design, rooms, driver)? {
            return Ok(false);
        }
    }
    Ok(true)
}

#[tactic(auto, using(crate::proofs::CodeLaws::block_bits))]
fn are_clocked(design: &Design, rooms: &Rooms, held: &BitMap) -> bool
    requires framed { IsFramed design.now }
    requires rooms { AreRooms design.now rooms.now }
    requires held { IsHeld design.now held.now }
    requires bits { HaveBits design.now }
    ensures { IsTrue result ↔ All (IsClocked design.now) design.now.blocks }
{
    for code in design.blocks.as_slice() {
        if !is_clocked(design, rooms, held, code) {
            return false;
        }
    }
    true
}

/// Whether each driver and each clocked block is lawful.
pub fn has_code(alloc: Global, design: &Design, held: &BitMap) -> Result<bool, Memory>
    requires framed { IsFramed design.now }
    requires held { IsHeld design.now held.now }
    requires bits { HaveBits design.now }
    ensures { IfOk result (λ b. IsTrue b ↔ HasCode design.now) }
{
    let rooms = design_rooms(alloc, design)?;
    let drivers = are_drivers(alloc, design, &rooms)?;
    Ok(drivers && are_clocked(design, &rooms, held))
}
