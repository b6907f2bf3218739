//! Registers: the bits that the state holds.

ghost use Rattle.std.specs.Prelude.{◌≡◌, ℕ, ◌^◌, ◌<◌, ◌↔◌, IsTrue, false, All, IfOk};
ghost use Rattle.std.specs.Int.{bit_at};
ghost use Rattle.net_code.specs.vidi_bits.Number.{has};
ghost use Rattle.net_design.specs.Settled.{held, net_width};
ghost use Rattle.net_design.specs.Lawful.{IsRegister};
ghost use Rattle.net_code.specs.BitMap.{in_map};
ghost use Rattle.net_lawful.specs.Frame.{IsFramed};
ghost use Rattle.net_lawful.specs.State.{NetsDiffer, HasState};

use crate::frame::{is_input, net_width};
use crate::masks::{fits, is_apart, is_within};
use net_code::BitMap;
use net_code::vidi_bits::Memory;
use net_design::{Design, Register};
use std::alloc::Global;

/// Whether a number has no bit but those that are held.
fn holds(held: u128, number: u128) -> bool
    ensures { IsTrue result ↔ ((k : ℕ) → has held k ≡ false → bit_at number k ≡ 0) }
{
    is_within(number, held)
}

/// Whether the bits that a register holds are there.
fn fits_net(design: &Design, register: Register) -> bool
    requires { IsFramed design.now }
    ensures { IsTrue result ↔ (register.held < 2 ^ net_width design.now register.net) }
{
    fits(register.held, net_width(design, register.net))
}

/// Whether a register is a net and no input of the top, and begins with no bit that the state doesn't hold.
fn is_register(design: &Design, register: Register) -> bool
    requires { IsFramed design.now }
    ensures { IsTrue result ↔ IsRegister design.now register }
{
    register.net < design.nets.len()
        && !is_input(design, register.net)
        && fits_net(design, register)
        && holds(register.held, register.initial)
}

fn are_registers(design: &Design) -> bool
    requires { IsFramed design.now }
    ensures { IsTrue result ↔ All (IsRegister design.now) design.now.registers }
{
    for register in design.registers.as_slice() {
        if !is_register(design, *register) {
            return false;
        }
    }
    true
}

/// Whether a net isn't in a set of nets, each of which has bit 0.
fn is_new(seen: &BitMap, net: usize) -> bool
    ensures { IsTrue result ↔ (in_map seen.now net 0 ≡ false) }
{
    is_apart(1, seen.mask(net))
}

/// Whether no two registers are the same net.
fn nets_differ(alloc: Global, registers: &[Register]) -> Result<bool, Memory>
    ensures { IfOk result (λ b. IsTrue b ↔ NetsDiffer registers.now) }
{
    let mut seen = BitMap::new(alloc);
    for register in registers {
        if !is_new(&seen, register.net) {
            return Ok(false);
        }
        seen.add_key(register.net)?;
    }
    Ok(true)
}

/// The bits that the state holds.
pub fn held_bits(alloc: Global, design: &Design) -> Result<BitMap, Memory>
    ensures { IfOk result (λ set. (m k : ℕ) → in_map set m k ≡ held design.now m k) }
{
    let mut set = BitMap::new(alloc);
    for register in design.registers.as_slice() {
        set.add(register.net, register.held)?;
    }
    Ok(set)
}

/// Whether each register is lawful, and no two are the same net.
pub fn has_state(alloc: Global, design: &Design) -> Result<bool, Memory>
    requires { IsFramed design.now }
    ensures { IfOk result (λ b. IsTrue b ↔ HasState design.now) }
{
    let differ = nets_differ(alloc, design.registers.as_slice())?;
    Ok(differ && are_registers(design))
}
