//! The bits that an `always @*` of the design may write.

ghost use Rattle.std.specs.Prelude.{◌≡◌, ℕ, ◌||◌, ◌&&◌, OnOk, IfOk};
ghost use Rattle.net_design.specs.Bits.{named};
ghost use Rattle.flat_parts.specs.net_code.BitMap.{in_map};
ghost use Rattle.flat_parts.specs.State.{always_writes_bit};

use flat_parts::net_code::BitMap;
use flat_parts::vidi_bits::Memory;
use net_design::{Driver, Mask};
use std::alloc::Global;

/// Adds the bits that masks name.
fn add_masks(map: &mut BitMap, masks: &[Mask]) -> Result<(), Memory>
    ensures { OnOk result ((m k : ℕ) → in_map map.new m k ≡ (in_map map.old m k || named masks.now m k)) }
{
    for mask in masks {
        map.add(mask.net, mask.bits)?;
    }
    Ok(())
}

/// Adds the bits that a driver may write, where it is an `always @*`.
fn add_driver(map: &mut BitMap, driver: &Driver) -> Result<(), Memory>
    ensures { OnOk result ((m k : ℕ) → in_map map.new m k
        ≡ (in_map map.old m k || (driver.now.always && named driver.now.code.writes m k))) }
{
    if driver.always {
        return add_masks(map, driver.code.writes.as_slice());
    }
    Ok(())
}

/// The bits that some `always @*` among these drivers may write.
pub fn always_bits(alloc: Global, drivers: &[Driver]) -> Result<BitMap, Memory>
    ensures { IfOk result (λ map. (m k : ℕ) → in_map map m k ≡ always_writes_bit drivers.now m k) }
{
    let mut map = BitMap::new(alloc);
    for driver in drivers {
        add_driver(&mut map, driver)?;
    }
    Ok(map)
}
