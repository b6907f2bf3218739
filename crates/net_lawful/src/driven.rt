//! Who writes each bit of each net.

ghost use Rattle.std.specs.Prelude.{◌<◌, ◌≤◌, ◌↔◌, IsTrue, IfOk, length};
ghost use Rattle.net_code.specs.Tally.{IsTally};
ghost use Rattle.net_lawful.specs.Frame.{IsFramed};
ghost use Rattle.net_lawful.specs.State.{HasState};
ghost use Rattle.net_lawful.specs.Coded.{IsHeld};
ghost use Rattle.net_lawful.specs.Driven.{writers, RestDriven, AreDriven, IsNetDriven, IsDriven};

use crate::frame::{is_input, net_width};
use crate::masks::{is_apart, is_within};
use net_code::vidi_bits::{Memory, ones};
use net_code::{BitMap, Tally};
use net_design::{Design, Driver};
use std::alloc::Global;

/// How often drivers write each bit.
fn tally_of(alloc: Global, drivers: &[Driver]) -> Result<Tally, Memory>
    ensures { IfOk result (λ t. IsTally t (writers drivers.now)) }
{
    let mut tally = Tally::new(alloc);
    for driver in drivers {
        tally.add_masks(driver.code.writes.as_slice())?;
    }
    Ok(tally)
}

/// Whether the bits of `held` aren't written, and those of `rest` once.
fn rest_driven(rest: u128, held: u128, once: u128, more: u128) -> bool
    ensures { IsTrue result ↔ RestDriven rest held once more }
{
    is_apart(held, once) && is_within(rest, once) && is_apart(rest, more)
}

/// Whether those of the `width` bits of a net that neither inputs nor the state give are written once, and no others.
fn are_driven(input: bool, width: u32, held: u128, once: u128, more: u128) -> bool
    requires some { 1 ≤ width }
    requires most { width ≤ 128 }
    ensures { IsTrue result ↔ AreDriven input width held once more }
{
    if input {
        return once == 0;
    }
    let rest = ones(width) & !held;
    rest_driven(rest, held, once, more)
}

/// Whether those bits of a net that neither inputs nor the state give are written by one driver, and no others.
fn is_net_driven(design: &Design, held: &BitMap, tally: &Tally, m: usize) -> bool
    requires framed { IsFramed design.now }
    requires held { IsHeld design.now held.now }
    requires tally { IsTally tally.now (writers design.now.drivers) }
    requires there { m < length design.now.nets }
    ensures { IsTrue result ↔ IsNetDriven design.now m }
{
    let input = is_input(design, m);
    let width = net_width(design, m);
    are_driven(
        input,
        width,
        held.mask(m),
        tally.once.mask(m),
        tally.more.mask(m),
    )
}

/// The same of all nets.
fn nets_driven(design: &Design, held: &BitMap, tally: &Tally) -> bool
    requires framed { IsFramed design.now }
    requires state { HasState design.now }
    requires held { IsHeld design.now held.now }
    requires tally { IsTally tally.now (writers design.now.drivers) }
    ensures { IsTrue result ↔ IsDriven design.now }
{
    for m in 0..design.nets.len() {
        if !is_net_driven(design, held, tally, m) {
            return false;
        }
    }
    true
}

/// Whether each bit of a net is an input's, or held by the state, or written by exactly one driver, and no driver writes another.
pub fn is_driven(alloc: Global, design: &Design, held: &BitMap) -> Result<bool, Memory>
    requires framed { IsFramed design.now }
    requires state { HasState design.now }
    requires held { IsHeld design.now held.now }
    ensures { IfOk result (λ b. IsTrue b ↔ IsDriven design.now) }
{
    let tally = tally_of(alloc, design.drivers.as_slice())?;
    Ok(nets_driven(design, held, &tally))
}
