//! Cycles of a block behind the gates, and what they need.

ghost use Rattle.std.specs.Prelude.{◌≡◌, ℕ, ◌+◌, ◌<◌, ◌≤◌, ◌^◌, Option, false, length, replicate, IfOk, OnOk};
ghost use Rattle.std.specs.Option.{option_to_list};
ghost use Rattle.run_model.specs.Offers.{AreZeroWhileDown};
ghost use Rattle.run_model.specs.trace_model.declared.row.Row.{Row as OneRow};
ghost use Rattle.run_model.specs.trace_model.Row.{AreOffers};
ghost use Rattle.net_design.specs.Pins.{input_limits, output_count, outputs, FitPins};
ghost use Rattle.net_design.specs.Settled.{initial, IsSettled};
ghost use Rattle.run_model.specs.Building.{row_of};
ghost use Rattle.run_model.specs.MapOf.{IsMapOf};
ghost use Rattle.run_model.specs.Pins.{entered, silent, ArePins};
ghost use Rattle.run_model.specs.Step.{IsAfter, IsFirst};
ghost use Rattle.chan_monitor.specs.Around.{handshakes, AreHeld, AreMonitors};
ghost use Rattle.chan_monitor.specs.Entering.{input_count, inputs_count, offered};
ghost use Rattle.chan_monitor.specs.Shell.{HasPlaces};

use crate::monitor::Monitor;
use crate::pins::{enter, hold};
use crate::rows::{Handshakes, fill, marks_of, readies, valids};
use net_design::Block;
use run_model::chan_map::{Map, Plug, Reset};
use run_model::trace_model::{Channel, Dir, Offers, Row, push_zeros};
use run_model::vidi_bits::{Items, Memory, Numbers};
use std::alloc::Global;

/// Adds a zero for each input pin of a channel.
fn push_plug(pins: &mut Numbers, dir: Dir, plug: &Plug) -> Result<(), Memory>
    ensures { OnOk result (length pins.new ≡ length pins.old + input_count dir plug.now) }
{
    pins.push(0)?;
    match dir {
        Dir::Inward => push_zeros(pins, plug.contents.len()),
        Dir::Outward => Ok(()),
    }
}

/// Adds a zero for each input pin of the channels.
fn push_plugs(pins: &mut Numbers, channels: &[Channel], plugs: &[Plug]) -> Result<(), Memory>
    requires { length plugs.now ≡ length channels.now }
    ensures { OnOk result (length pins.new ≡ length pins.old + inputs_count channels.now plugs.now) }
{
    for (c, channel) in channels.iter().enumerate() {
        push_plug(pins, channel.dir, &plugs[c])?;
    }
    Ok(())
}

/// 1 where there is a reset, else 0.
fn reset_count(reset: &Option<Reset>) -> usize
    ensures { result ≡ length (option_to_list reset.now) }
{
    match reset {
        Some(_) => 1,
        None => 0,
    }
}

/// A zero for each input pin of the map.
pub(crate) fn pins_for(alloc: Global, map: &Map) -> Result<Numbers, Memory>
    requires { length map.now.plugs ≡ length map.now.channels }
    ensures { IfOk result (λ pins. length pins ≡ length (entered map.now false silent)) }
{
    let mut pins = Items::new(alloc);
    push_zeros(&mut pins, 1)?;
    push_zeros(&mut pins, reset_count(&map.reset))?;
    push_zeros(&mut pins, map.ties.len())?;
    push_plugs(&mut pins, map.channels.as_slice(), map.plugs.as_slice())?;
    Ok(pins)
}

/// Monitors of `count` idle channels.
pub(crate) fn monitors_for(alloc: Global, count: usize) -> Result<Items<Monitor>, Memory>
    ensures { IfOk result (λ monitors. monitors ≡ replicate count false) }
{
    let mut monitors = Items::new(alloc);
    for _ in 0..count {
        monitors.push(Monitor::new())?;
    }
    Ok(monitors)
}

/// Makes every monitor that of an idle channel.
pub(crate) fn forget(monitors: &mut [Monitor])
    ensures { monitors.new ≡ replicate (length monitors.old) false }
{
    for monitor in monitors.iter_mut() {
        *monitor = Monitor::new();
    }
}

/// Runs so many cycles with the same numbers at the input pins.
pub fn run_cycles<B: Block>(block: &mut B, pins: &[u128], cycles: u32)
    requires { FitPins (B.design block.old) pins.now }
    ensures state { IsAfter (B.design block.old) pins.now cycles (B.state block.old) (B.state block.new) }
    ensures design { B.design block.new ≡ B.design block.old }
    ensures place { B.place block.new ≡ B.place block.old }
{
    for _ in 0..cycles {
        block.settle(pins);
        block.clock();
    }
}

/// Runs the reset cycles of the map, if there are any, from the initial state on.
fn run_reset<B: Block>(block: &mut B, pins: &mut [u128], map: &Map)
    requires mapped { IsMapOf (B.design block.old) map.now }
    requires long { length pins.old ≡ length (input_limits (B.design block.old)) }
    requires loaded { B.state block.old ≡ initial (B.design block.old) }
    ensures first { IsFirst (B.design block.old) map.now (B.state block.new) }
    ensures design { B.design block.new ≡ B.design block.old }
    ensures place { B.place block.new ≡ B.place block.old }
{
    let Some(reset) = &map.reset else {
        return;
    };
    hold(pins, map, true);
    run_cycles(block, pins, reset.cycles);
}

/// Makes the state s_0, and the numbers at the pins those that stand between cycles.
pub(crate) fn restart<B: Block>(block: &mut B, pins: &mut [u128], map: &Map)
    requires mapped { IsMapOf (B.design block.old) map.now }
    requires long { length pins.old ≡ length (input_limits (B.design block.old)) }
    ensures first { IsFirst (B.design block.old) map.now (B.state block.new) }
    ensures held { AreHeld (B.design block.old) map.now pins.new }
    ensures design { B.design block.new ≡ B.design block.old }
    ensures place { B.place block.new ≡ B.place block.old }
{
    block.load();
    run_reset(block, pins, map);
    hold(pins, map, false);
}

/// Settles the block with what the monitors let pass of the offers.
pub(crate) fn settle_offers<B: Block>(
    block: &mut B,
    pins: &mut [u128],
    map: &Map,
    monitors: &[Monitor],
    offers: &Offers,
    gates: u128,
)
    requires mapped { IsMapOf (B.design block.old) map.now }
    requires held { AreHeld (B.design block.old) map.now pins.old }
    requires monitors { length monitors.now ≡ length map.now.channels }
    requires offers { AreOffers map.now.channels offers.now }
    requires gates { gates < 2 ^ length map.now.channels }
    ensures entered { ArePins (B.design block.old) map.now false (offered gates offers.now) pins.new }
    ensures held { AreHeld (B.design block.old) map.now pins.new }
    ensures inputs { B.inputs block.new ≡ pins.new }
    ensures settled { IsSettled (B.design block.old) (B.state block.old) pins.new (B.shown block.new) }
    ensures state { B.state block.new ≡ B.state block.old }
    ensures design { B.design block.new ≡ B.design block.old }
    ensures place { B.place block.new ≡ B.place block.old }
{
    let channels = map.channels.as_slice();
    enter(
        pins,
        channels,
        map.plugs.as_slice(),
        monitors,
        offers,
        gates,
    );
    block.settle(pins);
}

/// Fills the row of a block that is settled with the offers, and gives its masks.
pub(crate) fn show<B: Block>(
    block: &B,
    map: &Map,
    monitors: &[Monitor],
    offers: &Offers,
    gates: u128,
    row: &mut Row,
) -> Handshakes
    requires mapped { IsMapOf (B.design block.now) map.now }
    requires monitors { length monitors.now ≡ length map.now.channels }
    requires offers { AreOffers map.now.channels offers.now }
    requires zeros { AreZeroWhileDown map.now.channels offers.now }
    requires places { HasPlaces map.now.channels row.old }
    ensures row { (before : Option OneRow) → AreMonitors (length map.now.channels) monitors.now before
        → row.new ≡ row_of map.now row.old.fresh before offers.now gates (outputs (B.design block.now) (B.shown block.now)) }
    ensures fresh { row.new.fresh ≡ row.old.fresh }
    ensures masks { result ≡ handshakes row.new }
{
    let channels = map.channels.as_slice();
    let plugs = map.plugs.as_slice();
    let valids = valids(block, channels, plugs, offers);
    let readies = readies(block, channels, plugs, offers);
    let shown = Handshakes {
        gates,
        valids,
        readies,
    };
    let marks = marks_of(monitors, shown);
    fill(block, channels, plugs, offers, row.contents.as_mut_slice());
    row.gates = gates;
    row.valids = valids;
    row.readies = readies;
    row.starts = marks.starts;
    row.ends = marks.ends;
    shown
}
