//! Numbers at the input pins of a design.

ghost use Rattle.std.specs.Prelude.{◌≡◌, ◌<◌, All, IfSome, length, map, replicate, if◌then◌else◌, not};
ghost use Rattle.std.specs.Option.{option_to_list};
ghost use Rattle.run_model.specs.trace_model.Packet.{Fit};
ghost use Rattle.run_model.specs.trace_model.Row.{all_widths};
ghost use Rattle.run_model.specs.chan_map.declared.pins.Pin.{Pin as OnePin};
ghost use Rattle.run_model.specs.chan_map.declared.pins.Reset.{Reset as OneReset};
ghost use Rattle.run_model.specs.Pins.{inputs_from, reset_input, tie_input};
ghost use Rattle.chan_monitor.specs.Entering.{write, content_inputs, passed_inputs, held_inputs, offered};
ghost use Rattle.chan_monitor.specs.Entering.{IsPlugWithin, AreTiesWithin, ArePlugsWithin};

use crate::monitor::{Monitor, Passed};
use run_model::chan_map::{Map, Pin, Plug, Reset, Tie};
use run_model::trace_model::{Channel, Dir, Offers, names};

/// The number, or 0 where it isn't shown.
fn number_if(shown: bool, number: u128) -> u128
    ensures { result ≡ (if shown then number else 0) }
{
    if shown { number } else { 0 }
}

/// Enters the numbers of a content at its pins, or 0 where they aren't shown.
fn enter_contents(pins: &mut [u128], places: &[Pin], shown: bool, content: &[u128])
    requires places { All (λ (p : OnePin). p.place < length pins.old) places.now }
    requires content { length content.now ≡ length places.now }
    ensures { pins.new ≡ write pins.old (content_inputs places.now shown content.now) }
{
    for (i, pin) in places.iter().enumerate() {
        pins[pin.place] = number_if(shown, content[i]);
    }
}

/// Enters what a monitor lets pass at the pins of its channel: the valid that the sink sees, with the content while it is up,
/// or the ready that the source sees.
fn enter_plug(pins: &mut [u128], dir: Dir, plug: &Plug, passed: Passed, content: &[u128])
    requires places { IsPlugWithin (length pins.old) dir plug.now }
    requires content { length content.now ≡ length plug.now.contents }
    ensures { pins.new ≡ write pins.old (passed_inputs dir plug.now passed content.now) }
{
    match dir {
        Dir::Inward => {
            pins[plug.valid.place] = u128::from(passed.sink_valid);
            enter_contents(pins, plug.contents.as_slice(), passed.sink_valid, content);
        }
        Dir::Outward => pins[plug.ready.place] = u128::from(passed.source_ready),
    }
}

/// Enters what the monitors let pass of the offers, by these gates.
pub(crate) fn enter(
    pins: &mut [u128],
    channels: &[Channel],
    plugs: &[Plug],
    monitors: &[Monitor],
    offers: &Offers,
    gates: u128,
)
    requires plugs { ArePlugsWithin (length pins.old) channels.now plugs.now }
    requires monitors { length monitors.now ≡ length channels.now }
    requires contents { Fit (all_widths channels.now) offers.now.contents }
    ensures { pins.new ≡ write pins.old (inputs_from channels.now (offered gates offers.now) 0 channels.now plugs.now) }
{
    let mut rest = offers.contents.as_slice();
    for (c, channel) in channels.iter().enumerate() {
        let (content, after) = rest.split_at(channel.widths.len());
        let up = names(gates, c);
        let passed = monitors[c].pass(up, names(offers.valids, c), names(offers.readies, c));
        enter_plug(pins, channel.dir, &plugs[c], passed, content);
        rest = after;
    }
}

/// Enters a number at each tie's pin.
fn enter_ties(pins: &mut [u128], ties: &[Tie])
    requires { AreTiesWithin (length pins.old) ties.now }
    ensures { pins.new ≡ write pins.old (map tie_input ties.now) }
{
    for tie in ties {
        pins[tie.pin.place] = tie.number;
    }
}

/// The value of a reset pin, where `active` is its active one: the active one in a reset cycle, else the other.
pub fn reset_value(active: bool, resets: bool) -> bool
    ensures { result ≡ (if resets then active else not active) }
{
    active == resets
}

/// Enters the value of the reset pin, where there is one.
fn enter_reset(pins: &mut [u128], reset: &Option<Reset>, resets: bool)
    requires { IfSome reset.now (λ (r : OneReset). r.pin.place < length pins.old) }
    ensures { pins.new ≡ write pins.old (map (reset_input resets) (option_to_list reset.now)) }
{
    match reset {
        Some(r) => pins[r.pin.place] = u128::from(reset_value(r.active, resets)),
        None => {}
    }
}

/// Makes every number 0 but the ties' and the reset's.
pub(crate) fn hold(pins: &mut [u128], map: &Map, resets: bool)
    requires ties { AreTiesWithin (length pins.old) map.now.ties }
    requires reset { IfSome map.now.reset (λ (r : OneReset). r.pin.place < length pins.old) }
    ensures { pins.new ≡ write (replicate (length pins.old) 0) (held_inputs map.now resets) }
{
    pins.fill(0);
    enter_reset(pins, &map.reset, resets);
    enter_ties(pins, map.ties.as_slice());
}
