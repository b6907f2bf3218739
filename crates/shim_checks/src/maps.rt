//! Maps that are made by hand.

use shim_gen::chan_map::{Map, Pin, Pins, Plug, Reset, Tie};
use shim_gen::trace_model::{Channel, Dir};
use std::alloc::Global;
use vlog_print::vidi_bits::{Items, Memory, copied};

fn pin(alloc: Global, name: &str) -> Result<Pin, Memory> {
    let name = copied(alloc, name.as_bytes())?;
    Ok(Pin { name, place: 0 })
}

fn pins(alloc: Global, names: &[&str]) -> Result<Pins, Memory> {
    let mut pins = Items::new(alloc);
    for name in names {
        let pin = pin(alloc, name)?;
        pins.push(pin)?;
    }
    Ok(pins)
}

/// A map with a clock `clk` alone.
fn bare_map(alloc: Global, top: &str) -> Result<Map, Memory> {
    let top = copied(alloc, top.as_bytes())?;
    let clock = pin(alloc, "clk")?;
    Ok(Map {
        top,
        channels: Items::new(alloc),
        plugs: Items::new(alloc),
        ties: Items::new(alloc),
        reset: None,
        clock,
    })
}

/// Adds a channel of this name, with the ports `x_v`, `x_r` and these contents.
fn add_channel(
    alloc: Global,
    map: &mut Map,
    dir: Dir,
    ports: [&str; 2],
    contents: &[&str],
    widths: &[u8],
) -> Result<(), Memory> {
    let [valid, ready] = ports;
    let valid = pin(alloc, valid)?;
    let ready = pin(alloc, ready)?;
    let contents = pins(alloc, contents)?;
    map.plugs.push(Plug {
        valid,
        ready,
        contents,
    })?;
    let name = copied(alloc, b"x")?;
    let widths = copied(alloc, widths)?;
    map.channels.push(Channel { dir, name, widths })
}

/// The map of a register stage: one channel in, one out, each with 8 bits.
pub fn stage_map(alloc: Global) -> Result<Map, Memory> {
    let mut map = bare_map(alloc, "pass")?;
    add_channel(alloc, &mut map, Dir::Inward, ["a_v", "a_r"], &["a_d"], &[8])?;
    add_channel(
        alloc,
        &mut map,
        Dir::Outward,
        ["b_v", "b_r"],
        &["b_d"],
        &[8],
    )?;
    Ok(map)
}

/// A map with a reset, a tie and a channel without content.
pub fn held_map(alloc: Global) -> Result<Map, Memory> {
    let mut map = bare_map(alloc, "few")?;
    add_channel(alloc, &mut map, Dir::Inward, ["a_v", "a_r"], &[], &[])?;
    let reset = pin(alloc, "rst")?;
    map.reset = Some(Reset {
        pin: reset,
        active: true,
        cycles: 2,
    });
    let mode = pin(alloc, "mode")?;
    map.ties.push(Tie {
        pin: mode,
        width: 4,
        number: 5,
    })?;
    Ok(map)
}
