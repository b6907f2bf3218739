//! Binds a map to a design.

ghost use Rattle.std.specs.Prelude.{◌<◌, ℕ, List, IfOk};
ghost use Rattle.chan_map.specs.Ports.{HaveWidths};
ghost use Rattle.chan_map.specs.Sockets.{IsTop};
ghost use Rattle.vidi_lines.specs.vidi_bits.Findings.{Judged};
ghost use Rattle.chan_map.specs.Told.{map_told};
ghost use Rattle.chan_map.specs.Bound.{width_named, map_faults, BindsMap};
ghost use Rattle.chan_map.specs.Parts.{ArePartsOf};

use crate::error::MapError;
use crate::fits::check_lines;
use crate::limits::check_limits;
use crate::map_text::MapLine;
use crate::parts::{Parts, parts_of, pin_named};
use crate::pins::Map;
use crate::sockets::{Top, top_of};
use crate::text::MapText;
use crate::times::check_cover;
use net_design::Design;
use std::alloc::Global;
use vidi_lines::vidi_bits::copied;

/// What the lines add to a map, where they fit the design.
fn checked_parts(alloc: Global, top: &Top, lines: &[MapLine]) -> Result<Parts, MapError>
    requires top { IsTop top.now }
    requires narrow { (name : List ℕ) → width_named top.now.design.now.ports name < 256 }
    ensures tried { Judged map_told result (map_faults top.now.design.now lines.now) }
    ensures parts { IfOk result (ArePartsOf top.now.design.now lines.now) }
{
    check_lines(top, lines)?;
    check_cover(alloc, top, lines)?;
    let parts = parts_of(alloc, top, lines)?;
    check_limits(parts.channels.as_slice())?;
    Ok(parts)
}

/// Binds a map to a design: one plug for each channel, in order, and the pins of the ties, the reset and the clock.
/// The design is lawful, or its ports at least have 1 to 128 bits.
///
/// `Port` (M2) comes with the first line that doesn't fit the ports that it names; else `Cover` (M3) with the first port
/// that the lines don't name exactly once; else `Limit` (M4). `Memory` comes where no memory was found. The time is linear
/// in the lengths of both.
pub fn bind_map(alloc: Global, text: &MapText, design: &Design) -> Result<Map, MapError>
    requires { HaveWidths design.now.ports }
    ensures { BindsMap text.now design.now result }
{
    let top = top_of(alloc, design)?;
    let name = copied(alloc, text.top.as_slice())?;
    let clock = pin_named(alloc, &top, text.clock.as_slice())?;
    let parts = checked_parts(alloc, &top, text.lines.as_slice())?;
    let Parts {
        channels,
        plugs,
        ties,
        reset,
    } = parts;
    Ok(Map {
        top: name,
        channels,
        plugs,
        ties,
        reset,
        clock,
    })
}
