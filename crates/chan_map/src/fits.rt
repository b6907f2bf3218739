//! Whether lines fit a design (M2).

ghost use Rattle.std.specs.Prelude.{◌≡◌, ◌<◌, ◌^◌, ◌↔◌, IsTrue};
ghost use Rattle.std.specs.List.{list_all};
ghost use Rattle.net_design.specs.Bits.{named};
ghost use Rattle.chan_map.specs.declared.map_text.Entry.TheVariants.{Clock};
ghost use Rattle.chan_map.specs.Sockets.{IsTop};
ghost use Rattle.chan_map.specs.Ports.{socket_named, is_pin, is_bit, is_tied, is_read, is_own_clock, is_clock_of};
ghost use Rattle.chan_map.specs.Ports.{source_side, sink_side, channel_fits, line_fits};
ghost use Rattle.chan_map.specs.Reasons.{port_faults};
ghost use Rattle.vidi_lines.specs.vidi_bits.Findings.{Judged};
ghost use Rattle.chan_map.specs.Told.{map_told};

use crate::error::MapError;
use crate::map_text::{ChannelLine, Entry, MapLine};
use crate::sockets::{Socket, Top, same_direction, socket_named};
use net_design::{Design, Direction, Mask};
use trace_model::{Dir, names};
use vidi_lines::vidi_bits::Name;

fn is_pin(d: Direction, found: Option<Socket>) -> bool
    ensures { result ≡ is_pin d found }
{
    match found {
        Some(s) => same_direction(d, s.direction),
        None => false,
    }
}

fn is_bit(d: Direction, found: Option<Socket>) -> bool
    ensures { result ≡ is_bit d found }
{
    match found {
        Some(s) => same_direction(d, s.direction) && s.width == 1,
        None => false,
    }
}

/// Whether a number is below 2 to the power of `width`.
fn is_below(number: u128, width: u32) -> bool
    ensures { IsTrue result ↔ (number < 2 ^ width) }
{
    width >= 128 || number >> width == 0
}

fn is_tied(number: u128, found: Option<Socket>) -> bool
    ensures { result ≡ is_tied number found }
{
    match found {
        Some(s) => same_direction(Direction::Input, s.direction) && is_below(number, s.width),
        None => false,
    }
}

/// Whether the masks name the lowest bit of a net.
fn name_lowest(masks: &[Mask], net: usize) -> bool
    ensures { result ≡ named masks.now net 0 }
{
    masks.iter().any(|x| x.net == net && names(x.bits, 0))
}

/// Whether a driver reads a port of 1 bit.
fn is_read(design: &Design, port: usize) -> bool
    ensures { result ≡ is_read design.now port }
{
    for x in design.drivers.as_slice() {
        if name_lowest(x.code.reads.as_slice(), port) {
            return true;
        }
    }
    false
}

fn is_own_clock(clock: Option<usize>, port: usize) -> bool
    ensures { result ≡ is_own_clock clock port }
{
    match clock {
        Some(clock) => clock == port,
        None => true,
    }
}

fn is_clock_of(design: &Design, found: Option<Socket>) -> bool
    ensures { result ≡ is_clock_of design.now found }
{
    match found {
        Some(s) => {
            is_own_clock(design.clock, s.port)
                && !(design.blocks.is_empty() && is_read(design, s.port))
        }
        None => false,
    }
}

/// The direction of a channel's valid and contents.
pub fn source_side(dir: Dir) -> Direction
    ensures { result ≡ source_side dir }
{
    match dir {
        Dir::Inward => Direction::Input,
        Dir::Outward => Direction::Output,
    }
}

/// The direction of a channel's ready.
pub fn sink_side(dir: Dir) -> Direction
    ensures { result ≡ sink_side dir }
{
    match dir {
        Dir::Inward => Direction::Output,
        Dir::Outward => Direction::Input,
    }
}

/// Whether all names are those of ports of this direction.
fn are_pins(top: &Top, d: Direction, names: &[Name]) -> bool
    requires { IsTop top.now }
    ensures { result ≡ list_all (λ name. is_pin d (socket_named top.now.design.now.ports name)) names.now }
{
    for name in names {
        if !is_pin(d, socket_named(top, name.as_slice())) {
            return false;
        }
    }
    true
}

fn channel_fits(top: &Top, c: &ChannelLine) -> bool
    requires { IsTop top.now }
    ensures { result ≡ channel_fits top.now.design.now.ports c.now }
{
    is_bit(source_side(c.dir), socket_named(top, c.valid.as_slice()))
        && is_bit(sink_side(c.dir), socket_named(top, c.ready.as_slice()))
        && are_pins(top, source_side(c.dir), c.contents.as_slice())
}

fn clock_fits(top: &Top, port: &Name) -> bool
    requires { IsTop top.now }
    ensures { result ≡ line_fits top.now.design.now (Clock port.now) }
{
    let found = socket_named(top, port.as_slice());
    is_bit(Direction::Input, found) && is_clock_of(top.design, found)
}

fn line_fits(top: &Top, entry: &Entry) -> bool
    requires { IsTop top.now }
    ensures { result ≡ line_fits top.now.design.now entry.now }
{
    match entry {
        Entry::Top { .. } => true,
        Entry::Clock { port } => clock_fits(top, port),
        Entry::Tie { port, number } => is_tied(*number, socket_named(top, port.as_slice())),
        Entry::Reset { port, .. } => is_bit(Direction::Input, socket_named(top, port.as_slice())),
        Entry::Ignore { port } => is_pin(Direction::Output, socket_named(top, port.as_slice())),
        Entry::Channel { channel } => channel_fits(top, channel),
    }
}

/// `Port`, with the first line that doesn't fit the design.
pub fn check_lines(top: &Top, lines: &[MapLine]) -> Result<(), MapError>
    requires { IsTop top.now }
    ensures { Judged map_told result (port_faults top.now.design.now lines.now) }
{
    for l in lines {
        if !line_fits(top, &l.entry) {
            return Err(MapError::Port { line: l.line });
        }
    }
    Ok(())
}
