//! What the lines of a map add to it.

ghost use Rattle.std.specs.Prelude.{◌≡◌, ◌<◌, ◌≤◌, ◌++◌, ℕ, List, map, IfOk, OnOk};
ghost use Rattle.chan_map.specs.Sockets.{IsTop};
ghost use Rattle.chan_map.specs.Bound.{place_of, width_of, pin_named, width_named, row_of, plug_of, tie_of};
ghost use Rattle.chan_map.specs.Bound.{rows_of, plugs_of, ties_of, resets_of, later};
ghost use Rattle.chan_map.specs.Parts.{ArePartsOf};

use crate::map_text::{ChannelLine, Entry, MapLine};
use crate::pins::{Pin, Pins, Plug, Plugs, Reset, Tie, Ties};
use crate::sockets::{Socket, Top, socket_named};
use std::alloc::Global;
use trace_model::{Channel, Channels};
use vidi_lines::vidi_bits::{Bytes, Memory, Name, copied};

/// What the lines of a map add to it.
#[derive(Drop)]
pub struct Parts {
    pub channels: Channels,
    pub plugs: Plugs,
    pub ties: Ties,
    pub reset: Option<Reset>,
}

fn place_of(found: Option<Socket>) -> usize
    ensures { result ≡ place_of found }
{
    match found {
        Some(s) => s.place,
        None => 0,
    }
}

fn width_of(found: Option<Socket>) -> u32
    ensures { result ≡ width_of found }
{
    match found {
        Some(s) => s.width,
        None => 0,
    }
}

/// The pin of the port with this name.
pub fn pin_named(alloc: Global, top: &Top, name: &[u8]) -> Result<Pin, Memory>
    requires { IsTop top.now }
    ensures { IfOk result (λ p. p ≡ pin_named top.now.design.now.ports name.now) }
{
    let place = place_of(socket_named(top, name));
    let name = copied(alloc, name)?;
    Ok(Pin { name, place })
}

/// The pins of the ports with these names.
fn pins_named(alloc: Global, top: &Top, names: &[Name]) -> Result<Pins, Memory>
    requires { IsTop top.now }
    ensures { IfOk result (λ ps. ps ≡ map (pin_named top.now.design.now.ports) names.now) }
{
    let mut pins = Pins::new(alloc);
    for name in names {
        pins.push(pin_named(alloc, top, name.as_slice())?)?;
    }
    Ok(pins)
}

/// The width of the port with this name.
fn width_named(top: &Top, name: &[u8]) -> u32
    requires { IsTop top.now }
    ensures { result ≡ width_named top.now.design.now.ports name.now }
{
    width_of(socket_named(top, name))
}

/// The widths of the ports with these names.
fn widths_named(alloc: Global, top: &Top, names: &[Name]) -> Result<Bytes, Memory>
    requires top { IsTop top.now }
    requires narrow { (name : List ℕ) → width_named top.now.design.now.ports name < 256 }
    ensures { IfOk result (λ ws. ws ≡ map (width_named top.now.design.now.ports) names.now) }
{
    let mut widths = Bytes::new(alloc);
    for name in names {
        widths.push(width_named(top, name.as_slice()) as u8)?;
    }
    Ok(widths)
}

fn plug_of(alloc: Global, top: &Top, c: &ChannelLine) -> Result<Plug, Memory>
    requires { IsTop top.now }
    ensures { IfOk result (λ p. p ≡ plug_of top.now.design.now.ports c.now) }
{
    let valid = pin_named(alloc, top, c.valid.as_slice())?;
    let ready = pin_named(alloc, top, c.ready.as_slice())?;
    let contents = pins_named(alloc, top, c.contents.as_slice())?;
    Ok(Plug {
        valid,
        ready,
        contents,
    })
}

fn row_of(alloc: Global, top: &Top, c: &ChannelLine) -> Result<Channel, Memory>
    requires top { IsTop top.now }
    requires narrow { (name : List ℕ) → width_named top.now.design.now.ports name < 256 }
    ensures { IfOk result (λ r. r ≡ row_of top.now.design.now.ports c.now) }
{
    let name = copied(alloc, c.name.as_slice())?;
    let widths = widths_named(alloc, top, c.contents.as_slice())?;
    Ok(Channel {
        dir: c.dir,
        name,
        widths,
    })
}

fn tie_of(alloc: Global, top: &Top, port: &[u8], number: u128) -> Result<Tie, Memory>
    requires { IsTop top.now }
    ensures { IfOk result (λ t. t ≡ tie_of top.now.design.now.ports port.now number) }
{
    let width = width_named(top, port);
    let pin = pin_named(alloc, top, port)?;
    Ok(Tie { pin, width, number })
}

impl Parts {
    /// Adds what a line says.
    fn add(&mut self, alloc: Global, top: &Top, entry: &Entry) -> Result<(), Memory>
        requires top { IsTop top.now }
        requires narrow { (name : List ℕ) → width_named top.now.design.now.ports name < 256 }
        ensures channels { OnOk result (self.new.channels ≡ self.old.channels ++ rows_of top.now.design.now.ports entry.now) }
        ensures plugs { OnOk result (self.new.plugs ≡ self.old.plugs ++ plugs_of top.now.design.now.ports entry.now) }
        ensures ties { OnOk result (self.new.ties ≡ self.old.ties ++ ties_of top.now.design.now.ports entry.now) }
        ensures reset { OnOk result (self.new.reset ≡ later self.old.reset (resets_of top.now.design.now.ports entry.now)) }
    {
        match entry {
            Entry::Tie { port, number } => {
                self.ties
                    .push(tie_of(alloc, top, port.as_slice(), *number)?)?;
            }
            Entry::Reset {
                port,
                active,
                cycles,
            } => {
                let pin = pin_named(alloc, top, port.as_slice())?;
                self.reset = Some(Reset {
                    pin,
                    active: *active,
                    cycles: *cycles,
                });
            }
            Entry::Channel { channel } => {
                self.channels.push(row_of(alloc, top, channel)?)?;
                self.plugs.push(plug_of(alloc, top, channel)?)?;
            }
            _ => {}
        }
        Ok(())
    }
}

/// What these lines add to a map.
pub fn parts_of(alloc: Global, top: &Top, lines: &[MapLine]) -> Result<Parts, Memory>
    requires top { IsTop top.now }
    requires narrow { (name : List ℕ) → width_named top.now.design.now.ports name < 256 }
    ensures { IfOk result (ArePartsOf top.now.design.now lines.now) }
{
    let mut parts = Parts {
        channels: Channels::new(alloc),
        plugs: Plugs::new(alloc),
        ties: Ties::new(alloc),
        reset: None,
    };
    for l in lines {
        parts.add(alloc, top, &l.entry)?;
    }
    Ok(parts)
}
