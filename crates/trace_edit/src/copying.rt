//! Copies of the parts of a trace.

ghost use Rattle.std.specs.Prelude.{◌≡◌, ◌++◌, ◌∷◌, [], IfOk, OnOk};

use std::alloc::Global;
use trace_model::vidi_bits::{Items, Memory, copied};
use trace_model::{Channel, Channels, Packet, Packets};

/// A copy of a packet, with these ends.
pub(crate) fn packet_with(alloc: Global, p: &Packet, ends: u128) -> Result<Packet, Memory>
    ensures { IfOk result (λ copy. copy ≡ record p.now { ends = ends }) }
{
    let contents = Vec::from_slice(alloc, p.contents.as_slice())?;
    Ok(Packet {
        gap: p.gap,
        reset: p.reset,
        starts: p.starts,
        ends,
        contents: Items::from_vec(contents),
    })
}

fn channel_of(alloc: Global, c: &Channel) -> Result<Channel, Memory>
    ensures { IfOk result (λ copy. copy ≡ c.now) }
{
    let name = copied(alloc, c.name.as_slice())?;
    let widths = copied(alloc, c.widths.as_slice())?;
    Ok(Channel {
        dir: c.dir,
        name,
        widths,
    })
}

/// A copy of a table of channels.
pub(crate) fn channels_of(alloc: Global, channels: &[Channel]) -> Result<Channels, Memory>
    ensures { IfOk result (λ copy. copy ≡ channels.now) }
{
    let mut copy = Items::new(alloc);
    for channel in channels {
        let channel = channel_of(alloc, channel)?;
        copy.push(channel)?;
    }
    Ok(copy)
}

/// A copy of a list of packets.
pub(crate) fn packets_of(alloc: Global, packets: &[Packet]) -> Result<Packets, Memory>
    ensures { IfOk result (λ copy. copy ≡ packets.now) }
{
    let mut copy = Items::new(alloc);
    for packet in packets {
        let packet = packet_with(alloc, packet, packet.ends)?;
        copy.push(packet)?;
    }
    Ok(copy)
}
