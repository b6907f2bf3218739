//! Writing a whole trace.

ghost use Rattle.std.specs.Prelude.{◌≡◌, ◌≤◌, ◌++◌, length, drop, All, OnOk, IfOk};
ghost use Rattle.std.specs.List.{flat_map};
ghost use Rattle.vec_clock.specs.trace_model.Channel.{IsChannel, IsTable};
ghost use Rattle.vec_clock.specs.trace_model.Length.{longest_packet};
ghost use Rattle.vec_clock.specs.trace_model.Packet.{IsPacket};
ghost use Rattle.trace_code.specs.Encoding.{direction_byte, channel_bytes, header_bytes, packet_bytes, end_mark, encode, HasEncoding};

use crate::header::MAGIC;
use crate::writing::{Events, write_events, write_reset};
use std::alloc::Global;
use vec_clock::trace_model::{Channel, Channels, Dir, Packet, Trace, longest_packet};
use vec_clock::vidi_bits::{Bytes, Items, Memory};

/// The byte of a direction.
fn direction_byte(dir: Dir) -> u8
    ensures { result ≡ direction_byte dir }
{
    match dir {
        Dir::Inward => 0,
        Dir::Outward => 1,
    }
}

/// Adds the bytes of a channel.
fn push_channel(out: &mut Vec<u8>, channel: &Channel) -> Result<(), Memory>
    requires { IsChannel channel.now }
    ensures { OnOk result (out.new.items ≡ out.old.items ++ channel_bytes channel.now) }
{
    out.push(direction_byte(channel.dir))?;
    out.push(channel.name.len() as u8)?;
    out.extend_from_slice(channel.name.as_slice())?;
    out.push(channel.widths.len() as u8)?;
    out.extend_from_slice(channel.widths.as_slice())?;
    Ok(())
}

/// Adds the bytes of channels, one after the other.
fn push_channels(out: &mut Vec<u8>, channels: &[Channel]) -> Result<(), Memory>
    requires { All IsChannel channels.now }
    ensures { OnOk result (out.new.items ≡ out.old.items ++ flat_map channel_bytes channels.now) }
{
    for channel in channels {
        push_channel(out, channel)?;
    }
    Ok(())
}

/// The bytes of the header of a lawful table of channels.
pub fn header_bytes(alloc: Global, channels: &Channels) -> Result<Bytes, Memory>
    requires { IsTable channels.now }
    ensures { IfOk result (λ bytes. bytes ≡ header_bytes channels.now) }
{
    let mut out = Vec::from_slice(alloc, &MAGIC)?;
    out.push(channels.len() as u8)?;
    push_channels(&mut out, channels.as_slice())?;
    Ok(Items::from_vec(out))
}

/// Writes a packet at the front of the buffer, which has room for it, and gives its length.
fn write_one(packet: &Packet, channels: &[Channel], buf: &mut [u8]) -> usize
    requires few { length channels.now ≤ 128 }
    requires each { All IsChannel channels.now }
    requires packet { IsPacket channels.now packet.now }
    requires room { longest_packet channels.now ≤ length buf.old }
    ensures bytes { buf.new ≡ packet_bytes channels.now packet.now ++ drop result buf.old }
    ensures place { result ≡ length (packet_bytes channels.now packet.now) }
{
    if packet.reset {
        return write_reset(packet.gap, buf);
    }
    let contents = packet.contents.as_slice();
    let events = Events {
        gap: packet.gap,
        starts: packet.starts,
        ends: packet.ends,
    };
    write_events(buf, channels, packet.starts, events, contents)
}

/// Adds the bytes of packets, one after the other, each by way of a buffer that has room for it.
fn push_packets(
    out: &mut Vec<u8>,
    channels: &[Channel],
    packets: &[Packet],
    buf: &mut [u8],
) -> Result<(), Memory>
    requires few { length channels.now ≤ 128 }
    requires each { All IsChannel channels.now }
    requires packets { All (IsPacket channels.now) packets.now }
    requires room { longest_packet channels.now ≤ length buf.old }
    ensures { OnOk result (out.new.items ≡ out.old.items ++ flat_map (packet_bytes channels.now) packets.now) }
{
    for packet in packets {
        let len = write_one(packet, channels, buf);
        out.extend_from_slice(&buf[..len])?;
    }
    Ok(())
}

/// The bytes of the end of a trace with this many packets.
pub fn end_mark(packets: u32) -> [u8; 5]
    ensures { result ≡ end_mark packets }
{
    let [a, b, c, d] = packets.to_be_bytes();
    [0, a, b, c, d]
}

/// The bytes of a trace (*Encoding*): a well-formed one with a lawful table of channels and fewer than
/// 2^32 packets.
pub fn encode(alloc: Global, t: &Trace) -> Result<Bytes, Memory>
    requires { HasEncoding t.now }
    ensures { IfOk result (λ bytes. bytes ≡ encode t.now) }
{
    let channels = t.channels.as_slice();
    let mut out = header_bytes(alloc, &t.channels)?.into_vec();
    let mut buf = vec![in alloc; 0u8; longest_packet(channels)]?;
    push_packets(&mut out, channels, t.packets.as_slice(), buf.as_mut_slice())?;
    out.extend_from_slice(&end_mark(t.packets.len() as u32))?;
    Ok(Items::from_vec(out))
}
