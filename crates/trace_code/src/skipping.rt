//! Passing over the packets of a trace: as reading them, but no content is kept.

ghost use Rattle.std.specs.Prelude.{◌≡◌, ◌≢◌, ℕ, ◌≤◌, false, List, [], ◌∷◌, ◌++◌, length, All, IfSome, IfNone, if◌then◌else◌};
ghost use Rattle.vec_clock.specs.trace_model.declared.packet.Packet.{Packet};
ghost use Rattle.vec_clock.specs.trace_model.declared.packet.TheConstants.{MOST_CHANNELS};
ghost use Rattle.vec_clock.specs.trace_model.Channel.{IsChannel};
ghost use Rattle.vec_clock.specs.trace_model.Packet.{widths_under, IsPacket};
ghost use Rattle.vec_clock.specs.trace_model.Epoch.{since_reset};
ghost use Rattle.vec_clock.specs.trace_model.Trace.{AlternateThroughout, InFlight};
ghost use Rattle.trace_code.specs.Encoding.{packet_bytes};
ghost use Rattle.trace_code.specs.PacketReading.{number_at, numbers_at, events_at, packet_at, AreAll};
ghost use Rattle.trace_code.specs.Skipping.{Passes, packet_with, Follows};

use crate::number::{byte_count, read_number};
use crate::packets::{read_gap, read_masks, read_tag};
use vec_clock::trace_model::{Channel, in_flight_behind, names};

/// The bytes after a number of this width, which isn't looked at where it may be any number of its bytes.
#[tactic(auto, unfolding(crate::specs::PacketReading::sized_at))]
fn skip_number(width: u8, bytes: &[u8]) -> Option<&[u8]>
    requires { width ≤ 128 }
    ensures { Passes (λ n rest. (n, rest.now)) result (number_at width bytes.now) }
{
    if width % 8 != 0 {
        let (_number, rest) = read_number(width, bytes)?;
        return Some(rest);
    }
    let len = byte_count(width);
    if bytes.len() < len {
        return None;
    }
    Some(&bytes[len..])
}

/// The bytes after a number of each width.
fn skip_content<'a>(widths: &[u8], bytes: &'a [u8]) -> Option<&'a [u8]>
    requires { All (λ w. w ≤ 128) widths.now }
    ensures { Passes (λ ns rest. (ns, rest.now)) result (numbers_at widths.now bytes.now) }
{
    let mut rest = bytes;
    for width in widths {
        rest = skip_number(*width, rest)?;
    }
    Some(rest)
}

/// The bytes after the content of a channel, which has none where it doesn't start.
fn skip_start<'a>(channel: &Channel, starts: bool, bytes: &'a [u8]) -> Option<&'a [u8]>
    requires { All (λ w. w ≤ 128) channel.now.widths }
    ensures { Passes (λ ns rest. (ns, rest.now)) result (numbers_at (if starts then channel.now.widths else []) bytes.now) }
{
    if starts {
        skip_content(channel.widths.as_slice(), bytes)
    } else {
        Some(bytes)
    }
}

/// The bytes after the contents of the channels that start.
fn skip_contents<'a>(channels: &[Channel], starts: u128, bytes: &'a [u8]) -> Option<&'a [u8]>
    requires few { length channels.now ≤ MOST_CHANNELS }
    requires each { All IsChannel channels.now }
    ensures { Passes (λ ns rest. (ns, rest.now)) result (numbers_at (widths_under starts channels.now) bytes.now) }
{
    let mut rest = bytes;
    for (c, channel) in channels.iter().enumerate() {
        let starting = names(starts, c);
        rest = skip_start(channel, starting, rest)?;
    }
    Some(rest)
}

/// What a packet with events has at the front of the bytes, behind its gap: the starts and the ends, and the bytes after it.
#[tactic(auto, unfolding(crate::specs::PacketReading::events_at))]
fn skip_events<'a>(
    channels: &[Channel],
    gap: u32,
    bytes: &'a [u8],
) -> Option<(u128, u128, &'a [u8])>
    requires few { length channels.now ≤ MOST_CHANNELS }
    requires each { All IsChannel channels.now }
    ensures { Passes (λ ns x. (packet_with (gap, ns) false x.0 x.1, x.2.now)) result (events_at channels.now gap bytes.now) }
{
    let (starts, ends, rest) = read_masks(channels.len(), bytes)?;
    let rest = skip_contents(channels, starts, rest)?;
    Some((starts, ends, rest))
}

/// Whether the packet at the front of the bytes is a reset, its starts and its ends, and the bytes after it.
#[tactic(auto, unfolding(crate::specs::PacketReading::packet_at))]
fn skip_fields<'a>(channels: &[Channel], bytes: &'a [u8]) -> Option<(bool, u128, u128, &'a [u8])>
    requires few { length channels.now ≤ MOST_CHANNELS }
    requires each { All IsChannel channels.now }
    ensures { Passes (λ others x. (packet_with others x.0 x.1 x.2, x.3.now)) result (packet_at channels.now bytes.now) }
{
    let (reset, rest) = read_tag(bytes)?;
    let (gap, rest) = read_gap(rest)?;
    if reset {
        return Some((true, 0, 0, rest));
    }
    let (starts, ends, rest) = skip_events(channels, gap, rest)?;
    Some((false, starts, ends, rest))
}

/// The channels in flight after the packet at the front of the bytes, and the bytes after it. None where
/// no packet stands there that is lawful after packets that leave `flying` in flight.
fn skip_packet<'a>(channels: &[Channel], flying: u128, bytes: &'a [u8]) -> Option<(u128, &'a [u8])>
    requires few { length channels.now ≤ MOST_CHANNELS }
    requires each { All IsChannel channels.now }
    ensures found { IfSome result (λ x. Follows channels.now bytes.now flying x.0 x.1.now) }
    ensures none { IfNone result ((ps : List Packet) (p : Packet) (rest : List ℕ) → InFlight (since_reset ps) flying
        → AlternateThroughout (ps ++ p ∷ []) → IsPacket channels.now p → bytes.now ≢ packet_bytes channels.now p ++ rest) }
{
    let (reset, starts, ends, rest) = skip_fields(channels, bytes)?;
    let after = in_flight_behind(flying, reset, starts, ends)?;
    Some((after, rest))
}

/// The length of the longest list of whole lawful packets at the front of the bytes, and the bytes after them.
pub(crate) fn skip_packets<'a>(channels: &[Channel], bytes: &'a [u8]) -> (usize, &'a [u8])
    requires few { length channels.now ≤ MOST_CHANNELS }
    requires each { All IsChannel channels.now }
    ensures { (packets : List Packet) × (length packets ≡ result.0) × AreAll channels.now bytes.now packets result.1.now }
{
    // There are no more packets than bytes.
    let _most = bytes.len();
    let mut packets = 0;
    let mut flying = 0;
    let mut rest = bytes;
    while let Some((after, others)) = skip_packet(channels, flying, rest) {
        packets += 1;
        flying = after;
        rest = others;
    }
    (packets, rest)
}
