//! Reading one packet of a trace.

ghost use Rattle.std.specs.Prelude.{◌≡◌, ℕ, ◌≤◌, ◌⊎◌, List, [], ◌++◌, length, All, IfOk, IfErr, MatchResult, option_map, if◌then◌else◌};
ghost use Rattle.vec_clock.specs.trace_model.declared.packet.Packet.{Packet};
ghost use Rattle.vec_clock.specs.trace_model.declared.packet.TheConstants.{MOST_CHANNELS};
ghost use Rattle.vec_clock.specs.trace_model.Packet.{widths_under, IsPacket};
ghost use Rattle.vec_clock.specs.trace_model.Channel.{IsChannel};
ghost use Rattle.vec_clock.specs.trace_model.Recording.{reset_packet};
ghost use Rattle.trace_code.specs.Encoding.{packet_bytes};
ghost use Rattle.trace_code.specs.Reading.{Gives, with_front};
ghost use Rattle.trace_code.specs.PacketReading.{numbers_at, tag_at, gap_at, masks_at, events_at, packet_at};

use crate::error::{CodeError, FAULT};
use crate::number::{read_mask, read_number};
use std::alloc::Global;
use vec_clock::trace_model::{Channel, Packet, names};
use vec_clock::vidi_bits::{Items, Numbers};

/// Reads a number of each width, and adds them to those before.
fn read_content<'a>(
    numbers: &mut Vec<u128>,
    widths: &[u8],
    bytes: &'a [u8],
) -> Result<&'a [u8], CodeError>
    requires { All (λ w. w ≤ 128) widths.now }
    ensures { Gives (λ rest. (numbers.new.items, rest.now)) result (with_front numbers.old.items (numbers_at widths.now bytes.now)) }
{
    let mut rest = bytes;
    for width in widths {
        let (number, after) = read_number(*width, rest).ok_or(FAULT)?;
        numbers.push(number)?;
        rest = after;
    }
    Ok(rest)
}

/// Reads the content of a channel, where it starts.
fn read_start<'a>(
    numbers: &mut Vec<u128>,
    channel: &Channel,
    starts: bool,
    bytes: &'a [u8],
) -> Result<&'a [u8], CodeError>
    requires { All (λ w. w ≤ 128) channel.now.widths }
    ensures { Gives (λ rest. (numbers.new.items, rest.now)) result (with_front numbers.old.items
        (numbers_at (if starts then channel.now.widths else []) bytes.now)) }
{
    if starts {
        read_content(numbers, channel.widths.as_slice(), bytes)
    } else {
        Ok(bytes)
    }
}

/// The number of the ports of the channels that start.
fn count_ports(channels: &[Channel], starts: u128) -> usize
    requires few { length channels.now ≤ 128 }
    requires each { All IsChannel channels.now }
    ensures { result ≡ length (widths_under starts channels.now) }
{
    let mut ports = 0;
    for (c, channel) in channels.iter().enumerate() {
        if names(starts, c) {
            ports += channel.widths.len();
        }
    }
    ports
}

/// The contents of the channels that start, and the bytes after them. `BadTrace { at: 0 }` where there are too few bytes, or a
/// number doesn't fit the width of its port.
pub fn read_contents<'a>(
    alloc: Global,
    channels: &[Channel],
    starts: u128,
    bytes: &'a [u8],
) -> Result<(Numbers, &'a [u8]), CodeError>
    requires few { length channels.now ≤ 128 }
    requires each { All IsChannel channels.now }
    ensures { Gives (λ x. (x.0, x.1.now)) result (numbers_at (widths_under starts channels.now) bytes.now) }
{
    let mut numbers = Vec::with_capacity(alloc, count_ports(channels, starts))?;
    let mut rest = bytes;
    for (c, channel) in channels.iter().enumerate() {
        let starting = names(starts, c);
        rest = read_start(&mut numbers, channel, starting, rest)?;
    }
    Ok((Items::from_vec(numbers), rest))
}

/// Whether a packet is a reset, by the byte with which it begins, and the bytes after that.
#[tactic(auto, unfolding(crate::specs::PacketReading::tag_at))]
pub(crate) fn read_tag(bytes: &[u8]) -> Option<(bool, &[u8])>
    ensures { option_map (λ x. (x.0, x.1.now)) result ≡ tag_at bytes.now }
{
    match bytes {
        [1, rest @ ..] => Some((false, rest)),
        [2, rest @ ..] => Some((true, rest)),
        _ => None,
    }
}

/// A gap, and the bytes after it.
#[tactic(auto, unfolding(crate::specs::PacketReading::gap_at))]
pub(crate) fn read_gap(bytes: &[u8]) -> Option<(u32, &[u8])>
    ensures { option_map (λ x. (x.0, x.1.now)) result ≡ gap_at bytes.now }
{
    match bytes {
        [high, low, rest @ ..] => Some((256 * u32::from(*high) + u32::from(*low), rest)),
        _ => None,
    }
}

/// The masks of the starts and of the ends, of which there are some, and the bytes after them. None where there are too few bytes, or
/// a mask names a channel that isn't there.
#[tactic(auto, unfolding(crate::specs::PacketReading::masks_at))]
pub fn read_masks(channels: usize, bytes: &[u8]) -> Option<(u128, u128, &[u8])>
    requires { channels ≤ 128 }
    ensures { option_map (λ x. (x.0, x.1, x.2.now)) result ≡ masks_at channels bytes.now }
{
    let (starts, rest) = read_mask(channels, bytes)?;
    let (ends, rest) = read_mask(channels, rest)?;
    if starts == 0 && ends == 0 {
        return None;
    }
    Some((starts, ends, rest))
}

/// The packet with events whose masks stand at the front of the bytes, and the bytes after it.
#[tactic(auto, unfolding(crate::specs::PacketReading::events_at))]
fn read_events<'a>(
    alloc: Global,
    channels: &[Channel],
    gap: u32,
    bytes: &'a [u8],
) -> Result<(Packet, &'a [u8]), CodeError>
    requires few { length channels.now ≤ MOST_CHANNELS }
    requires each { All IsChannel channels.now }
    ensures { Gives (λ x. (x.0, x.1.now)) result (events_at channels.now gap bytes.now) }
{
    let (starts, ends, rest) = read_masks(channels.len(), bytes).ok_or(FAULT)?;
    let (contents, rest) = read_contents(alloc, channels, starts, rest)?;
    let packet = Packet {
        gap,
        reset: false,
        starts,
        ends,
        contents,
    };
    Ok((packet, rest))
}

/// A reset behind a gap.
fn reset_packet(alloc: Global, gap: u32) -> Packet
    ensures { result ≡ reset_packet gap }
{
    Packet {
        gap,
        reset: true,
        starts: 0,
        ends: 0,
        contents: Items::new(alloc),
    }
}

/// The packet at the front of the bytes, field by field, and the bytes after it.
#[tactic(auto, unfolding(crate::specs::PacketReading::packet_at))]
fn read_packet_fields<'a>(
    alloc: Global,
    channels: &[Channel],
    bytes: &'a [u8],
) -> Result<(Packet, &'a [u8]), CodeError>
    requires few { length channels.now ≤ MOST_CHANNELS }
    requires each { All IsChannel channels.now }
    ensures { Gives (λ x. (x.0, x.1.now)) result (packet_at channels.now bytes.now) }
{
    let (reset, rest) = read_tag(bytes).ok_or(FAULT)?;
    let (gap, rest) = read_gap(rest).ok_or(FAULT)?;
    if reset {
        return Ok((reset_packet(alloc, gap), rest));
    }
    read_events(alloc, channels, gap, rest)
}

/// The packet at the front of the bytes, and the bytes after it. `BadTrace { at: 0 }` where no packet over
/// the channels stands there.
pub(crate) fn read_packet<'a>(
    alloc: Global,
    channels: &[Channel],
    bytes: &'a [u8],
) -> Result<(Packet, &'a [u8]), CodeError>
    requires few { length channels.now ≤ MOST_CHANNELS }
    requires each { All IsChannel channels.now }
    ensures found { IfOk result (λ x. IsPacket channels.now x.0 × (bytes.now ≡ packet_bytes channels.now x.0 ++ x.1.now)) }
    ensures only { (p : Packet) (rest : List ℕ) → IsPacket channels.now p → bytes.now ≡ packet_bytes channels.now p ++ rest
        → MatchResult result (λ x. (x.0 ≡ p) × (x.1.now ≡ rest)) (λ e. e ≡ CodeError.Memory) }
    ensures fault { IfErr result (λ e. (e ≡ CodeError.Memory) ⊎ (e ≡ CodeError.BadTrace 0)) }
{
    read_packet_fields(alloc, channels, bytes)
}
