//! Reading a whole trace.

ghost use Rattle.std.specs.Prelude.{◌≡◌, ◌≢◌, ℕ, ◌<◌, ◌≤◌, ◌^◌, ◌↔◌, IsTrue, List, [], ◌∷◌, ◌++◌, length, All, IfOk, IfSome, IfNone};
ghost use Rattle.std.specs.Prelude.{MatchResult};
ghost use Rattle.vec_clock.specs.trace_model.declared.packet.Packet.{Packet};
ghost use Rattle.vec_clock.specs.trace_model.declared.packet.TheConstants.{MOST_CHANNELS};
ghost use Rattle.vec_clock.specs.trace_model.declared.trace.Trace.{Trace};
ghost use Rattle.vec_clock.specs.trace_model.Channel.{IsChannel};
ghost use Rattle.vec_clock.specs.trace_model.Packet.{IsPacket};
ghost use Rattle.vec_clock.specs.trace_model.Epoch.{since_reset};
ghost use Rattle.vec_clock.specs.trace_model.Trace.{AlternateThroughout, InFlight};
ghost use Rattle.trace_code.specs.Encoding.{Encodes, packet_bytes, end_mark};
ghost use Rattle.trace_code.specs.Decoding.{Decodes};
ghost use Rattle.trace_code.specs.PacketReading.{AreAll};

use crate::encoding::end_mark;
use crate::error::CodeError;
use crate::header::read_header;
use crate::packets::read_packet;
use std::alloc::Global;
use vec_clock::trace_model::{Channel, Packet, Packets, Trace, in_flight_behind};
use vec_clock::vidi_bits::{Items, Memory};

/// The bytes of the longest trace file that is read (this project's profile).
pub const TRACE_LIMIT: u64 = 134_217_728;

/// The packet at the front of the bytes, the channels in flight after it, and the bytes after it. None
/// where no packet stands there that is lawful after packets that leave `flying` in flight.
fn next_packet<'a>(
    alloc: Global,
    channels: &[Channel],
    flying: u128,
    bytes: &'a [u8],
) -> Result<Option<(Packet, u128, &'a [u8])>, Memory>
    requires few { length channels.now ≤ MOST_CHANNELS }
    requires each { All IsChannel channels.now }
    ensures found { IfOk result (λ o. IfSome o (λ x. IsPacket channels.now x.0 × (bytes.now ≡ packet_bytes channels.now x.0 ++ x.2.now))) }
    ensures follows { IfOk result (λ o. IfSome o (λ x. (ps : List Packet) → AlternateThroughout ps → InFlight (since_reset ps) flying
        → AlternateThroughout (ps ++ x.0 ∷ []) × InFlight (since_reset (ps ++ x.0 ∷ [])) x.1)) }
    ensures none { IfOk result (λ o. IfNone o ((ps : List Packet) (p : Packet) (rest : List ℕ) → InFlight (since_reset ps) flying
        → AlternateThroughout (ps ++ p ∷ []) → IsPacket channels.now p → bytes.now ≢ packet_bytes channels.now p ++ rest)) }
{
    match read_packet(alloc, channels, bytes) {
        Ok((packet, rest)) => match in_flight_behind(
            flying,
            packet.reset,
            packet.starts,
            packet.ends,
        ) {
            Some(after) => Ok(Some((packet, after, rest))),
            None => Ok(None),
        },
        Err(CodeError::BadTrace { at: _ }) => Ok(None),
        Err(CodeError::Memory) => Err(Memory),
    }
}

/// The longest list of whole lawful packets at the front of the bytes, and the bytes after them.
pub(crate) fn read_packets<'a>(
    alloc: Global,
    channels: &[Channel],
    bytes: &'a [u8],
) -> Result<(Packets, &'a [u8]), Memory>
    requires few { length channels.now ≤ MOST_CHANNELS }
    requires each { All IsChannel channels.now }
    ensures { IfOk result (λ x. AreAll channels.now bytes.now x.0 x.1.now) }
{
    let mut packets = Items::new(alloc);
    let mut flying = 0;
    let mut rest = bytes;
    while let Some((packet, after, others)) = next_packet(alloc, channels, flying, rest)? {
        packets.push(packet)?;
        flying = after;
        rest = others;
    }
    Ok((packets, rest))
}

/// Whether the bytes are the end of a trace with this many packets.
pub fn is_end_mark(bytes: &[u8], packets: usize) -> bool
    ensures { IsTrue result ↔ (packets < 2 ^ 32) × (bytes.now ≡ end_mark packets) }
{
    match u32::try_from(packets) {
        Ok(packets) => bytes == end_mark(packets).as_slice(),
        Err(_) => false,
    }
}

/// The trace that the bytes encode (*Encoding*). `BadTrace` exactly where they are the encoding of no
/// well-formed trace, with the length in bytes of the header and of the whole lawful packets before the
/// fault, 0 where the header is at fault.
pub fn decode(alloc: Global, bytes: &[u8]) -> Result<Trace, CodeError>
    ensures decodes { Decodes bytes.now result }
    // What is encoded is read, unless memory runs out.
    ensures only { (t : Trace) → Encodes t bytes.now → MatchResult result (λ u. u ≡ t) (λ e. e ≡ CodeError.Memory) }
{
    let (channels, rest) = read_header(alloc, bytes)?;
    let (packets, rest) = read_packets(alloc, channels.as_slice(), rest)?;
    if !is_end_mark(rest, packets.len()) {
        let at = (bytes.len() - rest.len()) as u64;
        return Err(CodeError::BadTrace { at });
    }
    Ok(Trace { channels, packets })
}
