//! Reading a whole trace of version 1, and what is whole of one that was cut off.

ghost use Rattle.std.specs.Prelude.{◌≡◌, ◌≢◌, ℕ, ◌≤◌, List, [], ◌∷◌, ◌++◌, length, All, IfOk, IfSome, IfNone, MatchResult};
ghost use Rattle.trace_code.specs.declared.error.CodeError.{CodeError};
ghost use Rattle.trace_code.specs.trace_model.declared.packet.Packet.{Packet};
ghost use Rattle.trace_code.specs.trace_model.declared.trace.Trace.{Trace};
ghost use Rattle.trace_code.specs.trace_model.Channel.{IsChannel};
ghost use Rattle.trace_code.specs.trace_model.Trace.{Alternates, InFlight};
ghost use Rattle.trace_v2.specs.Old.{EncodesOld, IsOldPacket, old_packet_bytes};
ghost use Rattle.trace_v2.specs.OldReading.{AreAllOld};
ghost use Rattle.trace_v2.specs.OldDecoding.{DecodesOld, SalvagesOld};

use crate::header::read_old_header;
use crate::packets::read_old_packet;
use std::alloc::Global;
use trace_code::trace_model::{Channel, Packet, Packets, Trace, in_flight_after};
use trace_code::vidi_bits::{Items, Memory};
use trace_code::{CodeError, is_end_mark};

/// The packet at the front of the bytes, the channels in flight after it, and the bytes after it. None
/// where no packet stands there that is lawful after packets that leave `flying` in flight.
fn next_old_packet<'a>(
    alloc: Global,
    channels: &[Channel],
    flying: u128,
    bytes: &'a [u8],
) -> Result<Option<(Packet, u128, &'a [u8])>, Memory>
    requires few { length channels.now ≤ 128 }
    requires each { All IsChannel channels.now }
    ensures found { IfOk result (λ o. IfSome o (λ x. IsOldPacket channels.now x.0
        × (bytes.now ≡ old_packet_bytes channels.now x.0 ++ x.2.now))) }
    ensures follows { IfOk result (λ o. IfSome o (λ x. (ps : List Packet) → Alternates ps → InFlight ps flying → Alternates (ps ++ x.0 ∷ [])
        × InFlight (ps ++ x.0 ∷ []) x.1)) }
    ensures none { IfOk result (λ o. IfNone o ((ps : List Packet) (p : Packet) (rest : List ℕ) → InFlight ps flying
        → Alternates (ps ++ p ∷ []) → IsOldPacket channels.now p → bytes.now ≢ old_packet_bytes channels.now p ++ rest)) }
{
    match read_old_packet(alloc, channels, bytes) {
        Ok((packet, rest)) => match in_flight_after(flying, packet.starts, packet.ends) {
            Some(after) => Ok(Some((packet, after, rest))),
            None => Ok(None),
        },
        Err(CodeError::BadTrace { at: _ }) => Ok(None),
        Err(CodeError::Memory) => Err(Memory),
    }
}

/// The longest list of whole lawful packets at the front of the bytes, and the bytes after them.
fn read_old_packets<'a>(
    alloc: Global,
    channels: &[Channel],
    bytes: &'a [u8],
) -> Result<(Packets, &'a [u8]), Memory>
    requires few { length channels.now ≤ 128 }
    requires each { All IsChannel channels.now }
    ensures { IfOk result (λ x. AreAllOld channels.now bytes.now x.0 x.1.now) }
{
    let mut packets = Items::new(alloc);
    let mut flying = 0;
    let mut rest = bytes;
    while let Some((packet, after, others)) = next_old_packet(alloc, channels, flying, rest)? {
        packets.push(packet)?;
        flying = after;
        rest = others;
    }
    Ok((packets, rest))
}

/// The trace that the bytes encode in version 1 (*Encoding* of `Old`). `BadTrace` exactly where they are the old encoding of no
/// trace, with the length in bytes of the header and of the whole lawful packets before the fault, 0 where the header is at fault.
pub fn decode_v1(alloc: Global, bytes: &[u8]) -> Result<Trace, CodeError>
    ensures decodes { DecodesOld bytes.now result }
    // What is encoded is read, unless memory runs out.
    ensures only { (t : Trace) → EncodesOld t bytes.now → MatchResult result (λ u. u ≡ t) (λ e. e ≡ CodeError.Memory) }
{
    let (channels, rest) = read_old_header(alloc, bytes)?;
    let (packets, rest) = read_old_packets(alloc, channels.as_slice(), rest)?;
    if !is_end_mark(rest, packets.len()) {
        let at = (bytes.len() - rest.len()) as u64;
        return Err(CodeError::BadTrace { at });
    }
    Ok(Trace { channels, packets })
}

/// The trace of the header of version 1 and of the longest list of whole lawful packets behind it. `BadTrace { at: 0 }` exactly
/// where the bytes begin with no whole lawful header of version 1.
pub fn salvage_v1(alloc: Global, bytes: &[u8]) -> Result<Trace, CodeError>
    ensures salvages { SalvagesOld bytes.now result }
    // There are no more packets than bytes.
    ensures few { IfOk result (λ t. length t.packets ≤ length bytes.now) }
{
    let (channels, rest) = read_old_header(alloc, bytes)?;
    let (packets, _) = read_old_packets(alloc, channels.as_slice(), rest)?;
    Ok(Trace { channels, packets })
}
