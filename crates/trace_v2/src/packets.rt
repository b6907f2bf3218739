//! Reading one packet of an old trace.

ghost use Rattle.std.specs.Prelude.{◌≡◌, ℕ, ◌≤◌, ◌⊎◌, List, ◌++◌, length, All, IfOk, IfErr, MatchResult, option_map};
ghost use Rattle.trace_code.specs.declared.error.CodeError.{CodeError};
ghost use Rattle.trace_code.specs.trace_model.declared.packet.Packet.{Packet};
ghost use Rattle.trace_code.specs.trace_model.Channel.{IsChannel};
ghost use Rattle.trace_code.specs.Reading.{Gives};
ghost use Rattle.trace_v2.specs.Old.{IsOldPacket, old_packet_bytes};
ghost use Rattle.trace_v2.specs.OldReading.{old_tag_at, old_packet_at};

use std::alloc::Global;
use trace_code::trace_model::{Channel, Packet};
use trace_code::{CodeError, FAULT, read_contents, read_masks};

/// The bytes after the one with which a packet begins.
#[tactic(auto, unfolding(crate::specs::OldReading::old_tag_at))]
fn read_old_tag(bytes: &[u8]) -> Option<&[u8]>
    ensures { option_map (λ rest. rest.now) result ≡ old_tag_at bytes.now }
{
    match bytes {
        [1, rest @ ..] => Some(rest),
        _ => None,
    }
}

/// The packet at the front of the bytes, field by field, and the bytes after it.
#[tactic(auto, unfolding(crate::specs::OldReading::old_packet_at))]
fn read_old_fields<'a>(
    alloc: Global,
    channels: &[Channel],
    bytes: &'a [u8],
) -> Result<(Packet, &'a [u8]), CodeError>
    requires few { length channels.now ≤ 128 }
    requires each { All IsChannel channels.now }
    ensures { Gives (λ x. (x.0, x.1.now)) result (old_packet_at channels.now bytes.now) }
{
    let rest = read_old_tag(bytes).ok_or(FAULT)?;
    let (starts, ends, rest) = read_masks(channels.len(), rest).ok_or(FAULT)?;
    let (contents, rest) = read_contents(alloc, channels, starts, rest)?;
    let packet = Packet {
        gap: 0,
        reset: false,
        starts,
        ends,
        contents,
    };
    Ok((packet, rest))
}

/// The packet of version 1 at the front of the bytes, and the bytes after it. `BadTrace { at: 0 }` where none over the channels stands
/// there.
pub(crate) fn read_old_packet<'a>(
    alloc: Global,
    channels: &[Channel],
    bytes: &'a [u8],
) -> Result<(Packet, &'a [u8]), CodeError>
    requires few { length channels.now ≤ 128 }
    requires each { All IsChannel channels.now }
    ensures found { IfOk result (λ x. IsOldPacket channels.now x.0 × (bytes.now ≡ old_packet_bytes channels.now x.0 ++ x.1.now)) }
    ensures only { (p : Packet) (rest : List ℕ) → IsOldPacket channels.now p → bytes.now ≡ old_packet_bytes channels.now p ++ rest
        → MatchResult result (λ x. (x.0 ≡ p) × (x.1.now ≡ rest)) (λ e. e ≡ CodeError.Memory) }
    ensures fault { IfErr result (λ e. (e ≡ CodeError.Memory) ⊎ (e ≡ CodeError.BadTrace 0)) }
{
    read_old_fields(alloc, channels, bytes)
}
