//! Moving a completion.

ghost use Rattle.std.specs.Prelude.{◌≡◌, ◌<◌, ◌^◌, ◌++◌, ◌∷◌, [], IfOk, IfErr, OnOk, length};
ghost use Rattle.trace_model.specs.Trace.{IsWellFormed};
ghost use Rattle.trace_edit.specs.Laws.{MovedCompletion};
ghost use Rattle.trace_edit.specs.Moved.{alone, placed, moved, without, IsMove, IsRefused, Moves};

use crate::blocking::{blocked_by, stays};
use crate::copying::{channels_of, packet_with, packets_of};
use crate::error::EditError;
use crate::place::{Move, place_of};
use std::alloc::Global;
use trace_model::vidi_bits::{Items, Memory};
use trace_model::{Event, Packet, Packets, Trace};

/// Adds the completion alone.
fn push_alone(alloc: Global, out: &mut Packets, channel: usize) -> Result<(), Memory>
    requires { channel < 128 }
    ensures { OnOk result (out.new ≡ out.old ++ alone channel ∷ []) }
{
    out.push(Packet {
        gap: 0,
        reset: false,
        starts: 0,
        ends: 1 << channel,
        contents: Items::new(alloc),
    })
}

/// Adds a packet without the completion, where it has another event.
fn push_without(
    alloc: Global,
    out: &mut Packets,
    packet: &Packet,
    channel: usize,
) -> Result<(), Memory>
    requires { channel < 128 }
    ensures { OnOk result (out.new ≡ out.old ++ without channel packet.now) }
{
    let ends = packet.ends ^ (1 << channel);
    if packet.starts == 0 && ends == 0 {
        return Ok(());
    }
    let left = packet_with(alloc, packet, ends)?;
    out.push(left)
}

/// Adds what stands in place of a packet.
fn push_placed(
    alloc: Global,
    out: &mut Packets,
    packet: &Packet,
    at: usize,
    m: Move,
) -> Result<(), Memory>
    requires { m.channel < 128 }
    ensures { OnOk result (out.new ≡ out.old ++ placed m (at, packet.now)) }
{
    if at == m.to && !m.after {
        push_alone(alloc, out, m.channel)?;
    }
    if at == m.from {
        push_without(alloc, out, packet, m.channel)?;
    } else {
        let copy = packet_with(alloc, packet, packet.ends)?;
        out.push(copy)?;
    }
    if at == m.to && m.after {
        push_alone(alloc, out, m.channel)?;
    }
    Ok(())
}

/// The packets with the completion moved.
fn moved(alloc: Global, packets: &[Packet], m: Move) -> Result<Packets, Memory>
    requires { m.channel < 128 }
    ensures { IfOk result (λ new. new ≡ moved m packets.now) }
{
    if stays(m) {
        return packets_of(alloc, packets);
    }
    let mut out = Items::new(alloc);
    for (at, packet) in packets.iter().enumerate() {
        push_placed(alloc, &mut out, packet, at, m)?;
    }
    Ok(out)
}

/// Where both completions stand, which are two.
fn planned(packets: &[Packet], end: Event, other: Event, after: bool) -> Result<Move, EditError>
    ensures planned { IfOk result (IsMove packets.now end other after) }
    ensures within { IfOk result (λ m. (m.from < length packets.now) × (m.to < length packets.now) × (m.channel < 128)) }
    ensures refused { IfErr result (IsRefused packets.now end other after) }
{
    let Some(from) = place_of(packets, end) else {
        return Err(EditError::NoEnd { which: 1 });
    };
    let Some(to) = place_of(packets, other) else {
        return Err(EditError::NoEnd { which: 2 });
    };
    if end.channel == other.channel && end.index == other.index {
        return Err(EditError::SameEnd);
    }
    Ok(Move {
        channel: end.channel,
        from,
        to,
        after,
    })
}

/// The trace in which the completion `end` stands in a packet of its own right after that of the completion `other`, or right before it
/// (*Moved*); as it was where it stands on that side already. Both are completions by their numbers in the whole trace.
///
/// `NoEnd` where one isn't there, `SameEnd` where they are one, `Blocked` where the completion would come behind its channel's next start,
/// or before its own start, or over a reset.
pub fn move_end(
    alloc: Global,
    t: &Trace,
    end: Event,
    other: Event,
    after: bool,
) -> Result<Trace, EditError>
    requires well_formed { IsWellFormed t.now }
    requires few { length t.now.packets < 2 ^ 32 }
    ensures moves { Moves t.now end other after result }
    ensures completion { IfOk result (λ new. MovedCompletion end other after t.now new) }
{
    let m = planned(t.packets.as_slice(), end, other, after)?;
    if let Some(packet) = blocked_by(t.packets.as_slice(), m) {
        return Err(EditError::Blocked {
            packet: packet as u32,
        });
    }
    let channels = channels_of(alloc, t.channels.as_slice())?;
    let packets = moved(alloc, t.packets.as_slice(), m)?;
    Ok(Trace { channels, packets })
}
