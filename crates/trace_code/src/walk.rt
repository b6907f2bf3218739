//! Walking over the packets of a trace where they stand in its bytes.

ghost use Rattle.std.specs.Prelude.{◌≡◌, ◌↔◌, IsTrue, ℕ, ◌+◌, ◌*◌, ◌^◌, ◌<◌, ◌≤◌, Some, slice_get, slice_index, length, take, drop, map};
ghost use Rattle.std.specs.Prelude.{All, IfOk, sum_by};
ghost use Rattle.vec_clock.specs.trace_model.declared.packet.Packet.{Packet};
ghost use Rattle.vec_clock.specs.trace_model.declared.trace.Trace.{Trace};
ghost use Rattle.vec_clock.specs.trace_model.Channel.{byte_count, content_bytes, IsChannel};
ghost use Rattle.vec_clock.specs.trace_model.Packet.{count, does};
ghost use Rattle.trace_code.specs.PacketReading.{high_value};
ghost use Rattle.trace_code.specs.Counted.{counted};
ghost use Rattle.trace_code.specs.Heads.{IsHead};
ghost use Rattle.trace_code.specs.Standing.{IsAt, StandsAt};

use crate::head::Head;
use crate::number::{byte_count, high_first, numbers_len};
use crate::tally::Tally;
use std::alloc::Global;
use vec_clock::trace_model::{Channel, Kind, content_len};
use vec_clock::vidi_bits::Memory;

/// The content bytes of each channel.
pub(crate) fn sizes_of(alloc: Global, channels: &[Channel]) -> Result<Vec<u32>, Memory>
    requires { All IsChannel channels.now }
    ensures { IfOk result (λ sizes. sizes.items ≡ map content_bytes channels.now) }
{
    let mut sizes = Vec::new(alloc);
    for channel in channels {
        sizes.push(content_len(channel) as u32)?;
    }
    Ok(sizes)
}

/// The number of a port, of which those of the ports below stand before it.
pub(crate) fn number_of(widths: &[u8], port: usize, bytes: &[u8]) -> u128
    requires port { port < length widths.now }
    requires few { length widths.now ≤ 16 }
    requires small { All (λ w. w ≤ 128) widths.now }
    requires long { sum_by byte_count widths.now ≤ length bytes.now }
    ensures { result ≡ high_value (take (byte_count (slice_index widths.now port)) (drop (sum_by byte_count (take port widths.now)) bytes.now)) }
{
    let (_below, from) = bytes.split_at(numbers_len(&widths[..port]));
    let (number, _after) = from.split_at(byte_count(widths[port]));
    high_first(number)
}

/// Whether the end of the trace stands at the front of the bytes.
pub(crate) fn is_end(rest: &[u8], head: &Head, tally: &Tally) -> bool
    requires { (t : Trace) × (p : ℕ) × IsAt t p head.now.sizes.items rest.now (counted tally.now) }
    ensures { (t : Trace) (p : ℕ) → IsAt t p head.now.sizes.items rest.now (counted tally.now)
        → IsTrue result ↔ (length t.packets ≤ p) }
{
    rest[0] == 0
}

/// The bytes behind the packet at their front, whose head this is and which is counted. Its contents are passed over
/// unread.
pub(crate) fn skip<'a>(rest: &'a [u8], head: &Head, tally: &mut Tally) -> &'a [u8]
    requires at { (t : Trace) × (p : ℕ) × IsAt t p head.now.sizes.items rest.now (counted tally.old)
        × (p < length t.packets) }
    requires head { IsHead (length head.now.sizes.items) head.now.reset head.now.starts head.now.ends rest.now }
    ensures at { (t : Trace) (p : ℕ) → IsAt t p head.now.sizes.items rest.now (counted tally.old)
        → p < length t.packets
        → IsAt t (p + 1) head.now.sizes.items result.now (counted tally.new) }
    ensures behind { result.now ≡ drop head.now.len rest.now }
    ensures shorter { length result.now < length rest.now }
{
    tally.pass(head.reset, head.ends);
    let (_packet, after) = rest.split_at(head.len);
    after
}

/// The bytes from the next packet on that has an event of this kind on this channel, or the end where there is none. The head
/// becomes that packet's.
pub(crate) fn seek<'a>(
    rest: &'a [u8],
    head: &mut Head,
    tally: &mut Tally,
    kind: Kind,
    channel: usize,
) -> &'a [u8]
    requires { (t : Trace) × (p : ℕ) × IsAt t p head.old.sizes.items rest.now (counted tally.old) }
    ensures stands { (t : Trace) (p : ℕ)
        → IsAt t p head.old.sizes.items rest.now (counted tally.old)
        → StandsAt t kind channel (count kind channel (take p t.packets)) head.new.sizes.items result.now
        (counted tally.new) head.new.reset head.new.starts head.new.ends }
    ensures sizes { head.new.sizes.items ≡ head.old.sizes.items }
{
    let mut here = rest;
    'packets: while !is_end(here, head, tally) {
        head.turn_to(here);
        if head.has_event(kind, channel) {
            return here;
        }
        here = skip(here, head, tally);
    }
    here
}
