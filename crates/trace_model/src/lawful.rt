//! Tests of packets, traces and rows against their rules.

ghost use Rattle.std.specs.Prelude.{◌≡◌, ◌<◌, ◌^◌, ◌↔◌, IsTrue, length, All};
ghost use Rattle.trace_model.specs.Packet.{IsPacket};
ghost use Rattle.trace_model.specs.Row.{IsOver};
ghost use Rattle.trace_model.specs.Trace.{AlternateThroughout, IsWellFormed};

use crate::channel::Channels;
use crate::contents::{all_contents_fit, contents_fit, fits};
use crate::flight::in_flight_behind;
use crate::packet::{GAP_LIMIT, Packet};
use crate::row::Row;
use crate::trace::Trace;

/// Whether both masks of a packet name none but the first `channels` channels.
fn fits_masks(p: &Packet, channels: usize) -> bool
    ensures { IsTrue result ↔ (p.now.starts < 2 ^ channels) × (p.now.ends < 2 ^ channels) }
{
    fits(p.starts, channels) && fits(p.ends, channels)
}

/// Whether a packet is one over these channels: a reset has no event and every other one has, its masks name channels of the
/// table, and it has one number for each port of the channels that start, which fits its width.
fn is_packet(p: &Packet, channels: &Channels) -> bool
    ensures { IsTrue result ↔ IsPacket channels.now p.now }
{
    if p.gap >= GAP_LIMIT || p.reset != (p.starts == 0 && p.ends == 0) {
        return false;
    }
    if !fits_masks(p, channels.len()) {
        return false;
    }
    contents_fit(channels.as_slice(), p.starts, p.contents.as_slice())
}

/// Whether each packet is one over these channels, and in each epoch on each channel starts and ends alternate,
/// beginning with a start, where in one packet the start comes first.
fn are_lawful(packets: &[Packet], channels: &Channels) -> bool
    ensures { IsTrue result ↔ All (IsPacket channels.now) packets.now × AlternateThroughout packets.now }
{
    let mut flying = 0;
    for p in packets {
        if !is_packet(p, channels) {
            return false;
        }
        let Some(after) = in_flight_behind(flying, p.reset, p.starts, p.ends) else {
            return false;
        };
        flying = after;
    }
    true
}

/// Whether a trace is well-formed: its packets are lawful over its channels, and in each epoch the starts and
/// ends of each channel alternate.
#[tactic(auto, using(crate::proofs::EpochLemmas::epochs_alternate, crate::proofs::EpochLemmas::throughout_from))]
pub fn well_formed(t: &Trace) -> bool
    ensures { IsTrue result ↔ IsWellFormed t.now }
{
    are_lawful(t.packets.as_slice(), &t.channels)
}

/// Whether a row is one over these channels: its masks name channels of the table, and it has one
/// number for each of their ports, which fits its width.
pub fn is_over(row: &Row, channels: &Channels) -> bool
    ensures { IsTrue result ↔ IsOver channels.now row.now }
{
    let count = channels.len();
    fits(row.gates, count)
        && fits(row.valids, count)
        && fits(row.readies, count)
        && fits(row.starts, count)
        && fits(row.ends, count)
        && all_contents_fit(channels.as_slice(), row.contents.as_slice())
}
