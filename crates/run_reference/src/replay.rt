//! Replays of a block, cycle by cycle.

ghost use Rattle.std.specs.Prelude.{◌≡◌, ◌<◌, ◌≤◌, ◌^◌, ◌++◌, if◌then◌else◌, All, take, length, slice_get, IfOk, OnOk};
ghost use Rattle.run_model.specs.vidi_bits.Number.{has};
ghost use Rattle.run_model.specs.trace_model.Channel.{IsTable};
ghost use Rattle.run_model.specs.trace_model.Packet.{IsPacket, widths_of, widths_under};
ghost use Rattle.run_model.specs.trace_model.declared.event.Kind.TheVariants.{Start};
ghost use Rattle.run_model.specs.Building.{PortsAreNets, mask_of, joined};
ghost use Rattle.run_model.specs.MapOf.{IsMapOf};
ghost use Rattle.run_model.specs.Replay.{IsReplay};
ghost use Rattle.run_reference.specs.Feed.{covered_place, is_offered, content_in, feed};

use crate::pins::{first_place, port_count};
use crate::play::{reset, step};
use crate::row::{part, push_all};
use crate::waiting::{awaits, event, packet_place, shown};
use net_design::Block;
use run_model::chan_map::Map;
use run_model::trace_model::{
    Channel, Kind, Offers, Packet, Row, Rows, all_up, names, push_zeros, with_bit,
};
use run_model::vidi_bits::{Memory, Numbers};
use std::alloc::Global;

/// The place of the packet in which the next start, or completion, of channel `c` is recorded, where the completions in the rows cover
/// its clock.
fn covered_place(
    alloc: Global,
    channels: &[Channel],
    packets: &[Packet],
    rows: &[Row],
    kind: Kind,
    c: usize,
) -> Result<Option<usize>, Memory>
    requires packets { length packets.now < 2 ^ 32 }
    requires rows { length rows.now < 2 ^ 32 }
    ensures { IfOk result (λ place. place ≡ covered_place channels.now packets.now rows.now kind c) }
{
    let index = shown(rows, Kind::End, c);
    match packet_place(packets, event(c, kind, index)) {
        None => Ok(None),
        Some(place) => {
            let found = awaits(alloc, channels, packets, rows, place)?;
            Ok(if found.is_empty() { Some(place) } else { None })
        }
    }
}

/// Whether a replay offers channel `c` its next start, or completion.
fn is_offered(
    alloc: Global,
    channels: &[Channel],
    packets: &[Packet],
    rows: &[Row],
    kind: Kind,
    c: usize,
) -> Result<bool, Memory>
    requires packets { length packets.now < 2 ^ 32 }
    requires rows { length rows.now < 2 ^ 32 }
    ensures { IfOk result (λ up. up ≡ is_offered channels.now packets.now rows.now kind c) }
{
    let place = covered_place(alloc, channels, packets, rows, kind, c)?;
    Ok(place.is_some())
}

/// The channels that a replay offers their next start, or completion.
fn offered(
    alloc: Global,
    channels: &[Channel],
    packets: &[Packet],
    rows: &[Row],
    kind: Kind,
) -> Result<u128, Memory>
    requires packets { length packets.now < 2 ^ 32 }
    requires rows { length rows.now < 2 ^ 32 }
    requires few { length channels.now ≤ 128 }
    ensures { IfOk result (λ mask. mask ≡ mask_of (is_offered channels.now packets.now rows.now kind) (length channels.now)) }
{
    let mut mask = 0;
    for c in 0..channels.len() {
        let up = is_offered(alloc, channels, packets, rows, kind, c)?;
        mask = with_bit(mask, c, up);
    }
    Ok(mask)
}

/// How many numbers a packet has of channel `c`, which are none where it doesn't start.
fn ports_if(channels: &[Channel], starts: u128, c: usize) -> usize
    ensures { result ≡ (if has starts c then length (widths_of (slice_get channels.now c)) else 0) }
{
    if names(starts, c) {
        port_count(channels, c)
    } else {
        0
    }
}

/// How many numbers stand in a packet before those of channel `c`.
fn packet_first(channels: &[Channel], starts: u128, c: usize) -> usize
    requires table { IsTable channels.now }
    requires within { c ≤ length channels.now }
    ensures { result ≡ length (widths_under starts (take c channels.now)) }
{
    let mut first = 0;
    for i in 0..c {
        first += ports_if(channels, starts, i);
    }
    first
}

/// Adds the content that a packet records of channel `c`, 0 for each port where there is no place.
fn push_recorded(
    out: &mut Numbers,
    channels: &[Channel],
    packets: &[Packet],
    c: usize,
    place: Option<usize>,
) -> Result<(), Memory>
    requires table { IsTable channels.now }
    requires within { c < length channels.now }
    ensures { OnOk result (out.new ≡ out.old ++ content_in channels.now packets.now c place) }
{
    let len = port_count(channels, c);
    let Some(place) = place else {
        return push_zeros(out, len);
    };
    match packets.get(place) {
        None => push_zeros(out, len),
        Some(packet) => {
            let first = packet_first(channels, packet.starts, c);
            push_all(out, part(packet.contents.as_slice(), first, len))
        }
    }
}

/// The contents that a replay offers.
fn contents(
    alloc: Global,
    channels: &[Channel],
    packets: &[Packet],
    rows: &[Row],
) -> Result<Numbers, Memory>
    requires packets { length packets.now < 2 ^ 32 }
    requires rows { length rows.now < 2 ^ 32 }
    requires table { IsTable channels.now }
    ensures { IfOk result (λ xs. xs ≡ joined (λ c. content_in channels.now packets.now c
        (covered_place channels.now packets.now rows.now Start c)) 0 channels.now) }
{
    let mut out = Numbers::new(alloc);
    for c in 0..channels.len() {
        let place = covered_place(alloc, channels, packets, rows, Kind::Start, c)?;
        push_recorded(&mut out, channels, packets, c, place)?;
    }
    Ok(out)
}

/// What a replay of these packets offers after these rows.
pub(crate) fn feed(
    alloc: Global,
    channels: &[Channel],
    packets: &[Packet],
    rows: &[Row],
) -> Result<Offers, Memory>
    requires packets { length packets.now < 2 ^ 32 }
    requires rows { length rows.now < 2 ^ 32 }
    requires table { IsTable channels.now }
    ensures { IfOk result (λ offers. offers ≡ feed channels.now packets.now rows.now) }
{
    let contents = contents(alloc, channels, packets, rows)?;
    let valids = offered(alloc, channels, packets, rows, Kind::Start)?;
    let readies = offered(alloc, channels, packets, rows, Kind::End)?;
    Ok(Offers {
        valids,
        readies,
        contents,
    })
}

/// The first rows of the block's replay of these packets, as many as cycles. The block is of the map's design.
pub fn replay_rows<B: Block>(
    alloc: Global,
    block: &mut B,
    map: &Map,
    packets: &[Packet],
    cycles: u32,
) -> Result<Rows, Memory>
    requires mapped { IsMapOf (B.design block.old) map.now }
    requires nets { PortsAreNets (B.design block.old) }
    requires packets { All (IsPacket map.now.channels) packets.now }
    requires few { length packets.now < 2 ^ 32 }
    ensures replay { IfOk result (λ rows. IsReplay (B.design block.old) map.now packets.now rows) }
    ensures count { IfOk result (λ rows. length rows ≡ cycles) }
    ensures design { B.design block.new ≡ B.design block.old }
{
    reset(alloc, block, map)?;
    let channels = map.channels.as_slice();
    let gates = all_up(channels.len());
    let mut rows = Rows::new(alloc);
    for _t in 0..cycles {
        let offers = feed(alloc, channels, packets, rows.as_slice())?;
        let row = step(alloc, block, map, rows.as_slice(), &offers, gates)?;
        rows.push(row)?;
    }
    Ok(rows)
}
