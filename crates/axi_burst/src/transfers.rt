//! The completed transactions of a trace, by the places of an AXI file.

ghost use Rattle.std.specs.Prelude.{◌≡◌, ◌<◌, ◌+◌, ◌^◌, ◌++◌, ◌∷◌, [], true, map, length, slice_index, All, OnOk, IfOk, if◌then◌else◌};
ghost use Rattle.std.specs.List.{zip};
ghost use Rattle.trace_model.specs.vidi_bits.Number.{has};
ghost use Rattle.trace_model.specs.Packet.{content_of, IsPacket};
ghost use Rattle.trace_model.specs.Recording.{recorded};
ghost use Rattle.axi_burst.specs.Passes.{AreAddressPorts};
ghost use Rattle.axi_burst.specs.Transfers.{FitsAddress, field, size_of, begun_address, begun_beat, address_to, beat_to, end_places, addresses, beats};

use crate::axi::AddressPorts;
use crate::content::content;
use std::alloc::Global;
use trace_model::vidi_bits::{Items, Memory};
use trace_model::{Channel, Packet, Trace, names};

/// An address: a burst of so many beats of so many bytes, and the code of its type (A3.4.1: 0 is fixed, 1 incrementing, 2 wrapping).
#[derive(Clone, Copy)]
pub struct Address {
    pub id: u128,
    pub addr: u128,
    pub beats: u32,
    pub size: u32,
    pub burst: u128,
    /// The packet in which it completes.
    pub at: usize,
}

/// A beat of data or a response.
#[derive(Clone, Copy)]
pub struct Beat {
    pub id: u128,
    pub last: bool,
    /// The packet in which it completes.
    pub at: usize,
}

/// The number at a place, or what `none` counts as.
fn field(default: u128, place: Option<usize>, content: &[u128]) -> u128
    ensures { result ≡ field default place content.now }
{
    match place {
        Some(place) => match content.get(place) {
            Some(number) => *number,
            None => 0,
        },
        None => default,
    }
}

/// The bytes of a beat.
fn size_of(beat: u32, place: Option<usize>, content: &[u128]) -> u32
    requires { field 0 place content.now < 8 }
    ensures { result ≡ size_of beat place content.now }
{
    match place {
        Some(_) => 1 << field(0, place, content),
        None => beat,
    }
}

/// The address that the content of a transaction says on a bus of so many bytes: one number for each port. Its packet counts as 0.
pub fn address_at(beat: u32, ports: &AddressPorts, content: &[u128]) -> Address
    requires { FitsAddress ports.now content.now }
    ensures { result ≡ begun_address beat ports.now content.now }
{
    Address {
        id: field(0, ports.id, content),
        addr: field(0, Some(ports.addr), content),
        beats: field(0, ports.len, content) as u32 + 1,
        size: size_of(beat, ports.size, content),
        burst: field(1, ports.burst, content),
        at: 0,
    }
}

/// The beat that a content says, in packet 0.
fn beat_at(id: Option<usize>, last: Option<usize>, content: &[u128]) -> Beat
    ensures { result ≡ begun_beat id last content.now }
{
    Beat {
        id: field(0, id, content),
        last: field(1, last, content) == 1,
        at: 0,
    }
}

/// Adds the address that begins in a packet, where one does.
fn push_address(
    asks: &mut Items<Address>,
    channels: &[Channel],
    packet: &Packet,
    beat: u32,
    ports: &AddressPorts,
) -> Result<(), Memory>
    requires within { ports.now.channel < length channels.now }
    requires fits { has packet.now.starts ports.now.channel ≡ true → FitsAddress ports.now (content_of channels.now packet.now ports.now.channel) }
    ensures { OnOk result (asks.new ≡ asks.old ++ (if has packet.now.starts ports.now.channel
        then begun_address beat ports.now (content_of channels.now packet.now ports.now.channel) ∷ [] else [])) }
{
    if names(packet.starts, ports.channel) {
        let content = content(channels, packet, ports.channel);
        asks.push(address_at(beat, ports, content))?;
    }
    Ok(())
}

/// The addresses that begin, in order.
fn begun_addresses(
    alloc: Global,
    channels: &[Channel],
    packets: &[Packet],
    beat: u32,
    ports: &AddressPorts,
) -> Result<Items<Address>, Memory>
    requires within { ports.now.channel < length channels.now }
    requires fits { All (λ p. has p.starts ports.now.channel ≡ true → FitsAddress ports.now (content_of channels.now p ports.now.channel)) packets.now }
    ensures { IfOk result (λ asks. asks ≡ map (begun_address beat ports.now) (recorded channels.now packets.now ports.now.channel)) }
{
    let mut asks = Items::new(alloc);
    for packet in packets {
        push_address(&mut asks, channels, packet, beat, ports)?;
    }
    Ok(asks)
}

/// Adds the beat that begins in a packet, where one does.
fn push_beat(
    beats: &mut Items<Beat>,
    channels: &[Channel],
    packet: &Packet,
    channel: usize,
    id: Option<usize>,
    last: Option<usize>,
) -> Result<(), Memory>
    requires within { channel < length channels.now }
    ensures { OnOk result (beats.new ≡ beats.old ++ (if has packet.now.starts channel
        then begun_beat id last (content_of channels.now packet.now channel) ∷ [] else [])) }
{
    if names(packet.starts, channel) {
        let content = content(channels, packet, channel);
        beats.push(beat_at(id, last, content))?;
    }
    Ok(())
}

/// The beats that begin, in order.
fn begun_beats(
    alloc: Global,
    channels: &[Channel],
    packets: &[Packet],
    channel: usize,
    id: Option<usize>,
    last: Option<usize>,
) -> Result<Items<Beat>, Memory>
    requires within { channel < length channels.now }
    ensures { IfOk result (λ beats. beats ≡ map (begun_beat id last) (recorded channels.now packets.now channel)) }
{
    let mut beats = Items::new(alloc);
    for packet in packets {
        push_beat(&mut beats, channels, packet, channel, id, last)?;
    }
    Ok(beats)
}

fn push_where(places: &mut Items<usize>, is_end: bool, at: usize) -> Result<(), Memory>
    ensures { OnOk result (places.new ≡ places.old ++ (if is_end then at ∷ [] else [])) }
{
    if is_end {
        places.push(at)?;
    }
    Ok(())
}

/// The packets in which a channel completes.
fn end_places(alloc: Global, packets: &[Packet], channel: usize) -> Result<Items<usize>, Memory>
    ensures { IfOk result (λ places. places ≡ end_places channel packets.now) }
{
    let mut places = Items::new(alloc);
    for (at, packet) in packets.iter().enumerate() {
        push_where(&mut places, names(packet.ends, channel), at)?;
    }
    Ok(places)
}

/// Those that complete, with the packets in which they do.
fn completed_addresses(
    alloc: Global,
    begun: &[Address],
    ends: &[usize],
) -> Result<Vec<Address>, Memory>
    ensures { IfOk result (λ asks. asks.items ≡ map address_to (zip begun.now ends.now)) }
{
    let asks = begun
        .iter()
        .zip(ends)
        .map(|(ask, at)| Address { at: *at, ..*ask })
        .collect(alloc)?;
    Ok(asks)
}

/// The completed addresses of a channel, in order.
pub(crate) fn addresses(
    alloc: Global,
    t: &Trace,
    beat: u32,
    ports: &AddressPorts,
) -> Result<Vec<Address>, Memory>
    requires ports { AreAddressPorts t.now.channels ports.now }
    requires packets { All (IsPacket t.now.channels) t.now.packets }
    ensures { IfOk result (λ asks. asks.items ≡ addresses beat ports.now t.now) }
{
    let channels = t.channels.as_slice();
    let packets = t.packets.as_slice();
    let begun = begun_addresses(alloc, channels, packets, beat, ports)?;
    let ends = end_places(alloc, packets, ports.channel)?;
    let asks = completed_addresses(alloc, begun.as_slice(), ends.as_slice())?;
    Ok(asks)
}

/// Those that complete, with the packets in which they do.
fn completed_beats(alloc: Global, begun: &[Beat], ends: &[usize]) -> Result<Vec<Beat>, Memory>
    ensures { IfOk result (λ found. found.items ≡ map beat_to (zip begun.now ends.now)) }
{
    let found = begun
        .iter()
        .zip(ends)
        .map(|(beat, at)| Beat { at: *at, ..*beat })
        .collect(alloc)?;
    Ok(found)
}

/// The completed beats of a channel, in order.
pub(crate) fn beats(
    alloc: Global,
    t: &Trace,
    channel: usize,
    id: Option<usize>,
    last: Option<usize>,
) -> Result<Vec<Beat>, Memory>
    requires within { channel < length t.now.channels }
    ensures { IfOk result (λ found. found.items ≡ beats id last t.now channel) }
{
    let channels = t.channels.as_slice();
    let packets = t.packets.as_slice();
    let begun = begun_beats(alloc, channels, packets, channel, id, last)?;
    let ends = end_places(alloc, packets, channel)?;
    let found = completed_beats(alloc, begun.as_slice(), ends.as_slice())?;
    Ok(found)
}
