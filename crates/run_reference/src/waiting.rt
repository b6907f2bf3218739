//! What a replay holds back, and what it waits for.

ghost use Rattle.std.specs.Prelude.{◌≡◌, ◌+◌, ◌<◌, ◌^◌, ◌++◌, ◌∷◌, [], ℕ, if◌then◌else◌, List, length, slice_get, IfOk, OnOk, IsTrue};
ghost use Rattle.std.specs.List.{enumerate_from, flat_map};
ghost use Rattle.std.specs.Option.{option_to_list};
ghost use Rattle.run_model.specs.trace_model.Clock.{clock};
ghost use Rattle.run_model.specs.trace_model.Packet.{does};
ghost use Rattle.run_model.specs.trace_model.Recording.{row_does, shown};
ghost use Rattle.run_model.specs.Held.{await_on, awaits, controlled, event, held, held_event, held_if, is_held, next_event, packet_place};
ghost use Rattle.run_model.specs.Held.{places_from, recorded_next, same_event, waits};
ghost use Rattle.run_model.specs.Replay.{done};
ghost use Rattle.run_reference.specs.Feed.{is_waiting};

use crate::row::flies;
use run_model::trace_model::{Channel, Dir, Event, Events, Kind, Packet, Row, names};
use run_model::vidi_bits::Memory;
use run_model::{Await, Awaits, Held, Helds};
use std::alloc::Global;

/// Whether a packet has an event of this kind on channel `c`.
fn does(packet: &Packet, kind: Kind, c: usize) -> bool
    ensures { result ≡ does kind c packet.now }
{
    match kind {
        Kind::Start => names(packet.starts, c),
        Kind::End => names(packet.ends, c),
        Kind::Reset => packet.reset,
    }
}

/// Whether a row has one.
fn row_does(row: &Row, kind: Kind, c: usize) -> bool
    ensures { result ≡ row_does kind c row.now }
{
    match kind {
        Kind::Start => names(row.starts, c),
        Kind::End => names(row.ends, c),
        Kind::Reset => false,
    }
}

/// An event of epoch 0.
pub(crate) fn event(channel: usize, kind: Kind, index: u32) -> Event
    ensures { result ≡ event channel kind index }
{
    Event {
        channel,
        kind,
        index,
        epoch: 0,
    }
}

fn one_if(holds: bool) -> u32
    ensures { result ≡ (if holds then 1 else 0) }
{
    if holds { 1 } else { 0 }
}

/// How many of the rows have an event of this kind on channel `c`.
pub(crate) fn shown(rows: &[Row], kind: Kind, c: usize) -> u32
    requires { length rows.now < 2 ^ 32 }
    ensures { result ≡ shown kind c rows.now }
{
    let mut count = 0;
    for row in rows {
        count += one_if(row_does(row, kind, c));
    }
    count
}

/// How many completions of channel `c` stand in the packets before this place.
fn clock(packets: &[Packet], place: usize, c: usize) -> u32
    requires few { length packets.now < 2 ^ 32 }
    requires within { place < length packets.now }
    ensures { result ≡ clock packets.now place c }
{
    let mut count = 0;
    for packet in &packets[..place] {
        count += one_if(does(packet, Kind::End, c));
    }
    count
}

/// The place of the packet in which an event is recorded.
pub(crate) fn packet_place(packets: &[Packet], event: Event) -> Option<usize>
    ensures { result ≡ packet_place packets.now event }
{
    let mut left = event.index;
    for (place, packet) in packets.iter().enumerate() {
        if does(packet, event.kind, event.channel) {
            if left == 0 {
                return Some(place);
            }
            left -= 1;
        }
    }
    None
}

/// Adds channel `c` where it has fewer completions than needed.
fn push_await(out: &mut Awaits, c: usize, have: u32, need: u32) -> Result<(), Memory>
    ensures { OnOk result (out.new ≡ out.old ++ await_on (λ d. have) (λ d. need) c) }
{
    if have < need {
        out.push(Await {
            channel: c,
            have,
            need,
        })?;
    }
    Ok(())
}

/// What an event in the packet at this place awaits: each channel with fewer completions in the rows than its clock asks for.
pub(crate) fn awaits(
    alloc: Global,
    channels: &[Channel],
    packets: &[Packet],
    rows: &[Row],
    place: usize,
) -> Result<Awaits, Memory>
    requires packets { length packets.now < 2 ^ 32 }
    requires rows { length rows.now < 2 ^ 32 }
    requires within { place < length packets.now }
    ensures { IfOk result (λ found. found ≡ awaits channels.now (done rows.now) (clock packets.now place)) }
{
    let mut out = Awaits::new(alloc);
    for (c, _channel) in channels.iter().enumerate() {
        let have = shown(rows, Kind::End, c);
        let need = clock(packets, place, c);
        push_await(&mut out, c, have, need)?;
    }
    Ok(out)
}

/// The next event of channel `c` that the replayers control, where there is one: a start of an idle inward channel, a completion of
/// an outward one.
fn controlled(rows: &[Row], c: usize, dir: Dir) -> Option<Event>
    requires { length rows.now < 2 ^ 32 }
    ensures { option_to_list result ≡ controlled rows.now c dir }
{
    match dir {
        Dir::Inward => {
            if flies(rows, c) {
                None
            } else {
                Some(event(c, Kind::Start, shown(rows, Kind::Start, c)))
            }
        }
        Dir::Outward => Some(event(c, Kind::End, shown(rows, Kind::End, c))),
    }
}

/// Adds an event with what it awaits, if it awaits anything.
fn push_held_if(out: &mut Helds, event: Event, awaits: Awaits) -> Result<(), Memory>
    ensures { OnOk result (out.new ≡ out.old ++ held_if event awaits) }
{
    if !awaits.is_empty() {
        out.push(Held { event, awaits })?;
    }
    Ok(())
}

/// Adds an event where it is recorded and held back.
fn push_held(
    alloc: Global,
    out: &mut Helds,
    channels: &[Channel],
    packets: &[Packet],
    rows: &[Row],
    event: Event,
) -> Result<(), Memory>
    requires packets { length packets.now < 2 ^ 32 }
    requires rows { length rows.now < 2 ^ 32 }
    ensures { OnOk result (out.new ≡ out.old ++ held_event channels.now packets.now rows.now event) }
{
    match packet_place(packets, event) {
        None => Ok(()),
        Some(place) => {
            let found = awaits(alloc, channels, packets, rows, place)?;
            push_held_if(out, event, found)
        }
    }
}

/// Adds what is held back of channel `c`.
fn push_controlled(
    alloc: Global,
    out: &mut Helds,
    channels: &[Channel],
    packets: &[Packet],
    rows: &[Row],
    c: usize,
    dir: Dir,
) -> Result<(), Memory>
    requires packets { length packets.now < 2 ^ 32 }
    requires rows { length rows.now < 2 ^ 32 }
    ensures { OnOk result (out.new ≡ out.old ++ flat_map (held_event channels.now packets.now rows.now) (controlled rows.now c dir)) }
{
    match controlled(rows, c, dir) {
        None => Ok(()),
        Some(event) => push_held(alloc, out, channels, packets, rows, event),
    }
}

/// What a replay of these packets holds back after these rows: in channel order, each next event that the replayers control, where it
/// is recorded and its clock isn't covered, with everything that it awaits.
pub fn held(
    alloc: Global,
    channels: &[Channel],
    packets: &[Packet],
    rows: &[Row],
) -> Result<Helds, Memory>
    requires packets { length packets.now < 2 ^ 32 }
    requires rows { length rows.now < 2 ^ 32 }
    ensures { IfOk result (λ helds. helds ≡ held channels.now packets.now rows.now) }
{
    let mut out = Helds::new(alloc);
    for (c, channel) in channels.iter().enumerate() {
        push_controlled(alloc, &mut out, channels, packets, rows, c, channel.dir)?;
    }
    Ok(out)
}

/// The next event of channel `c`: a start while it is idle, else the completion.
fn next_event(rows: &[Row], c: usize) -> Event
    requires { length rows.now < 2 ^ 32 }
    ensures { result ≡ next_event rows.now c }
{
    let kind = if flies(rows, c) {
        Kind::End
    } else {
        Kind::Start
    };
    event(c, kind, shown(rows, kind, c))
}

fn same_event(a: Event, b: Event) -> bool
    ensures { result ≡ same_event a b }
{
    a.epoch == b.epoch && a.channel == b.channel && a.kind == b.kind && a.index == b.index
}

/// Whether an event is one of those held back.
fn is_held(helds: &[Held], event: Event) -> bool
    ensures { result ≡ is_held helds.now event }
{
    for held in helds {
        if same_event(held.event, event) {
            return true;
        }
    }
    false
}

/// Adds the next event of channel `c`, where it is recorded and isn't held back.
fn push_wait(
    out: &mut Events,
    helds: &[Held],
    packets: &[Packet],
    event: Event,
) -> Result<(), Memory>
    ensures { OnOk result (out.new ≡ out.old ++ (if is_waiting helds.now packets.now event then event ∷ [] else [])) }
{
    if packet_place(packets, event).is_some() && !is_held(helds, event) {
        out.push(event)?;
    }
    Ok(())
}

/// What a replay of these packets waits for after these rows: in channel order, each channel's next recorded event that isn't held
/// back.
pub fn waits(
    alloc: Global,
    channels: &[Channel],
    packets: &[Packet],
    rows: &[Row],
) -> Result<Events, Memory>
    requires packets { length packets.now < 2 ^ 32 }
    requires rows { length rows.now < 2 ^ 32 }
    ensures { IfOk result (λ events. events ≡ waits channels.now packets.now rows.now) }
{
    let helds = held(alloc, channels, packets, rows)?;
    let mut out = Events::new(alloc);
    for (c, _channel) in channels.iter().enumerate() {
        push_wait(&mut out, helds.as_slice(), packets, next_event(rows, c))?;
    }
    Ok(out)
}
