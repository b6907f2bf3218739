//! The lines of a replay that is short.

ghost use Rattle.std.specs.Prelude.{◌≡◌, ◌++◌, OnOk, IfOk};
ghost use Rattle.std.specs.List.{flat_map};
ghost use Rattle.report_text.specs.Short as said;

use crate::report::{name_of, put_epoch};
use crate::text::{put, put_number};
use run_model::trace_model::{Channel, Channels, Event, Events, Kind};
use run_model::{Await, Held, Helds};
use std::alloc::Global;
use text_page::vidi_io::vidi_bits::{Bytes, Memory};

/// The lines of a replay that is short after so many cycles: what it holds back with what that awaits, and what it waits for.
pub fn short_lines(
    alloc: Global,
    helds: &Helds,
    waits: &Events,
    cycles: u32,
    channels: &Channels,
) -> Result<Bytes, Memory>
    ensures { IfOk result (λ text. text ≡ said.short_lines helds.now waits.now cycles channels.now) }
{
    let mut text = Vec::new(alloc);
    put(&mut text, b"short after ")?;
    put_number(&mut text, cycles)?;
    put(&mut text, b" cycles")?;
    put(&mut text, b"\n")?;
    put_epoch(
        &mut text,
        0,
        listed_epoch(helds.as_slice(), waits.as_slice()),
    )?;
    put_helds(&mut text, helds.as_slice(), channels.as_slice())?;
    put_waits(&mut text, waits.as_slice(), channels.as_slice())?;
    Ok(Bytes::from_vec(text))
}

/// The epoch of the events that are listed, that of the first one.
fn listed_epoch(helds: &[Held], waits: &[Event]) -> u32
    ensures { result ≡ said.listed_epoch helds.now waits.now }
{
    match (helds.first(), waits.first()) {
        (Some(held), _) => held.event.epoch,
        (None, Some(event)) => event.epoch,
        (None, None) => 0,
    }
}

/// Adds the lines of all that is held back.
fn put_helds(text: &mut Vec<u8>, helds: &[Held], channels: &[Channel]) -> Result<(), Memory>
    ensures { OnOk result (text.new.items ≡ text.old.items ++ flat_map (said.held_lines channels.now) helds.now) }
{
    for held in helds {
        put_held(text, held, channels)?;
    }
    Ok(())
}

/// Adds the line of an event that is held back, and those of what it awaits.
fn put_held(text: &mut Vec<u8>, held: &Held, channels: &[Channel]) -> Result<(), Memory>
    ensures { OnOk result (text.new.items ≡ text.old.items ++ said.held_lines channels.now held.now) }
{
    put(text, b"held ")?;
    put_event(text, held.event, channels)?;
    put_awaits(text, held.awaits.as_slice(), channels)
}

/// Adds a line for each channel that is awaited.
fn put_awaits(text: &mut Vec<u8>, awaits: &[Await], channels: &[Channel]) -> Result<(), Memory>
    ensures { OnOk result (text.new.items ≡ text.old.items ++ flat_map (said.await_line channels.now) awaits.now) }
{
    for awaited in awaits {
        put_await(text, *awaited, channels)?;
    }
    Ok(())
}

fn put_await(text: &mut Vec<u8>, awaited: Await, channels: &[Channel]) -> Result<(), Memory>
    ensures { OnOk result (text.new.items ≡ text.old.items ++ said.await_line channels.now awaited) }
{
    put(text, b"awaits ")?;
    put(text, name_of(channels, awaited.channel))?;
    put(text, b" have ")?;
    put_number(text, awaited.have)?;
    put(text, b" need ")?;
    put_number(text, awaited.need)?;
    put(text, b"\n")
}

/// Adds a line for each event that is waited for.
fn put_waits(text: &mut Vec<u8>, waits: &[Event], channels: &[Channel]) -> Result<(), Memory>
    ensures { OnOk result (text.new.items ≡ text.old.items ++ flat_map (said.wait_line channels.now) waits.now) }
{
    for event in waits {
        put_wait(text, *event, channels)?;
    }
    Ok(())
}

fn put_wait(text: &mut Vec<u8>, event: Event, channels: &[Channel]) -> Result<(), Memory>
    ensures { OnOk result (text.new.items ≡ text.old.items ++ said.wait_line channels.now event) }
{
    put(text, b"waits ")?;
    put_event(text, event, channels)
}

/// Adds an event, and the end of its line.
fn put_event(text: &mut Vec<u8>, event: Event, channels: &[Channel]) -> Result<(), Memory>
    ensures { OnOk result (text.new.items ≡ text.old.items ++ said.event_line channels.now event) }
{
    put(text, source(channels, event.channel, event.kind))?;
    put(text, kind_text(event.kind))?;
    put_number(text, event.index)?;
    put(text, b"\n")
}

fn kind_text(kind: Kind) -> &'static [u8]
    ensures { result.now ≡ said.kind_text kind }
{
    match kind {
        Kind::Start => b" start ",
        Kind::End => b" end ",
        Kind::Reset => b"reset ",
    }
}

/// The name of an event's channel, which a reset hasn't.
fn source(channels: &[Channel], channel: usize, kind: Kind) -> &[u8]
    ensures { result.now ≡ said.source channels.now channel kind }
{
    match kind {
        Kind::Start | Kind::End => name_of(channels, channel),
        Kind::Reset => &[],
    }
}
