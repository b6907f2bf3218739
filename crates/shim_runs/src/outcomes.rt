//! How replays end, as text.

use report_text::{put, put_number};
use shim_cosim::replay_run::ReplayOutcome;
use shim_cosim::run_model::{Await, Held};
use shim_cosim::trace_model::{Event, Kind};
use vlog_parse::vidi_bits::Memory;

/// `ended CYCLES `, `unstable CHANNEL CYCLE `, or `short ` with what is held back, with what it awaits, and what is waited for
pub(crate) fn put_outcome(text: &mut Vec<u8>, outcome: &ReplayOutcome) -> Result<(), Memory> {
    match outcome {
        ReplayOutcome::Ended { cycles } => {
            put(text, b"ended ")?;
            put_spaced(text, *cycles)
        }
        ReplayOutcome::Short { held, waits } => {
            put(text, b"short ")?;
            put_helds(text, held.as_slice())?;
            put_waits(text, waits.as_slice())
        }
        ReplayOutcome::Unstable { channel, cycle } => {
            put(text, b"unstable ")?;
            put_number(text, *channel)?;
            put(text, b" ")?;
            put_spaced(text, *cycle)
        }
    }
}

/// Adds a number with a space behind it.
fn put_spaced(text: &mut Vec<u8>, n: u32) -> Result<(), Memory> {
    put_number(text, n)?;
    put(text, b" ")
}

fn put_helds(text: &mut Vec<u8>, helds: &[Held]) -> Result<(), Memory> {
    for held in helds {
        put(text, b"held ")?;
        put_event(text, held.event)?;
        put_awaits(text, held.awaits.as_slice())?;
    }
    Ok(())
}

/// `awaits CHANNEL HAVE NEED ` each
fn put_awaits(text: &mut Vec<u8>, awaits: &[Await]) -> Result<(), Memory> {
    for awaited in awaits {
        put(text, b"awaits ")?;
        put_number(text, awaited.channel)?;
        put(text, b" ")?;
        put_spaced(text, awaited.have)?;
        put_spaced(text, awaited.need)?;
    }
    Ok(())
}

fn put_waits(text: &mut Vec<u8>, waits: &[Event]) -> Result<(), Memory> {
    for event in waits {
        put(text, b"waits ")?;
        put_event(text, *event)?;
    }
    Ok(())
}

/// `CHANNEL start INDEX `, `CHANNEL end INDEX ` or, on channel 0, `0 reset INDEX `
fn put_event(text: &mut Vec<u8>, event: Event) -> Result<(), Memory> {
    put_number(text, event.channel)?;
    match event.kind {
        Kind::Start => put(text, b" start ")?,
        Kind::End => put(text, b" end ")?,
        Kind::Reset => put(text, b" reset ")?,
    }
    put_spaced(text, event.index)
}
