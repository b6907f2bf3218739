//! Replays of traces with a reset: known ones, and drawn ones against the definitions' rows of each of two epochs.

ghost use Rattle.std.specs.Prelude.{◌≤◌};
ghost use Rattle.replay_run.specs.trace_code.Encoding.{HasEncoding};
ghost use Rattle.run_reference.specs.trace_model.declared.packet.TheConstants.{MOST_CYCLES};

use crate::agreeing::{
    Stop, answer_from, decoded, is_out, recorded, rows_of, shown, stop_of, trace_with,
};
use crate::traces::{drawn_epochs, drawn_trace, trace_of};
use replay_run::ReplayOutcome;
use run_reference::run_model::{Await, Awaits, Held};
use run_reference::trace_model::{Dir, Event, Kind, Row, Rows, Trace};
use run_reference::{held, waits};
use sample_designs::Sample;
use std::alloc::Global;

/// Whether an event of this epoch is that one of the first epoch.
fn is_moved(event: Event, first: Event, epoch: u32) -> bool {
    event.channel == first.channel
        && event.kind == first.kind
        && event.index == first.index
        && event.epoch == epoch
}

/// Whether these events of an epoch are those of the first epoch.
fn are_moved(events: &[Event], first: &[Event], epoch: u32) -> bool {
    let mut same = events.len() == first.len();
    for (event, one) in events.iter().zip(first) {
        same &= is_moved(*event, *one, epoch);
    }
    same
}

fn are_helds_moved(helds: &[Held], first: &[Held], epoch: u32) -> bool {
    let mut same = helds.len() == first.len();
    for (held, one) in helds.iter().zip(first) {
        same &= is_moved(held.event, one.event, epoch)
            && held.awaits.as_slice() == one.awaits.as_slice();
    }
    same
}

/// What the reset behind an epoch awaits after these rows.
fn awaited(alloc: Global, trace: &Trace, rows: &[Row]) -> Option<Awaits> {
    let mut awaits = Awaits::new(alloc);
    for c in 0..trace.channels.len() {
        let (_, need) = recorded(trace.packets.as_slice(), c);
        let (_, have) = shown(rows, c);
        if have < need {
            let awaited = Await {
                channel: c,
                have,
                need,
            };
            awaits.push(awaited).ok()?;
        }
    }
    Some(awaits)
}

/// Whether this is the first reset.
fn is_first_reset(event: Event) -> bool {
    event.kind == Kind::Reset && event.channel == 0 && event.index == 0 && event.epoch == 0
}

/// Whether these are the lists of the first epoch, with the reset behind it.
fn are_first_lists(
    alloc: Global,
    trace: &Trace,
    rows: &[Row],
    helds: &[Held],
    events: &[Event],
) -> Option<bool>
    requires { HasEncoding trace.now }
{
    let _count = u32::try_from(rows.len()).ok()?;
    let channels = trace.channels.as_slice();
    let packets = trace.packets.as_slice();
    let due = held(alloc, channels, packets, rows).ok()?;
    let due_events = waits(alloc, channels, packets, rows).ok()?;
    let awaits = awaited(alloc, trace, rows)?;
    if awaits.is_empty() {
        let Some((last, before)) = events.split_last() else {
            return Some(false);
        };
        let same = are_helds_moved(helds, due.as_slice(), 0)
            && are_moved(before, due_events.as_slice(), 0);
        return Some(same && is_first_reset(*last));
    }
    let Some((last, before)) = helds.split_last() else {
        return Some(false);
    };
    let same = are_helds_moved(before, due.as_slice(), 0)
        && are_moved(events, due_events.as_slice(), 0);
    Some(same && is_first_reset(last.event) && last.awaits.as_slice() == awaits.as_slice())
}

/// Whether these are the lists of the second epoch, which is the last.
fn are_last_lists(
    alloc: Global,
    trace: &Trace,
    rows: &[Row],
    helds: &[Held],
    events: &[Event],
) -> Option<bool>
    requires { HasEncoding trace.now }
{
    let _count = u32::try_from(rows.len()).ok()?;
    let channels = trace.channels.as_slice();
    let packets = trace.packets.as_slice();
    let due = held(alloc, channels, packets, rows).ok()?;
    let due_events = waits(alloc, channels, packets, rows).ok()?;
    Some(are_helds_moved(helds, due.as_slice(), 1) && are_moved(events, due_events.as_slice(), 1))
}

/// Whether the rows show all that comes of channel `c` before the reset behind the epoch.
fn is_done_on(trace: &Trace, rows: &[Row], c: usize, dir: Dir) -> bool {
    let (starts, ends) = recorded(trace.packets.as_slice(), c);
    let (shown_starts, shown_ends) = shown(rows, c);
    match dir {
        Dir::Inward => starts <= shown_starts && ends <= shown_ends,
        Dir::Outward => ends <= shown_ends,
    }
}

fn is_done(trace: &Trace, rows: &[Row]) -> bool {
    let mut done = true;
    for (c, channel) in trace.channels.as_slice().iter().enumerate() {
        done &= is_done_on(trace, rows, c, channel.dir);
    }
    done
}

/// Behind how many of these rows the reset comes.
fn turn_of(trace: &Trace, rows: &[Row]) -> Option<usize> {
    for before in 0..rows.len() {
        if is_done(trace, &rows[..before + 1]) {
            return Some(before + 1);
        }
    }
    None
}

/// The rows of both epochs, one after the other: so many of the first ones, and the second ones, of which the first is fresh.
fn joined(first: Rows, len: usize, second: Rows) -> Option<Rows> {
    let mut rows = first.into_vec();
    rows.truncate(len);
    let mut fresh = true;
    for row in second.into_vec() {
        let mut row = row;
        row.fresh = fresh;
        fresh = false;
        rows.push(row).ok()?;
    }
    Some(Rows::from_vec(rows))
}

/// The replay has ended as by the definitions.
const ENDED: u8 = 1;
/// It is short in the second epoch.
const SHORT: u8 = 2;
/// It is short in the first.
const BEFORE: u8 = 4;
/// It isn't as by the definitions, or ends otherwise.
const OTHER: u8 = 8;

fn kind_if(holds: bool, kind: u8) -> u8 {
    if holds { kind } else { OTHER }
}

/// How a replay that shows these rows of the first epoch ends, in which no reset comes.
fn kind_in_first(
    alloc: Global,
    sample: Sample,
    first: &Trace,
    bytes: &[u8],
    cycles: u32,
    rows: &[Row],
) -> Option<u8>
    requires first { HasEncoding first.now }
    requires few { cycles ≤ MOST_CYCLES }
{
    let trace = decoded(alloc, bytes)?;
    let seen = answer_from(alloc, sample, &trace, bytes, cycles, rows)?;
    let ReplayOutcome::Short { held, waits } = &seen.answer.outcome else {
        return Some(OTHER);
    };
    let lists = are_first_lists(alloc, first, rows, held.as_slice(), waits.as_slice())?;
    let out = is_out(alloc, &trace, rows, seen.answer.out.as_slice())?;
    Some(kind_if(seen.agrees && lists && out, BEFORE))
}

/// Whether a replay that shows these rows of the second epoch, behind so many of the first, ends as by the definitions, and how.
fn kind_behind(
    alloc: Global,
    second: &Trace,
    here: &[Row],
    before: usize,
    outcome: &ReplayOutcome,
) -> Option<u8>
    requires second { HasEncoding second.now }
{
    match (stop_of(second, here), outcome) {
        (Stop::Ended { len }, ReplayOutcome::Ended { cycles }) => {
            // There is a row behind the reset, also where nothing is recorded there.
            let rows = if len == 0 { 1 } else { len };
            Some(kind_if(*cycles as usize == before.wrapping_add(rows), ENDED))
        }
        (Stop::Short { .. }, ReplayOutcome::Short { held, waits }) => {
            let lists = are_last_lists(alloc, second, here, held.as_slice(), waits.as_slice())?;
            Some(kind_if(lists, SHORT))
        }
        _ => Some(OTHER),
    }
}

/// The first rows, as many as the replay has cycles where it has ended.
fn played<'a>(rows: &'a [Row], outcome: &ReplayOutcome) -> &'a [Row] {
    match outcome {
        ReplayOutcome::Ended { cycles } => rows.get(..*cycles as usize).unwrap_or(rows),
        _ => rows,
    }
}

/// How a replay with these rows ends, of which the first `before` are of the first epoch.
fn kind_in_second(
    alloc: Global,
    sample: Sample,
    second: &Trace,
    bytes: &[u8],
    cycles: u32,
    rows: &[Row],
    before: usize,
) -> Option<u8>
    requires second { HasEncoding second.now }
    requires few { cycles ≤ MOST_CYCLES }
{
    let here = rows.get(before..)?;
    let trace = decoded(alloc, bytes)?;
    let seen = answer_from(alloc, sample, &trace, bytes, cycles, rows)?;
    let kind = kind_behind(alloc, second, here, before, &seen.answer.outcome)?;
    let shown = played(rows, &seen.answer.outcome);
    let out = is_out(alloc, &trace, shown, seen.answer.out.as_slice())?;
    Some(kind_if(seen.agrees && out, kind))
}

/// How the replay of both epochs ends, whose trace has these bytes.
fn kind_of(
    alloc: Global,
    sample: Sample,
    first: &Trace,
    second: &Trace,
    bytes: &[u8],
    cycles: u32,
) -> Option<u8>
    requires first { HasEncoding first.now }
    requires second { HasEncoding second.now }
    requires few { cycles ≤ MOST_CYCLES }
{
    let rows = rows_of(alloc, sample, first, cycles)?;
    let Some(before) = turn_of(first, rows.as_slice()) else {
        return kind_in_first(alloc, sample, first, bytes, cycles, rows.as_slice());
    };
    let left = cycles.saturating_sub(u32::try_from(before).ok()?);
    if left == 0 {
        return kind_in_first(alloc, sample, first, bytes, cycles, rows.as_slice());
    }
    let behind = rows_of(alloc, sample, second, left)?;
    let all = joined(rows, before, behind)?;
    kind_in_second(alloc, sample, second, bytes, cycles, all.as_slice(), before)
}

/// `a` starts and completes with 5; behind a reset with 6, and then `b`.
const BETWEEN: &[u8] =
    b"\x01\x00\x00\x01\x01\x05\x02\x00\x00\x01\x00\x00\x01\x01\x06\x01\x00\x00\x02\x02\x06\x00\x00\x00\x00\x04";

/// The same, where `b` and the second start of `a` are in flight at the reset.
const ABORTED: &[u8] =
    b"\x01\x00\x00\x01\x01\x05\x01\x00\x00\x03\x00\x06\x05\x02\x00\x00\x01\x00\x00\x01\x01\x06\x01\x00\x00\x02\x02\x06\x00\x00\x00\x00\x05";

/// The first epochs of these, and their second.
const FIRST: &[u8] = b"\x01\x00\x00\x01\x01\x05\x00\x00\x00\x00\x01";

const IN_FLIGHT: &[u8] =
    b"\x01\x00\x00\x01\x01\x05\x01\x00\x00\x03\x00\x06\x05\x00\x00\x00\x00\x02";

const SECOND: &[u8] = b"\x01\x00\x00\x01\x01\x06\x01\x00\x00\x02\x02\x06\x00\x00\x00\x00\x02";

/// How the replay of these packets ends, which are those of two epochs.
fn kind_known(alloc: Global, packets: &[u8], first: &[u8], cycles: u32) -> Option<u8>
    requires { cycles ≤ MOST_CYCLES }
{
    let bytes = trace_of(alloc, Sample::Pass, packets)?;
    let first = trace_with(alloc, Sample::Pass, first)?;
    let second = trace_with(alloc, Sample::Pass, SECOND)?;
    kind_of(
        alloc,
        Sample::Pass,
        &first,
        &second,
        bytes.as_slice(),
        cycles,
    )
}

#[test]
fn known_resets_are_replayed(rt: HostRuntime) {
    assert!(rt; kind_known(rt.alloc(), BETWEEN, FIRST, 3) == Some(ENDED));
    assert!(rt; kind_known(rt.alloc(), ABORTED, IN_FLIGHT, 4) == Some(ENDED));
}

// After one cycle the reset is waited for, after two the start of `b` behind it.
#[test]
fn short_at_a_reset(rt: HostRuntime) {
    assert!(rt; kind_known(rt.alloc(), BETWEEN, FIRST, 1) == Some(BEFORE));
    assert!(rt; kind_known(rt.alloc(), BETWEEN, FIRST, 2) == Some(SHORT));
}

fn kind_drawn(alloc: Global, sample: Sample, number: u64) -> Option<u8> {
    let other = number.wrapping_mul(7).wrapping_add(3);
    let bytes = drawn_epochs(alloc, sample, number, other)?;
    let first = decoded(alloc, drawn_trace(alloc, sample, number)?.as_slice())?;
    let second = decoded(alloc, drawn_trace(alloc, sample, other)?.as_slice())?;
    kind_of(alloc, sample, &first, &second, bytes.as_slice(), 30)
}

/// How the replays of so many drawn traces end, together.
fn kinds(alloc: Global, sample: Sample, traces: u64) -> Option<u8> {
    let mut kinds = 0;
    for number in 0..traces {
        kinds |= kind_drawn(alloc, sample, number)?;
    }
    Some(kinds)
}

#[test]
fn drawn_resets_on_pass(rt: HostRuntime) {
    assert!(rt; kinds(rt.alloc(), Sample::Pass, 60) == Some(ENDED | SHORT | BEFORE));
}

#[test]
fn drawn_resets_on_duo(rt: HostRuntime) {
    assert!(rt; kinds(rt.alloc(), Sample::Duo, 60) == Some(ENDED | SHORT | BEFORE));
}
