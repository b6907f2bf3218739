//! Replays, compared with the rows of the definitions.

ghost use Rattle.std.specs.Prelude.{◌≡◌, ◌<◌, ◌≤◌, ◌^◌, IfSome, length};
ghost use Rattle.replay_run.specs.trace_code.Encoding.{Encodes, HasEncoding};
ghost use Rattle.run_reference.specs.run_model.Building.{PortsAreNets};
ghost use Rattle.run_reference.specs.run_model.MapOf.{IsMapOf};
ghost use Rattle.run_reference.specs.trace_model.declared.packet.TheConstants.{MOST_CYCLES};

use crate::traces::trace_of;
use crate::watched::Watched;
use replay_run::chan_replayer::{ReplayMachines, ReplayShell};
use replay_run::trace_code::decode;
use replay_run::{ReplayOutcome, Replayed, replay};
use run_reference::chan_map::Map;
use run_reference::run_model::Held;
use run_reference::trace_model::{
    Channel, Channels, Event, Packet, Row, Rows, Trace, is_over, names, same_channels,
    split_content, unstable,
};
use run_reference::{held, replay_rows, waits};
use sample_designs::net_sim::Sim;
use sample_designs::{Sample, Stage, sample_stage};
use std::alloc::Global;

/// The trace of these bytes.
pub(crate) fn decoded(alloc: Global, bytes: &[u8]) -> Option<Trace>
    ensures { IfSome result (λ t. Encodes t bytes.now) }
{
    decode(alloc, bytes).ok()
}

/// The trace of the design's channels with these packets and their number.
pub(crate) fn trace_with(alloc: Global, sample: Sample, packets: &[u8]) -> Option<Trace>
    ensures { IfSome result HasEncoding }
{
    let bytes = trace_of(alloc, sample, packets)?;
    decoded(alloc, bytes.as_slice())
}

/// So many rows of the replay of a trace on a design that runs, by the definitions.
#[tactic(auto, using(crate::proofs::Given::packets_fit))]
fn rows_on(alloc: Global, sim: &mut Sim, map: &Map, trace: &Trace, cycles: u32) -> Option<Rows>
    requires nets { PortsAreNets sim.old.design }
    requires mapped { IsMapOf sim.old.design map.now }
    requires channels { map.now.channels ≡ trace.now.channels }
    requires trace { HasEncoding trace.now }
    ensures { IfSome result (λ rows. length rows ≡ cycles) }
{
    match replay_rows(alloc, sim, map, trace.packets.as_slice(), cycles) {
        Ok(rows) => Some(rows),
        Err(_) => None,
    }
}

/// The same on a design.
pub(crate) fn rows_of(alloc: Global, sample: Sample, trace: &Trace, cycles: u32) -> Option<Rows>
    requires { HasEncoding trace.now }
    ensures { IfSome result (λ rows. length rows ≡ cycles) }
{
    let mut stage = sample_stage(alloc, sample, &trace.channels)?;
    rows_on(alloc, &mut stage.sim, &stage.map, trace, cycles)
}

pub(crate) fn more_if(count: u32, mask: u128, c: usize) -> u32 {
    if names(mask, c) {
        count.wrapping_add(1)
    } else {
        count
    }
}

/// How many starts and completions of channel `c` are recorded.
pub(crate) fn recorded(packets: &[Packet], c: usize) -> (u32, u32) {
    let mut starts = 0;
    let mut ends = 0;
    for packet in packets {
        starts = more_if(starts, packet.starts, c);
        ends = more_if(ends, packet.ends, c);
    }
    (starts, ends)
}

/// How many of them the rows show.
pub(crate) fn shown(rows: &[Row], c: usize) -> (u32, u32) {
    let mut starts = 0;
    let mut ends = 0;
    for row in rows {
        starts = more_if(starts, row.starts, c);
        ends = more_if(ends, row.ends, c);
    }
    (starts, ends)
}

/// Whether the rows show as many on channel `c` as are recorded.
fn has_ended_on(trace: &Trace, rows: &[Row], c: usize) -> bool {
    let (starts, ends) = recorded(trace.packets.as_slice(), c);
    let (shown_starts, shown_ends) = shown(rows, c);
    starts <= shown_starts && ends <= shown_ends
}

/// Whether the trace has ended in these rows.
fn has_ended(trace: &Trace, rows: &[Row]) -> bool {
    let mut ended = true;
    for c in 0..trace.channels.len() {
        ended &= has_ended_on(trace, rows, c);
    }
    ended
}

/// The lowest channel on which row `k` is unstable.
fn unstable_at(channels: &Channels, rows: &[Row], k: usize) -> Option<usize> {
    if k == 0 {
        return None;
    }
    let before = rows.get(k - 1)?;
    let now = rows.get(k)?;
    if is_over(before, channels) && is_over(now, channels) {
        unstable(before, now, channels)
    } else {
        None
    }
}

/// How a replay ends, after so many rows.
#[derive(Clone, Copy, Drop)]
pub(crate) enum Stop {
    Ended { len: usize },
    Short { len: usize },
    Unstable { channel: usize, len: usize },
}

/// How the replay with these rows ends.
pub(crate) fn stop_of(trace: &Trace, rows: &[Row]) -> Stop {
    for len in 0..rows.len() {
        if has_ended(trace, &rows[..len]) {
            return Stop::Ended { len };
        }
        if let Some(channel) = unstable_at(&trace.channels, rows, len) {
            return Stop::Unstable { channel, len };
        }
    }
    let len = rows.len();
    if has_ended(trace, rows) {
        Stop::Ended { len }
    } else {
        Stop::Short { len }
    }
}

fn is_held(a: &Held, b: &Held) -> bool {
    a.event == b.event && a.awaits.as_slice() == b.awaits.as_slice()
}

fn are_held(a: &[Held], b: &[Held]) -> bool {
    let mut same = a.len() == b.len();
    for (one, other) in a.iter().zip(b) {
        same &= is_held(one, other);
    }
    same
}

/// Whether these are the lists of *End of replay*.
fn are_lists(
    alloc: Global,
    trace: &Trace,
    rows: &[Row],
    helds: &[Held],
    events: &[Event],
) -> Option<bool>
    requires packets { length trace.now.packets < 2 ^ 32 }
    requires rows { length rows.now < 2 ^ 32 }
{
    let channels = trace.channels.as_slice();
    let packets = trace.packets.as_slice();
    let events_due = waits(alloc, channels, packets, rows).ok()?;
    let waited = events == events_due.as_slice();
    let helds_due = held(alloc, channels, packets, rows).ok()?;
    Some(waited && are_held(helds, helds_due.as_slice()))
}

/// Whether a replay ends as the definitions say: in the same way and after as many rows, with the same lists.
fn ends_so(alloc: Global, trace: &Trace, rows: &[Row], outcome: &ReplayOutcome) -> Option<bool>
    requires packets { length trace.now.packets < 2 ^ 32 }
    requires rows { length rows.now < 2 ^ 32 }
{
    match (stop_of(trace, rows), outcome) {
        (Stop::Ended { len }, ReplayOutcome::Ended { cycles }) => Some(*cycles as usize == len),
        (Stop::Short { .. }, ReplayOutcome::Short { held, waits }) => {
            are_lists(alloc, trace, rows, held.as_slice(), waits.as_slice())
        }
        (Stop::Unstable { channel, len }, ReplayOutcome::Unstable { channel: at, cycle }) => {
            Some(*at == channel && *cycle as usize == len)
        }
        _ => Some(false),
    }
}

/// The rows before the end of their replay.
fn played<'a>(trace: &Trace, rows: &'a [Row]) -> &'a [Row] {
    let (Stop::Ended { len } | Stop::Short { len } | Stop::Unstable { len, .. }) = stop_of(
        trace, rows,
    );
    rows.get(..len).unwrap_or(rows)
}

/// Whether a packet has the contents of a row's channels that start.
fn has_contents(channels: &[Channel], packet: &Packet, row: &Row) -> bool {
    let mut same = true;
    let mut shown = row.contents.as_slice();
    let mut recorded = packet.contents.as_slice();
    for (c, channel) in channels.iter().enumerate() {
        let (content, after) = split_content(channel, shown);
        shown = after;
        if names(row.starts, c) {
            let (content_recorded, behind) = split_content(channel, recorded);
            recorded = behind;
            same &= content == content_recorded;
        }
    }
    same && recorded.is_empty()
}

/// Whether a packet is a row's, and no reset.
fn is_packet_of(channels: &[Channel], packet: &Packet, row: &Row) -> bool {
    let events = packet.starts == row.starts && packet.ends == row.ends;
    !packet.reset && events && has_contents(channels, packet, row)
}

/// Whether a packet is a reset behind this gap.
fn is_reset(packet: &Packet, gap: u32) -> bool {
    packet.reset && packet.gap == gap && packet.starts == 0 && packet.ends == 0
}

/// Whether a trace is of these rows: a reset before each fresh row, and one packet for each row with an event, each behind as many rows as
/// its gap since the one before.
fn is_trace_of(trace: &Trace, rows: &[Row]) -> bool {
    let mut same = true;
    let mut left = trace.packets.as_slice();
    let mut gap: u32 = 0;
    for row in rows {
        if row.fresh {
            let Some((packet, behind)) = left.split_first() else {
                return false;
            };
            same &= is_reset(packet, gap);
            left = behind;
            gap = 0;
        }
        if row.starts == 0 && row.ends == 0 {
            gap = gap.wrapping_add(1);
            continue;
        }
        let Some((packet, behind)) = left.split_first() else {
            return false;
        };
        same &= packet.gap == gap && is_packet_of(trace.channels.as_slice(), packet, row);
        left = behind;
        gap = 0;
    }
    same && left.is_empty()
}

/// Whether the bytes are the trace of these rows.
pub(crate) fn is_out(alloc: Global, trace: &Trace, rows: &[Row], out: &[u8]) -> Option<bool> {
    let shown = decoded(alloc, out)?;
    let same = same_channels(&shown.channels, &trace.channels).is_none();
    Some(same && is_trace_of(&shown, rows))
}

/// Whether an answer is that of the replay with these rows.
fn agrees(alloc: Global, trace: &Trace, rows: &[Row], answer: &Replayed) -> Option<bool>
    requires packets { length trace.now.packets < 2 ^ 32 }
    requires rows { length rows.now < 2 ^ 32 }
{
    let ends = ends_so(alloc, trace, rows, &answer.outcome)?;
    let shown = is_out(alloc, trace, played(trace, rows), answer.out.as_slice())?;
    Some(ends && shown)
}

/// What a replay answers.
#[derive(Drop)]
pub(crate) struct Seen {
    pub(crate) answer: Replayed,
    /// Its rows, its end and its trace are those of the definitions.
    pub(crate) agrees: bool,
}

/// What the replay of a trace on a shell answers, against these rows.
#[tactic(auto, using(crate::proofs::Given::trace_given))]
fn answer_of<S: ReplayShell>(
    alloc: Global,
    shell: &mut S,
    map: &Map,
    trace: &Trace,
    bytes: &[u8],
    cycles: u32,
    rows: &[Row],
) -> Option<Seen>
    requires mapped { S.map shell.old ≡ map.now }
    requires channels { map.now.channels ≡ trace.now.channels }
    requires trace { Encodes trace.now bytes.now }
    requires few { cycles ≤ MOST_CYCLES }
{
    let mut shell = Watched::new(shell, rows);
    let answer = replay(alloc, &mut shell, map, bytes, cycles).ok()?;
    Some(Seen {
        answer,
        agrees: shell.same,
    })
}

/// The same on a design that runs.
fn answer_on(
    alloc: Global,
    sim: Sim,
    map: &Map,
    trace: &Trace,
    bytes: &[u8],
    cycles: u32,
    rows: &[Row],
) -> Option<Seen>
    requires nets { PortsAreNets sim.design }
    requires mapped { IsMapOf sim.design map.now }
    requires channels { map.now.channels ≡ trace.now.channels }
    requires trace { Encodes trace.now bytes.now }
    requires few { cycles ≤ MOST_CYCLES }
{
    let Ok(mut shell) = ReplayMachines::new(alloc, sim, map) else {
        return None;
    };
    answer_of(alloc, &mut shell, map, trace, bytes, cycles, rows)
}

/// The same on a design: the rows are compared, and neither the end nor the trace.
pub(crate) fn answer_from(
    alloc: Global,
    sample: Sample,
    trace: &Trace,
    bytes: &[u8],
    cycles: u32,
    rows: &[Row],
) -> Option<Seen>
    requires trace { Encodes trace.now bytes.now }
    requires few { cycles ≤ MOST_CYCLES }
{
    let Stage { sim, map } = sample_stage(alloc, sample, &trace.channels)?;
    answer_on(alloc, sim, &map, trace, bytes, cycles, rows)
}

/// The same, against what the definitions say of these rows.
fn answer_with(
    alloc: Global,
    sample: Sample,
    trace: &Trace,
    bytes: &[u8],
    cycles: u32,
    rows: &[Row],
) -> Option<Seen>
    requires trace { Encodes trace.now bytes.now }
    requires few { cycles ≤ MOST_CYCLES }
    requires rows { length rows.now < 2 ^ 32 }
{
    let mut seen = answer_from(alloc, sample, trace, bytes, cycles, rows)?;
    seen.agrees &= agrees(alloc, trace, rows, &seen.answer)?;
    Some(seen)
}

/// What the replay of a trace with these bytes answers on a design in so many cycles.
fn answer_in(
    alloc: Global,
    sample: Sample,
    trace: &Trace,
    bytes: &[u8],
    cycles: u32,
) -> Option<Seen>
    requires trace { Encodes trace.now bytes.now }
    requires few { cycles ≤ MOST_CYCLES }
{
    let rows = rows_of(alloc, sample, trace, cycles)?;
    answer_with(alloc, sample, trace, bytes, cycles, rows.as_slice())
}

/// The same of a trace's bytes. `None` where they are no trace of the design's channels, or there isn't enough memory.
pub(crate) fn see_replay(alloc: Global, sample: Sample, bytes: &[u8], cycles: u32) -> Option<Seen>
    requires { cycles ≤ MOST_CYCLES }
{
    let trace = decoded(alloc, bytes)?;
    answer_in(alloc, sample, &trace, bytes, cycles)
}
