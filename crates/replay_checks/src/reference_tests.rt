//! The definitions' replays, and what they hold back and wait for. Channel 0 is `a`, inward, and channel 1 is `b`, outward; the masks of
//! a row are its gates, valids, readies, starts and ends.

ghost use Rattle.std.specs.Prelude.{◌<◌, ◌^◌, length};
ghost use Rattle.replay_run.specs.trace_code.Encoding.{HasEncoding};

use crate::agreeing::{rows_of, trace_with};
use crate::traces::{BARE, LAST_END_MISSING, THREE, TWO};
use run_reference::run_model::Held;
use run_reference::trace_model::{Event, Kind, Row, Trace};
use run_reference::{held, waits};
use sample_designs::{Sample, is_row};
use std::alloc::Global;

/// Whether an event is this one, before any reset.
fn is_event(event: Event, channel: usize, kind: Kind, index: u32) -> bool {
    event.channel == channel && event.kind == kind && event.index == index && event.epoch == 0
}

/// Whether one event alone is waited for, the first start of `b`.
pub(crate) fn is_first_of_b(events: &[Event]) -> bool {
    events.len() == 1 && is_event(events[0], 1, Kind::Start, 0)
}

/// Whether a start of `a` is held back, which awaits the first completion of `b`.
fn awaits_b(held: &Held, index: u32) -> bool {
    let awaits = held.awaits.as_slice();
    is_event(held.event, 0, Kind::Start, index)
        && awaits.len() == 1
        && awaits[0].channel == 1
        && awaits[0].have == 0
        && awaits[0].need == 1
}

/// Whether the second start of `a` alone is held back.
pub(crate) fn holds_second(helds: &[Held]) -> bool {
    helds.len() == 1 && awaits_b(&helds[0], 1)
}

/// What a replay with these rows holds back and waits for.
#[derive(Clone, Copy, PartialEq, Eq, Drop)]
enum Left {
    Nothing,
    /// It waits for the first start of `b`.
    First,
    /// It holds back the second start of `a` too.
    Second,
    Other,
}

fn left_of(helds: &[Held], events: &[Event]) -> Left {
    if holds_second(helds) && is_first_of_b(events) {
        Left::Second
    } else if helds.is_empty() && is_first_of_b(events) {
        Left::First
    } else if helds.is_empty() && events.is_empty() {
        Left::Nothing
    } else {
        Left::Other
    }
}

fn what_is_left(alloc: Global, trace: &Trace, rows: &[Row]) -> Option<Left>
    requires packets { length trace.now.packets < 2 ^ 32 }
    requires rows { length rows.now < 2 ^ 32 }
{
    let channels = trace.channels.as_slice();
    let packets = trace.packets.as_slice();
    let helds = held(alloc, channels, packets, rows).ok()?;
    let events = waits(alloc, channels, packets, rows).ok()?;
    Some(left_of(helds.as_slice(), events.as_slice()))
}

/// A row: its masks, and its contents.
#[derive(Clone, Copy, Drop)]
struct DueRow {
    masks: [u128; 5],
    contents: &'static [u128],
}

/// The content is taken, where `b` isn't ready yet.
const FIRST: DueRow = DueRow {
    masks: [3, 1, 1, 1, 1],
    contents: &[5, 0],
};

/// Both are ready, and nothing is offered or shown.
const IDLE: DueRow = DueRow {
    masks: [3, 0, 3, 0, 0],
    contents: &[0, 0],
};

/// `b` starts and completes.
const SECOND: DueRow = DueRow {
    masks: [3, 2, 2, 2, 2],
    contents: &[0, 5],
};

/// `b` starts. Its completion isn't recorded, so its ready stays down.
const UNTAKEN: DueRow = DueRow {
    masks: [3, 2, 0, 2, 0],
    contents: &[0, 5],
};

/// The design whose valid flickers shows none, and is ready for the completion that is recorded.
const READY: DueRow = DueRow {
    masks: [1, 0, 1, 0, 0],
    contents: &[],
};

/// It shows its valid, and a transaction starts and completes.
const TAKEN: DueRow = DueRow {
    masks: [1, 1, 1, 1, 1],
    contents: &[],
};

/// No further completion is recorded.
const DOWN: DueRow = DueRow {
    masks: [1, 0, 0, 0, 0],
    contents: &[],
};

/// A replay that is known.
struct Example {
    name: &'static str,
    sample: Sample,
    packets: &'static [u8],
    rows: &'static [DueRow],
    left: Left,
}

const EXAMPLES: &[Example] = &[
    Example {
        name: "the last cycle counts",
        sample: Sample::Pass,
        packets: TWO,
        rows: &[FIRST, SECOND],
        left: Left::Nothing,
    },
    // With one cycle less `b` hasn't started; nothing is held back, since what it awaits has completed.
    Example {
        name: "one cycle short",
        sample: Sample::Pass,
        packets: TWO,
        rows: &[FIRST],
        left: Left::First,
    },
    // The second start of `a` awaits the completion of `b`, which is never shown.
    Example {
        name: "a start is held",
        sample: Sample::Dead,
        packets: THREE,
        rows: &[FIRST, IDLE, IDLE, IDLE, IDLE, IDLE, IDLE, IDLE, IDLE, IDLE],
        left: Left::Second,
    },
    Example {
        name: "the last end is missing",
        sample: Sample::Pass,
        packets: LAST_END_MISSING,
        rows: &[FIRST, UNTAKEN],
        left: Left::Nothing,
    },
    // The ready is up until the completion that is recorded.
    Example {
        name: "a ready falls",
        sample: Sample::Flick,
        packets: BARE,
        rows: &[READY, TAKEN, DOWN],
        left: Left::Nothing,
    },
];

fn are_rows(rows: &[Row], due: &[DueRow]) -> bool {
    let mut same = rows.len() == due.len();
    for (row, one) in rows.iter().zip(due) {
        same &= is_row(row, one.masks, one.contents);
    }
    same
}

fn is_replay_of(alloc: Global, trace: &Trace, example: &Example) -> Option<bool>
    requires { HasEncoding trace.now }
{
    let cycles = u32::try_from(example.rows.len()).ok()?;
    let rows = rows_of(alloc, example.sample, trace, cycles)?;
    let left = what_is_left(alloc, trace, rows.as_slice())?;
    Some(left == example.left && are_rows(rows.as_slice(), example.rows))
}

fn is_replayed(alloc: Global, example: &Example) -> Option<bool> {
    let trace = trace_with(alloc, example.sample, example.packets)?;
    is_replay_of(alloc, &trace, example)
}

#[test]
fn examples_have_their_rows(rt: HostRuntime) {
    for example in EXAMPLES {
        let replayed = is_replayed(rt.alloc(), example);
        assert!(rt; replayed == Some(true), "{}", example.name);
    }
}
