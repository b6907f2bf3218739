//! Replays whose end and trace are known by hand.

use crate::agreeing::{Seen, see_replay};
use crate::reference_tests::{holds_second, is_first_of_b};
use crate::traces::{BARE, LAST_END_MISSING, LATE, NONE, ONE, ROUND, STARTS, THREE, TWO, trace_of};
use replay_run::ReplayOutcome;
use run_reference::run_model::Held;
use sample_designs::Sample;
use std::alloc::Global;

/// How a replay has to end.
#[derive(Clone, Copy, Drop)]
enum Due {
    /// After so many cycles.
    Ended { cycles: u32 },
    /// It waits for the first start of `b` alone. The second start of `a` alone is held back, or nothing.
    Short { holds: bool },
    /// The row of this cycle is unstable on `b`.
    Unstable { cycle: u32 },
}

/// A replay that is known.
struct Example {
    name: &'static str,
    sample: Sample,
    packets: &'static [u8],
    cycles: u8,
    due: Due,
    /// The packets of its trace.
    shown: &'static [u8],
}

const EXAMPLES: &[Example] = &[
    Example {
        name: "the last cycle counts",
        sample: Sample::Pass,
        packets: TWO,
        cycles: 2,
        due: Due::Ended { cycles: 2 },
        shown: TWO,
    },
    Example {
        name: "one cycle short",
        sample: Sample::Pass,
        packets: TWO,
        cycles: 1,
        due: Due::Short { holds: false },
        shown: ONE,
    },
    Example {
        name: "a start is held",
        sample: Sample::Dead,
        packets: THREE,
        cycles: 10,
        due: Due::Short { holds: true },
        shown: ONE,
    },
    Example {
        name: "the last end is missing",
        sample: Sample::Pass,
        packets: LAST_END_MISSING,
        cycles: 10,
        due: Due::Ended { cycles: 2 },
        shown: LAST_END_MISSING,
    },
    // The empty trace has ended before the first row.
    Example {
        name: "no packet",
        sample: Sample::Pass,
        packets: NONE,
        cycles: 5,
        due: Due::Ended { cycles: 0 },
        shown: NONE,
    },
    // The completion of `b` awaits that of `a`, which isn't taken: the valid that is up in row 1 falls in row 2.
    Example {
        name: "a valid is taken back",
        sample: Sample::Back,
        packets: TWO,
        cycles: 10,
        due: Due::Unstable { cycle: 2 },
        shown: STARTS,
    },
    // The valid rises in row 1, whenever it is recorded.
    Example {
        name: "a gap before the first packet",
        sample: Sample::Flick,
        packets: BARE,
        cycles: 10,
        due: Due::Ended { cycles: 2 },
        shown: LATE,
    },
    Example {
        name: "a recorded gap",
        sample: Sample::Flick,
        packets: LATE,
        cycles: 10,
        due: Due::Ended { cycles: 2 },
        shown: LATE,
    },
    Example {
        name: "a round of the register file",
        sample: Sample::Regs,
        packets: ROUND,
        cycles: 100,
        due: Due::Ended { cycles: 4 },
        shown: ROUND,
    },
];

/// Whether the second start of `a` alone is held back, or nothing.
fn are_held(helds: &[Held], second: bool) -> bool {
    if second {
        holds_second(helds)
    } else {
        helds.is_empty()
    }
}

fn is_due(outcome: &ReplayOutcome, due: Due) -> bool {
    match (outcome, due) {
        (ReplayOutcome::Ended { cycles }, Due::Ended { cycles: after }) => *cycles == after,
        (ReplayOutcome::Short { held, waits }, Due::Short { holds }) => {
            are_held(held.as_slice(), holds) && is_first_of_b(waits.as_slice())
        }
        (ReplayOutcome::Unstable { channel, cycle }, Due::Unstable { cycle: at }) => {
            *channel == 1 && *cycle == at
        }
        _ => false,
    }
}

/// Whether a replay is as it has to be, and as by the definitions.
fn is_seen(seen: &Seen, due: Due, out: &[u8]) -> bool {
    seen.agrees && is_due(&seen.answer.outcome, due) && seen.answer.out.as_slice() == out
}

/// Whether a replay of these bytes is as it has to be, with these bytes as its trace.
fn is_played_as(alloc: Global, example: &Example, bytes: &[u8], out: &[u8]) -> Option<bool> {
    let seen = see_replay(alloc, example.sample, bytes, u32::from(example.cycles))?;
    Some(is_seen(&seen, example.due, out))
}

fn is_played(alloc: Global, example: &Example) -> Option<bool> {
    let bytes = trace_of(alloc, example.sample, example.packets)?;
    let out = trace_of(alloc, example.sample, example.shown)?;
    is_played_as(alloc, example, bytes.as_slice(), out.as_slice())
}

#[test]
fn examples_are_played(rt: HostRuntime) {
    for example in EXAMPLES {
        let played = is_played(rt.alloc(), example);
        assert!(rt; played == Some(true), "{}", example.name);
    }
}
