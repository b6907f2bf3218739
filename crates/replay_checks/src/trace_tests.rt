//! Replays of longer traces, against the definitions' rows.

ghost use Rattle.std.specs.Prelude.{◌≤◌};
ghost use Rattle.run_reference.specs.trace_model.declared.packet.TheConstants.{MOST_CYCLES};

use crate::agreeing::{Seen, see_replay};
use crate::traces::{drawn_trace, rounds};
use replay_run::ReplayOutcome;
use sample_designs::Sample;
use std::alloc::Global;

/// Whether a replay is as by the definitions, and has ended after so many cycles.
fn has_ended(seen: &Seen, after: u32) -> bool {
    match &seen.answer.outcome {
        ReplayOutcome::Ended { cycles } => seen.agrees && *cycles == after,
        _ => false,
    }
}

/// Whether a replay of these bytes has ended after 240 cycles, with these bytes as its trace.
fn is_ended_with(alloc: Global, bytes: &[u8], out: &[u8], cycles: u32) -> Option<bool>
    requires { cycles ≤ MOST_CYCLES }
{
    let seen = see_replay(alloc, Sample::Regs, bytes, cycles)?;
    Some(has_ended(&seen, 240) && seen.answer.out.as_slice() == out)
}

/// The same of the recording with stalls, with the trace without them.
fn plays_rounds(alloc: Global, cycles: u32) -> Option<bool>
    requires { cycles ≤ MOST_CYCLES }
{
    let bytes = rounds(alloc, true)?;
    let out = rounds(alloc, false)?;
    is_ended_with(alloc, bytes.as_slice(), out.as_slice(), cycles)
}

// With one cycle less it hasn't ended.
#[test]
fn rounds_are_played_without_stalls(rt: HostRuntime) {
    assert!(rt; plays_rounds(rt.alloc(), 240) == Some(true));
    assert!(rt; plays_rounds(rt.alloc(), 239) == Some(false));
}

/// How the replay of a trace ends by the definitions: 1 where the trace has ended, and 2 where the replay is short; 4 where it is
/// otherwise.
fn kind(seen: &Seen) -> u8 {
    match &seen.answer.outcome {
        ReplayOutcome::Ended { .. } if seen.agrees => 1,
        ReplayOutcome::Short { .. } if seen.agrees => 2,
        _ => 4,
    }
}

fn kind_of(alloc: Global, sample: Sample, number: u64) -> Option<u8> {
    let bytes = drawn_trace(alloc, sample, number)?;
    let seen = see_replay(alloc, sample, bytes.as_slice(), 30)?;
    Some(kind(&seen))
}

/// How the replays of so many drawn traces end, together.
fn kinds(alloc: Global, sample: Sample, traces: u64) -> Option<u8> {
    let mut kinds = 0;
    for number in 0..traces {
        kinds |= kind_of(alloc, sample, number)?;
    }
    Some(kinds)
}

#[test]
fn drawn_traces_on_pass(rt: HostRuntime) {
    assert!(rt; kinds(rt.alloc(), Sample::Pass, 80) == Some(3));
}

#[test]
fn drawn_traces_on_duo(rt: HostRuntime) {
    assert!(rt; kinds(rt.alloc(), Sample::Duo, 80) == Some(3));
}

#[test]
fn drawn_traces_on_registers(rt: HostRuntime) {
    assert!(rt; kinds(rt.alloc(), Sample::Regs, 40) == Some(3));
}
