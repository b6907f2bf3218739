//! The command `replay`.

ghost use Rattle.std.specs.Prelude.{◌≡◌, ◌≤◌, List, Ok, IfOk, IfErr, length};
ghost use Rattle.replay_run.specs.trace_model.declared.row.Row.{Row as OneRow};
ghost use Rattle.replay_run.specs.trace_model.declared.trace.Trace.{Trace as OneTrace};
ghost use Rattle.replay_run.specs.trace_model.Recording.{trace_of};
ghost use Rattle.replay_run.specs.trace_code.Encoding.{Encodes, HasEncoding};
ghost use Rattle.net_design.specs.Lawful.{IsLawful};
ghost use Rattle.net_sim.specs.net_order.Order.{IsOrder};
ghost use Rattle.replay_run.specs.run_model.MapOf.{IsMapOf};
ghost use Rattle.replay_run.specs.Replaying.{EndsAs};
ghost use Rattle.replay_run.specs.run_stage.Stretching.{all_rows};
ghost use Rattle.replay_run.specs.trace_model.declared.packet.TheConstants.{MOST_CYCLES};
ghost use Rattle.vidi_bench.specs.vidi_io.Cause.{Rose};
ghost use Rattle.vidi_bench.specs.vidi_io.Shelf.{HasStarted, Later};
ghost use Rattle.vidi_bench.specs.vidi_io.Writing.{IsKept};
ghost use Rattle.vidi_bench.specs.AnswerText.{text_of};
ghost use Rattle.vidi_bench.specs.Design.{text_limit};
ghost use Rattle.vidi_bench.specs.Devices.{IsDevice, IsRunnable};
ghost use Rattle.vidi_bench.specs.Ended.{EndsWith, IsStopped, Owes};
ghost use Rattle.replay_command.specs.Replays.{CutsReplay, IsReplayable, IsReplaySaid, IsTheReplay, IsUnreplayed};
ghost use Rattle.replay_command.specs.Replays.{RefusedReplay, RefusedTrace, Replays, ReplaysTrace, StopsReplaying};
ghost use Rattle.replay_command.specs.Said as said;
ghost use Rattle.vidi_bench.specs.Steps.{IsSaid};
ghost use Rattle.vidi_bench.specs.Traces.{IsVerdict};

use net_design::{Block, Design};
use net_sim::Sim;
use net_sim::net_order::Order;
use replay_run::chan_map::Map;
use replay_run::chan_replayer::ReplayMachines;
use replay_run::trace_code::{CodeError, TRACE_LIMIT, decode};
use replay_run::trace_model::{Trace, same_channels};
use replay_run::vidi_bits::{Bytes, Memory};
use replay_run::{ReplayOutcome, Replayed};
use std::alloc::Global;
use vidi_bench::report_text::{put, put_number, short_lines};
use vidi_bench::vidi_io::{Failed, Shelf, write_whole};
use vidi_bench::{
    Answer, Device, Ended, Reason, Status, TEXT_LIMIT, Word, device_of, diverged, read_file,
    refused, trace_of, unstable, with_bytes,
};

/// What is replayed: a device, and a trace with the bytes that encode it.
#[derive(Drop)]
struct Replayable {
    device: Device,
    bytes: Bytes,
    trace: Trace,
}

/// What `replay` is answered. All memory is taken before the file `out` is started.
pub fn replay<S: Shelf>(
    alloc: Global,
    design: &str,
    map: &str,
    trace: &str,
    cycles: u32,
    out: &str,
    shelf: &mut S,
) -> Result<Answer, Ended>
    requires few { cycles ≤ MOST_CYCLES }
    ensures owed { Owes (Replays design.now map.now trace.now cycles out.now (S.files shelf.old)
        (λ name. Rose (S.read_faults shelf.old name) (S.read_faults shelf.new name)) (HasStarted (S.starts shelf.old) (S.starts shelf.new)))
        (StopsReplaying design.now map.now trace.now cycles out.now (S.files shelf.old)
        (HasStarted (S.starts shelf.old) (S.starts shelf.new))) (Rose (S.write_faults shelf.old) (S.write_faults shelf.new))
        (IsKept (S.files shelf.old) (HasStarted (S.starts shelf.old) (S.starts shelf.new))) (S.files shelf.new) result }
    ensures counts { Later (S.read_faults shelf.old) (S.read_faults shelf.new) (S.write_faults shelf.old) (S.write_faults shelf.new) }
{
    let plan = plan_replay(alloc, design, map, trace, shelf)?;
    replayed(alloc, plan, cycles, out, shelf)
}

/// Reads the three files, and makes what they say.
fn plan_replay<S: Shelf>(
    alloc: Global,
    design: &str,
    map: &str,
    trace: &str,
    shelf: &mut S,
) -> Result<Replayable, Ended>
    ensures planned { IfOk result (λ p. IsReplayable design.now map.now trace.now (S.files shelf.old) p.device p.trace) }
    ensures encodes { IfOk result (λ p. Encodes p.trace p.bytes) }
    ensures runnable { IfOk result (λ p. IsRunnable p.device) }
    ensures refused { IfErr result (EndsWith (IsUnreplayed design.now map.now trace.now (S.files shelf.old)
        (λ name. Rose (S.read_faults shelf.old name) (S.read_faults shelf.new name)))) }
    ensures files { S.files shelf.new ≡ S.files shelf.old }
    ensures starts { S.starts shelf.new ≡ S.starts shelf.old }
    ensures counts { Later (S.read_faults shelf.old) (S.read_faults shelf.new) (S.write_faults shelf.old) (S.write_faults shelf.new) }
{
    let design = read_file(alloc, Word::Design, design, TEXT_LIMIT, shelf)?;
    let map = read_file(alloc, Word::Map, map, TEXT_LIMIT, shelf)?;
    let bytes = read_file(alloc, Word::Trace, trace, TRACE_LIMIT, shelf)?;
    plan_texts(alloc, design.as_slice(), map.as_slice(), bytes)
}

/// What three texts say, or the first reason for which they are refused: those of the design and the map, and then of the trace.
fn plan_texts(alloc: Global, design: &[u8], map: &[u8], bytes: Bytes) -> Result<Replayable, Ended>
    requires design { length design.now ≤ text_limit }
    requires map { length map.now ≤ text_limit }
    ensures device { IfOk result (λ p. IsDevice design.now map.now p.device) }
    ensures bytes { IfOk result (λ p. p.bytes ≡ bytes) }
    ensures encodes { IfOk result (λ p. Encodes p.trace bytes) }
    ensures same { IfOk result (λ p. p.trace.channels ≡ p.device.map.channels) }
    ensures runnable { IfOk result (λ p. IsRunnable p.device) }
    ensures refused { IfErr result (EndsWith (RefusedReplay design.now map.now bytes)) }
{
    let device = device_of(alloc, design, map)?;
    let trace = trace_over(alloc, bytes.as_slice(), &device.map)?;
    Ok(Replayable {
        device,
        bytes,
        trace,
    })
}

/// The trace of these bytes, which has the channels of the map.
pub fn trace_over(alloc: Global, bytes: &[u8], map: &Map) -> Result<Trace, Ended>
    ensures encodes { IfOk result (λ t. Encodes t bytes.now) }
    ensures same { IfOk result (λ t. t.channels ≡ map.now.channels) }
    ensures refused { IfErr result (EndsWith (RefusedTrace bytes.now map.now)) }
{
    let trace = trace_of(alloc, Word::Trace, bytes)?;
    match same_channels(&map.channels, &trace.channels) {
        None => Ok(trace),
        Some(at) => Err(Ended::Refused(refused(alloc, Word::Trace, Reason::OtherChannels { at })?)),
    }
}

/// Replays the trace, writes the trace of the replay into the file `out`, and says how the replay ended.
fn replayed<S: Shelf>(
    alloc: Global,
    plan: Replayable,
    cycles: u32,
    out: &str,
    shelf: &mut S,
) -> Result<Answer, Ended>
    requires runnable { IsRunnable plan.device }
    requires encodes { Encodes plan.trace plan.bytes }
    requires same { plan.trace.channels ≡ plan.device.map.channels }
    requires few { cycles ≤ MOST_CYCLES }
    ensures done { IfOk result (λ a. ReplaysTrace plan.device plan.trace cycles out.now (S.files shelf.old)
        (HasStarted (S.starts shelf.old) (S.starts shelf.new)) a.status (text_of a.text) (S.files shelf.new)) }
    ensures stopped { IfErr result (IsStopped (CutsReplay plan.device plan.trace cycles out.now (S.files shelf.old)
        (HasStarted (S.starts shelf.old) (S.starts shelf.new))) (Rose (S.write_faults shelf.old) (S.write_faults shelf.new))
        (IsKept (S.files shelf.old) (HasStarted (S.starts shelf.old) (S.starts shelf.new))) (S.files shelf.new)) }
    ensures counts { Later (S.read_faults shelf.old) (S.read_faults shelf.new) (S.write_faults shelf.old) (S.write_faults shelf.new) }
{
    let Replayable {
        device,
        bytes,
        trace,
    } = plan;
    let Replayed {
        outcome,
        out: written,
    } = played(alloc, device, bytes.as_slice(), cycles)?;
    let answer = told(alloc, &trace, outcome, written.as_slice(), cycles)?;
    match write_whole(shelf, out, written.as_slice()) {
        Ok(()) => Ok(answer),
        Err(Failed) => Err(Ended::WriteFault),
    }
}

/// Replays the trace of these bytes on a device.
pub fn played(alloc: Global, device: Device, bytes: &[u8], cycles: u32) -> Result<Replayed, Memory>
    requires runnable { IsRunnable device }
    requires trace { (t : OneTrace) × Encodes t bytes.now × (t.channels ≡ device.map.channels) }
    requires few { cycles ≤ MOST_CYCLES }
    ensures { IfOk result (λ r. (t : OneTrace) → Encodes t bytes.now → (rows : List OneRow)
        × IsTheReplay device t cycles rows r.outcome × Encodes (trace_of device.map.channels rows) r.out) }
{
    let Device { design, order, map } = device;
    replay_sim(alloc, design, order, &map, bytes, cycles)
}

/// Replays the trace of these bytes on a design.
fn replay_sim(
    alloc: Global,
    design: Design,
    order: Order,
    map: &Map,
    bytes: &[u8],
    cycles: u32,
) -> Result<Replayed, Memory>
    requires lawful { IsLawful design }
    requires order { IsOrder design order.drivers }
    requires mapped { IsMapOf design map.now }
    requires trace { (t : OneTrace) × Encodes t bytes.now × (t.channels ≡ map.now.channels) }
    requires few { cycles ≤ MOST_CYCLES }
    ensures { IfOk result (λ r. (t : OneTrace) → Encodes t bytes.now → (past : List (List OneRow)) × (here : List OneRow)
        × EndsAs design map.now t.packets cycles past here r.outcome × Encodes (trace_of map.now.channels (all_rows past here)) r.out) }
{
    let sim = Sim::new(alloc, design, order)?;
    replay_block(alloc, sim, map, bytes, cycles)
}

/// Replays the trace of these bytes on a block.
#[tactic(auto, using(crate::proofs::PortNets::port_nets))]
fn replay_block<B: Block + Drop>(
    alloc: Global,
    block: B,
    map: &Map,
    bytes: &[u8],
    cycles: u32,
) -> Result<Replayed, Memory>
    requires lawful { IsLawful (B.design block) }
    requires mapped { IsMapOf (B.design block) map.now }
    requires trace { (t : OneTrace) × Encodes t bytes.now × (t.channels ≡ map.now.channels) }
    requires few { cycles ≤ MOST_CYCLES }
    ensures { IfOk result (λ r. (t : OneTrace) → Encodes t bytes.now → (past : List (List OneRow)) × (here : List OneRow)
        × EndsAs (B.design block) map.now t.packets cycles past here r.outcome
        × Encodes (trace_of map.now.channels (all_rows past here)) r.out) }
{
    let mut shell = ReplayMachines::new(alloc, block, map)?;
    replay_run::replay(alloc, &mut shell, map, bytes, cycles)
}

/// The answer of an outcome, where the trace of the replay has these bytes.
pub fn told(
    alloc: Global,
    trace: &Trace,
    outcome: ReplayOutcome,
    written: &[u8],
    cycles: u32,
) -> Result<Answer, Memory>
    requires trace { HasEncoding trace.now }
    requires written { (u : OneTrace) × Encodes u written.now × (u.channels ≡ trace.now.channels) }
    ensures { IfOk result (λ a. (u : OneTrace) → Encodes u written.now → u.channels ≡ trace.now.channels
        → IsReplaySaid trace.now u cycles outcome a.status (text_of a.text)) }
{
    match outcome {
        ReplayOutcome::Ended { cycles } => verdict(alloc, trace, written, cycles),
        ReplayOutcome::Short { held, waits } => {
            let text = short_lines(alloc, &held, &waits, cycles, &trace.channels)?;
            Ok(with_bytes(Status::Short { held, waits }, text))
        }
        ReplayOutcome::Unstable { channel, cycle } => {
            unstable(alloc, &trace.channels, channel, cycle)
        }
    }
}

/// The answer where the trace has ended in so many cycles.
fn verdict(alloc: Global, trace: &Trace, written: &[u8], cycles: u32) -> Result<Answer, Memory>
    requires trace { HasEncoding trace.now }
    requires written { (u : OneTrace) × Encodes u written.now × (u.channels ≡ trace.now.channels) }
    ensures { IfOk result (λ a. (u : OneTrace) → Encodes u written.now → u.channels ≡ trace.now.channels
        → IsVerdict (said.replayed_line cycles) trace.now u a.status (text_of a.text)) }
{
    let other = decoded(alloc, written)?;
    let report = vidi_bench::trace_compare::compare(alloc, trace, &other)?;
    if report.is_empty() {
        return whole(alloc, cycles);
    }
    diverged(alloc, &report, &trace.channels)
}

/// The trace that these bytes encode.
pub fn decoded(alloc: Global, bytes: &[u8]) -> Result<Trace, Memory>
    requires { (u : OneTrace) × Encodes u bytes.now }
    ensures only { IfOk result (λ t. (u : OneTrace) → Encodes u bytes.now → t ≡ u) }
{
    match decode(alloc, bytes) {
        Ok(trace) => Ok(trace),
        Err(CodeError::Memory) => Err(Memory),
        Err(CodeError::BadTrace { .. }) => unreachable!(),
    }
}

fn whole(alloc: Global, cycles: u32) -> Result<Answer, Memory>
    ensures { IfOk result (λ a. IsSaid Status.Done (said.replayed_line cycles) a.status (text_of a.text)) }
{
    let mut text = Vec::new(alloc);
    put(&mut text, b"replayed ")?;
    put_number(&mut text, cycles)?;
    put(&mut text, b" cycles, no divergence\n")?;
    Ok(with_bytes(Status::Done, Bytes::from_vec(text)))
}
