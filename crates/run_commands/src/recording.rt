//! The command `record`.

ghost use Rattle.vidi_bench.specs.vidi_answer.declared.line.TheConstants.{LINE_BYTES};
ghost use Rattle.std.specs.Prelude.{◌≡◌, ◌≤◌, [], not, Option, Ok, IfOk, IfErr, length};
ghost use Rattle.bench_run.specs.trace_model.declared.row.Row.{Row as OneRow};
ghost use Rattle.bench_run.specs.trace_model.Channel.{IsTable};
ghost use Rattle.net_design.specs.declared.values.Values.{Values};
ghost use Rattle.net_design.specs.Lawful.{IsLawful};
ghost use Rattle.net_sim.specs.net_order.Order.{IsOrder};
ghost use Rattle.bench_run.specs.run_model.MapOf.{IsMapOf};
ghost use Rattle.bench_run.specs.trace_model.declared.packet.TheConstants.{MOST_CYCLES};
ghost use Rattle.bench_run.specs.env_script.Fits.{FitsChannels};
ghost use Rattle.bench_run.specs.env_script.ScriptOffer.{script_offer};
ghost use Rattle.vidi_recorder.specs.room_ledger.Ledger.{empty};
ghost use Rattle.vidi_recorder.specs.room_ledger.Reservation.{least};
ghost use Rattle.bench_run.specs.env_script.Resets.{AreTimes};
ghost use Rattle.vidi_recorder.specs.vidi_io.vidi_bits.Findings.{is_nil};
ghost use Rattle.bench_run.specs.env_script.Reasons.{read_lines};
ghost use Rattle.bench_run.specs.env_script.Stalls.{ReadsStalls};
ghost use Rattle.vidi_recorder.specs.vidi_io.Cause.{Rose};
ghost use Rattle.vidi_recorder.specs.vidi_io.Shelf.{HasStarted, Later};
ghost use Rattle.vidi_recorder.specs.vidi_io.Writing.{IsKept};
ghost use Rattle.vidi_recorder.specs.Course.{course, sizes_of};
ghost use Rattle.vidi_recorder.specs.Recording.{FailsFor};
ghost use Rattle.vidi_bench.specs.report_text.Pad.{shown, left};
ghost use Rattle.vidi_bench.specs.AnswerText.{text_of};
ghost use Rattle.vidi_bench.specs.Benches.{AreWithin, IsBench, IsPlayable};
ghost use Rattle.vidi_bench.specs.Design.{text_limit};
ghost use Rattle.vidi_bench.specs.Ended.{EndsWith, IsStopped, Owes};
ghost use Rattle.run_commands.specs.Records.{course_of, least_for, IsCutShort, IsNewRoom, IsNoPlan, IsPlanned, IsShort, IsUnrecorded, RefusedRoom};
ghost use Rattle.run_commands.specs.Records.{Records, RecordsRun, RefusedPlanned, StopsRecording};
ghost use Rattle.run_commands.specs.Recorded.{FileEnds, FileFails, IsOutcome};

use bench_run::chan_map::Map;
use bench_run::chan_monitor::{Machines, Shell};
use bench_run::env_script::{Env, Script, ScriptEnv, StallError, Stalls, read_stalls};
use bench_run::trace_model::Channels;
use bench_run::vidi_bits::Numbers;
use net_design::{Block, Design};
use net_sim::Sim;
use net_sim::net_order::Order;
use std::alloc::Global;
use vidi_bench::report_text::Pad;
use vidi_bench::{
    Answer, Bench, Device, Ended, LINE_BYTES, Reason, Status, TEXT_LIMIT, Texts, Word, bench_of,
    read_file, read_texts, recorded_line, refused, unstable_line, with_line,
};
use vidi_recorder::room_ledger::{Room, RoomError};
use vidi_recorder::vidi_io::{Shelf, ShelfSink};
use vidi_recorder::{Outcome, RecordError, record_run};

/// What is recorded: a design with its map and script, a plan of stalls, and a store for it.
#[derive(Drop)]
pub struct Planned {
    pub bench: Bench,
    pub plan: Stalls,
    pub room: Room,
}

/// What `record` is answered. All memory is taken before the file `trace` is started.
pub fn record<S: Shelf>(
    alloc: Global,
    design: &str,
    map: &str,
    script: &str,
    stalls: &str,
    trace: &str,
    shelf: &mut S,
) -> Result<Answer, Ended>
    ensures owed { Owes (Records design.now map.now script.now stalls.now trace.now (S.files shelf.old)
        (λ name. Rose (S.read_faults shelf.old name) (S.read_faults shelf.new name)) (HasStarted (S.starts shelf.old) (S.starts shelf.new)))
        (StopsRecording design.now map.now script.now stalls.now trace.now (S.files shelf.old)
        (HasStarted (S.starts shelf.old) (S.starts shelf.new))) (Rose (S.write_faults shelf.old) (S.write_faults shelf.new))
        (IsKept (S.files shelf.old) (HasStarted (S.starts shelf.old) (S.starts shelf.new))) (S.files shelf.new) result }
    ensures counts { Later (S.read_faults shelf.old) (S.read_faults shelf.new) (S.write_faults shelf.old) (S.write_faults shelf.new) }
{
    let planned = plan_recording(alloc, design, map, script, stalls, shelf)?;
    recorded(alloc, planned, trace, shelf)
}

/// Reads the four files, and makes what they say.
fn plan_recording<S: Shelf>(
    alloc: Global,
    design: &str,
    map: &str,
    script: &str,
    stalls: &str,
    shelf: &mut S,
) -> Result<Planned, Ended>
    ensures planned { IfOk result (λ p. IsPlanned design.now map.now script.now stalls.now (S.files shelf.old) p.bench p.plan) }
    ensures playable { IfOk result (λ p. IsPlayable p.bench) }
    ensures room { IfOk result (λ p. IsNewRoom p.bench.device.map.channels p.bench.script p.plan p.room) }
    ensures refused { IfErr result (EndsWith (IsUnrecorded design.now map.now script.now stalls.now (S.files shelf.old)
        (λ name. Rose (S.read_faults shelf.old name) (S.read_faults shelf.new name)))) }
    ensures files { S.files shelf.new ≡ S.files shelf.old }
    ensures starts { S.starts shelf.new ≡ S.starts shelf.old }
    ensures counts { Later (S.read_faults shelf.old) (S.read_faults shelf.new) (S.write_faults shelf.old) (S.write_faults shelf.new) }
{
    let texts = read_texts(alloc, design, map, script, shelf)?;
    let stalls = read_file(alloc, Word::Stalls, stalls, TEXT_LIMIT, shelf)?;
    plan_texts(alloc, &texts, stalls.as_slice())
}

/// What four texts say.
pub fn plan_texts(alloc: Global, texts: &Texts, stalls: &[u8]) -> Result<Planned, Ended>
    requires within { AreWithin texts.now }
    requires stalls { length stalls.now ≤ text_limit }
    ensures bench { IfOk result (λ p. IsBench texts.now.design texts.now.map texts.now.script p.bench) }
    ensures planned { IfOk result (λ p. ReadsStalls (read_lines stalls.now) (Ok p.plan)) }
    ensures holds { IfOk result (λ p. least_for p.bench.device.map.channels p.bench.script ≤ p.plan.capacity) }
    ensures playable { IfOk result (λ p. IsPlayable p.bench) }
    ensures room { IfOk result (λ p. IsNewRoom p.bench.device.map.channels p.bench.script p.plan p.room) }
    ensures refused { IfErr result (EndsWith (RefusedPlanned texts.now.design texts.now.map texts.now.script stalls.now)) }
{
    let bench = bench_of(alloc, texts)?;
    let resets = has_resets(&bench.script);
    let store = store_of(alloc, &bench.device.map.channels, resets, stalls)?;
    let (plan, room) = store;
    Ok(Planned { bench, plan, room })
}

/// The plan of a text, and a store for it and these channels, which has room for a permit where there are resets.
pub fn store_of(
    alloc: Global,
    channels: &Channels,
    resets: bool,
    stalls: &[u8],
) -> Result<(Stalls, Room), Ended>
    requires table { IsTable channels.now }
    requires stalls { length stalls.now ≤ text_limit }
    ensures planned { IfOk result (λ s. ReadsStalls (read_lines stalls.now) (Ok s.0)) }
    ensures holds { IfOk result (λ s. least (sizes_of channels.now) resets ≤ s.0.capacity) }
    ensures room { IfOk result (λ s. s.1 ≡ empty (sizes_of channels.now) resets s.0.capacity) }
    ensures refused { IfErr result (EndsWith (RefusedRoom stalls.now (least (sizes_of channels.now) resets))) }
{
    let plan = plan_of(alloc, stalls)?;
    let room = room_for(alloc, channels, resets, &plan)?;
    Ok((plan, room))
}

/// Whether a script has resets.
fn has_resets(script: &Script) -> bool
    ensures { result ≡ not (is_nil script.now.resets) }
{
    !script.resets().is_empty()
}

/// The plan of a text.
fn plan_of(alloc: Global, text: &[u8]) -> Result<Stalls, Ended>
    requires { length text.now ≤ text_limit }
    ensures planned { IfOk result (λ plan. ReadsStalls (read_lines text.now) (Ok plan)) }
    ensures refused { IfErr result (EndsWith (IsNoPlan text.now)) }
{
    match read_stalls(alloc, text) {
        Ok(plan) => Ok(plan),
        Err(StallError::Line { line }) => Err(Ended::Refused(refused(
            alloc,
            Word::Stalls,
            Reason::StallLine { line },
        )?)),
        Err(StallError::Memory) => Err(Ended::Memory),
    }
}

/// The store of a plan for these channels; resets want a permit.
fn room_for(alloc: Global, channels: &Channels, resets: bool, plan: &Stalls) -> Result<Room, Ended>
    requires { IsTable channels.now }
    ensures room { IfOk result (λ room. room ≡ empty (sizes_of channels.now) resets plan.now.capacity) }
    ensures holds { IfOk result (λ room. least (sizes_of channels.now) resets ≤ plan.now.capacity) }
    ensures refused { IfErr result (EndsWith (IsShort (least (sizes_of channels.now) resets) plan.now)) }
{
    match Room::new(alloc, channels, resets, plan.capacity()) {
        Ok(room) => Ok(room),
        Err(RoomError::TooSmall { need, given }) => Err(Ended::Refused(refused(
            alloc,
            Word::Stalls,
            Reason::TooSmall {
                need: u64::from(need),
                given,
            },
        )?)),
        Err(RoomError::Memory) => Err(Ended::Memory),
    }
}

/// Records the run into the file `trace`, and says how it ended.
fn recorded<S: Shelf>(
    alloc: Global,
    planned: Planned,
    trace: &str,
    shelf: &mut S,
) -> Result<Answer, Ended>
    requires playable { IsPlayable planned.bench }
    requires room { IsNewRoom planned.bench.device.map.channels planned.bench.script planned.plan planned.room }
    ensures done { IfOk result (λ a. RecordsRun (course_of planned.bench planned.plan) trace.now (S.files shelf.old)
        (HasStarted (S.starts shelf.old) (S.starts shelf.new)) a.status (text_of a.text) (S.files shelf.new)) }
    ensures stopped { IfErr result (IsStopped (IsCutShort (course_of planned.bench planned.plan) (S.files shelf.old) trace.now
        (HasStarted (S.starts shelf.old) (S.starts shelf.new))) (Rose (S.write_faults shelf.old) (S.write_faults shelf.new))
        (IsKept (S.files shelf.old) (HasStarted (S.starts shelf.old) (S.starts shelf.new))) (S.files shelf.new)) }
    ensures counts { Later (S.read_faults shelf.old) (S.read_faults shelf.new) (S.write_faults shelf.old) (S.write_faults shelf.new) }
{
    let line = Pad::new(alloc, LINE_BYTES)?;
    recorded_with(alloc, planned, line, trace, shelf)
}

/// The same, with memory for the line that is said.
fn recorded_with<S: Shelf>(
    alloc: Global,
    planned: Planned,
    line: Pad,
    trace: &str,
    shelf: &mut S,
) -> Result<Answer, Ended>
    requires playable { IsPlayable planned.bench }
    requires room { IsNewRoom planned.bench.device.map.channels planned.bench.script planned.plan planned.room }
    requires empty { shown line ≡ [] }
    requires line { left line ≡ LINE_BYTES }
    ensures done { IfOk result (λ a. RecordsRun (course_of planned.bench planned.plan) trace.now (S.files shelf.old)
        (HasStarted (S.starts shelf.old) (S.starts shelf.new)) a.status (text_of a.text) (S.files shelf.new)) }
    ensures stopped { IfErr result (IsStopped (IsCutShort (course_of planned.bench planned.plan) (S.files shelf.old) trace.now
        (HasStarted (S.starts shelf.old) (S.starts shelf.new))) (Rose (S.write_faults shelf.old) (S.write_faults shelf.new))
        (IsKept (S.files shelf.old) (HasStarted (S.starts shelf.old) (S.starts shelf.new))) (S.files shelf.new)) }
    ensures counts { Later (S.read_faults shelf.old) (S.read_faults shelf.new) (S.write_faults shelf.old) (S.write_faults shelf.new) }
{
    let Planned { bench, plan, room } = planned;
    let Bench { device, script } = bench;
    let Device { design, order, map } = device;
    match record_sim(
        alloc, design, order, &map, &script, &plan, room, trace, shelf,
    ) {
        Ok(outcome) => Ok(told(outcome, script.cycles(), &map.channels, line)),
        Err(RecordError::WriteFault) => Err(Ended::WriteFault),
        Err(RecordError::Memory) => Err(Ended::Memory),
    }
}

/// Records the run of a design in the environment of a script.
pub fn record_sim<S: Shelf>(
    alloc: Global,
    design: Design,
    order: Order,
    map: &Map,
    script: &Script,
    plan: &Stalls,
    room: Room,
    trace: &str,
    shelf: &mut S,
) -> Result<Outcome, RecordError>
    requires lawful { IsLawful design }
    requires order { IsOrder design order.drivers }
    requires mapped { IsMapOf design map.now }
    requires fits { FitsChannels map.now.channels script.now }
    requires room { IsNewRoom map.now.channels script.now plan.now room }
    ensures ended { IfOk result (FileEnds (course design map.now (script_offer script.now) plan.now script.now.resets script.now.cycles)
        (S.files shelf.old) trace.now (HasStarted (S.starts shelf.old) (S.starts shelf.new)) (S.files shelf.new)) }
    ensures failed { IfErr result (FileFails (course design map.now (script_offer script.now) plan.now script.now.resets script.now.cycles)
        (S.files shelf.old) trace.now (HasStarted (S.starts shelf.old) (S.starts shelf.new)) (S.files shelf.new)) }
    ensures cause { IfErr result (FailsFor (S.write_faults shelf.old) (S.write_faults shelf.new)) }
    ensures counts { Later (S.read_faults shelf.old) (S.read_faults shelf.new) (S.write_faults shelf.old) (S.write_faults shelf.new) }
{
    let sim = Sim::new(alloc, design, order)?;
    record_block(alloc, sim, map, script, plan, room, trace, shelf)
}

/// Records the run of a block in the environment of a script.
#[tactic(auto, using(crate::proofs::PortNets::port_nets))]
fn record_block<B: Block + Drop, S: Shelf>(
    alloc: Global,
    block: B,
    map: &Map,
    script: &Script,
    plan: &Stalls,
    room: Room,
    trace: &str,
    shelf: &mut S,
) -> Result<Outcome, RecordError>
    requires lawful { IsLawful (B.design block) }
    requires mapped { IsMapOf (B.design block) map.now }
    requires fits { FitsChannels map.now.channels script.now }
    requires room { IsNewRoom map.now.channels script.now plan.now room }
    ensures ended { IfOk result (FileEnds (course (B.design block) map.now (script_offer script.now) plan.now script.now.resets script.now.cycles)
        (S.files shelf.old) trace.now (HasStarted (S.starts shelf.old) (S.starts shelf.new)) (S.files shelf.new)) }
    ensures failed { IfErr result (FileFails (course (B.design block) map.now (script_offer script.now) plan.now script.now.resets script.now.cycles)
        (S.files shelf.old) trace.now (HasStarted (S.starts shelf.old) (S.starts shelf.new)) (S.files shelf.new)) }
    ensures cause { IfErr result (FailsFor (S.write_faults shelf.old) (S.write_faults shelf.new)) }
    ensures counts { Later (S.read_faults shelf.old) (S.read_faults shelf.new) (S.write_faults shelf.old) (S.write_faults shelf.new) }
{
    let mut shell = Machines::new(alloc, block, map)?;
    let mut env = ScriptEnv::new(alloc, script, map)?;
    record_file(
        alloc,
        &mut shell,
        map,
        &mut env,
        plan,
        script.resets(),
        room,
        script.cycles(),
        trace,
        shelf,
    )
}

/// Records the run of a shell into the file `trace`.
pub fn record_file<S: Shell, E: Env, F: Shelf>(
    alloc: Global,
    shell: &mut S,
    map: &Map,
    env: &mut E,
    plan: &Stalls,
    resets: &Numbers,
    room: Room,
    cycles: u32,
    trace: &str,
    shelf: &mut F,
) -> Result<Outcome, RecordError>
    requires table { IsTable map.now.channels }
    requires mapped { S.map shell.old ≡ map.now }
    requires channels { E.channels env.old ≡ map.now.channels }
    requires first { E.stands_for env.old [] }
    requires room { room ≡ empty (sizes_of map.now.channels) (not (is_nil resets.now)) plan.now.capacity }
    requires times { AreTimes resets.now }
    requires some { 1 ≤ cycles }
    requires few { cycles ≤ MOST_CYCLES }
    ensures ended { IfOk result (λ outcome. (d : Design) (s : Values) (before : Option OneRow) → S.runs shell.old d s before
        → FileEnds (course d map.now (E.offer (E.plan env.old)) plan.now resets.now cycles) (F.files shelf.old) trace.now
        (HasStarted (F.starts shelf.old) (F.starts shelf.new)) (F.files shelf.new) outcome) }
    ensures failed { IfErr result (λ e. (d : Design) (s : Values) (before : Option OneRow) → S.runs shell.old d s before → IsLawful d
        → FileFails (course d map.now (E.offer (E.plan env.old)) plan.now resets.now cycles) (F.files shelf.old) trace.now
        (HasStarted (F.starts shelf.old) (F.starts shelf.new)) (F.files shelf.new) e) }
    ensures cause { IfErr result (FailsFor (F.write_faults shelf.old) (F.write_faults shelf.new)) }
    ensures counts { Later (F.read_faults shelf.old) (F.read_faults shelf.new) (F.write_faults shelf.old) (F.write_faults shelf.new) }
{
    let mut sink = ShelfSink::new(shelf, trace);
    record_run(
        alloc, shell, map, env, plan, resets, room, cycles, &mut sink,
    )
}

/// The answer of an outcome, with its line in memory that was taken before.
pub fn told(outcome: Outcome, cycles: u32, channels: &Channels, line: Pad) -> Answer
    requires table { IsTable channels.now }
    requires empty { shown line ≡ [] }
    requires room { left line ≡ LINE_BYTES }
    ensures { IsOutcome channels.now cycles outcome result.status (text_of result.text) }
{
    match outcome {
        Outcome::Whole { packets } => with_line(Status::Done, recorded_line(line, cycles, packets)),
        Outcome::Unstable {
            channel,
            cycle,
            packets: _,
        } => with_line(
            Status::Unstable { channel, cycle },
            unstable_line(line, channels, channel, cycle),
        ),
    }
}
