//! The command `sample`.

ghost use Rattle.std.specs.Prelude.{◌≡◌, ◌≤◌, ◌++◌, Some, IsSome, IfOk, IfErr, OnOk, length};
ghost use Rattle.sample_gen.specs.trace_model.declared.trace.Trace.{Trace as OneTrace};
ghost use Rattle.replay_command.specs.trace_code.Encoding.{Encodes, HasEncoding};
ghost use Rattle.sample_gen.specs.declared.generate.TheConstants.{LARGEST};
ghost use Rattle.replay_command.specs.vidi_bench.AnswerText.{text_of};
ghost use Rattle.replay_command.specs.vidi_bench.Benches.{AreWithin, IsPlayable};
ghost use Rattle.replay_command.specs.vidi_bench.Design.{text_limit};
ghost use Rattle.replay_command.specs.vidi_bench.Devices.{IsRunnable};
ghost use Rattle.replay_command.specs.vidi_bench.Ended.{EndsWith, IsAnswered};
ghost use Rattle.run_commands.specs.Records.{course_of, IsNewRoom};
ghost use Rattle.sample_command.specs.Said as said;
ghost use Rattle.sample_command.specs.Sampled as on_shelf;
ghost use Rattle.sample_command.specs.Sampled.{AreShort, HasTrace, IsTraceOf, IsUnstable};
ghost use Rattle.sample_command.specs.Samples.{IsSampleReplay, IsSampleSaid, IsSampleVerdict, IsTraced, IsUntraced, Samples, SamplesFiles, SamplesReplay};
ghost use Rattle.replay_command.specs.vidi_bench.Steps.{IsSaid};

use replay_command::replay_run::{ReplayOutcome, Replayed};
use replay_command::report_text::{put, put_number};
use replay_command::trace_compare::Report;
use replay_command::vidi_bench::{
    Answer, Bench, Device, Ended, Status, Texts, device_of, diverged_text, unstable, with_bytes,
};
use replay_command::vidi_io::{Fails, MemShelf};
use replay_command::{decoded, played, trace_over};
use run_commands::vidi_recorder::Outcome;
use run_commands::{Planned, plan_texts, record_sim};
use sample_gen::Sample;
use sample_gen::trace_model::{Channels, MOST_CYCLES, Trace};
use sample_gen::vidi_bits::{Bytes, Memory};
use std::alloc::Global;

/// The name of the trace, on a shelf in memory.
const TRACE: &str = "trace";

/// What the line of a sample tells of its files.
#[derive(Clone, Copy)]
pub struct Figures {
    pub number: u32,
    pub stages: u32,
    pub sends: u32,
    pub cycles: u32,
}

/// What `sample` is answered: the files of the sample are recorded and replayed in memory. No file of a shelf is touched.
pub fn sample(alloc: Global, number: u32) -> Result<Answer, Ended>
    requires { number ≤ LARGEST }
    ensures { IsAnswered (Samples number) result }
{
    let files = sample_gen::sample(alloc, number)?;
    sampled(alloc, number, files)
}

/// What is answered of the files of a sample.
fn sampled(alloc: Global, number: u32, files: Sample) -> Result<Answer, Ended>
    requires { AreShort files }
    ensures { IsAnswered (SamplesFiles number files) result }
{
    let Sample {
        design,
        map,
        script,
        stalls,
        stages,
        sends,
        cycles,
    } = files;
    let texts = Texts {
        design,
        map,
        script,
    };
    let figures = Figures {
        number,
        stages,
        sends,
        cycles,
    };
    let shelf = traced(alloc, &texts, stalls.as_slice())?;
    replayed_texts(alloc, figures, &texts, trace_on(&shelf))
}

/// Records four texts on a shelf in memory.
fn traced(alloc: Global, texts: &Texts, stalls: &[u8]) -> Result<MemShelf, Ended>
    requires within { AreWithin texts.now }
    requires stalls { length stalls.now ≤ text_limit }
    ensures traced { IfOk result (HasTrace (IsTraced texts.now.design texts.now.map texts.now.script stalls.now)) }
    ensures refused { IfErr result (EndsWith (IsUntraced texts.now.design texts.now.map texts.now.script stalls.now)) }
{
    let planned = plan_texts(alloc, texts, stalls)?;
    recorded(alloc, planned)
}

/// Records the run on a shelf in memory.
fn recorded(alloc: Global, planned: Planned) -> Result<MemShelf, Ended>
    requires playable { IsPlayable planned.bench }
    requires room { IsNewRoom planned.bench.device.map.channels planned.bench.script planned.plan planned.room }
    ensures traced { IfOk result (HasTrace (IsTraceOf (course_of planned.bench planned.plan))) }
    ensures refused { IfErr result (EndsWith (IsUnstable (course_of planned.bench planned.plan))) }
{
    let Planned { bench, plan, room } = planned;
    let Bench { device, script } = bench;
    let Device { design, order, map } = device;
    let mut shelf = MemShelf::new(alloc, Fails::new(alloc));
    match record_sim(
        alloc, design, order, &map, &script, &plan, room, TRACE, &mut shelf,
    ) {
        Ok(Outcome::Whole { packets: _ }) => Ok(shelf),
        Ok(
            Outcome::Unstable {
                channel,
                cycle,
                packets: _,
            },
        ) => Err(Ended::Refused(unstable(alloc, &map.channels, channel, cycle)?)),
        // A write into memory fails only for want of it.
        Err(_) => Err(Ended::Memory),
    }
}

/// The bytes of the trace on the shelf.
fn trace_on(shelf: &MemShelf) -> &[u8]
    requires { IsSome (on_shelf.trace_on shelf.now) }
    ensures { on_shelf.trace_on shelf.now ≡ Some result.now }
{
    match shelf.file(TRACE) {
        Some(bytes) => bytes,
        None => unreachable!(),
    }
}

/// Replays the trace of these bytes on the design of two texts.
fn replayed_texts(
    alloc: Global,
    figures: Figures,
    texts: &Texts,
    bytes: &[u8],
) -> Result<Answer, Ended>
    requires { AreWithin texts.now }
    ensures { IsAnswered (SamplesReplay figures texts.now.design texts.now.map bytes.now) result }
{
    let device = device_of(alloc, texts.design.as_slice(), texts.map.as_slice())?;
    let trace = trace_over(alloc, bytes, &device.map)?;
    let answer = replayed(alloc, figures, device, &trace, bytes)?;
    Ok(answer)
}

/// Replays a trace, which these bytes encode, and says how the replay ended.
fn replayed(
    alloc: Global,
    figures: Figures,
    device: Device,
    trace: &Trace,
    bytes: &[u8],
) -> Result<Answer, Memory>
    requires runnable { IsRunnable device }
    requires encodes { Encodes trace.now bytes.now }
    requires same { trace.now.channels ≡ device.map.channels }
    ensures { IfOk result (λ a. IsSampleReplay figures device trace.now a.status (text_of a.text)) }
{
    let Replayed { outcome, out } = played(alloc, device, bytes, MOST_CYCLES)?;
    told(alloc, figures, trace, outcome, out.as_slice())
}

/// The answer of an outcome, where the trace of the replay has these bytes.
fn told(
    alloc: Global,
    figures: Figures,
    trace: &Trace,
    outcome: ReplayOutcome,
    written: &[u8],
) -> Result<Answer, Memory>
    requires trace { HasEncoding trace.now }
    requires written { (u : OneTrace) × Encodes u written.now × (u.channels ≡ trace.now.channels) }
    ensures { IfOk result (λ a. (u : OneTrace) → Encodes u written.now → u.channels ≡ trace.now.channels
        → IsSampleSaid figures trace.now u outcome a.status (text_of a.text)) }
{
    match outcome {
        ReplayOutcome::Ended { cycles } => verdict(alloc, figures, trace, written, cycles),
        other => replay_command::told(alloc, trace, other, written, MOST_CYCLES),
    }
}

/// The answer where the trace has ended in so many cycles.
fn verdict(
    alloc: Global,
    figures: Figures,
    trace: &Trace,
    written: &[u8],
    cycles: u32,
) -> Result<Answer, Memory>
    requires trace { HasEncoding trace.now }
    requires written { (u : OneTrace) × Encodes u written.now × (u.channels ≡ trace.now.channels) }
    ensures { IfOk result (λ a. (u : OneTrace) → Encodes u written.now → u.channels ≡ trace.now.channels
        → IsSampleVerdict (said.sample_line figures (length trace.now.packets) cycles) trace.now u a.status (text_of a.text)) }
{
    let other = decoded(alloc, written)?;
    let report = replay_command::trace_compare::compare(alloc, trace, &other)?;
    let line = sample_line(alloc, figures, trace.packets.len(), cycles)?;
    if report.is_empty() {
        return Ok(with_bytes(Status::Done, Bytes::from_vec(line)));
    }
    diverged_behind(alloc, line, &report, &trace.channels)
}

/// The answer with a line and the findings behind it.
fn diverged_behind(
    alloc: Global,
    line: Vec<u8>,
    report: &Report,
    channels: &Channels,
) -> Result<Answer, Memory>
    ensures { IfOk result (λ a. IsSaid Status.Diverged (line.items ++ said.diverged_text report.now channels.now) a.status (text_of a.text)) }
{
    let mut text = line;
    let findings = diverged_text(alloc, report, channels)?;
    put(&mut text, findings.as_slice())?;
    Ok(with_bytes(Status::Diverged, Bytes::from_vec(text)))
}

/// The line of a sample, whose recording has so many packets and whose replay so many cycles.
fn sample_line(
    alloc: Global,
    figures: Figures,
    packets: usize,
    replay: u32,
) -> Result<Vec<u8>, Memory>
    ensures { IfOk result (λ line. line.items ≡ said.sample_line figures packets replay) }
{
    let mut line = Vec::new(alloc);
    put_figures(&mut line, figures)?;
    put(&mut line, b" packets ")?;
    put_number(&mut line, packets)?;
    put(&mut line, b" replay ")?;
    put_number(&mut line, replay)?;
    put(&mut line, b"\n")?;
    Ok(line)
}

/// Adds what the line tells of the files.
fn put_figures(line: &mut Vec<u8>, figures: Figures) -> Result<(), Memory>
    ensures { OnOk result (line.new.items ≡ line.old.items ++ said.sample_figures figures) }
{
    put(line, b"sample ")?;
    put_number(line, figures.number)?;
    put(line, b": stages ")?;
    put_number(line, figures.stages)?;
    put(line, b" sends ")?;
    put_number(line, figures.sends)?;
    put(line, b" cycles ")?;
    put_number(line, figures.cycles)
}
