//! The command `bursts`.

ghost use Rattle.std.specs.Prelude.{◌≡◌, ◌≤◌, Ok, IfOk, IfErr, length};
ghost use Rattle.axi_burst.specs.declared.axi_text.AxiText.{AxiText as OneText};
ghost use Rattle.axi_burst.specs.Binding.{BindsAxi};
ghost use Rattle.axi_burst.specs.Bursts.{broken};
ghost use Rattle.axi_burst.specs.Reading.{ReadsAxi};
ghost use Rattle.axi_burst.specs.Text as said;
ghost use Rattle.vidi_answer.specs.trace_code.Encoding.{HasEncoding};
ghost use Rattle.vidi_answer.specs.trace_code.NoReset.{HasNoReset};
ghost use Rattle.vidi_answer.specs.vidi_io.Cause.{Rose};
ghost use Rattle.vidi_answer.specs.vidi_io.Shelf.{Later};
ghost use Rattle.vidi_answer.specs.AnswerText.{text_of};
ghost use Rattle.vidi_answer.specs.Said.{name_of};
ghost use Rattle.vidi_answer.specs.Ended.{EndsWith, IsAnswered};
ghost use Rattle.vidi_answer.specs.Steps.{IsRefusal, IsRefusalFor, IsSaid, Never};
ghost use Rattle.trace_commands.specs.Bursts as owed;
ghost use Rattle.trace_commands.specs.Bursts.{Grouped, GroupedFiles, IsFit, IsNoAxi, IsUnbound, IsUnfit, Porting, axi_reason, broken_reason, text_limit};

use axi_burst::{Axi, AxiError, AxiText, BurstError, Bursts, bind_axi, burst_text, read_axi};
use std::alloc::Global;
use vidi_answer::trace_code::TRACE_LIMIT;
use vidi_answer::trace_code::trace_model::{Channels, Trace};
use vidi_answer::trace_code::vidi_bits::{Bytes, Memory, copied};
use vidi_answer::vidi_io::Shelf;
use vidi_answer::{
    Answer, Ended, Reason, Status, TEXT_LIMIT, Word, read_file, refused, trace_of, with_bytes,
    without_reset,
};

/// What `bursts` is answered.
pub fn bursts<S: Shelf>(
    alloc: Global,
    trace: &str,
    axi: &str,
    shelf: &mut S,
) -> Result<Answer, Ended>
    ensures answered { IsAnswered (owed.Bursts trace.now axi.now (S.files shelf.old)
        (λ name. Rose (S.read_faults shelf.old name) (S.read_faults shelf.new name))) result }
    ensures files { S.files shelf.new ≡ S.files shelf.old }
    ensures starts { S.starts shelf.new ≡ S.starts shelf.old }
    ensures counts { Later (S.read_faults shelf.old) (S.read_faults shelf.new) (S.write_faults shelf.old) (S.write_faults shelf.new) }
{
    let file = read_file(alloc, Word::Trace, trace, TRACE_LIMIT, shelf)?;
    let text = read_file(alloc, Word::Axi, axi, TEXT_LIMIT, shelf)?;
    grouped_files(alloc, file, text.as_slice())
}

/// What is answered of the bytes of two files.
fn grouped_files(alloc: Global, file: Bytes, text: &[u8]) -> Result<Answer, Ended>
    requires { length text.now ≤ text_limit }
    ensures { IsAnswered (GroupedFiles file text.now) result }
{
    let trace = fit_trace(alloc, file)?;
    let axi = axi_over(alloc, text, &trace.channels)?;
    Ok(grouped(alloc, &trace, &axi)?)
}

/// The trace of a file's bytes, which are let go, where none of its packets is a reset.
fn fit_trace(alloc: Global, file: Bytes) -> Result<Trace, Ended>
    ensures fit { IfOk result (IsFit file) }
    ensures refused { IfErr result (EndsWith (IsUnfit file)) }
{
    let trace = trace_of(alloc, Word::Trace, file.as_slice())?;
    without_reset(alloc, Word::Trace, trace)
}

/// What the bytes of an AXI file say of channels.
pub fn axi_over(alloc: Global, text: &[u8], channels: &Channels) -> Result<Axi, Ended>
    requires { length text.now ≤ text_limit }
    ensures bound { IfOk result (λ axi. (said : OneText) × ReadsAxi text.now (Ok said) × BindsAxi said channels.now (Ok axi)) }
    ensures refused { IfErr result (EndsWith (Porting text.now channels.now (λ _. Never))) }
{
    let said = axi_text(alloc, text)?;
    bound_axi(alloc, &said, channels)
}

fn axi_text(alloc: Global, text: &[u8]) -> Result<AxiText, Ended>
    requires { length text.now ≤ text_limit }
    ensures said { IfOk result (λ said. ReadsAxi text.now (Ok said)) }
    ensures refused { IfErr result (EndsWith (IsNoAxi text.now)) }
{
    match read_axi(alloc, text) {
        Ok(said) => Ok(said),
        Err(error) => Err(Ended::Refused(refused_axi(alloc, error)?)),
    }
}

fn bound_axi(alloc: Global, said: &AxiText, channels: &Channels) -> Result<Axi, Ended>
    ensures bound { IfOk result (λ axi. BindsAxi said.now channels.now (Ok axi)) }
    ensures refused { IfErr result (EndsWith (IsUnbound said.now channels.now)) }
{
    match bind_axi(said, channels) {
        Ok(axi) => Ok(axi),
        Err(error) => Err(Ended::Refused(refused_axi(alloc, error)?)),
    }
}

/// The answer that refuses an AXI file.
fn refused_axi(alloc: Global, error: AxiError) -> Result<Answer, Memory>
    ensures { IfOk result (λ a. IsRefusalFor Word.Axi (axi_reason error) a.status (text_of a.text)) }
{
    match error {
        AxiError::Line { line } => refused(alloc, Word::Axi, Reason::AxiLine { line }),
        AxiError::Port { line } => refused(alloc, Word::Axi, Reason::AxiPort { line }),
        AxiError::Memory => Err(Memory),
    }
}

/// What is answered of a trace over whose channels an AXI file says this.
fn grouped(alloc: Global, trace: &Trace, axi: &Axi) -> Result<Answer, Memory>
    requires encodes { HasEncoding trace.now }
    requires no_reset { HasNoReset trace.now.packets }
    requires bound { (said : OneText) × BindsAxi said trace.now.channels (Ok axi.now) }
    ensures { IfOk result (λ a. Grouped trace.now axi.now a.status (text_of a.text)) }
{
    match axi_burst::bursts(alloc, trace, axi) {
        Ok(bursts) => told(alloc, &bursts),
        Err(
            BurstError::Broken {
                rule,
                channel,
                index,
            },
        ) => refused_broken(alloc, &trace.channels, rule, channel, index),
        Err(BurstError::Memory) => Err(Memory),
    }
}

/// The answer that refuses a trace over these channels, which breaks this rule.
fn refused_broken(
    alloc: Global,
    channels: &Channels,
    rule: u32,
    channel: usize,
    index: u32,
) -> Result<Answer, Memory>
    ensures { IfOk result (λ a. IsRefusal Word.Trace (broken_reason channels.now (broken rule channel index)) a.status (text_of a.text)) }
{
    let channel = copied(alloc, channel_name(channels, channel))?;
    refused(
        alloc,
        Word::Trace,
        Reason::Broken {
            rule,
            channel,
            index,
        },
    )
}

/// The name of a channel.
fn channel_name(channels: &Channels, channel: usize) -> &[u8]
    ensures { result.now ≡ name_of channels.now channel }
{
    match channels.get(channel) {
        Some(channel) => channel.name.as_slice(),
        None => b"",
    }
}

fn told(alloc: Global, bursts: &Bursts) -> Result<Answer, Memory>
    ensures { IfOk result (λ a. IsSaid Status.Done (said.burst_text bursts.now) a.status (text_of a.text)) }
{
    let text = burst_text(alloc, bursts)?;
    Ok(with_bytes(Status::Done, text))
}
