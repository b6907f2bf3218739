//! Traces that are read, and what is said of the findings of two.

ghost use Rattle.std.specs.Prelude.{◌≡◌, ◌<◌, ◌^◌, IfOk, IfErr, MatchOption, length};
ghost use Rattle.trace_v2.specs.trace_code.Encoding.{Encodes};
ghost use Rattle.trace_v2.specs.trace_code.NoReset.{HasNoReset};
ghost use Rattle.vidi_answer.specs.AnswerText.{text_of};
ghost use Rattle.vidi_answer.specs.Ended.{EndsWith};
ghost use Rattle.vidi_answer.specs.Said as said;
ghost use Rattle.vidi_answer.specs.Steps.{IsSaid};
ghost use Rattle.vidi_answer.specs.Traces.{HasReset, IsFirstReset, IsNoTrace};

use crate::answer::{Answer, Ended, refused, with_bytes};
use crate::status::{Reason, Status, Word};
use report_text::trace_compare::Report;
use report_text::vidi_io::vidi_bits::{Bytes, Memory};
use report_text::{put, report_lines};
use std::alloc::Global;
use trace_v2::begins_old;
use trace_v2::trace_code::trace_model::{Channels, Packet, Trace};
use trace_v2::trace_code::{CodeError, decode};

/// The trace of the bytes of this word's file, which is refused where they begin as those of an old trace do.
pub fn trace_of(alloc: Global, word: Word, file: &[u8]) -> Result<Trace, Ended>
    ensures decoded { IfOk result (λ t. Encodes t file.now) }
    ensures refused { IfErr result (EndsWith (IsNoTrace word file.now)) }
{
    if begins_old(file) {
        let answer = refused(alloc, word, Reason::OldTrace)?;
        return Err(Ended::Refused(answer));
    }
    match decode(alloc, file) {
        Ok(trace) => Ok(trace),
        Err(CodeError::BadTrace { at }) => {
            let answer = refused(alloc, word, Reason::BadTrace { at })?;
            Err(Ended::Refused(answer))
        }
        Err(CodeError::Memory) => Err(Ended::Memory),
    }
}

/// The trace of this word's file, where none of its packets is a reset.
pub fn without_reset(alloc: Global, word: Word, trace: Trace) -> Result<Trace, Ended>
    requires { length trace.packets < 2 ^ 32 }
    ensures same { IfOk result (λ t. t ≡ trace) }
    ensures none { IfOk result (λ t. HasNoReset t.packets) }
    ensures refused { IfErr result (EndsWith (HasReset word trace.packets)) }
{
    match first_reset(trace.packets.as_slice()) {
        None => Ok(trace),
        Some(index) => {
            let answer = refused(alloc, word, Reason::HasReset { index })?;
            Err(Ended::Refused(answer))
        }
    }
}

/// The number of the first packet that is a reset.
fn first_reset(packets: &[Packet]) -> Option<u32>
    requires { length packets.now < 2 ^ 32 }
    ensures { MatchOption result (HasNoReset packets.now) (IsFirstReset packets.now) }
{
    for (index, packet) in packets.iter().enumerate() {
        if packet.reset {
            return Some(index as u32);
        }
    }
    None
}

/// The answer of traces that have these findings.
pub fn diverged(alloc: Global, report: &Report, channels: &Channels) -> Result<Answer, Memory>
    ensures { IfOk result (λ a. IsSaid Status.Diverged (said.diverged_text report.now channels.now) a.status (text_of a.text)) }
{
    let text = diverged_text(alloc, report, channels)?;
    Ok(with_bytes(Status::Diverged, text))
}

/// The lines of the findings, and that the traces diverged.
pub fn diverged_text(alloc: Global, report: &Report, channels: &Channels) -> Result<Bytes, Memory>
    ensures { IfOk result (λ text. text ≡ said.diverged_text report.now channels.now) }
{
    let mut text = report_lines(alloc, report, channels)?.into_vec();
    put(&mut text, b"diverged\n")?;
    Ok(Bytes::from_vec(text))
}
