//! Answers: a status, and the text that is said with it; and what ends a command before its answer.

ghost use Rattle.std.specs.Prelude.{◌≡◌, OnOk, OnErr, IfOk};
ghost use Rattle.std.specs.Io.KnownBytes.{append_known};
ghost use Rattle.report_text.specs.vidi_io.Cause.{HasCause};
ghost use Rattle.report_text.specs.vidi_io.Sink.{AppendsSome, Frame};
ghost use Rattle.vidi_answer.specs.AnswerText.{text_of};
ghost use Rattle.report_text.specs.Reason.{reason_line};
ghost use Rattle.vidi_answer.specs.Usage.{usage_line};

use crate::status::{Reason, Status, Word};
use report_text::vidi_io::vidi_bits::{Bytes, Memory};
use report_text::vidi_io::{Failed, Sink};
use report_text::{Pad, RunLines, TraceLines, reason_line};
use std::alloc::Global;

/// A text that is still to be said, with all memory that saying it takes.
#[derive(Drop)]
pub enum AnswerText {
    /// These bytes.
    Bytes(Bytes),
    /// The lines of a trace.
    Trace(TraceLines),
    /// The lines of a run.
    Run(RunLines),
    /// A line in memory that was taken before.
    Line(Pad),
}

/// A status, and the text that is said with it.
#[derive(Drop)]
pub struct Answer {
    pub status: Status,
    pub text: AnswerText,
}

/// What ends a command before its answer.
#[derive(Drop)]
pub enum Ended {
    /// This is answered in its place.
    Refused(Answer),
    /// A write of its file failed.
    WriteFault,
    /// No memory was found.
    Memory,
}

impl From<Memory> for Ended {
    ghost use Rattle.vidi_answer.specs.declared.answer.Ended.TheVariants as ends;

    ghost from_gives = { λ _ e. e ≡ ends.Memory };

    fn from(_error: Memory) -> Ended {
        Ended::Memory
    }
}

impl AnswerText {
    /// Writes the text. After `Failed` some front of it was written.
    pub fn push<O: Sink>(self, out: &mut O) -> Result<(), Failed>
        ensures ok { OnOk result (O.told out.new ≡ append_known (O.told out.old) (text_of self)) }
        ensures err { OnErr result (AppendsSome (O.told out.old) (O.told out.new) (text_of self)) }
        ensures cause { HasCause (O.faults out.old) (O.faults out.new) result }
        ensures place { O.place out.new ≡ O.place out.old }
        ensures frame { (f : Frame) → O.has_frame out.old f → O.has_frame out.new f }
    {
        match self {
            AnswerText::Bytes(bytes) => out.push(bytes.as_slice()),
            AnswerText::Trace(lines) => lines.print(out),
            AnswerText::Run(lines) => lines.print(out),
            AnswerText::Line(line) => out.push(line.as_slice()),
        }
    }
}

/// The answer of this status with these bytes.
pub fn with_bytes(status: Status, bytes: Bytes) -> Answer
    ensures status { result.status ≡ status }
    ensures text { text_of result.text ≡ bytes }
{
    Answer {
        status,
        text: AnswerText::Bytes(bytes),
    }
}

/// The answer for words that give no command.
pub fn usage(alloc: Global) -> Result<Answer, Memory>
    ensures { IfOk result (λ a. (a.status ≡ Status.Usage) × (text_of a.text ≡ usage_line)) }
{
    let text = Vec::from_slice(alloc, b"vidi: usage\n")?;
    Ok(with_bytes(Status::Usage, Bytes::from_vec(text)))
}

/// The answer for a file that isn't accepted.
pub fn refused(alloc: Global, word: Word, reason: Reason) -> Result<Answer, Memory>
    ensures { IfOk result (λ a. (a.status ≡ Status.Refused word reason) × (text_of a.text ≡ reason_line word reason)) }
{
    let line = reason_line(alloc, word, &reason)?;
    Ok(with_bytes(Status::Refused { word, reason }, line))
}
