//! The last lines of runs, in memory that was taken before, and the answer of an unstable run.

ghost use Rattle.vidi_answer.specs.declared.line.TheConstants.{LINE_BYTES};
ghost use Rattle.std.specs.Prelude.{◌≡◌, ◌≤◌, ◌+◌, ◌++◌, [], IfOk, decimal};
ghost use Rattle.report_text.specs.run_model.trace_model.Channel.{IsTable};
ghost use Rattle.report_text.specs.Pad.{shown, left};
ghost use Rattle.vidi_answer.specs.AnswerText.{text_of};
ghost use Rattle.vidi_answer.specs.Steps.{IsSaid};
ghost use Rattle.vidi_answer.specs.Said as said;

use crate::answer::{Answer, AnswerText};
use crate::status::Status;
use itoa::Buffer;
use report_text::Pad;
use report_text::run_model::trace_model::Channels;
use report_text::vidi_io::vidi_bits::Memory;
use std::alloc::Global;

/// Room for the longest of these lines, in bytes.
pub const LINE_BYTES: usize = 256;

/// `recorded N cycles N packets`.
pub fn recorded_line(line: Pad, cycles: u32, packets: u32) -> Pad
    requires empty { shown line ≡ [] }
    requires room { left line ≡ LINE_BYTES }
    ensures { shown result ≡ said.recorded_line cycles packets }
{
    let mut line = line;
    line.put(b"recorded ");
    put_number(&mut line, cycles);
    line.put(b" cycles ");
    put_number(&mut line, packets);
    line.put(b" packets\n");
    line
}

/// `vidi: unstable CH cycle N`, with the name of this channel.
#[tactic(auto, using(crate::proofs::Names::short_name))]
pub fn unstable_line(line: Pad, channels: &Channels, channel: usize, cycle: u32) -> Pad
    requires table { IsTable channels.now }
    requires empty { shown line ≡ [] }
    requires room { left line ≡ LINE_BYTES }
    ensures { shown result ≡ said.unstable_line channels.now channel cycle }
{
    let mut line = line;
    line.put(b"vidi: unstable ");
    line.put(channel_name(channels, channel));
    line.put(b" cycle ");
    put_number(&mut line, cycle);
    line.put(b"\n");
    line
}

/// The name of a channel.
fn channel_name(channels: &Channels, channel: usize) -> &[u8]
    ensures { result.now ≡ said.name_of channels.now channel }
{
    match channels.get(channel) {
        Some(channel) => channel.name.as_slice(),
        None => b"",
    }
}

/// The answer of a run, or of a replay, whose row of this cycle is unstable on this channel.
pub fn unstable(
    alloc: Global,
    channels: &Channels,
    channel: usize,
    cycle: u32,
) -> Result<Answer, Memory>
    requires { IsTable channels.now }
    ensures { IfOk result (λ a. IsSaid (Status.Unstable channel cycle) (said.unstable_line channels.now channel cycle) a.status
        (text_of a.text)) }
{
    let line = Pad::new(alloc, LINE_BYTES)?;
    Ok(with_line(
        Status::Unstable { channel, cycle },
        unstable_line(line, channels, channel, cycle),
    ))
}

/// The answer of this status with this line.
pub fn with_line(status: Status, line: Pad) -> Answer
    ensures { IsSaid status (shown line) result.status (text_of result.text) }
{
    Answer {
        status,
        text: AnswerText::Line(line),
    }
}

/// Adds a number in decimal.
fn put_number(line: &mut Pad, number: u32)
    requires { 40 ≤ left line.old }
    ensures text { shown line.new ≡ shown line.old ++ decimal number }
    ensures left { left line.old ≤ left line.new + 40 }
{
    let mut buffer = Buffer::new();
    line.put(buffer.format(number).as_bytes());
}
