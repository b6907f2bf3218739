//! The command `move`.

ghost use Rattle.std.specs.Prelude.{◌≡◌, ◌≤◌, Err, IfOk, IfErr, Some, length, position};
ghost use Rattle.std.specs.Str.{bytes_eq};
ghost use Rattle.vidi_answer.specs.trace_code.trace_model.Trace.{IsWellFormed};
ghost use Rattle.vidi_answer.specs.vidi_io.Cause.{Rose};
ghost use Rattle.vidi_answer.specs.vidi_io.Shelf.{HasStarted, Later};
ghost use Rattle.vidi_answer.specs.vidi_io.Writing.{IsKept};
ghost use Rattle.vidi_answer.specs.report_text.declared.reason.Word.TheVariants as words;
ghost use Rattle.vidi_answer.specs.Ended.{EndsWith, Owes};
ghost use Rattle.vidi_answer.specs.Steps.{IsRefusalFor};
ghost use Rattle.vidi_answer.specs.Traces.{trace_limit};
ghost use Rattle.trace_commands.specs.Moves.{end_named, reason_of, wanted, IsMovedIn, IsUnmovedIn, MovesEnd, StopsMoving};
ghost use Rattle.trace_commands.specs.Written.{Holds};

use crate::writing::{TraceBytes, encoded, written};
use std::alloc::Global;
use trace_edit::{EditError, move_end};
use vidi_answer::trace_code::TRACE_LIMIT;
use vidi_answer::trace_code::trace_model::{Channel, Event, Kind};
use vidi_answer::vidi_io::Shelf;
use vidi_answer::{Answer, Ended, Reason, Word, read_file, refused, trace_of};

/// A completion by the name of its channel and its number in the whole trace, counted from 0.
#[derive(Clone, Copy)]
pub struct Completion<'a> {
    pub channel: &'a str,
    pub index: u32,
}

/// What is asked for: one completion right after another one, or right before it.
#[derive(Clone, Copy)]
pub struct Wish<'a> {
    pub end: Completion<'a>,
    pub after: bool,
    pub other: Completion<'a>,
}

/// What `move` is answered. All memory is taken before the file `out` is started.
pub fn move_completion<S: Shelf>(
    alloc: Global,
    trace: &str,
    wish: Wish,
    out: &str,
    shelf: &mut S,
) -> Result<Answer, Ended>
    ensures owed { Owes (MovesEnd trace.now (wanted wish.entry) out.now (S.files shelf.old)
        (λ name. Rose (S.read_faults shelf.old name) (S.read_faults shelf.new name)) (HasStarted (S.starts shelf.old) (S.starts shelf.new)))
        (StopsMoving trace.now (wanted wish.entry) out.now (S.files shelf.old) (HasStarted (S.starts shelf.old) (S.starts shelf.new)))
        (Rose (S.write_faults shelf.old) (S.write_faults shelf.new))
        (IsKept (S.files shelf.old) (HasStarted (S.starts shelf.old) (S.starts shelf.new))) (S.files shelf.new) result }
    ensures counts { Later (S.read_faults shelf.old) (S.read_faults shelf.new) (S.write_faults shelf.old) (S.write_faults shelf.new) }
{
    let file = read_file(alloc, Word::Trace, trace, TRACE_LIMIT, shelf)?;
    let new = moved(alloc, file.as_slice(), wish)?;
    written(alloc, new, b"moved, ", out, shelf)
}

/// The bytes of the trace of these bytes with the completion moved.
fn moved(alloc: Global, file: &[u8], wish: Wish) -> Result<TraceBytes, Ended>
    requires { length file.now ≤ trace_limit }
    ensures moved { IfOk result (Holds (IsMovedIn (wanted wish.entry) file.now)) }
    ensures refused { IfErr result (EndsWith (IsUnmovedIn (wanted wish.entry) file.now)) }
{
    let t = trace_of(alloc, Word::Trace, file)?;
    let end = end_named(t.channels.as_slice(), wish.end);
    let other = end_named(t.channels.as_slice(), wish.other);
    match move_end(alloc, &t, end, other, wish.after) {
        Ok(new) => Ok(encoded(alloc, &new)?),
        Err(error) => Err(refusal(alloc, error)),
    }
}

/// The completion of this name and number; where no channel has the name, of a channel past the last.
fn end_named(channels: &[Channel], end: Completion) -> Event
    ensures { result ≡ end_named channels.now end.entry.channel.now end.entry.index }
{
    let channel = channel_named(channels, end.channel);
    Event {
        channel: channel.unwrap_or(channels.len()),
        kind: Kind::End,
        index: end.index,
        epoch: 0,
    }
}

fn channel_named(channels: &[Channel], name: &str) -> Option<usize>
    ensures { result ≡ position (λ c. bytes_eq name.now c.name) channels.now }
{
    channels
        .iter()
        .position(|c| name.as_bytes() == c.name.as_slice())
}

/// What an error ends the command with.
fn refusal(alloc: Global, error: EditError) -> Ended
    ensures { EndsWith (IsRefusalFor words.Trace (reason_of error)) result }
{
    let reason = match error {
        EditError::NoEnd { which } => Reason::NoEnd { which },
        EditError::SameEnd => Reason::SameEnd,
        EditError::Blocked { packet } => Reason::Blocked { packet },
        EditError::Memory => return Ended::Memory,
    };
    match refused(alloc, Word::Trace, reason) {
        Ok(answer) => Ended::Refused(answer),
        Err(_) => Ended::Memory,
    }
}
