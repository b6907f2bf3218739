//! The command `salvage`.

ghost use Rattle.std.specs.Prelude.{◌≡◌, ◌<◌, ◌≤◌, ◌^◌, ◌++◌, Ok, IfOk, IfErr, length, take};
ghost use Rattle.vidi_answer.specs.trace_code.Encoding.{end_mark};
ghost use Rattle.vidi_answer.specs.trace_code.Salvage.{Salvages};
ghost use Rattle.vidi_answer.specs.trace_v2.OldDecoding.{SalvagesOld};
ghost use Rattle.vidi_answer.specs.vidi_io.Cause.{Rose};
ghost use Rattle.vidi_answer.specs.vidi_io.Shelf.{HasStarted, Later};
ghost use Rattle.vidi_answer.specs.vidi_io.Writing.{IsKept};
ghost use Rattle.vidi_answer.specs.Ended.{EndsWith, Owes};
ghost use Rattle.trace_commands.specs.Traces.{trace_limit, IsHeaderless, IsWholeIn, LacksHeader, LacksOldHeader, Saves, StopsSaving};
ghost use Rattle.trace_commands.specs.Written.{Holds};

use crate::writing::{TraceBytes, encoded, written};
use std::alloc::Global;
use vidi_answer::trace_code::vidi_bits::{Bytes, Memory};
use vidi_answer::trace_code::{CodeError, TRACE_LIMIT, Whole, end_mark, salvage_front};
use vidi_answer::trace_v2::{begins_old, salvage_v1};
use vidi_answer::vidi_io::Shelf;
use vidi_answer::{Answer, Ended, Reason, Word, read_file, refused};

/// What `salvage` is answered. All memory is taken before the file `out` is started.
pub fn salvage<S: Shelf>(
    alloc: Global,
    trace: &str,
    out: &str,
    shelf: &mut S,
) -> Result<Answer, Ended>
    ensures owed { Owes (Saves trace.now out.now (S.files shelf.old)
        (λ name. Rose (S.read_faults shelf.old name) (S.read_faults shelf.new name)) (HasStarted (S.starts shelf.old) (S.starts shelf.new)))
        (StopsSaving trace.now out.now (S.files shelf.old) (HasStarted (S.starts shelf.old) (S.starts shelf.new)))
        (Rose (S.write_faults shelf.old) (S.write_faults shelf.new))
        (IsKept (S.files shelf.old) (HasStarted (S.starts shelf.old) (S.starts shelf.new))) (S.files shelf.new) result }
    ensures counts { Later (S.read_faults shelf.old) (S.read_faults shelf.new) (S.write_faults shelf.old) (S.write_faults shelf.new) }
{
    let file = read_file(alloc, Word::Trace, trace, TRACE_LIMIT, shelf)?;
    let whole = whole_of(alloc, file)?;
    written(alloc, whole, b"salvaged ", out, shelf)
}

/// What is whole of the bytes of a trace, by the version as which they begin.
fn whole_of(alloc: Global, file: Bytes) -> Result<TraceBytes, Ended>
    requires { length file ≤ trace_limit }
    ensures whole { IfOk result (Holds (IsWholeIn file)) }
    ensures refused { IfErr result (EndsWith (IsHeaderless file)) }
{
    if begins_old(file.as_slice()) {
        old_whole_of(alloc, file.as_slice())
    } else {
        new_whole_of(alloc, file)
    }
}

/// What is whole of the bytes of a trace of version 1.
fn old_whole_of(alloc: Global, file: &[u8]) -> Result<TraceBytes, Ended>
    requires { length file.now ≤ trace_limit }
    ensures whole { IfOk result (Holds (λ t. SalvagesOld file.now (Ok t))) }
    ensures refused { IfErr result (EndsWith (LacksOldHeader file.now)) }
{
    match salvage_v1(alloc, file) {
        Ok(trace) => Ok(encoded(alloc, &trace)?),
        Err(CodeError::BadTrace { at }) => {
            let answer = refused(alloc, Word::Trace, Reason::BadTrace { at })?;
            Err(Ended::Refused(answer))
        }
        Err(CodeError::Memory) => Err(Ended::Memory),
    }
}

/// What is whole of the bytes of a trace of version 2.
fn new_whole_of(alloc: Global, file: Bytes) -> Result<TraceBytes, Ended>
    requires { length file ≤ trace_limit }
    ensures whole { IfOk result (Holds (λ t. Salvages file (Ok t))) }
    ensures refused { IfErr result (EndsWith (LacksHeader file)) }
{
    match salvage_front(alloc, file.as_slice()) {
        Ok(whole) => Ok(ended_front(file, whole)?),
        Err(CodeError::BadTrace { at }) => {
            let answer = refused(alloc, Word::Trace, Reason::BadTrace { at })?;
            Err(Ended::Refused(answer))
        }
        Err(CodeError::Memory) => Err(Ended::Memory),
    }
}

/// The front of the bytes that is whole, with an end mark.
fn ended_front(bytes: Bytes, whole: Whole) -> Result<TraceBytes, Memory>
    requires { whole.packets < 2 ^ 32 }
    ensures bytes { IfOk result (λ e. e.bytes ≡ take whole.len bytes ++ end_mark whole.packets) }
    ensures packets { IfOk result (λ e. e.packets ≡ whole.packets) }
{
    let mut front = bytes.into_vec();
    front.truncate(whole.len);
    front.extend_from_slice(&end_mark(whole.packets as u32))?;
    Ok(TraceBytes {
        bytes: Bytes::from_vec(front),
        packets: whole.packets,
    })
}
