//! The command `migrate`.

ghost use Rattle.std.specs.Prelude.{IfOk, IfErr};
ghost use Rattle.vidi_answer.specs.trace_v2.Old.{EncodesOld};
ghost use Rattle.vidi_answer.specs.vidi_io.Cause.{Rose};
ghost use Rattle.vidi_answer.specs.vidi_io.Shelf.{HasStarted, Later};
ghost use Rattle.vidi_answer.specs.vidi_io.Writing.{IsKept};
ghost use Rattle.vidi_answer.specs.Ended.{EndsWith, Owes};
ghost use Rattle.trace_commands.specs.Migrating.{IsNoOldTrace, Migrates, StopsMigrating};
ghost use Rattle.trace_commands.specs.Written.{Holds};

use crate::writing::{TraceBytes, encoded, written};
use std::alloc::Global;
use vidi_answer::trace_code::CodeError;
use vidi_answer::trace_v2::{OLD_TRACE_LIMIT, decode_v1};
use vidi_answer::vidi_io::Shelf;
use vidi_answer::{Answer, Ended, Reason, Word, read_file, refused};

/// What `migrate` is answered. All memory is taken before the file `out` is started.
pub fn migrate<S: Shelf>(
    alloc: Global,
    trace: &str,
    out: &str,
    shelf: &mut S,
) -> Result<Answer, Ended>
    ensures owed { Owes (Migrates trace.now out.now (S.files shelf.old)
        (λ name. Rose (S.read_faults shelf.old name) (S.read_faults shelf.new name)) (HasStarted (S.starts shelf.old) (S.starts shelf.new)))
        (StopsMigrating trace.now out.now (S.files shelf.old) (HasStarted (S.starts shelf.old) (S.starts shelf.new)))
        (Rose (S.write_faults shelf.old) (S.write_faults shelf.new))
        (IsKept (S.files shelf.old) (HasStarted (S.starts shelf.old) (S.starts shelf.new))) (S.files shelf.new) result }
    ensures counts { Later (S.read_faults shelf.old) (S.read_faults shelf.new) (S.write_faults shelf.old) (S.write_faults shelf.new) }
{
    let file = read_file(alloc, Word::Trace, trace, OLD_TRACE_LIMIT, shelf)?;
    let new = migrated(alloc, file.as_slice())?;
    written(alloc, new, b"migrated ", out, shelf)
}

/// The bytes of today of the trace that these encode in version 1.
fn migrated(alloc: Global, file: &[u8]) -> Result<TraceBytes, Ended>
    ensures migrated { IfOk result (Holds (λ t. EncodesOld t file.now)) }
    ensures refused { IfErr result (EndsWith (IsNoOldTrace file.now)) }
{
    match decode_v1(alloc, file) {
        Ok(trace) => Ok(encoded(alloc, &trace)?),
        Err(CodeError::BadTrace { at }) => {
            let answer = refused(alloc, Word::Trace, Reason::BadTrace { at })?;
            Err(Ended::Refused(answer))
        }
        Err(CodeError::Memory) => Err(Ended::Memory),
    }
}
