//! The command `dump`.

ghost use Rattle.std.specs.Prelude.{◌≡◌, IfOk};
ghost use Rattle.vidi_answer.specs.vidi_io.Cause.{Rose};
ghost use Rattle.vidi_answer.specs.vidi_io.Shelf.{Later};
ghost use Rattle.vidi_answer.specs.AnswerText.{text_of};
ghost use Rattle.vidi_answer.specs.Ended.{IsAnswered};
ghost use Rattle.trace_commands.specs.Said as said;
ghost use Rattle.vidi_answer.specs.Steps.{IsSaid};
ghost use Rattle.trace_commands.specs.Traces.{Dumps};

use std::alloc::Global;
use vidi_answer::report_text::TraceLines;
use vidi_answer::trace_code::TRACE_LIMIT;
use vidi_answer::trace_code::trace_model::Trace;
use vidi_answer::trace_code::vidi_bits::Memory;
use vidi_answer::vidi_io::Shelf;
use vidi_answer::{Answer, AnswerText, Ended, Status, Word, read_file, trace_of};

/// What `dump` is answered.
pub fn dump<S: Shelf>(alloc: Global, trace: &str, shelf: &mut S) -> Result<Answer, Ended>
    ensures answered { IsAnswered (Dumps trace.now (S.files shelf.old)
        (λ name. Rose (S.read_faults shelf.old name) (S.read_faults shelf.new name))) result }
    ensures files { S.files shelf.new ≡ S.files shelf.old }
    ensures starts { S.starts shelf.new ≡ S.starts shelf.old }
    ensures counts { Later (S.read_faults shelf.old) (S.read_faults shelf.new) (S.write_faults shelf.old) (S.write_faults shelf.new) }
{
    let file = read_file(alloc, Word::Trace, trace, TRACE_LIMIT, shelf)?;
    let trace = trace_of(alloc, Word::Trace, file.as_slice())?;
    Ok(dumped(alloc, trace)?)
}

fn dumped(alloc: Global, trace: Trace) -> Result<Answer, Memory>
    ensures { IfOk result (λ a. IsSaid Status.Done (said.dump_text trace) a.status (text_of a.text)) }
{
    let lines = TraceLines::new(alloc, trace)?;
    Ok(Answer {
        status: Status::Done,
        text: AnswerText::Trace(lines),
    })
}
