//! The command `compare`.

ghost use Rattle.std.specs.Prelude.{◌≡◌, IfOk};
ghost use Rattle.vidi_answer.specs.trace_code.Encoding.{HasEncoding};
ghost use Rattle.vidi_answer.specs.vidi_io.Cause.{Rose};
ghost use Rattle.vidi_answer.specs.vidi_io.Shelf.{Later};
ghost use Rattle.vidi_answer.specs.AnswerText.{text_of};
ghost use Rattle.vidi_answer.specs.Ended.{IsAnswered};
ghost use Rattle.trace_commands.specs.Said as said;
ghost use Rattle.vidi_answer.specs.Steps.{IsSaid};
ghost use Rattle.trace_commands.specs.Traces.{Compared, ComparedFiles, Compares, IsVerdict};

use std::alloc::Global;
use vidi_answer::trace_code::TRACE_LIMIT;
use vidi_answer::trace_code::trace_model::{Trace, same_channels};
use vidi_answer::trace_code::vidi_bits::{Bytes, Memory};
use vidi_answer::vidi_io::Shelf;
use vidi_answer::{
    Answer, Ended, Reason, Status, Word, diverged, read_file, refused, trace_of, with_bytes,
};

/// What `compare` is answered.
pub fn compare<S: Shelf>(
    alloc: Global,
    trace: &str,
    other: &str,
    shelf: &mut S,
) -> Result<Answer, Ended>
    ensures answered { IsAnswered (Compares trace.now other.now (S.files shelf.old)
        (λ name. Rose (S.read_faults shelf.old name) (S.read_faults shelf.new name))) result }
    ensures files { S.files shelf.new ≡ S.files shelf.old }
    ensures starts { S.starts shelf.new ≡ S.starts shelf.old }
    ensures counts { Later (S.read_faults shelf.old) (S.read_faults shelf.new) (S.write_faults shelf.old) (S.write_faults shelf.new) }
{
    let first = read_file(alloc, Word::Trace, trace, TRACE_LIMIT, shelf)?;
    let second = read_file(alloc, Word::Other, other, TRACE_LIMIT, shelf)?;
    compared_files(alloc, first.as_slice(), second.as_slice())
}

/// What is answered of the bytes of two files.
fn compared_files(alloc: Global, first: &[u8], second: &[u8]) -> Result<Answer, Ended>
    ensures { IsAnswered (ComparedFiles first.now second.now) result }
{
    let trace = trace_of(alloc, Word::Trace, first)?;
    let other = trace_of(alloc, Word::Other, second)?;
    Ok(compared(alloc, &trace, &other)?)
}

fn compared(alloc: Global, trace: &Trace, other: &Trace) -> Result<Answer, Memory>
    requires trace { HasEncoding trace.now }
    requires other { HasEncoding other.now }
    ensures { IfOk result (λ a. Compared trace.now other.now a.status (text_of a.text)) }
{
    match same_channels(&trace.channels, &other.channels) {
        Some(at) => refused(alloc, Word::Other, Reason::OtherChannels { at }),
        None => verdict(alloc, trace, other),
    }
}

fn verdict(alloc: Global, trace: &Trace, other: &Trace) -> Result<Answer, Memory>
    requires trace { HasEncoding trace.now }
    requires other { HasEncoding other.now }
    requires same { trace.now.channels ≡ other.now.channels }
    ensures { IfOk result (λ a. IsVerdict said.no_divergence_line trace.now other.now a.status (text_of a.text)) }
{
    let report = vidi_answer::trace_compare::compare(alloc, trace, other)?;
    if report.is_empty() {
        return no_divergence(alloc);
    }
    diverged(alloc, &report, &trace.channels)
}

fn no_divergence(alloc: Global) -> Result<Answer, Memory>
    ensures { IfOk result (λ a. IsSaid Status.Done said.no_divergence_line a.status (text_of a.text)) }
{
    let text = Vec::from_slice(alloc, b"no divergence\n")?;
    Ok(with_bytes(Status::Done, Bytes::from_vec(text)))
}
