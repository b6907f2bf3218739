//! What commands have in common that write a trace.

ghost use Rattle.std.specs.Prelude.{◌≡◌, true, IfOk, IfErr};
ghost use Rattle.vidi_answer.specs.trace_code.Encoding.{HasEncoding};
ghost use Rattle.vidi_answer.specs.vidi_io.Cause.{Rose};
ghost use Rattle.vidi_answer.specs.vidi_io.Shelf.{HasStarted, Later, holding};
ghost use Rattle.vidi_answer.specs.vidi_io.Writing.{IsCutOff, IsKept};
ghost use Rattle.vidi_answer.specs.AnswerText.{text_of};
ghost use Rattle.vidi_answer.specs.Ended.{IsStopped};
ghost use Rattle.vidi_answer.specs.Steps.{IsSaid};
ghost use Rattle.trace_commands.specs.Said as said;
ghost use Rattle.trace_commands.specs.Written.{IsEncoded};

use std::alloc::Global;
use vidi_answer::report_text::{put, put_number};
use vidi_answer::trace_code::encode;
use vidi_answer::trace_code::trace_model::Trace;
use vidi_answer::trace_code::vidi_bits::{Bytes, Memory};
use vidi_answer::vidi_io::{Failed, Shelf, write_whole};
use vidi_answer::{Answer, Ended, Status, with_bytes};

/// A trace that is to be written: its bytes, and how many packets it has.
#[derive(Drop)]
pub struct TraceBytes {
    pub bytes: Bytes,
    pub packets: usize,
}

/// Writes a trace, and tells after this label how many packets it has. All memory is taken before the file `out` is started.
pub fn written<S: Shelf>(
    alloc: Global,
    trace: TraceBytes,
    label: &[u8],
    out: &str,
    shelf: &mut S,
) -> Result<Answer, Ended>
    ensures done { IfOk result (λ a. IsSaid Status.Done (said.packets_line label.now trace.packets) a.status (text_of a.text)) }
    ensures files { IfOk result (λ a. S.files shelf.new ≡ holding (S.files shelf.old) out.now trace.bytes) }
    ensures started { IfOk result (λ a. HasStarted (S.starts shelf.old) (S.starts shelf.new) true) }
    ensures stopped { IfErr result (IsStopped (IsCutOff (S.files shelf.old) out.now trace.bytes
        (HasStarted (S.starts shelf.old) (S.starts shelf.new))) (Rose (S.write_faults shelf.old) (S.write_faults shelf.new))
        (IsKept (S.files shelf.old) (HasStarted (S.starts shelf.old) (S.starts shelf.new))) (S.files shelf.new)) }
    ensures counts { Later (S.read_faults shelf.old) (S.read_faults shelf.new) (S.write_faults shelf.old) (S.write_faults shelf.new) }
{
    let answer = packets_answer(alloc, label, trace.packets)?;
    match write_whole(shelf, out, trace.bytes.as_slice()) {
        Ok(()) => Ok(answer),
        Err(Failed) => Err(Ended::WriteFault),
    }
}

fn packets_answer(alloc: Global, label: &[u8], packets: usize) -> Result<Answer, Memory>
    ensures { IfOk result (λ a. IsSaid Status.Done (said.packets_line label.now packets) a.status (text_of a.text)) }
{
    let mut text = Vec::new(alloc);
    put(&mut text, label)?;
    put_number(&mut text, packets)?;
    put(&mut text, b" packets\n")?;
    Ok(with_bytes(Status::Done, Bytes::from_vec(text)))
}

/// The bytes of a trace, and how many packets it has.
pub fn encoded(alloc: Global, trace: &Trace) -> Result<TraceBytes, Memory>
    requires { HasEncoding trace.now }
    ensures { IfOk result (IsEncoded trace.now) }
{
    let bytes = encode(alloc, trace)?;
    Ok(TraceBytes {
        bytes,
        packets: trace.packets.len(),
    })
}
