//! The lines of a trace in memory, and on a sink.

ghost use Rattle.std.specs.Prelude.{◌≡◌, ◌+◌, ◌*◌, ◌≤◌, [], length, replicate, IfOk, OnOk, OnErr, IfSome};
ghost use Rattle.std.specs.Io.KnownBytes.{append_known};
ghost use Rattle.text_page.specs.Pad.{room, shown};
ghost use Rattle.report_text.specs.Trace as said;
ghost use Rattle.text_page.specs.vidi_io.Cause.{HasCause};
ghost use Rattle.text_page.specs.vidi_io.Sink.{AppendsSome, Frame};

use crate::trace_text::print_trace;
use run_model::trace_model::Trace;
use std::alloc::Global;
use text_page::vidi_io::vidi_bits::{Bytes, Memory};
use text_page::vidi_io::{Failed, Sink};
use text_page::{Draft, PAD_BYTES, Pad, Printer};

/// How many bytes the text of a clock of so many channels has at most.
fn clock_bytes(channels: usize) -> Option<usize>
    ensures { IfSome result (λ bytes. bytes ≡ 7 + 21 * channels) }
{
    channels.checked_mul(21)?.checked_add(7)
}

/// A pad for the text of a clock.
fn clock_pad(alloc: Global, channels: usize) -> Result<Pad, Memory>
    ensures { IfOk result (λ pad. 7 + 21 * channels ≤ room pad) }
{
    match clock_bytes(channels) {
        Some(bytes) => Pad::new(alloc, bytes),
        None => Err(Memory),
    }
}

/// The counts of as many channels, before anything has completed.
fn zeros(alloc: Global, channels: usize) -> Result<Vec<u64>, Memory>
    ensures { IfOk result (λ v. v.items ≡ replicate channels 0) }
{
    let counts = vec![in alloc; 0u64; channels]?;
    Ok(counts)
}

/// The lines that `dump` prints of a trace.
pub fn dump_text(alloc: Global, trace: &Trace) -> Result<Bytes, Memory>
    ensures { IfOk result (λ text. text ≡ said.dump_text trace.now) }
{
    let mut completed = zeros(alloc, trace.channels.len())?;
    let mut clock = clock_pad(alloc, trace.channels.len())?;
    let mut draft = Draft::new(alloc);
    print_trace(&mut draft, trace, completed.as_mut_slice(), &mut clock);
    draft.finish()
}

/// A trace, with all memory that printing its lines takes.
#[derive(Drop)]
pub struct TraceLines {
    pub trace: Trace,
    completed: Vec<u64>,
    clock: Pad,
    pad: Pad,
    ghost counts: { completed.items ≡ replicate (length trace.channels) 0 },
    ghost clock_fits: { 7 + 21 * length trace.channels ≤ room clock },
    ghost blank: { shown pad ≡ [] },
}

impl TraceLines {
    /// The lines of this trace. Printing them takes no more memory.
    pub fn new(alloc: Global, trace: Trace) -> Result<TraceLines, Memory>
        ensures { IfOk result (λ lines. lines.trace ≡ trace) }
    {
        let completed = zeros(alloc, trace.channels.len())?;
        let clock = clock_pad(alloc, trace.channels.len())?;
        let pad = Pad::new(alloc, PAD_BYTES)?;
        Ok(TraceLines {
            trace,
            completed,
            clock,
            pad,
        })
    }

    /// Pushes the lines, as many bytes at a time as the pad holds. After `Failed` some front of them was
    /// written.
    pub fn print<O: Sink>(self, out: &mut O) -> Result<(), Failed>
        ensures ok { OnOk result (O.told out.new ≡ append_known (O.told out.old) (said.dump_text self.trace)) }
        ensures err { OnErr result (AppendsSome (O.told out.old) (O.told out.new) (said.dump_text self.trace)) }
        ensures cause { HasCause (O.faults out.old) (O.faults out.new) result }
        ensures place { O.place out.new ≡ O.place out.old }
        ensures frame { (f : Frame) → O.has_frame out.old f → O.has_frame out.new f }
    {
        let TraceLines {
            trace,
            mut completed,
            mut clock,
            mut pad,
        } = self;
        let mut printer = Printer::new(out, &mut pad);
        print_trace(&mut printer, &trace, completed.as_mut_slice(), &mut clock);
        printer.finish()
    }
}
