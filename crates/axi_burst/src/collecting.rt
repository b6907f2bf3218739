//! Takes from a trace what has completed on the channels of an AXI4 port.

ghost use Rattle.std.specs.Prelude.{◌≡◌, ◌<◌, ◌^◌, true, All, IfOk, length};
ghost use Rattle.trace_model.specs.Packet.{IsPacket};
ghost use Rattle.axi_burst.specs.Forms.{is_beat};
ghost use Rattle.axi_burst.specs.Sides.{AreReads, AreWrites, IsReadOut, IsWritten};

use crate::axi::{Reads, Writes};
use crate::sides::{ReadOut, Written};
use crate::transfers::{addresses, beats};
use std::alloc::Global;
use trace_model::Trace;
use trace_model::vidi_bits::Memory;

/// What a trace has of writes.
#[tactic(auto, using(crate::proofs::Fitting::addresses_fit, crate::proofs::Fitting::few_addresses, crate::proofs::Fitting::few_beats))]
pub(crate) fn writes_of(
    alloc: Global,
    t: &Trace,
    beat: u32,
    writes: Option<Writes>,
) -> Result<Written, Memory>
    requires few { length t.now.packets < 2 ^ 32 }
    requires packets { All (IsPacket t.now.channels) t.now.packets }
    requires beat { is_beat beat ≡ true }
    requires ports { AreWrites t.now.channels writes }
    ensures { IfOk result (λ written. IsWritten beat writes t.now written) }
{
    let Some(ports) = writes else {
        return Ok(Written {
            aw: 0,
            w: 0,
            b: 0,
            asks: Vec::new(alloc),
            sent: Vec::new(alloc),
            answers: Vec::new(alloc),
        });
    };
    let asks = addresses(alloc, t, beat, &ports.aw)?;
    let sent = beats(alloc, t, ports.w, None, ports.last)?;
    let answers = beats(alloc, t, ports.b, ports.id, None)?;
    Ok(Written {
        aw: ports.aw.channel,
        w: ports.w,
        b: ports.b,
        asks,
        sent,
        answers,
    })
}

/// What a trace has of reads.
#[tactic(auto, using(crate::proofs::Fitting::addresses_fit, crate::proofs::Fitting::few_addresses, crate::proofs::Fitting::few_beats))]
pub(crate) fn reads_of(
    alloc: Global,
    t: &Trace,
    beat: u32,
    reads: Option<Reads>,
) -> Result<ReadOut, Memory>
    requires few { length t.now.packets < 2 ^ 32 }
    requires packets { All (IsPacket t.now.channels) t.now.packets }
    requires beat { is_beat beat ≡ true }
    requires ports { AreReads t.now.channels reads }
    ensures { IfOk result (λ read. IsReadOut beat reads t.now read) }
{
    let Some(ports) = reads else {
        return Ok(ReadOut {
            ar: 0,
            r: 0,
            asks: Vec::new(alloc),
            got: Vec::new(alloc),
        });
    };
    let asks = addresses(alloc, t, beat, &ports.ar)?;
    let got = beats(alloc, t, ports.r, ports.id, ports.last)?;
    Ok(ReadOut {
        ar: ports.ar.channel,
        r: ports.r,
        asks,
        got,
    })
}
