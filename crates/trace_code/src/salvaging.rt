//! Reading what is whole of a trace that was cut off.

ghost use Rattle.std.specs.Prelude.{◌≤◌, IfOk, length};
ghost use Rattle.trace_code.specs.Salvage.{Salvages, SalvagesFront};

use crate::decoding::read_packets;
use crate::error::CodeError;
use crate::header::read_header;
use crate::skipping::skip_packets;
use std::alloc::Global;
use vec_clock::trace_model::Trace;

/// The trace of the header and of the longest list of whole lawful packets behind it. `BadTrace { at: 0 }`
/// exactly where the bytes begin with no whole lawful header.
pub fn salvage(alloc: Global, bytes: &[u8]) -> Result<Trace, CodeError>
    ensures salvages { Salvages bytes.now result }
    // There are no more packets than bytes.
    ensures few { IfOk result (λ t. length t.packets ≤ length bytes.now) }
{
    let (channels, rest) = read_header(alloc, bytes)?;
    let (packets, _) = read_packets(alloc, channels.as_slice(), rest)?;
    Ok(Trace { channels, packets })
}

/// The front of a trace's bytes that is whole: its header and the longest list of whole lawful packets behind it.
#[derive(Clone, Copy, Debug, PartialEq, Eq)]
pub struct Whole {
    /// The length in bytes.
    pub len: usize,
    /// The number of the packets.
    pub packets: usize,
}

/// The front of the bytes that, with the end mark of its packets behind it, is the encoding of the trace that
/// `salvage` gives. Only the header takes memory. `BadTrace { at: 0 }` exactly where the bytes begin with
/// no whole lawful header.
pub fn salvage_front(alloc: Global, bytes: &[u8]) -> Result<Whole, CodeError>
    ensures { SalvagesFront bytes.now result }
{
    let (channels, rest) = read_header(alloc, bytes)?;
    let (packets, rest) = skip_packets(channels.as_slice(), rest);
    Ok(Whole {
        len: bytes.len() - rest.len(),
        packets,
    })
}
