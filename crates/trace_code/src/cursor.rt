//! Cursors over the events of a trace.

ghost use Rattle.std.specs.Prelude.{◌≡◌, ◌↔◌, IsTrue, IfOk, ℕ, ◌+◌, ◌<◌, ◌≤◌, slice_get, slice_index, length, take};
ghost use Rattle.vec_clock.specs.trace_model.declared.packet.Packet.{Packet};
ghost use Rattle.vec_clock.specs.trace_model.declared.trace.Trace.{Trace};
ghost use Rattle.vec_clock.specs.trace_model.Counting.{IsNth};
ghost use Rattle.vec_clock.specs.trace_model.Epoch.{resets, since_reset};
ghost use Rattle.vec_clock.specs.trace_model.Packet.{content_of, count, does, widths_of};
ghost use Rattle.trace_code.specs.Encoding.{Encodes, HasEncoding};
ghost use Rattle.trace_code.specs.Standing.{bytes_from};
ghost use Rattle.trace_code.specs.Stands.{WalksOver, Stands};

use crate::error::CodeError;
use crate::head::Head;
use crate::header::read_header;
use crate::tally::Tally;
use crate::walk::{is_end, number_of, seek, sizes_of, skip};
use std::alloc::Global;
use vec_clock::trace_model::{Channels, Kind, head_len};
use vec_clock::vidi_bits::{Bytes, Memory, copied};

/// The channels of an encoded trace, and the bytes of its packets and of its end.
fn parts_of(alloc: Global, bytes: &[u8]) -> Result<(Channels, &[u8]), Memory>
    requires { (t : Trace) × Encodes t bytes.now }
    ensures { IfOk result (λ x. (t : Trace) → Encodes t bytes.now → (t.channels ≡ x.0) × (x.1.now ≡ bytes_from t 0)) }
{
    match read_header(alloc, bytes) {
        Ok((channels, rest)) => Ok((channels, rest)),
        Err(CodeError::Memory) => Err(Memory),
        Err(CodeError::BadTrace { .. }) => unreachable!(),
    }
}

/// A walk over the events of one kind on one channel of a trace, whose bytes it borrows: it stands at the next event, or at
/// the end. All its steps together read the bytes once. Only `new` takes memory.
#[derive(Drop)]
pub struct Cursor<'a> {
    channel: usize,
    kind: Kind,
    /// The bytes from the next event's packet on.
    rest: &'a [u8],
    /// The head of that packet.
    head: Head,
    /// The widths of its own channel's ports in bits.
    widths: Bytes,
    /// The next event's clock.
    clock: Tally,
    /// How many packets behind the next event's are known to have its head.
    same: u32,
    /// How many bytes of that packet's contents stand before its own channel's.
    below: usize,
}

impl<'a> Cursor<'a> {
    /// A cursor at the first event of this kind on this channel, or at the end where there is none. The bytes are the encoding
    /// of a trace that has this channel.
    pub fn new(
        alloc: Global,
        bytes: &'a [u8],
        channel: usize,
        kind: Kind,
    ) -> Result<Cursor<'a>, Memory>
        requires { (t : Trace) × Encodes t bytes.now × (channel < length t.channels) }
        ensures stands { IfOk result (λ cursor. (t : Trace) → Encodes t bytes.now → Stands cursor t 0) }
        ensures over { IfOk result (λ cursor. WalksOver cursor kind channel) }
    {
        let (channels, rest) = parts_of(alloc, bytes)?;
        let cursor = Cursor::open(alloc, &channels, rest, channel, kind)?;
        Ok(cursor)
    }

    /// The cursor over the packets of a trace with these channels, at whose first packet the bytes begin.
    fn open(
        alloc: Global,
        channels: &Channels,
        rest: &'a [u8],
        channel: usize,
        kind: Kind,
    ) -> Result<Cursor<'a>, Memory>
        requires trace { (t : Trace) × HasEncoding t × (t.channels ≡ channels.now) × (rest.now ≡ bytes_from t 0) }
        requires channel { channel < length channels.now }
        ensures stands { IfOk result (λ cursor. (t : Trace) → HasEncoding t → t.channels ≡ channels.now → rest.now ≡ bytes_from t 0
            → Stands cursor t 0) }
        ensures over { IfOk result (λ cursor. WalksOver cursor kind channel) }
    {
        let channels = channels.as_slice();
        let sizes = sizes_of(alloc, channels)?;
        let widths = copied(alloc, channels[channel].widths.as_slice())?;
        let mut clock = Tally::new(alloc, channels.len())?;
        let mut head = Head::new(sizes);
        let rest = seek(rest, &mut head, &mut clock, kind, channel);
        let below = head.below(channel);
        Ok(Cursor {
            channel,
            kind,
            rest,
            head,
            widths,
            clock,
            same: 0,
            below,
        })
    }

    /// Whether the trace has no further event of this kind on this channel.
    pub fn at_end(&self) -> bool
        requires { (t : Trace) × (j : ℕ) × Stands self.now t j }
        ensures { (t : Trace) (j : ℕ) → Stands self.now t j → IsTrue result ↔ (count self.now.kind self.now.channel t.packets ≤ j) }
    {
        is_end(self.rest, &self.head, &self.clock)
    }

    /// The number of a channel in the next event's clock (*Clock*): the completions of that channel in the packets of its epoch before
    /// it.
    pub fn need(&self, channel: usize) -> u32
        requires { (t : Trace) × (j : ℕ) × Stands self.now t j × (channel < length t.channels) }
        ensures { (t : Trace) (j p : ℕ) (packet : Packet) → Stands self.now t j → channel < length t.channels
            → IsNth (does self.now.kind self.now.channel) t.packets j p packet → result ≡ count Kind.End channel (since_reset (take p t.packets)) }
    {
        self.clock.get(channel)
    }

    /// The epoch of the next event: how many resets came before it. It isn't at the end.
    pub fn epoch(&self) -> u32
        requires { (t : Trace) × (j : ℕ) × Stands self.now t j × (j < count self.now.kind self.now.channel t.packets) }
        ensures { (t : Trace) (j p : ℕ) (packet : Packet) → Stands self.now t j
            → IsNth (does self.now.kind self.now.channel) t.packets j p packet → result ≡ resets (take p t.packets) }
    {
        self.clock.epoch()
    }

    /// Whether the next event of another cursor over this trace is in the packet of this one's.
    pub fn is_beside(&self, other: &Cursor) -> bool
        ensures { (t : Trace) (i j p : ℕ) (packet : Packet) → Stands self.now t i → Stands other.now t j
            → IsNth (does self.now.kind self.now.channel) t.packets i p packet
            → IsTrue result ↔ IsNth (does other.now.kind other.now.channel) t.packets j p packet }
    {
        self.rest.len() == other.rest.len()
    }

    /// The number of a port of its channel in the next event's content, where it walks over starts and isn't at the end.
    pub fn content(&self, port: usize) -> u128
        requires start { self.now.kind ≡ Kind.Start }
        requires stands { (t : Trace) × (j : ℕ) × Stands self.now t j × (j < count self.now.kind self.now.channel t.packets)
            × (port < length (widths_of (slice_get t.channels self.now.channel))) }
        ensures { (t : Trace) (j p : ℕ) (packet : Packet) → Stands self.now t j
            → IsNth (does Kind.Start self.now.channel) t.packets j p packet
            → result ≡ slice_index (content_of t.channels packet self.now.channel) port }
    {
        let (_head, contents) = self.rest.split_at(head_len(self.head.channels()));
        let (_below, own) = contents.split_at(self.below);
        number_of(self.widths.as_slice(), port, own)
    }

    /// Goes on to the next event of its kind on its channel. It isn't at the end.
    pub fn step(&mut self)
        requires { (t : Trace) × (j : ℕ) × Stands self.old t j × (j < count self.old.kind self.old.channel t.packets) }
        ensures stands { (t : Trace) (j : ℕ) → Stands self.old t j → j < count self.old.kind self.old.channel t.packets
            → Stands self.new t (j + 1) }
        ensures over { WalksOver self.new self.old.kind self.old.channel }
    {
        let after = skip(self.rest, &self.head, &mut self.clock);
        if self.same > 0 {
            self.rest = after;
            self.same -= 1;
        } else {
            self.rest = seek(
                after,
                &mut self.head,
                &mut self.clock,
                self.kind,
                self.channel,
            );
            self.same = self.head.count_same(self.rest);
            self.below = self.head.below(self.channel);
        }
    }
}
