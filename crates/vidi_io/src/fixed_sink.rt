//! A sink over bytes that the caller lends.

ghost use Rattle.std.specs.Prelude.{◌≤◌, length};

use crate::sink::{Failed, Sink};
use vidi_bits::Bytes;

/// Bytes in a buffer, which it tells: its room is the buffer's length. A push fails exactly where its
/// piece is longer than the room left, and then keeps nothing.
#[derive(Drop)]
pub struct FixedSink {
    buf: Vec<u8>,
    len: usize,
    faults: u64,
    ghost within: { len ≤ length buf.items },
}

impl FixedSink {
    ghost use Rattle.std.specs.Prelude.{◌≡◌, [], length};
    ghost use Rattle.vidi_io.specs.FixedSink.{filled, room_left, missed_pushes};

    /// A sink that writes over this buffer from its front on, with a count of 0.
    pub fn new(buf: Bytes) -> FixedSink
        ensures bytes { filled result ≡ [] }
        ensures room { room_left result ≡ length buf }
        ensures faults { missed_pushes result ≡ 0 }
    {
        FixedSink {
            buf: buf.into_vec(),
            len: 0,
            faults: 0,
        }
    }

    /// The bytes written so far.
    pub fn bytes(&self) -> &[u8]
        ensures { result.now ≡ filled self.now }
    {
        &self.buf[..self.len]
    }
}

impl Sink for FixedSink {
    ghost use Rattle.std.specs.Prelude.{◌≡◌, ◌+◌, ◌≤◌, Some, None, IsOk, IsErr, length, take, nat_lt, OnOk, OnErr, MatchBool};
    ghost use Rattle.std.specs.Io.KnownBytes.{append_known};
    ghost use Rattle.vidi_io.specs.Cause.{HasCause};
    ghost use Rattle.vidi_io.specs.FixedSink.{filled, room_left, missed_pushes};
    ghost use Rattle.vidi_io.specs.Sink.{AppendsSome};

    ghost told = { λ s. Some (take s.len s.buf.items) };

    ghost faults = { λ s. s.faults };

    ghost place = { λ _. None };

    ghost has_frame = { λ _ _. Unit {0} };

    fn push(&mut self, piece: &[u8]) -> Result<(), Failed>
        ensures ok { OnOk result (Some (filled self.new) ≡ append_known (Some (filled self.old)) piece.now) }
        ensures err { OnErr result (AppendsSome (Some (filled self.old)) (Some (filled self.new)) piece.now) }
        ensures cause { HasCause (missed_pushes self.old) (missed_pushes self.new) result }
        ensures fails { MatchBool (nat_lt (room_left self.old) (length piece.now)) (IsErr result) (IsOk result) }
        ensures left { OnErr result (filled self.new ≡ filled self.old) }
        ensures room { OnOk result (room_left self.new + length piece.now ≡ room_left self.old) }
        ensures stays { OnErr result (room_left self.new ≡ room_left self.old) }
        ensures sound { OnOk result (missed_pushes self.new ≡ missed_pushes self.old) }
    {
        let after = self.len.saturating_add(piece.len());
        if after > self.buf.len() {
            self.faults = self.faults.saturating_add(1);
            return Err(Failed);
        }
        self.buf[self.len..after].copy_from_slice(piece);
        self.len = after;
        Ok(())
    }
}
