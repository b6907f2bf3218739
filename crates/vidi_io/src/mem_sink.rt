//! A sink in memory, which can fail at a listed call.

ghost use Rattle.std.specs.Prelude.{◌≡◌, ◌+◌, ◌<◌, ◌≤◌, [], Some, IsErr, length, OnOk, OnErr, MatchBool, vec_capacity};
ghost use Rattle.std.specs.Io.KnownBytes.{append_known};
ghost use Rattle.vidi_io.specs.Cause.{HasCause};
ghost use Rattle.vidi_io.specs.Fails.{push_listed, one_more};
ghost use Rattle.vidi_io.specs.MemSink.{written, capacity, listed, pushes_made, failed_pushes};
ghost use Rattle.vidi_io.specs.Sink.{AppendsSome};

use crate::sink::{Failed, Sink};
use std::alloc::Global;
use vidi_bits::{Memory, Numbers};

/// Bytes in memory, which it tells. A push that isn't listed to fail fails only for want of memory. One
/// that fails keeps nothing.
#[derive(Debug, Drop)]
pub struct MemSink {
    bytes: Vec<u8>,
    fails: Numbers,
    pushes: u32,
    faults: u64,
}

impl MemSink {
    /// A sink of no bytes, whose count is 0. `fails` has the numbers of the pushes that fail, counted
    /// from 1 to at most 4,294,967,295.
    pub fn new(alloc: Global, fails: Numbers) -> MemSink
        ensures bytes { written result ≡ [] }
        ensures faults { failed_pushes result ≡ 0 }
        ensures fails { listed result ≡ fails }
        ensures pushes { pushes_made result ≡ 0 }
    {
        MemSink {
            bytes: Vec::new(alloc),
            fails,
            pushes: 0,
            faults: 0,
        }
    }

    /// The bytes written so far.
    pub fn bytes(&self) -> &[u8]
        ensures { result.now ≡ written self.now }
    {
        self.bytes.as_slice()
    }

    /// Takes room for `n` bytes more: no push that isn't listed fails while at most `n` further bytes
    /// were pushed.
    pub fn room_for(&mut self, n: usize) -> Result<(), Memory>
        ensures fails { listed self.new ≡ listed self.old }
        ensures pushes { pushes_made self.new ≡ pushes_made self.old }
        ensures faults { failed_pushes self.new ≡ failed_pushes self.old }
        ensures bytes { written self.new ≡ written self.old }
        ensures more { capacity self.old ≤ capacity self.new }
        ensures room { OnOk result (length (written self.old) + n ≤ capacity self.new) }
    {
        self.bytes.reserve(n)?;
        Ok(())
    }

    /// Counts a push, and says whether it is listed.
    fn next(&mut self) -> bool
        ensures listed { result ≡ push_listed (listed self.old) (pushes_made self.old) }
        ensures pushes { self.new ≡ record self.old { pushes = one_more (pushes_made self.old) } }
    {
        match self.pushes.checked_add(1) {
            Some(number) => {
                self.pushes = number;
                self.fails.as_slice().contains(&u128::from(number))
            }
            None => false,
        }
    }
}

impl Sink for MemSink {
    ghost use Rattle.std.specs.Prelude.{Some, None};

    ghost told = { λ s. Some s.bytes.items };

    ghost faults = { λ s. s.faults };

    ghost place = { λ _. None };

    ghost has_frame = { λ _ _. Unit {0} };

    fn push(&mut self, piece: &[u8]) -> Result<(), Failed>
        ensures ok { OnOk result (Some (written self.new) ≡ append_known (Some (written self.old)) piece.now) }
        ensures err { OnErr result (AppendsSome (Some (written self.old)) (Some (written self.new)) piece.now) }
        ensures cause { HasCause (failed_pushes self.old) (failed_pushes self.new) result }
        ensures sound { OnOk result (failed_pushes self.new ≡ failed_pushes self.old) }
        ensures left { OnErr result (written self.new ≡ written self.old) }
        ensures listed { MatchBool (push_listed (listed self.old) (pushes_made self.old)) (IsErr result)
            (OnErr result (capacity self.old < length (written self.old) + length piece.now)) }
        ensures pushes { pushes_made self.new ≡ one_more (pushes_made self.old) }
        ensures fails { listed self.new ≡ listed self.old }
        ensures room { capacity self.old ≤ capacity self.new }
    {
        if self.next() || self.bytes.extend_from_slice(piece).is_err() {
            self.faults = self.faults.saturating_add(1);
            return Err(Failed);
        }
        Ok(())
    }
}
