//! The ring and its calls, each of which moves whole slices.

ghost use Rattle.std.specs.Prelude.{◌≡◌, ◌+◌, ◌-◌, ◌≤◌, [], ◌++◌, IfOk, length, take, drop};
ghost use Rattle.circular_buffer.specs.Buffer.{buffer};

use circular_buffer::HeapCircularBuffer;
use std::alloc::Global;
use std::marker::Model;
use vidi_bits::Memory;

/// The bytes put and not yet drained, in order, of which there are never more than the capacity. A
/// contract sees them as `items` and `capacity`. Only `new` takes memory.
#[derive(Drop)]
pub struct Store {
    ring: HeapCircularBuffer<u8>,
}

impl Model for Store {
    ghost use Rattle.std.specs.Prelude.{ℕ};
    ghost use Rattle.circular_buffer.specs.Buffer.{Buffer};

    ghost Value = { Buffer ℕ };

    ghost view = { λ s. s.ring };
}

impl Store {
    /// An empty store for `capacity` bytes.
    pub fn new(alloc: Global, capacity: usize) -> Result<Store, Memory>
        ensures { IfOk result (λ store. store ≡ buffer [] capacity) }
    {
        let ring = HeapCircularBuffer::with_capacity(alloc, capacity)?;
        Ok(Store { ring })
    }

    /// Puts the bytes of a piece behind those that wait. The piece fits.
    pub fn put(&mut self, piece: &[u8])
        requires { length self.old.items + length piece.now ≤ self.old.capacity }
        ensures { self.new ≡ buffer (self.old.items ++ piece.now) self.old.capacity }
    {
        let _count = self.ring.fill_from_slice(piece);
    }

    /// Moves the first `n` bytes that wait to the front of the buffer, whose other places stay. At least
    /// `n` bytes wait, and the buffer has `n` places.
    pub fn drain_into(&mut self, buf: &mut [u8], n: usize)
        requires waits { n ≤ length self.old.items }
        requires places { n ≤ length buf.old }
        ensures bytes { buf.new ≡ take n self.old.items ++ drop n buf.old }
        ensures rest { self.new ≡ buffer (drop n self.old.items) self.old.capacity }
    {
        let _count = self.ring.read_into(&mut buf[..n]);
    }

    /// How many bytes wait.
    pub fn waiting(&self) -> usize
        ensures count { result ≡ length self.now.items }
        ensures within { result ≤ self.now.capacity }
    {
        self.ring.len()
    }

    /// How many bytes can be put before the next drain.
    pub fn room(&self) -> usize
        ensures count { result ≡ self.now.capacity - length self.now.items }
        ensures within { length self.now.items ≤ self.now.capacity }
    {
        self.ring.capacity() - self.ring.len()
    }
}
