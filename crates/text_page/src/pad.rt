//! A text of at most so many bytes.

ghost use Rattle.std.specs.Prelude.{◌≤◌, length};

use std::alloc::Global;
use vidi_io::vidi_bits::Memory;

/// How many bytes are gathered for one push.
pub const PAD_BYTES: usize = 65_536;

/// A text in memory that was taken once, its room: it never has more bytes.
#[derive(Drop)]
pub struct Pad {
    bytes: Vec<u8>,
    len: usize,
    ghost within: { len ≤ length bytes.items },
}

impl Pad {
    ghost use Rattle.std.specs.Prelude.{◌≡◌, ◌+◌, ◌≤◌, ◌++◌, [], IfOk, length};
    ghost use Rattle.text_page.specs.Pad.{shown, room, left};

    /// An empty text with this room, in bytes.
    pub fn new(alloc: Global, bytes: usize) -> Result<Pad, Memory>
        ensures text { IfOk result (λ pad. shown pad ≡ []) }
        ensures room { IfOk result (λ pad. room pad ≡ bytes) }
        ensures left { IfOk result (λ pad. left pad ≡ bytes) }
    {
        let places = vec![in alloc; 0u8; bytes]?;
        Ok(Pad {
            bytes: places,
            len: 0,
        })
    }

    /// The text.
    pub fn as_slice(&self) -> &[u8]
        ensures { result.now ≡ shown self.now }
    {
        &self.bytes[..self.len]
    }

    /// How many bytes more there is room for.
    pub fn left(&self) -> usize
        ensures { result ≡ left self.now }
    {
        self.bytes.len() - self.len
    }

    /// Makes the text empty.
    pub fn clear(&mut self)
        ensures text { shown self.new ≡ [] }
        ensures left { left self.new ≡ room self.old }
        ensures room { room self.new ≡ room self.old }
    {
        self.len = 0;
    }

    /// Adds a piece.
    pub fn put(&mut self, piece: &[u8])
        requires { length piece.now ≤ left self.old }
        ensures text { shown self.new ≡ shown self.old ++ piece.now }
        ensures left { left self.new + length piece.now ≡ left self.old }
        ensures room { room self.new ≡ room self.old }
    {
        let after = self.len + piece.len();
        self.bytes[self.len..after].copy_from_slice(piece);
        self.len = after;
    }
}
