//! The numbers of nets and words, and changes of them.

ghost use Rattle.std.specs.Prelude.{◌≡◌, slice_index};

use vidi_bits::Numbers;

/// A number for each net and each memory word of a design, in order: a state, or what a state and the
/// inputs settle to.
#[derive(Drop)]
pub struct Values {
    pub nets: Numbers,
    pub words: Numbers,
}

/// What an update changes.
#[derive(Clone, Copy)]
pub enum Target {
    /// A net, by number.
    Net(usize),
    /// A word, counted over all memories.
    Word(usize),
}

/// `width` bits of a net or word, from bit `low` on, become the low bits of `number`.
#[derive(Clone, Copy)]
pub struct Update {
    pub target: Target,
    pub low: u32,
    pub width: u32,
    pub number: u128,
}

/// Number `i` of a list, 0 past its end.
pub fn number_at(list: &Numbers, i: usize) -> u128
    ensures { result ≡ slice_index list.now i }
{
    let numbers = list.as_slice();
    if i < numbers.len() { numbers[i] } else { 0 }
}
