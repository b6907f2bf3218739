//! Statements: what a driver or a clocked block does.

use crate::rhs::{Rhs, Room, Span};
use vidi_bits::Items;

/// A part of a target: bits of a net or of a word. It takes some bits of the value; of those, bits past the end of its vector
/// are written nowhere (this project's profile, as IEEE 1364-2005, 5.2.1).
#[derive(Drop)]
pub enum Place {
    /// A net, or a select of it at constant places. It takes `takes` bits of the value, and the lowest of them become the
    /// bits of the span, which may have fewer bits, or none.
    Bits {
        span: Span,
        takes: u32,
    },
    /// `width` bits of the net `whole` from the place `at` on, as far as it has them.
    BitsFrom {
        whole: Span,
        at: Rhs,
        width: u32,
    },
    /// Bits of a word at constant places. It takes `takes` bits of the value, and the lowest of them become the `width` bits
    /// of the word from bit `low` on, which may be fewer, or none. Past the last word nothing is written.
    Word {
        room: Room,
        word: Rhs,
        low: u32,
        width: u32,
        takes: u32,
    },
    /// `width` bits of a word of `size` bits, from the place `at` on, as far as it has them.
    WordFrom {
        room: Room,
        word: Rhs,
        size: u32,
        at: Rhs,
        width: u32,
    },
}

/// A target: its parts from the first, which takes the highest bits of the value, to the last.
pub type Lhs = Items<Place>;

/// A statement (IEEE 1364-2005, 9.2 assignments, 9.4 and 9.5 conditions and cases).
#[cycle(statement)]
#[derive(Drop)]
pub enum Act {
    /// An assignment.
    Set {
        target: Lhs,
        value: Rhs,
    },
    /// An expression that is read and changes nothing: the subject of a `case` that has `default` alone.
    Read(Rhs),
    /// `if` and `case`: the body of the first guard that is true, else `otherwise`.
    Branch {
        guards: Items<Guard>,
        otherwise: Items<Act>,
    },
}

/// A condition, true where its value isn't 0, and what is done then.
#[cycle(statement)]
#[derive(Drop)]
pub struct Guard {
    pub condition: Rhs,
    pub body: Items<Act>,
}

/// Bits of a net: bit k of the mask is bit k of the net.
#[derive(Clone, Copy)]
pub struct Mask {
    pub net: usize,
    pub bits: u128,
}

/// What a driver or a clocked block does, in order, with the bits of nets that it may write, and those that it reads: a driver
/// before it has surely assigned them, a clocked block at all, since it sees the old values.
pub struct Code {
    pub acts: Items<Act>,
    pub writes: Items<Mask>,
    pub reads: Items<Mask>,
}

/// Written out, so that the drops of its parts are proved here and not in each crate that lets go of one.
impl Drop for Code {
    fn drop(self) {
        let Code {
            acts,
            writes,
            reads,
        } = self;
    }
}

/// When an assignment takes effect (IEEE 1364-2005, 9.2.1 and 9.2.2).
#[derive(Clone, Copy)]
pub enum Timing {
    /// At once: the next statement sees it.
    Blocking,
    /// Once the whole block was executed: no statement of the block sees it.
    Nonblocking,
}
