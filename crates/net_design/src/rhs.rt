//! Expressions: the right sides of assignments, and conditions and indexes.

use std::boxed::Box;
use vidi_bits::{BinaryOp, UnaryOp};

/// `width` bits of a net, from bit `low` on.
#[derive(Clone, Copy)]
pub struct Span {
    pub net: usize,
    pub low: u32,
    pub width: u32,
}

/// The words of a memory: `length` of them from word `first` on, counted over all memories of the design.
#[derive(Clone, Copy)]
pub struct Room {
    pub first: usize,
    pub length: usize,
}

/// An expression, sized: each operator stands beside the width in bits at which it works.
#[derive(Drop)]
pub enum Rhs {
    /// A constant.
    Number(u128),
    /// A net, or a select of it at constant places.
    Bits(Span),
    /// A word of a memory. Past the last one it reads as 0.
    Word {
        room: Room,
        at: Box<Rhs>,
    },
    /// For a reduction the width is the operand's.
    Unary {
        op: UnaryOp,
        operand: Box<Rhs>,
        width: u32,
    },
    /// For a comparison the width is that of both operands; `&&` and `||` look at no width.
    Binary {
        op: BinaryOp,
        left: Box<Rhs>,
        right: Box<Rhs>,
        width: u32,
    },
    /// `condition ? chosen : other`
    Choose {
        condition: Box<Rhs>,
        chosen: Box<Rhs>,
        other: Box<Rhs>,
    },
    /// `{high, low}`
    Join {
        high: Box<Rhs>,
        low: Box<Rhs>,
        high_width: u32,
        low_width: u32,
    },
    /// `{count{part}}`, where `part` has `width` bits
    Repeat {
        count: u32,
        part: Box<Rhs>,
        width: u32,
    },
    /// `width` bits of `vector`, a whole net or a word of a memory, from a place on that is found when
    /// it runs. Bits past its end read as 0.
    Select {
        vector: Box<Rhs>,
        at: Box<Rhs>,
        width: u32,
    },
}
