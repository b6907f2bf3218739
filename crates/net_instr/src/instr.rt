//! Instructions: small steps over one list of numbers, the slots.

use net_design::vidi_bits::{BinaryOp, UnaryOp};

/// What gives a number, from the numbers of slots. Where no other word stands, a field names a slot; widths are in bits.
#[derive(Clone, Copy)]
pub enum Step {
    /// A constant.
    Number {
        number: u128,
    },
    Copy {
        from: u32,
    },
    /// `width` bits from bit `low` on.
    Slice {
        from: u32,
        low: u32,
        width: u32,
    },
    And {
        left: u32,
        right: u32,
    },
    Or {
        left: u32,
        right: u32,
    },
    Xor {
        left: u32,
        right: u32,
    },
    Add {
        left: u32,
        right: u32,
        width: u32,
    },
    Subtract {
        left: u32,
        right: u32,
        width: u32,
    },
    Less {
        left: u32,
        right: u32,
    },
    Equal {
        left: u32,
        right: u32,
    },
    LogicalNot {
        from: u32,
    },
    /// Any other operator of one operand.
    Unary {
        op: UnaryOp,
        from: u32,
        width: u32,
    },
    /// Any other operator of two operands.
    Binary {
        op: BinaryOp,
        left: u32,
        right: u32,
        width: u32,
    },
    /// `other` where `test` is 0, else `chosen`.
    Choose {
        test: u32,
        chosen: u32,
        other: u32,
    },
    /// The low bits of two numbers side by side.
    Join {
        high: u32,
        low: u32,
        high_width: u32,
        low_width: u32,
    },
    /// The low `width` bits of a number, `count` times side by side.
    Repeat {
        count: u32,
        part: u32,
        width: u32,
    },
    /// `width` bits of a number from the place on that another has.
    Select {
        vector: u32,
        at: u32,
        width: u32,
    },
    /// Word `word` of a memory, whose `length` words stand from slot `first` on; 0 past the last one.
    Word {
        first: u32,
        length: u32,
        word: u32,
    },
}

/// An instruction. What is put is number `from` without its `rest` low bits, cut to the bits that are replaced.
#[derive(Clone, Copy)]
pub enum Instr {
    /// A slot gets a step's number.
    Do {
        to: u32,
        step: Step,
    },
    /// `width` bits of a slot from bit `low` on are replaced.
    Put {
        to: u32,
        low: u32,
        width: u32,
        from: u32,
        rest: u32,
    },
    /// `width` bits from the place on that slot `at` has, of the `size` bits from bit `low` on, as far as they are there.
    PutFrom {
        to: u32,
        low: u32,
        size: u32,
        at: u32,
        width: u32,
        from: u32,
        rest: u32,
    },
    /// The same as `Put` in word `word` of a memory, where it has that word.
    PutWord {
        first: u32,
        length: u32,
        word: u32,
        low: u32,
        width: u32,
        from: u32,
        rest: u32,
    },
    /// The same as `PutFrom` in a word, of its `size` bits.
    PutWordFrom {
        first: u32,
        length: u32,
        word: u32,
        size: u32,
        at: u32,
        width: u32,
        from: u32,
        rest: u32,
    },
    /// The next `count` instructions are left out where `test` is 0.
    SkipIfZero {
        test: u32,
        count: u32,
    },
    /// The next `count` instructions are left out.
    Skip {
        count: u32,
    },
}
