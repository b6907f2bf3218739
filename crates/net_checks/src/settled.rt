//! Settled maps, tried by all values of small designs.

use crate::build::{BIT_IN, NOTHING, Part, Plan, Step, Value, design_of, values};
use net_design::{Design, Direction, Values};
use net_drive::net_code::is_sized;
use net_reference::is_settled;
use net_sim::vidi_bits::BinaryOp;
use std::alloc::Global;

/// An input port of 2 bits.
const PAIR_IN: (Direction, u32) = (Direction::Input, 2);

// Whether a design can be evaluated, and it settles to these values exactly where `want`.
fn settles(alloc: Global, design: &Design, pins: &[u128], tried: &Values, want: bool) -> bool {
    is_sized(design) && is_settled(alloc, design, tried, pins, tried) == Ok(want)
}

// The same of numbers of its nets and words.
fn agrees(
    alloc: Global,
    design: &Design,
    words: &[u128],
    pins: &[u128],
    nets: &[u128],
    want: bool,
) -> bool {
    match values(alloc, nets, words) {
        Some(tried) => settles(alloc, design, pins, &tried, want),
        None => false,
    }
}

// `assign k[1] = k[0] ^ m; assign k[0] = n;`: two drivers of one net, where the inputs m and n and k are nets 0 to 2
static TWO_BITS: Plan<'static> = Plan {
    widths: &[1, 1, 2],
    pins: &[BIT_IN, BIT_IN],
    assigns: &[
        Step::Set(
            Part::Whole((2, 1, 1)),
            Value::Binary(BinaryOp::Xor, (2, 0, 1), (0, 0, 1)),
        ),
        Step::Set(Part::Whole((2, 0, 1)), Value::Bits((1, 0, 1))),
    ],
    ..NOTHING
};

// Of all numbers of k one is settled for each m and n.
fn two_bits_agree(alloc: Global, design: &Design) -> bool {
    let mut right = true;
    for i in 0..32u32 {
        let m = u128::from(i / 16);
        let n = u128::from(i / 8 % 2);
        let k = u128::from(i % 8);
        let want = [0, 3, 2, 1][(i / 8) as usize];
        right &= agrees(alloc, design, &[], &[m, n], &[m, n, k], k == want);
    }
    right
}

fn try_two_bits(alloc: Global) -> bool {
    match design_of(alloc, &TWO_BITS) {
        Some(design) => two_bits_agree(alloc, &design),
        None => false,
    }
}

// `assign {q, p[6 +: 4]} = 8'ha6;`, where q has 4 bits, and p has 8: two bits of p get the low bits of 6.
static CLIPPED: Plan<'static> = Plan {
    widths: &[4, 8],
    assigns: &[Step::SetBoth(
        Part::Whole((0, 0, 4)),
        Part::Takes((1, 6, 2), 4),
        Value::Number(0xa6),
    )],
    ..NOTHING
};

// The same with `p[9 +: 4]`, which has no bit, and takes four all the same, so each p is settled.
static OUTSIDE: Plan<'static> = Plan {
    widths: &[4, 8],
    assigns: &[Step::SetBoth(
        Part::Whole((0, 0, 4)),
        Part::Takes((1, 8, 0), 4),
        Value::Number(0xa6),
    )],
    ..NOTHING
};

// q gets the upper four bits of the eight.
fn clipped_agrees(alloc: Global, design: &Design, any_p: bool) -> bool {
    let mut right = true;
    for i in 0..64u32 {
        let q = u128::from(i / 4);
        let p = u128::from(i % 4);
        let want = q == 10 && (any_p || p == 2);
        right &= agrees(alloc, design, &[], &[], &[q, p * 64], want);
    }
    right
}

fn try_clipped(alloc: Global, plan: &Plan, any_p: bool) -> bool {
    match design_of(alloc, plan) {
        Some(design) => clipped_agrees(alloc, &design, any_p),
        None => false,
    }
}

// `assign x = y; assign y = x;`
static COPYING: Plan<'static> = Plan {
    widths: &[1, 1],
    assigns: &[
        Step::Set(Part::Whole((0, 0, 1)), Value::Bits((1, 0, 1))),
        Step::Set(Part::Whole((1, 0, 1)), Value::Bits((0, 0, 1))),
    ],
    ..NOTHING
};

// `assign x = ~x;`
static TURNING: Plan<'static> = Plan {
    widths: &[1, 1],
    assigns: &[Step::Set(Part::Whole((0, 0, 1)), Value::Complement((0, 0, 1)))],
    ..NOTHING
};

// Whether of the maps of two nets of 1 bit those are settled in which both are the same, or none is.
fn pairs_agree(alloc: Global, design: &Design, same: bool) -> bool {
    let mut right = true;
    for (x, y) in [(0u128, 0u128), (0, 1), (1, 0), (1, 1)] {
        right &= agrees(alloc, design, &[], &[], &[x, y], same && x == y);
    }
    right
}

fn try_pairs(alloc: Global, plan: &Plan, same: bool) -> bool {
    match design_of(alloc, plan) {
        Some(design) => pairs_agree(alloc, &design, same),
        None => false,
    }
}

// `t = a; if (t) y = 1; else y = 3; y = y + t;`, where a, t and y are nets 0 to 2 of 2 bits: later statements see earlier assignments.
static CHOOSER: Plan<'static> = Plan {
    widths: &[2, 2, 2],
    pins: &[PAIR_IN],
    always: &[&[
        Step::Set(Part::Whole((1, 0, 2)), Value::Bits((0, 0, 2))),
        Step::Choice {
            first: (1, 0, 2),
            second: None,
            to: (2, 0, 2),
            other: (2, 0, 2),
        },
        Step::Set(
            Part::Whole((2, 0, 2)),
            Value::Binary(BinaryOp::Add, (2, 0, 2), (1, 0, 2)),
        ),
    ]],
    ..NOTHING
};

// Of all numbers of t and y one pair is settled for each input a.
fn chooser_agrees(alloc: Global, design: &Design) -> bool {
    let mut right = true;
    for i in 0..64u32 {
        let a = u128::from(i / 16);
        let t = u128::from(i / 4 % 4);
        let y = u128::from(i % 4);
        let want = [3, 2, 3, 0][(i / 16) as usize];
        right &= agrees(alloc, design, &[], &[a], &[a, t, y], t == a && y == want);
    }
    right
}

fn try_chooser(alloc: Global) -> bool {
    match design_of(alloc, &CHOOSER) {
        Some(design) => chooser_agrees(alloc, &design),
        None => false,
    }
}

// `assign y = m[a];`, where m has 2 words and stands before a memory of 1 word, and a is an input: words past the end read as 0.
static WORDS: Plan<'static> = Plan {
    widths: &[2, 8],
    pins: &[PAIR_IN],
    rooms: &[(0, 2), (2, 1)],
    assigns: &[Step::Set(Part::Whole((1, 0, 8)), Value::Word((0, 2), (0, 0, 2)))],
    ..NOTHING
};

fn words_agree(alloc: Global, design: &Design) -> bool {
    let mut right = true;
    for i in 0..40u32 {
        let a = u128::from(i / 10);
        let y = u128::from(i % 10);
        let want = [5, 9, 0, 0][(i / 10) as usize];
        right &= agrees(alloc, design, &[5, 9, 7], &[a], &[a, y], y == want);
    }
    right
}

fn try_words(alloc: Global) -> bool {
    match design_of(alloc, &WORDS) {
        Some(design) => words_agree(alloc, &design),
        None => false,
    }
}

#[test]
fn drivers_of_bits_and_words_settle(rt: HostRuntime) {
    let two_bits = try_two_bits(rt.alloc());
    let chooser = try_chooser(rt.alloc());
    let words = try_words(rt.alloc());
    assert!(rt; two_bits && chooser && words);
}

#[test]
fn parts_that_run_past_their_vector(rt: HostRuntime) {
    let some = try_clipped(rt.alloc(), &CLIPPED, false);
    let none = try_clipped(rt.alloc(), &OUTSIDE, true);
    assert!(rt; some && none);
}

#[test]
fn loops_have_two_settled_maps_or_none(rt: HostRuntime) {
    let two = try_pairs(rt.alloc(), &COPYING, true);
    let none = try_pairs(rt.alloc(), &TURNING, false);
    assert!(rt; two && none);
}
