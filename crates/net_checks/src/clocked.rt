//! Initial states, next states, output pins and counts.

use crate::build::{BIT_IN, NOTHING, Part, Plan, Step, Value, design_of, values};
use net_design::{Design, Direction, Register, Values};
use net_drive::net_code::is_sized;
use net_reference::{initial_state, next_state, output_pins};
use std::alloc::Global;

// Numbers of nets and of words.
type Shown = (&'static [u128], &'static [u128]);

// A design, and states of it with the ones that follow.
type Row = (Plan<'static>, &'static [(Shown, Shown)]);

// `reg [7:0] x = 5;` with `begin x <= 8'hff; x[3:0] <= 4'h0; end`, and a memory of two words
const TWICE: Plan<'static> = Plan {
    widths: &[8],
    registers: &[Register {
        net: 0,
        held: 0xff,
        initial: 5,
    }],
    rooms: &[(0, 2)],
    blocks: &[&[
        Step::Set(Part::Whole((0, 0, 8)), Value::Number(0xff)),
        Step::Set(Part::Whole((0, 0, 4)), Value::Number(0)),
    ]],
    ..NOTHING
};

static ROWS: [Row; 4] = [
    // The last assignment wins.
    (TWICE, &[((&[5], &[0, 0]), (&[0xf0], &[0, 0]))]),
    // `begin a <= b; b <= a; end` and, in a block of its own, `c <= a;`: clocked blocks read the old state.
    (
        Plan {
            widths: &[8, 8, 8],
            blocks: &[
                &[
                    Step::Set(Part::Whole((0, 0, 8)), Value::Bits((1, 0, 8))),
                    Step::Set(Part::Whole((1, 0, 8)), Value::Bits((0, 0, 8))),
                ],
                &[Step::Set(Part::Whole((2, 0, 8)), Value::Bits((0, 0, 8)))],
            ],
            ..NOTHING
        },
        &[((&[1, 2, 3], &[]), (&[2, 1, 1], &[]))],
    ),
    // `r[i +: 2] <= 3;`, where i and r are nets 0 and 1 of 3 and 5 bits. Past the end of r nothing is written.
    (
        Plan {
            widths: &[3, 5],
            blocks: &[&[Step::Set(
                Part::BitsFrom {
                    whole: (1, 0, 5),
                    at: (0, 0, 3),
                    width: 2,
                },
                Value::Number(3),
            )]],
            ..NOTHING
        },
        &[
            ((&[0, 0], &[]), (&[0, 3], &[])),
            ((&[3, 0], &[]), (&[3, 24], &[])),
            ((&[4, 0], &[]), (&[4, 16], &[])),
            ((&[5, 0], &[]), (&[5, 0], &[])),
            ((&[7, 0], &[]), (&[7, 0], &[])),
        ],
    ),
    // `{q, m[i][6 +: 4]} <= 8'ha6;`, where m has 2 words of 8 bits and stands before a memory of 1 word. The two bits of the word get the
    // low bits of 6, q gets 10. Past the last word nothing is written, and the next memory stays.
    (
        Plan {
            widths: &[2, 4],
            rooms: &[(0, 2), (2, 1)],
            blocks: &[&[Step::SetBoth(
                Part::Whole((1, 0, 4)),
                Part::WordEnd((0, 2), (0, 0, 2)),
                Value::Number(0xa6),
            )]],
            ..NOTHING
        },
        &[
            ((&[1, 0], &[1, 2, 3]), (&[1, 10], &[1, 0x82, 3])),
            ((&[2, 0], &[1, 2, 3]), (&[2, 10], &[1, 2, 3])),
        ],
    ),
];

fn are(values: &Values, shown: &Shown) -> bool {
    values.nets.as_slice() == shown.0 && values.words.as_slice() == shown.1
}

fn goes_from(alloc: Global, design: &Design, state: &Values, next: &Shown) -> bool {
    if !is_sized(design) {
        return false;
    }
    match next_state(alloc, design, state, state) {
        Ok(after) => are(&after, next),
        Err(_) => false,
    }
}

// Whether a design can be evaluated, and after one clock, where the nets settle to their numbers of the state, nets and words have
// these numbers.
fn goes_to(alloc: Global, design: &Design, now: &Shown, next: &Shown) -> bool {
    match values(alloc, now.0, now.1) {
        Some(state) => goes_from(alloc, design, &state, next),
        None => false,
    }
}

fn all_go(alloc: Global, design: &Design, states: &[(Shown, Shown)]) -> bool {
    let mut right = true;
    for (now, next) in states {
        right &= goes_to(alloc, design, now, next);
    }
    right
}

fn is_right(alloc: Global, row: &Row) -> bool {
    match design_of(alloc, &row.0) {
        Some(design) => all_go(alloc, &design, row.1),
        None => false,
    }
}

#[test]
fn states_follow(rt: HostRuntime) {
    let mut right = true;
    for row in &ROWS {
        right &= is_right(rt.alloc(), row);
    }
    assert!(rt; right);
}

// Whether the design of the first row can be evaluated, and begins so.
fn begins(alloc: Global, design: &Design) -> bool {
    if !is_sized(design) {
        return false;
    }
    match initial_state(alloc, design) {
        Ok(first) => are(&first, &(&[5], &[0, 0])),
        Err(_) => false,
    }
}

fn try_first(alloc: Global) -> bool {
    match design_of(alloc, &ROWS[0].0) {
        Some(design) => begins(alloc, &design),
        None => false,
    }
}

// Two inputs and an output, 4 + 3 words, one clocked block. Port k is net k.
static COUNTED: Plan<'static> = Plan {
    widths: &[1, 1, 2],
    pins: &[BIT_IN, BIT_IN, (Direction::Output, 2)],
    rooms: &[(0, 4), (4, 3)],
    blocks: &[&[]],
    ..NOTHING
};

fn counts_are_right(design: &Design) -> bool {
    if !design.is_small() {
        return false;
    }
    let n = design.counts();
    n.instances == 1 && n.nets == 3 && n.drivers == 0 && n.blocks == 1 && n.words == 7
}

fn pins_are(alloc: Global, design: &Design, settled: &Values, want: &[u128]) -> bool {
    match output_pins(alloc, design, settled) {
        Ok(pins) => pins.as_slice() == want,
        Err(_) => false,
    }
}

fn shows(alloc: Global, design: &Design) -> bool {
    match values(alloc, &[1, 0, 2], &[]) {
        Some(settled) => pins_are(alloc, design, &settled, &[2]) && counts_are_right(design),
        None => false,
    }
}

fn try_counts(alloc: Global) -> bool {
    match design_of(alloc, &COUNTED) {
        Some(design) => shows(alloc, &design),
        None => false,
    }
}

#[test]
fn first_states_pins_and_counts(rt: HostRuntime) {
    let first = try_first(rt.alloc());
    let counts = try_counts(rt.alloc());
    assert!(rt; first && counts);
}
