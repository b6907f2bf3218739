//! The bits that code writes and reads.

use crate::build::{Part, Step, Value, code_with_bits};
use net_design::{Code, Mask, Timing};
use net_sim::vidi_bits::Items;
use std::alloc::Global;

// Nets, and bits of each.
type Masks = &'static [(usize, u128)];

// When statements take effect, the statements, the bits that they write, and those that they read.
type Row = (Timing, &'static [Step], Masks, Masks);

// `t = a; y = t;`, where a, t and y are nets 0 to 2 of 2 bits
const COPIES: [Step; 2] = [
    Step::Set(Part::Whole((1, 0, 2)), Value::Bits((0, 0, 2))),
    Step::Set(Part::Whole((2, 0, 2)), Value::Bits((1, 0, 2))),
];

// In `always @*` t was surely assigned before it is read. A clocked block reads the old t.
static COPIED: [Row; 2] = [
    (Timing::Blocking, &COPIES, &[(1, 3), (2, 3)], &[(0, 3)]),
    (
        Timing::Nonblocking,
        &COPIES,
        &[(1, 3), (2, 3)],
        &[(0, 3), (1, 3)],
    ),
];

// `if (c) y = 1; else OTHER = 3; z = y;`, where c, y and z are nets 0 to 2, y and z of 2 bits. After a choice those bits alone are
// assigned that both arms assign: y[1] is, and y[0] isn't where the second arm leaves it out.
static CHOSEN: [Row; 2] = [
    (
        Timing::Blocking,
        &[
            Step::Choice {
                first: (0, 0, 1),
                second: None,
                to: (1, 0, 2),
                other: (1, 1, 1),
            },
            Step::Set(Part::Whole((2, 0, 2)), Value::Bits((1, 0, 2))),
        ],
        &[(1, 3), (2, 3)],
        &[(0, 1), (1, 1)],
    ),
    (
        Timing::Blocking,
        &[
            Step::Choice {
                first: (0, 0, 1),
                second: None,
                to: (1, 0, 2),
                other: (1, 0, 2),
            },
            Step::Set(Part::Whole((2, 0, 2)), Value::Bits((1, 0, 2))),
        ],
        &[(1, 3), (2, 3)],
        &[(0, 1)],
    ),
];

static READ: [Row; 3] = [
    // `y[i] = m[j];`, where i, j and y are nets 0 to 2: all of y is written, and both indexes are read.
    (
        Timing::Blocking,
        &[Step::Set(
            Part::BitsFrom {
                whole: (2, 0, 4),
                at: (0, 0, 2),
                width: 1,
            },
            Value::Word((0, 4), (1, 0, 2)),
        )],
        &[(2, 15)],
        &[(0, 3), (1, 3)],
    ),
    // `case (s) default: y[9 +: 4] = 1; endcase`, where y has no bit there: the subject is read and nothing is written.
    (
        Timing::Nonblocking,
        &[
            Step::Read((0, 0, 4)),
            Step::Set(Part::Takes((1, 8, 0), 4), Value::Number(1)),
        ],
        &[],
        &[(0, 15)],
    ),
    // `if (a) y = 1; else if (b) y = 2; else y[7:4] = 3; z = y;`, where a, b, y and z are nets 1, 2, 4 and 0: each condition is read, and
    // of y the bits that the last arm leaves out.
    (
        Timing::Blocking,
        &[
            Step::Choice {
                first: (1, 0, 1),
                second: Some((2, 0, 1)),
                to: (4, 0, 8),
                other: (4, 4, 4),
            },
            Step::Set(Part::Whole((0, 0, 8)), Value::Bits((4, 0, 8))),
        ],
        &[(0, 255), (4, 255)],
        &[(1, 1), (2, 1), (4, 15)],
    ),
];

// Whether masks are these, in the order of their nets.
fn are(masks: &Items<Mask>, want: &[(usize, u128)]) -> bool {
    let masks = masks.as_slice();
    let mut right = masks.len() == want.len();
    for (mask, pair) in masks.iter().zip(want) {
        right &= mask.net == pair.0 && mask.bits == pair.1;
    }
    right
}

fn has_masks(code: &Code, writes: &[(usize, u128)], reads: &[(usize, u128)]) -> bool {
    are(&code.writes, writes) && are(&code.reads, reads)
}

// Whether the statements can be evaluated, and these bits are written and read.
fn is_right(alloc: Global, row: &Row) -> bool {
    let (timing, steps, writes, reads) = *row;
    match code_with_bits(alloc, timing, steps) {
        Some(code) => has_masks(&code, writes, reads),
        None => false,
    }
}

fn are_right(alloc: Global, rows: &[Row]) -> bool {
    let mut right = true;
    for row in rows {
        right &= is_right(alloc, row);
    }
    right
}

#[test]
fn code_has_its_bits(rt: HostRuntime) {
    let copied = are_right(rt.alloc(), &COPIED);
    let chosen = are_right(rt.alloc(), &CHOSEN);
    let read = are_right(rt.alloc(), &READ);
    assert!(rt; copied && chosen && read);
}
