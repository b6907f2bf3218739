//! Each rule of a well-formed trace, broken once.

use crate::bytes_tests::{Events, NO_SEND, PASS, decoded};
use std::alloc::Global;
use trace_store::vidi_bits::Numbers;
use trace_v2::trace_model::{Packet, Packets, Trace, well_formed};

/// A packet: its gap, whether it is a reset, and its events.
type Given<'a> = (u32, bool, Events<'a>);

/// Whether there is memory for a packet.
fn is_added(alloc: Global, packets: &mut Packets, given: &Given) -> bool {
    let (gap, reset, events) = *given;
    match Vec::from_slice(alloc, events.2) {
        Ok(contents) => packets
            .push(Packet {
                gap,
                reset,
                starts: events.0,
                ends: events.1,
                contents: Numbers::from_vec(contents),
            })
            .is_ok(),
        Err(_) => false,
    }
}

/// Whether a trace with these packets in place of its own is as lawful as this.
fn is_judged(alloc: Global, trace: &mut Trace, packets: &[Given], lawful: bool) -> bool {
    trace.packets.truncate(0);
    for given in packets {
        if !is_added(alloc, &mut trace.packets, given) {
            return false;
        }
    }
    well_formed(trace) == lawful
}

// What starts at a, and a reset without gap.
const START: Given = (0, false, (1, 0, &[5]));

const RESET: Given = (0, true, (0, 0, &[]));

// The packets of a send through two channels, resets, and one refusal for each rule of a well-formed trace.
const CASES: [(&[Given], bool); 24] = [
    // No packet, one send, and the longest gap.
    (&[], true),
    (&[(0, false, (1, 1, &[5])), (0, false, (2, 2, &[5]))], true),
    (&[(65535, false, (1, 1, &[5]))], true),
    // Resets alone, and one that cuts off what is in flight.
    (&[RESET], true),
    (&[RESET, (65535, true, (0, 0, &[])), START], true),
    (&[START, RESET, START], true),
    (&[START, RESET, (0, false, (2, 2, &[5])), RESET], true),
    // A gap too long.
    (&[(65536, false, (1, 1, &[5]))], false),
    (&[(65536, true, (0, 0, &[]))], false),
    // An empty packet, and a reset with a start, an end or contents.
    (&[(0, false, (0, 0, &[]))], false),
    (&[(0, true, (1, 0, &[5]))], false),
    (&[START, (0, true, (0, 1, &[]))], false),
    (&[(0, true, (0, 0, &[5]))], false),
    // A start and an end of channel 2 of 2.
    (&[(0, false, (4, 0, &[]))], false),
    (&[(0, false, (1, 5, &[5]))], false),
    // A number of 9 bits, a number missing, and a number too many.
    (&[(0, false, (1, 1, &[256]))], false),
    (&[(0, false, (3, 3, &[5]))], false),
    (&[(0, false, (1, 1, &[5, 6]))], false),
    // A second start before an end, an end without a start, and a start in flight with an end.
    (&[START, (0, false, (1, 0, &[6]))], false),
    (&[(0, false, (1, 1, &[5])), (0, false, (0, 1, &[]))], false),
    (&[START, (0, false, (1, 1, &[6]))], false),
    // An end of what started before a reset, and a second start behind one.
    (&[START, RESET, (0, false, (0, 1, &[]))], false),
    (&[RESET, START, (0, false, (1, 0, &[6]))], false),
    (&[START, RESET, RESET, (0, false, (0, 1, &[]))], false),
];

fn are_judged(alloc: Global, trace: &mut Trace) -> bool {
    let mut right = true;
    for (packets, lawful) in &CASES {
        right &= is_judged(alloc, trace, packets, *lawful);
    }
    right
}

// Over an inward channel a and an outward channel b of one port of 8 bits each.
fn are_rules_kept(alloc: Global) -> bool {
    match decoded(alloc, &PASS, &NO_SEND) {
        Some(mut trace) => are_judged(alloc, &mut trace),
        None => false,
    }
}

#[test]
fn each_rule_refuses(rt: HostRuntime) {
    assert!(rt; are_rules_kept(rt.alloc()));
}
