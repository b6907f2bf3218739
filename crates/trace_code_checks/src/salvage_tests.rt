//! What is whole in a broken trace. Each front of worked traces is salvaged by cases of `salvage`.

use crate::bytes_tests::{NO_SEND, ONE_SEND, PASS, is_written, joined};
use std::alloc::Global;
use trace_v2::trace_code::salvage;

/// Whether what is salvaged of the bytes is encoded as this body behind the header of PASS.
fn is_saved(alloc: Global, bytes: &[u8], saved: &[u8]) -> bool {
    match salvage(alloc, bytes) {
        Ok(trace) => trace.packets.len() <= 9 && is_written(alloc, &trace, &PASS, saved),
        Err(_) => false,
    }
}

/// Whether this much of a body is saved.
fn is_body_saved(alloc: Global, body: &[u8], saved: &[u8]) -> bool {
    match joined(alloc, &PASS, body) {
        Some(bytes) => is_saved(alloc, bytes.as_slice(), saved),
        None => false,
    }
}

const ONE: [u8; 11] = [1, 0, 0, 1, 1, 5, 0, 0, 0, 0, 1];

const FLYING: [u8; 11] = [1, 0, 0, 1, 0, 5, 0, 0, 0, 0, 1];

const CUT_OFF: [u8; 14] = [1, 0, 0, 1, 0, 5, 2, 0, 9, 0, 0, 0, 0, 2];

const AGAIN: [u8; 20] = [1, 0, 0, 1, 0, 5, 2, 0, 9, 1, 0, 0, 1, 0, 6, 0, 0, 0, 0, 3];

// Cut in the middle of a packet, cut behind the mark of a packet, a spare mask bit, a second start while
// the first is in flight, another count, and more behind the end. Resets: cut in the gap, whole, with what is in flight
// started once more behind it, and completed behind it.
const BODIES: [(&[u8], &[u8]); 11] = [
    (&[1, 0, 0, 1, 1, 5, 1, 0, 0, 2, 2], &ONE),
    (&[1, 0, 0, 1], &NO_SEND),
    (&[1, 0, 0, 1, 1, 5, 1, 0, 0, 6, 2, 5, 0, 0, 0, 0, 2], &ONE),
    (
        &[1, 0, 0, 1, 0, 5, 1, 0, 0, 1, 1, 5, 0, 0, 0, 0, 2],
        &FLYING,
    ),
    (
        &[1, 0, 0, 1, 1, 5, 1, 0, 0, 2, 2, 5, 0, 0, 0, 0, 3],
        &ONE_SEND,
    ),
    (
        &[1, 0, 0, 1, 1, 5, 1, 0, 0, 2, 2, 5, 0, 0, 0, 0, 2, 0],
        &ONE_SEND,
    ),
    (&[1, 0, 0, 1, 0, 5, 2], &FLYING),
    (&[1, 0, 0, 1, 0, 5, 2, 0], &FLYING),
    (&[1, 0, 0, 1, 0, 5, 2, 0, 9], &CUT_OFF),
    (&[1, 0, 0, 1, 0, 5, 2, 0, 9, 1, 0, 0, 1, 0, 6], &AGAIN),
    (&[1, 0, 0, 1, 0, 5, 2, 0, 9, 1, 0, 0, 0, 1], &CUT_OFF),
];

#[test]
fn what_is_whole_is_saved(rt: HostRuntime) {
    let mut right = true;
    for (body, saved) in &BODIES {
        right &= is_body_saved(rt.alloc(), body, saved);
    }
    assert!(rt; right);
}
