//! A worked trace with one byte changed.

use crate::bytes_tests::{REGS, ROUND, is_written, joined};
use crate::changes::{RUNS, TRACE};
use std::alloc::Global;
use trace_v2::trace_code::{CodeError, decode};

/// Whether the bytes are no trace, or one that is encoded as these bytes.
fn is_refused_or_coded(alloc: Global, bytes: &[u8]) -> bool {
    match decode(alloc, bytes) {
        Ok(trace) => is_written(alloc, &trace, bytes, &[]),
        Err(error) => matches!(error, CodeError::BadTrace { at: _ }),
    }
}

/// Whether that holds with each value in place of one byte, which is then this again.
fn are_values_right(alloc: Global, bytes: &mut [u8], place: usize, own: u8) -> bool {
    let mut right = true;
    for value in 0..=255u8 {
        if let Some(byte) = bytes.get_mut(place) {
            *byte = value;
        }
        right &= is_refused_or_coded(alloc, bytes);
    }
    if let Some(byte) = bytes.get_mut(place) {
        *byte = own;
    }
    right
}

/// Whether that holds at each place of a write, its response, a read, and what it gives: 82 bytes.
fn are_places_right(alloc: Global, bytes: &mut [u8]) -> bool {
    let mut right = bytes.len() == 82;
    for (place, own) in REGS.iter().chain(&ROUND).enumerate() {
        right &= are_values_right(alloc, bytes, place, *own);
    }
    right
}

fn are_changes_right(alloc: Global) -> bool {
    match joined(alloc, &REGS, &ROUND) {
        Some(mut bytes) => are_places_right(alloc, bytes.as_mut_slice()),
        None => false,
    }
}

#[test]
fn each_changed_byte_is_refused_or_coded(rt: HostRuntime) {
    assert!(rt; are_changes_right(rt.alloc()));
}

/// Whether the bytes have their fault at this place; at 255 none, and they are encoded as these.
fn is_at_fault(alloc: Global, bytes: &[u8], fault: u8) -> bool {
    match decode(alloc, bytes) {
        Ok(trace) => fault == 255 && is_written(alloc, &trace, bytes, &[]),
        Err(CodeError::BadTrace { at }) => at == u64::from(fault),
        Err(CodeError::Memory) => false,
    }
}

/// Whether each of the values of a run makes the fault that a reader in Python found.
fn is_run_right(alloc: Global, run: [u8; 4]) -> bool {
    let [place, first, last, fault] = run;
    let mut bytes = TRACE;
    let mut right = true;
    for value in first..=last {
        if let Some(byte) = bytes.get_mut(usize::from(place)) {
            *byte = value;
        }
        right &= is_at_fault(alloc, &bytes, fault);
    }
    right
}

/// Whether the runs are all values of all places, in order.
fn are_runs_whole() -> bool {
    let mut next: usize = 0;
    let mut right = true;
    for [place, first, last, _] in RUNS {
        right &= next == 256 * usize::from(place) + usize::from(first);
        next = 256 * usize::from(place) + usize::from(last) + 1;
    }
    right && next == 256 * TRACE.len()
}

#[test]
fn each_changed_byte_has_its_fault(rt: HostRuntime) {
    let mut right = are_runs_whole();
    for run in RUNS {
        right &= is_run_right(rt.alloc(), run);
    }
    assert!(rt; right);
}
