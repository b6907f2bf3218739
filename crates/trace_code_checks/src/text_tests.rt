//! The texts that are given as bytes.

use crate::bytes_tests::{Events, ONE_SEND, PASS, decoded, row};
use report_text::{dump_text, rows_text};
use std::alloc::Global;
use trace_v2::trace_model::{Channels, Rows, Trace};

// The lines of a trace of one send.
const ONE_SEND_TEXT: &str = "channel 0 in a 8\nchannel 1 out b 8\n\
    0 start a 5 clock 0 0\n0 end a clock 0 0\n\
    1 start b 5 clock 1 0\n1 end b clock 1 0\n\
    packets 2\n";

// The lines of two rows.
const ROWS_TEXT: &str = "0 start a 5\n0 end a\n1 start a 6\n1 start b 5\n1 end b\n";

/// Whether there is memory for a row of these events.
fn is_added(alloc: Global, rows: &mut Rows, events: &Events) -> bool {
    match row(alloc, events) {
        Some(row) => rows.push(row).is_ok(),
        None => false,
    }
}

fn are_rows_said(alloc: Global, rows: &Rows, channels: &Channels) -> bool {
    match rows_text(alloc, rows, channels) {
        Ok(text) => text.as_slice() == ROWS_TEXT.as_bytes(),
        Err(_) => false,
    }
}

fn are_two_rows_said(alloc: Global, channels: &Channels) -> bool {
    let mut rows = Rows::new(alloc);
    is_added(alloc, &mut rows, &(1, 1, &[5, 0]))
        && is_added(alloc, &mut rows, &(3, 2, &[6, 5]))
        && are_rows_said(alloc, &rows, channels)
}

fn is_dumped(alloc: Global, trace: &Trace) -> bool {
    match dump_text(alloc, trace) {
        Ok(text) => text.as_slice() == ONE_SEND_TEXT.as_bytes(),
        Err(_) => false,
    }
}

/// Whether the texts of a trace and of two rows over its channels are as worked out by hand.
fn are_texts_right(alloc: Global) -> bool {
    match decoded(alloc, &PASS, &ONE_SEND) {
        Some(trace) => are_two_rows_said(alloc, &trace.channels) && is_dumped(alloc, &trace),
        None => false,
    }
}

#[test]
fn traces_and_rows_are_given_as_bytes(rt: HostRuntime) {
    assert!(rt; are_texts_right(rt.alloc()));
}
