//! Worked traces, byte by byte.

ghost use Rattle.std.specs.Prelude.{◌<◌, IfSome};
ghost use Rattle.trace_v2.specs.trace_model.Channel.{IsTable};
ghost use Rattle.trace_v2.specs.trace_code.Encoding.{HasEncoding};

use std::alloc::Global;
use trace_store::vidi_bits::Numbers;
use trace_v2::trace_code::{decode, encode, end_mark, header_bytes, write_packet, write_reset};
use trace_v2::trace_model::{Channels, LONGEST_PACKET, Row, Trace, is_over};

// VIDITRC2, two channels: a inward and b outward, each with one port of 8 bits.
pub(crate) const PASS: [u8; 19] = [
    0x56, 0x49, 0x44, 0x49, 0x54, 0x52, 0x43, 0x32, 0x02, 0x00, 0x01, 0x61, 0x01, 0x08, 0x01, 0x01,
    0x62, 0x01, 0x08,
];

// One outward channel b without content.
const FLICK: [u8; 13] = [
    0x56, 0x49, 0x44, 0x49, 0x54, 0x52, 0x43, 0x32, 0x01, 0x01, 0x01, 0x62, 0x00,
];

// Address, data and strobe of a write, its response, the address of a read, and what it gives.
pub(crate) const REGS: [u8; 38] = [
    0x56, 0x49, 0x44, 0x49, 0x54, 0x52, 0x43, 0x32, 0x05, 0x00, 0x02, 0x61, 0x77, 0x01, 0x20, 0x00,
    0x01, 0x77, 0x02, 0x20, 0x04, 0x01, 0x01, 0x62, 0x01, 0x02, 0x00, 0x02, 0x61, 0x72, 0x01, 0x20,
    0x01, 0x01, 0x72, 0x02, 0x20, 0x02,
];

// 5 goes in at a, and comes out at b one cycle later.
pub(crate) const ONE_SEND: [u8; 17] = [1, 0, 0, 1, 1, 5, 1, 0, 0, 2, 2, 5, 0, 0, 0, 0, 2];

pub(crate) const NO_SEND: [u8; 5] = [0, 0, 0, 0, 0];

pub(crate) const TWO_SENDS: [u8; 29] = [
    1, 0, 0, 1, 1, 5, 1, 0, 0, 3, 2, 6, 5, 1, 0, 0, 0, 1, 1, 0, 0, 2, 2, 6, 0, 0, 0, 0, 4,
];

// 5 goes in at a, the design is reset, and one cycle later 6 goes in, and comes out at b.
pub(crate) const RESET_BETWEEN: [u8; 26] = [
    1, 0, 0, 1, 1, 5, 2, 0, 0, 1, 0, 1, 1, 1, 6, 1, 0, 0, 2, 2, 6, 0, 0, 0, 0, 4,
];

// Resets first, twice in a row and last, behind gaps of 0 and of 65,535; a transfer in flight is cut off by one.
pub(crate) const RESETS: [u8; 36] = [
    2, 0, 0, 1, 0xff, 0xff, 1, 1, 5, 1, 0, 0, 2, 0, 5, 2, 0xff, 0xff, 2, 0, 0, 1, 0, 0, 3, 2, 6, 7,
    2, 0, 1, 0, 0, 0, 0, 7,
];

// A write of 1000 at address 0, its response, a read at 0, and what it gives.
pub(crate) const ROUND: [u8; 44] = [
    0x01, 0x00, 0x00, 0x03, 0x03, 0x00, 0x00, 0x00, 0x00, 0x00, 0x00, 0x03, 0xe8, 0x0f, 0x01, 0x00,
    0x00, 0x04, 0x04, 0x00, 0x01, 0x00, 0x00, 0x08, 0x08, 0x00, 0x00, 0x00, 0x00, 0x01, 0x00, 0x00,
    0x10, 0x10, 0x00, 0x00, 0x03, 0xe8, 0x00, 0x00, 0x00, 0x00, 0x00, 0x04,
];

/// What happens in a cycle: the channels that start, those that complete, and contents.
pub(crate) type Events<'a> = (u128, u128, &'a [u128]);

/// The bytes of a header and those of a body behind it.
pub(crate) fn joined(alloc: Global, header: &[u8], body: &[u8]) -> Option<Vec<u8>> {
    [header, body].concat(alloc).ok()
}

/// The trace of a header and a body.
pub(crate) fn decoded(alloc: Global, header: &[u8], body: &[u8]) -> Option<Trace>
    ensures { IfSome result HasEncoding }
{
    match joined(alloc, header, body) {
        Some(bytes) => decode(alloc, bytes.as_slice()).ok(),
        None => None,
    }
}

/// Whether a trace is encoded as this header and this body.
pub(crate) fn is_written(alloc: Global, trace: &Trace, header: &[u8], body: &[u8]) -> bool
    requires { HasEncoding trace.now }
{
    match encode(alloc, trace) {
        Ok(bytes) => bytes.as_slice().strip_prefix(header) == Some(body),
        Err(_) => false,
    }
}

/// Whether what a header and a body decode to is encoded as the same bytes.
fn is_coded(alloc: Global, header: &[u8], body: &[u8]) -> bool {
    match decoded(alloc, header, body) {
        Some(trace) => is_written(alloc, &trace, header, body),
        None => false,
    }
}

const TRACES: [(&[u8], &[u8]); 13] = [
    (&PASS, &ONE_SEND),
    (&PASS, &NO_SEND),
    (&PASS, &TWO_SENDS),
    (&PASS, &RESET_BETWEEN),
    (&PASS, &RESETS),
    (&PASS, &[2, 0, 0, 0, 0, 0, 0, 1]),
    (&PASS, &[1, 0, 0, 1, 1, 5, 0, 0, 0, 0, 1]),
    (
        &PASS,
        &[
            1, 0, 0, 1, 1, 5, 1, 0, 0, 2, 2, 5, 1, 0, 7, 1, 1, 6, 0, 0, 0, 0, 3,
        ],
    ),
    (&PASS, &[1, 0, 0, 1, 1, 5, 1, 0, 0, 2, 0, 5, 0, 0, 0, 0, 2]),
    (&PASS, &[1, 0xff, 0xff, 3, 3, 5, 5, 0, 0, 0, 0, 1]),
    (
        &PASS,
        &[
            1, 0, 0, 1, 1, 5, 1, 0, 0, 3, 2, 6, 5, 1, 0, 0, 0, 1, 0, 0, 0, 0, 3,
        ],
    ),
    (&FLICK, &[1, 0, 1, 1, 1, 0, 0, 0, 0, 1]),
    (&REGS, &ROUND),
];

// The packets of these traces are printed by cases of `dump`.
#[test]
fn worked_traces_are_coded(rt: HostRuntime) {
    let mut right = true;
    for (header, body) in &TRACES {
        right &= is_coded(rt.alloc(), header, body);
    }
    assert!(rt; right);
}

/// Whether the header of these channels is that of REGS.
fn is_header(alloc: Global, channels: &Channels) -> bool
    requires { IsTable channels.now }
{
    match header_bytes(alloc, channels) {
        Ok(header) => header.as_slice() == REGS.as_slice(),
        Err(_) => false,
    }
}

fn is_header_coded(alloc: Global) -> bool {
    match decoded(alloc, &REGS, &NO_SEND) {
        Some(trace) => is_header(alloc, &trace.channels),
        None => false,
    }
}

#[test]
fn parts_of_a_trace_are_coded(rt: HostRuntime) {
    assert!(rt; is_header_coded(rt.alloc()) && end_mark(0x0102_0304) == [0, 1, 2, 3, 4]);
}

/// A row with these events, in which gates, valids and readies are up.
pub(crate) fn row(alloc: Global, events: &Events) -> Option<Row> {
    match Vec::from_slice(alloc, events.2) {
        Ok(contents) => Some(Row {
            fresh: false,
            gates: 3,
            valids: 3,
            readies: 3,
            contents: Numbers::from_vec(contents),
            starts: events.0,
            ends: events.1,
        }),
        Err(_) => None,
    }
}

/// Whether a row leaves this packet at the front of a buffer, and the rest of it as it was.
fn leaves(row: &Row, gap: u32, channels: &Channels, packet: &[u8]) -> bool
    requires table { IsTable channels.now }
    requires gap { gap < 65536 }
{
    if !is_over(row, channels) {
        return false;
    }
    let mut buf = [0xaau8; LONGEST_PACKET];
    let len = write_packet(row, gap, channels, &mut buf);
    let front = buf[..7].starts_with(packet);
    front && len == packet.len() && buf[packet.len()..].iter().all(|b| *b == 0xaa)
}

fn is_left(alloc: Global, channels: &Channels, gap: u16, events: &Events, packet: &[u8]) -> bool
    requires { IsTable channels.now }
{
    match row(alloc, events) {
        Some(row) => leaves(&row, u32::from(gap), channels, packet),
        None => false,
    }
}

// The rows of two sends, and the packet that each leaves behind a gap. In the last nothing happens.
const PACKETS: [(u16, Events, &[u8]); 6] = [
    (0, (1, 1, &[5, 0]), &[1, 0, 0, 1, 1, 5]),
    (1, (3, 2, &[6, 5]), &[1, 0, 1, 3, 2, 6, 5]),
    (256, (0, 1, &[6, 0]), &[1, 1, 0, 0, 1]),
    (65534, (2, 2, &[0, 6]), &[1, 0xff, 0xfe, 2, 2, 6]),
    (65535, (2, 0, &[0, 6]), &[1, 0xff, 0xff, 2, 0, 6]),
    (3, (0, 0, &[7, 8]), &[]),
];

fn are_left(alloc: Global, channels: &Channels) -> bool
    requires { IsTable channels.now }
{
    let mut right = true;
    for (gap, events, packet) in &PACKETS {
        right &= is_left(alloc, channels, *gap, events, packet);
    }
    right
}

fn are_rows_written(alloc: Global) -> bool {
    match decoded(alloc, &PASS, &NO_SEND) {
        Some(trace) => are_left(alloc, &trace.channels),
        None => false,
    }
}

#[test]
fn rows_are_written_in_place(rt: HostRuntime) {
    assert!(rt; are_rows_written(rt.alloc()));
}

/// Whether a reset behind this gap is written as these bytes, and the rest of a buffer stays.
fn is_reset_left(gap: u16, bytes: [u8; 3]) -> bool {
    let mut buf = [0xaau8; 5];
    let len = write_reset(u32::from(gap), &mut buf);
    let [a, b, c, d, e] = buf;
    len == 3 && [a, b, c] == bytes && d == 0xaa && e == 0xaa
}

#[test]
fn resets_are_written_in_place(rt: HostRuntime) {
    let short = is_reset_left(0, [2, 0, 0]) && is_reset_left(255, [2, 0, 0xff]);
    let long = is_reset_left(256, [2, 1, 0]) && is_reset_left(65535, [2, 0xff, 0xff]);
    assert!(rt; short && long);
}
