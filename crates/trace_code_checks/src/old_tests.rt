//! Old traces, byte by byte.

ghost use Rattle.std.specs.Prelude.{◌≤◌, length};

use std::alloc::Global;
use trace_v2::trace_code::CodeError;
use trace_v2::trace_model::{Channel, Dir, Packet, Trace};
use trace_v2::{decode_v1, salvage_v1};

// VIDITRC1, two channels: a inward and b outward, each with one port of 8 bits. 5 goes in at a, and comes out at b one
// cycle later.
const ONE_SEND: [u8; 32] = [
    0x56, 0x49, 0x44, 0x49, 0x54, 0x52, 0x43, 0x31, 0x02, 0x00, 0x01, 0x61, 0x01, 0x08, 0x01, 0x01,
    0x62, 0x01, 0x08, 0x01, 0x01, 0x01, 0x05, 0x01, 0x02, 0x02, 0x05, 0x00, 0x00, 0x00, 0x00, 0x02,
];

// The same in version 2: VIDITRC2, and a gap of two bytes in each packet.
const NEW_ONE_SEND: [u8; 36] = [
    0x56, 0x49, 0x44, 0x49, 0x54, 0x52, 0x43, 0x32, 0x02, 0x00, 0x01, 0x61, 0x01, 0x08, 0x01, 0x01,
    0x62, 0x01, 0x08, 0x01, 0x00, 0x00, 0x01, 0x01, 0x05, 0x01, 0x00, 0x00, 0x02, 0x02, 0x05, 0x00,
    0x00, 0x00, 0x00, 0x02,
];

fn is_channel(channel: &Channel, dir: Dir, name: u8) -> bool {
    channel.dir == dir
        && channel.name.as_slice() == [name].as_slice()
        && channel.widths.as_slice() == [8].as_slice()
}

/// Whether a packet, without gap, brings 5 in or out on one channel.
fn is_packet(packet: &Packet, mask: u128) -> bool {
    let plain = packet.gap == 0 && !packet.reset;
    let moves = packet.starts == mask && packet.ends == mask;
    plain && moves && packet.contents.as_slice() == [5].as_slice()
}

/// Whether the trace has both channels, and this many of the packets.
fn is_front(t: &Trace, packets: usize) -> bool {
    let mut right = match t.channels.as_slice() {
        [a, b] => is_channel(a, Dir::Inward, b'a') && is_channel(b, Dir::Outward, b'b'),
        _ => false,
    };
    for (packet, mask) in t.packets.as_slice().iter().zip(&[1, 2]) {
        right &= is_packet(packet, *mask);
    }
    right && t.packets.len() == packets
}

/// Whether the bytes have their fault at this place; where there is none, whether they are those of the send.
fn is_read(alloc: Global, bytes: &[u8], fault: Option<u64>) -> bool {
    match decode_v1(alloc, bytes) {
        Ok(t) => fault.is_none() && is_front(&t, 2),
        Err(CodeError::BadTrace { at }) => fault == Some(at),
        Err(CodeError::Memory) => false,
    }
}

/// Whether this many of the packets are salvaged; where none are given, whether the header is at fault.
fn is_saved(alloc: Global, bytes: &[u8], packets: Option<usize>) -> bool {
    match salvage_v1(alloc, bytes) {
        Ok(t) => match packets {
            Some(packets) => is_front(&t, packets),
            None => false,
        },
        Err(error) => packets.is_none() && matches!(error, CodeError::BadTrace { at: 0 }),
    }
}

// The length of a front, its fault, and the packets that are whole in it.
const FRONTS: [(usize, Option<u64>, Option<usize>); 9] = [
    (4, Some(0), None),
    (18, Some(0), None),
    (19, Some(19), Some(0)),
    (22, Some(19), Some(0)),
    (23, Some(23), Some(1)),
    (26, Some(23), Some(1)),
    (27, Some(27), Some(2)),
    (31, Some(27), Some(2)),
    (32, None, Some(2)),
];

#[test]
fn fronts_of_old_traces(rt: HostRuntime) {
    let mut right = true;
    for (len, fault, packets) in &FRONTS {
        let front = &ONE_SEND[..(*len).min(32)];
        right &= is_read(rt.alloc(), front, *fault) && is_saved(rt.alloc(), front, *packets);
    }
    assert!(rt; right);
}

// A place, a byte that stands there in place of the send's, the fault, and what is whole.
const CHANGES: [(usize, u8, u64, Option<usize>); 6] = [
    // Another first byte, and the magic of version 2.
    (0, 0x57, 0, None),
    (7, 0x32, 0, None),
    // A width of 129 bits, a spare mask bit, an end without a start, another count.
    (13, 0x81, 0, None),
    (20, 5, 19, Some(0)),
    (24, 1, 23, Some(1)),
    (31, 3, 27, Some(2)),
];

/// Whether the send with one byte changed is refused, and salvaged, as it should be.
fn is_change_right(alloc: Global, change: &(usize, u8, u64, Option<usize>)) -> bool {
    let (place, value, fault, packets) = *change;
    let mut bytes = ONE_SEND;
    if let Some(byte) = bytes.get_mut(place) {
        *byte = value;
    }
    is_read(alloc, &bytes, Some(fault)) && is_saved(alloc, &bytes, packets)
}

#[test]
fn changed_old_traces(rt: HostRuntime) {
    let mut right = true;
    for change in &CHANGES {
        right &= is_change_right(rt.alloc(), change);
    }
    assert!(rt; right);
}

/// Whether the bytes with one more behind them are at fault before the end, and an empty packet at its place.
fn are_more_refused(alloc: Global) -> bool {
    let mut empty = ONE_SEND;
    empty[20] = 0;
    empty[21] = 0;
    match [ONE_SEND.as_slice(), &[0]].concat(alloc) {
        Ok(more) => is_read(alloc, more.as_slice(), Some(27)) && is_read(alloc, &empty, Some(19)),
        Err(_) => false,
    }
}

#[test]
fn more_and_empty_old_packets(rt: HostRuntime) {
    assert!(rt; are_more_refused(rt.alloc()));
}

#[test]
fn new_traces_are_no_old_ones(rt: HostRuntime) {
    let refused = is_read(rt.alloc(), &NEW_ONE_SEND, Some(0));
    assert!(rt; refused && is_saved(rt.alloc(), &NEW_ONE_SEND, None));
}

/// Whether there is memory for channel `c` with ports of these widths.
fn has_channel(bytes: &mut Vec<u8>, c: u8, widths: &[u8]) -> bool
    requires { length widths.now ≤ 16 }
{
    let head = [0, 2, b'A' + c / 16, b'a' + c % 16, widths.len() as u8];
    bytes.extend_from_slice(&head).is_ok() && bytes.extend_from_slice(widths).is_ok()
}

/// Whether there is memory for a trace of no packets over so many channels with ports of these widths.
fn has_table(bytes: &mut Vec<u8>, channels: u8, widths: &[u8]) -> bool
    requires { length widths.now ≤ 16 }
{
    let mut has = bytes.extend_from_slice(b"VIDITRC1").is_ok() && bytes.push(channels).is_ok();
    for c in 0..channels {
        has &= has_channel(bytes, c, widths);
    }
    has && bytes.extend_from_slice(&[0; 5]).is_ok()
}

/// Whether a table of so many channels with ports of these widths is read, or refused.
fn is_judged(alloc: Global, channels: u8, widths: &[u8], lawful: bool) -> bool
    requires { length widths.now ≤ 16 }
{
    let mut bytes = Vec::new(alloc);
    let has = has_table(&mut bytes, channels, widths);
    let right = match decode_v1(alloc, bytes.as_slice()) {
        Ok(t) => lawful && t.channels.len() == usize::from(channels),
        Err(error) => !lawful && matches!(error, CodeError::BadTrace { at: 0 }),
    };
    has && right
}

// 205 bytes: five such channels have 1,025.
const PORTS: [u8; 13] = [
    128, 128, 128, 128, 128, 128, 128, 128, 128, 128, 128, 128, 104,
];

#[test]
fn old_tables_are_small(rt: HostRuntime) {
    let alloc = rt.alloc();
    let few = is_judged(alloc, 32, &[], true) && is_judged(alloc, 33, &[], false);
    let none = is_judged(alloc, 0, &[], false) && is_judged(alloc, 128, &[], false);
    let content = is_judged(alloc, 4, &[128; 16], true) && is_judged(alloc, 5, &PORTS, false);
    assert!(rt; few && none && content);
}
