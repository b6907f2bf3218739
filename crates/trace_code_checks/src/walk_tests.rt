//! Cursors over worked traces, whose events and clocks were read off by hand.

ghost use Rattle.std.specs.Prelude.{◌≡◌, ℕ, ◌<◌};
ghost use Rattle.trace_v2.specs.trace_model.Packet.{count};
ghost use Rattle.trace_v2.specs.trace_code.Encoding.{Encodes};
ghost use Rattle.trace_v2.specs.trace_code.Stands.{Stands, WalksOver};

use crate::bytes_tests::{
    NO_SEND, ONE_SEND, PASS, REGS, RESET_BETWEEN, RESETS, ROUND, TWO_SENDS, joined,
};
use std::alloc::Global;
use trace_v2::trace_code::{Cursor, decode};
use trace_v2::trace_model::{Kind, Packet, Trace, names};

/// An event: its epoch, its clock, and the content of a start.
type Event<'a> = (u32, &'a [u32], &'a [u128]);

/// Whether this is the clock of the cursor's next event.
fn has_clock(cursor: &Cursor, t: &Trace, needs: &[u32]) -> bool
    requires { (j : ℕ) × Stands cursor.now t.now j }
{
    let channels = t.channels.len();
    if needs.len() != channels {
        return false;
    }
    let mut right = true;
    for c in 0..channels {
        right &= cursor.need(c) == needs[c];
    }
    right
}

/// Whether this is the content of the start at which the cursor stands.
fn has_content(cursor: &Cursor, t: &Trace, channel: usize, content: &[u128]) -> bool
    requires over { WalksOver cursor.now Kind.Start channel }
    requires stands { (j : ℕ) × Stands cursor.now t.now j × (j < count Kind.Start channel t.now.packets) }
{
    let Some(own) = t.channels.get(channel) else {
        return false;
    };
    let ports = own.widths.len();
    if content.len() != ports {
        return false;
    }
    let mut right = true;
    for port in 0..ports {
        right &= cursor.content(port) == content[port];
    }
    right
}

/// Whether a cursor stands at this event. It goes on behind it.
fn passes(cursor: &mut Cursor, t: &Trace, kind: Kind, channel: usize, event: Event) -> bool
    requires over { WalksOver cursor.old kind channel }
    requires stands { (j : ℕ) × Stands cursor.old t.now j }
    ensures over { WalksOver cursor.new kind channel }
    ensures stands { (j : ℕ) × Stands cursor.new t.now j }
{
    if cursor.at_end() {
        return false;
    }
    if cursor.epoch() != event.0 || !has_clock(cursor, t, event.1) {
        return false;
    }
    let held = match kind {
        Kind::Start => has_content(cursor, t, channel, event.2),
        Kind::End | Kind::Reset => true,
    };
    cursor.step();
    held
}

/// Whether a cursor gives exactly these events.
fn passes_all(cursor: &mut Cursor, t: &Trace, kind: Kind, channel: usize, events: &[Event]) -> bool
    requires over { WalksOver cursor.old kind channel }
    requires stands { (j : ℕ) × Stands cursor.old t.now j }
{
    for event in events {
        if !passes(cursor, t, kind, channel, *event) {
            return false;
        }
    }
    cursor.at_end()
}

/// Counts the completions of a packet, one number a channel.
fn count(counts: &mut [u32], ends: u128) {
    for (c, n) in counts.iter_mut().enumerate() {
        if names(ends, c) {
            *n = n.wrapping_add(1);
        }
    }
}

/// How many channels below this one a mask names.
fn below_in(mask: u128, channel: usize) -> usize {
    let mut below: usize = 0;
    for c in 0..channel {
        if names(mask, c) {
            below = below.wrapping_add(1);
        }
    }
    below
}

/// Whether a packet has an event of this kind on a channel.
fn has_event(packet: &Packet, kind: Kind, channel: usize) -> bool {
    match kind {
        Kind::Start => names(packet.starts, channel),
        Kind::End => names(packet.ends, channel),
        Kind::Reset => packet.reset,
    }
}

/// The number of a starting channel in a packet of channels with one port each. Others have no content, and 0 here.
fn number_of(packet: &Packet, kind: Kind, channel: usize) -> Option<u128> {
    match kind {
        Kind::Start => {
            let below = below_in(packet.starts, channel);
            packet.contents.get(below).copied()
        }
        Kind::End | Kind::Reset => Some(0),
    }
}

/// Whether a cursor stands at the event of this packet, if it has one on the channel. It goes on behind it.
fn passes_packet(
    cursor: &mut Cursor,
    t: &Trace,
    packet: &Packet,
    kind: Kind,
    channel: usize,
    counted: (u32, &[u32]),
) -> bool
    requires over { WalksOver cursor.old kind channel }
    requires stands { (j : ℕ) × Stands cursor.old t.now j }
    ensures over { WalksOver cursor.new kind channel }
    ensures stands { (j : ℕ) × Stands cursor.new t.now j }
{
    if !has_event(packet, kind, channel) {
        return true;
    }
    let (epoch, needs) = counted;
    match number_of(packet, kind, channel) {
        Some(number) => passes(cursor, t, kind, channel, (epoch, needs, &[number])),
        None => false,
    }
}

/// Whether a cursor gives the events that the packets of a trace of 32 channels have on its channel.
fn passes_packets(cursor: &mut Cursor, t: &Trace, kind: Kind, channel: usize) -> bool
    requires over { WalksOver cursor.old kind channel }
    requires stands { (j : ℕ) × Stands cursor.old t.now j }
{
    let mut counts = [0u32; 32];
    let mut epoch: u32 = 0;
    for packet in t.packets.as_slice() {
        if !passes_packet(cursor, t, packet, kind, channel, (epoch, &counts)) {
            return false;
        }
        if packet.reset {
            counts = [0; 32];
            epoch = epoch.wrapping_add(1);
        }
        count(&mut counts, packet.ends);
    }
    cursor.at_end()
}

/// Whether a cursor gives exactly these events of a channel, or those of the packets of a trace of 32 channels.
fn gives(
    alloc: Global,
    bytes: &[u8],
    t: &Trace,
    kind: Kind,
    channel: usize,
    events: Option<&[Event]>,
) -> bool
    requires { Encodes t.now bytes.now }
{
    if t.channels.len() <= channel {
        return false;
    }
    match Cursor::new(alloc, bytes, channel, kind) {
        Ok(mut cursor) => match events {
            Some(events) => passes_all(&mut cursor, t, kind, channel, events),
            None => passes_packets(&mut cursor, t, kind, channel),
        },
        Err(_) => false,
    }
}

/// What a cursor gives: a header, a body, a kind, a channel, and all its events of that kind.
type Walk<'a> = (&'a [u8], &'a [u8], Kind, usize, &'a [Event<'a>]);

fn is_given(alloc: Global, bytes: &[u8], walk: &Walk) -> bool {
    match decode(alloc, bytes) {
        Ok(t) => gives(alloc, bytes, &t, walk.2, walk.3, Some(walk.4)),
        Err(_) => false,
    }
}

fn is_walked(alloc: Global, walk: &Walk) -> bool {
    match joined(alloc, walk.0, walk.1) {
        Some(bytes) => is_given(alloc, bytes.as_slice(), walk),
        None => false,
    }
}

// Both channels of two sends; in the second packet one starts while the other starts and completes.
const OF_TWO_SENDS: [Walk; 4] = [
    (
        &PASS,
        &TWO_SENDS,
        Kind::Start,
        0,
        &[(0, &[0, 0], &[5]), (0, &[1, 0], &[6])],
    ),
    (
        &PASS,
        &TWO_SENDS,
        Kind::Start,
        1,
        &[(0, &[1, 0], &[5]), (0, &[2, 1], &[6])],
    ),
    (
        &PASS,
        &TWO_SENDS,
        Kind::End,
        0,
        &[(0, &[0, 0], &[]), (0, &[1, 1], &[])],
    ),
    (
        &PASS,
        &TWO_SENDS,
        Kind::End,
        1,
        &[(0, &[1, 0], &[]), (0, &[2, 1], &[])],
    ),
];

// Five channels of several ports, each of which starts and completes once in one packet.
const OF_A_ROUND: [Walk; 10] = [
    (
        &REGS,
        &ROUND,
        Kind::Start,
        0,
        &[(0, &[0, 0, 0, 0, 0], &[0])],
    ),
    (&REGS, &ROUND, Kind::End, 0, &[(0, &[0, 0, 0, 0, 0], &[])]),
    (
        &REGS,
        &ROUND,
        Kind::Start,
        1,
        &[(0, &[0, 0, 0, 0, 0], &[1000, 15])],
    ),
    (&REGS, &ROUND, Kind::End, 1, &[(0, &[0, 0, 0, 0, 0], &[])]),
    (
        &REGS,
        &ROUND,
        Kind::Start,
        2,
        &[(0, &[1, 1, 0, 0, 0], &[0])],
    ),
    (&REGS, &ROUND, Kind::End, 2, &[(0, &[1, 1, 0, 0, 0], &[])]),
    (
        &REGS,
        &ROUND,
        Kind::Start,
        3,
        &[(0, &[1, 1, 1, 0, 0], &[0])],
    ),
    (&REGS, &ROUND, Kind::End, 3, &[(0, &[1, 1, 1, 0, 0], &[])]),
    (
        &REGS,
        &ROUND,
        Kind::Start,
        4,
        &[(0, &[1, 1, 1, 1, 0], &[1000, 0])],
    ),
    (&REGS, &ROUND, Kind::End, 4, &[(0, &[1, 1, 1, 1, 0], &[])]),
];

// A trace without events, and channels of one event.
const TO_THE_END: [Walk; 4] = [
    (&PASS, &NO_SEND, Kind::Start, 0, &[]),
    (&PASS, &NO_SEND, Kind::End, 1, &[]),
    (&PASS, &ONE_SEND, Kind::End, 0, &[(0, &[0, 0], &[])]),
    (&PASS, &ONE_SEND, Kind::End, 1, &[(0, &[1, 0], &[])]),
];

// A reset between two sends: the second begins afresh. The resets themselves, of one trace and of another with four.
const OVER_RESETS: [Walk; 8] = [
    (
        &PASS,
        &RESET_BETWEEN,
        Kind::Start,
        0,
        &[(0, &[0, 0], &[5]), (1, &[0, 0], &[6])],
    ),
    (
        &PASS,
        &RESET_BETWEEN,
        Kind::End,
        0,
        &[(0, &[0, 0], &[]), (1, &[0, 0], &[])],
    ),
    (&PASS, &RESET_BETWEEN, Kind::Start, 1, &[(1, &[1, 0], &[6])]),
    (&PASS, &RESET_BETWEEN, Kind::End, 1, &[(1, &[1, 0], &[])]),
    (&PASS, &RESET_BETWEEN, Kind::Reset, 0, &[(0, &[1, 0], &[])]),
    (
        &PASS,
        &RESETS,
        Kind::Reset,
        0,
        &[
            (0, &[0, 0], &[]),
            (1, &[1, 0], &[]),
            (2, &[0, 0], &[]),
            (3, &[0, 1], &[]),
        ],
    ),
    (
        &PASS,
        &RESETS,
        Kind::Start,
        1,
        &[(1, &[1, 0], &[5]), (3, &[0, 0], &[7])],
    ),
    (&PASS, &ONE_SEND, Kind::Reset, 0, &[]),
];

#[test]
fn cursors_go_over_resets(rt: HostRuntime) {
    assert!(rt; are_walked(rt.alloc(), &OVER_RESETS));
}

fn are_walked(alloc: Global, walks: &[Walk]) -> bool {
    let mut right = true;
    for walk in walks {
        right &= is_walked(alloc, walk);
    }
    right
}

#[test]
fn cursors_give_the_events_of_two_sends(rt: HostRuntime) {
    assert!(rt; are_walked(rt.alloc(), &OF_TWO_SENDS));
}

#[test]
fn cursors_give_the_events_of_a_round(rt: HostRuntime) {
    assert!(rt; are_walked(rt.alloc(), &OF_A_ROUND));
}

#[test]
fn cursors_come_to_the_end(rt: HostRuntime) {
    assert!(rt; are_walked(rt.alloc(), &TO_THE_END));
}

/// The header of 32 channels of one port of 8 bits, inward and outward in turn, with one letter each as their names.
const WIDE: &[u8; 169] =
    b"VIDITRC2\x20\x00\x01a\x01\x08\x01\x01b\x01\x08\x00\x01c\x01\x08\x01\x01d\x01\x08\
    \x00\x01e\x01\x08\x01\x01f\x01\x08\x00\x01g\x01\x08\x01\x01h\x01\x08\
    \x00\x01i\x01\x08\x01\x01j\x01\x08\x00\x01k\x01\x08\x01\x01l\x01\x08\
    \x00\x01m\x01\x08\x01\x01n\x01\x08\x00\x01o\x01\x08\x01\x01p\x01\x08\
    \x00\x01q\x01\x08\x01\x01r\x01\x08\x00\x01s\x01\x08\x01\x01t\x01\x08\
    \x00\x01u\x01\x08\x01\x01v\x01\x08\x00\x01w\x01\x08\x01\x01x\x01\x08\
    \x00\x01y\x01\x08\x01\x01z\x01\x08\x00\x01A\x01\x08\x01\x01B\x01\x08\
    \x00\x01C\x01\x08\x01\x01D\x01\x08\x00\x01E\x01\x08\x01\x01F\x01\x08";

/// The mask of the channels that are in one of two phases in packet `p`. The first four packets bring in a quarter of them each.
fn mask_in(p: u32, first: u32, second: u32) -> u32 {
    let mut mask: u32 = 0;
    for c in 0..32u32 {
        let phase = p.wrapping_sub(c % 4) % 4;
        if p >= c % 4 && (phase == first || phase == second) {
            mask |= 1 << c;
        }
    }
    mask
}

/// The starts and the ends of packet `p`: each channel starts, completes, does both and does nothing in turn, or all channels
/// or every other one do both in 37 packets behind one another.
fn masks_in(p: u32, in_turn: bool) -> (u32, u32) {
    if in_turn {
        return (mask_in(p, 0, 2), mask_in(p, 1, 2));
    }
    let mask = if p / 37 % 2 == 0 {
        u32::MAX
    } else {
        0x5555_5555
    };
    (mask, mask)
}

/// Whether there is memory for the contents of packet `p`.
fn has_contents(bytes: &mut Vec<u8>, p: u32, starts: u32) -> bool {
    for c in 0..32u32 {
        let number = (p.wrapping_mul(7).wrapping_add(c.wrapping_mul(13)) % 256) as u8;
        if (starts >> c) & 1 == 1 && bytes.push(number).is_err() {
            return false;
        }
    }
    true
}

/// Whether there is memory for packet `p`, behind a gap of 21 cycles for each packet before it. The last of each 500 is a reset.
fn has_packet(bytes: &mut Vec<u8>, p: u32, in_turn: bool) -> bool {
    let behind = p % 500;
    let [_, _, high, low] = p.wrapping_mul(21).to_be_bytes();
    if behind == 499 {
        return bytes.extend_from_slice(&[2, high, low]).is_ok();
    }
    let (starts, ends) = masks_in(behind, in_turn);
    bytes.extend_from_slice(&[1, high, low]).is_ok()
        && bytes.extend_from_slice(&starts.to_le_bytes()).is_ok()
        && bytes.extend_from_slice(&ends.to_le_bytes()).is_ok()
        && has_contents(bytes, p, starts)
}

fn has_packets(bytes: &mut Vec<u8>, packets: u32, in_turn: bool) -> bool {
    for p in 0..packets {
        if !has_packet(bytes, p, in_turn) {
            return false;
        }
    }
    true
}

/// Whether there is memory for a trace of this many packets of 32 channels.
fn has_trace(bytes: &mut Vec<u8>, packets: u32, in_turn: bool) -> bool {
    bytes.extend_from_slice(WIDE).is_ok()
        && has_packets(bytes, packets, in_turn)
        && bytes.push(0).is_ok()
        && bytes.extend_from_slice(&packets.to_be_bytes()).is_ok()
}

/// Whether all cursors over a trace of 32 channels give what the decoded packets have, with the counts of their completions.
fn are_given(alloc: Global, bytes: &[u8], t: &Trace) -> bool
    requires { Encodes t.now bytes.now }
{
    let mut right = true;
    for c in 0..32 {
        right &= gives(alloc, bytes, t, Kind::Start, c, None);
        right &= gives(alloc, bytes, t, Kind::End, c, None);
    }
    right &= gives(alloc, bytes, t, Kind::Reset, 0, None);
    right
}

fn are_all_given(alloc: Global, bytes: &[u8], packets: u32) -> bool {
    match decode(alloc, bytes) {
        Ok(t) => {
            let whole = t.channels.len() == 32 && t.packets.len() == packets as usize;
            whole && are_given(alloc, bytes, &t)
        }
        Err(_) => false,
    }
}

/// The same of this many packets.
fn agree(alloc: Global, packets: u32, in_turn: bool) -> bool {
    let mut bytes = Vec::new(alloc);
    has_trace(&mut bytes, packets, in_turn) && are_all_given(alloc, bytes.as_slice(), packets)
}

#[test]
fn cursors_agree_with_packets_that_differ(rt: HostRuntime) {
    assert!(rt; agree(rt.alloc(), 2000, true));
}

// As far as a cursor looks ahead, and further.
#[test]
fn cursors_agree_with_packets_that_are_alike(rt: HostRuntime) {
    assert!(rt; agree(rt.alloc(), 3000, false));
}
