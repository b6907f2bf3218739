//! Traces as bytes.

use run_reference::trace_model::names;
use sample_designs::Sample;
use std::alloc::Global;

const TWO_HEADER: &[u8] = b"VIDITRC2\x02\x00\x01a\x01\x08\x01\x01b\x01\x08";

const REGS_HEADER: &[u8] =
    b"VIDITRC2\x05\x00\x02aw\x01\x20\x00\x01w\x02\x20\x04\x01\x01b\x01\x02\x00\x02ar\x01\x20\x01\x01r\x02\x20\x02";

const FLICK_HEADER: &[u8] = b"VIDITRC2\x01\x01\x01b\x00";

/// The header of a trace of the design's channels.
fn header(sample: Sample) -> &'static [u8] {
    match sample {
        Sample::Pass | Sample::Duo | Sample::Dead | Sample::Back => TWO_HEADER,
        Sample::Regs => REGS_HEADER,
        Sample::Flick => FLICK_HEADER,
    }
}

/// A trace of the design's channels with these packets and their number.
pub(crate) fn trace_of(alloc: Global, sample: Sample, packets: &[u8]) -> Option<Vec<u8>> {
    let mut bytes = Vec::new(alloc);
    bytes.extend_from_slice(header(sample)).ok()?;
    bytes.extend_from_slice(packets).ok()?;
    Some(bytes)
}

/// Packets of two channels: `a` starts and completes, then `b`.
pub(crate) const TWO: &[u8] =
    b"\x01\x00\x00\x01\x01\x05\x01\x00\x00\x02\x02\x05\x00\x00\x00\x00\x02";

/// The same without `b`.
pub(crate) const ONE: &[u8] = b"\x01\x00\x00\x01\x01\x05\x00\x00\x00\x00\x01";

/// `a` starts and completes, then `b` starts.
pub(crate) const LAST_END_MISSING: &[u8] =
    b"\x01\x00\x00\x01\x01\x05\x01\x00\x00\x02\x00\x05\x00\x00\x00\x00\x02";

/// `a` starts and completes, then `b`, then `a` again.
pub(crate) const THREE: &[u8] =
    b"\x01\x00\x00\x01\x01\x05\x01\x00\x00\x02\x02\x05\x01\x00\x00\x01\x01\x06\x00\x00\x00\x00\x03";

/// `a` starts, then `b`.
pub(crate) const STARTS: &[u8] =
    b"\x01\x00\x00\x01\x00\x05\x01\x00\x00\x02\x00\x07\x00\x00\x00\x00\x02";

/// No packet.
pub(crate) const NONE: &[u8] = b"\x00\x00\x00\x00\x00";

/// A packet of a channel without content, in which a transaction starts and completes.
pub(crate) const BARE: &[u8] = b"\x01\x00\x00\x01\x01\x00\x00\x00\x00\x01";

/// The same a cycle later.
pub(crate) const LATE: &[u8] = b"\x01\x00\x01\x01\x01\x00\x00\x00\x00\x01";

/// Packets of the register file: a word is written and read again.
pub(crate) const ROUND: &[u8] =
    b"\x01\x00\x00\x03\x03\x00\x00\x00\x00\x00\x00\x03\xe8\x0f\x01\x00\x00\x04\x04\x00\x01\x00\x00\x08\x08\x00\x00\x00\x00\x01\x00\x00\x10\x10\x00\x00\x03\xe8\x00\x00\x00\x00\x00\x04";

/// The mask of all the design's channels.
fn all(sample: Sample) -> u8 {
    match sample {
        Sample::Regs => 31,
        Sample::Flick => 1,
        Sample::Pass | Sample::Duo | Sample::Dead | Sample::Back => 3,
    }
}

/// For each byte of a content of channel `c` the bits that are drawn.
fn bits(sample: Sample, c: u8) -> &'static [u8] {
    match sample {
        Sample::Regs => match c {
            1 => b"\x00\x00\x00\xff\x0f",
            2 => b"\x03",
            4 => b"\x00\x00\x00\xff\x03",
            _ => b"\x00\x00\x00\x7c",
        },
        Sample::Flick => b"",
        Sample::Pass | Sample::Duo | Sample::Dead | Sample::Back => b"\xff",
    }
}

/// The next number drawn.
fn next(state: u64) -> u64 {
    state
        .wrapping_mul(6_364_136_223_846_793_005)
        .wrapping_add(1_442_695_040_888_963_407)
}

/// A byte of a number drawn.
fn byte(state: u64) -> u8 {
    ((state >> 33) % 256) as u8
}

/// Adds a content with these bits drawn, and gives the last number drawn.
fn push_content(out: &mut Vec<u8>, bits: &[u8], state: u64) -> Option<u64> {
    let mut drawn = state;
    for mask in bits {
        drawn = next(drawn);
        out.push(byte(drawn) & *mask).ok()?;
    }
    Some(drawn)
}

/// Adds the contents of the channels that start.
fn push_contents(out: &mut Vec<u8>, sample: Sample, starts: u8, state: u64) -> Option<u64> {
    let mut drawn = state;
    for c in 0..5 {
        if names(u128::from(starts), usize::from(c)) {
            drawn = push_content(out, bits(sample, c), drawn)?;
        }
    }
    Some(drawn)
}

/// Adds a packet behind a gap of at most three cycles, where something starts or ends in it, and gives the last number drawn.
fn push_packet(out: &mut Vec<u8>, sample: Sample, starts: u8, ends: u8, state: u64) -> Option<u64> {
    if starts | ends == 0 {
        return Some(state);
    }
    let gap = byte(state) & 3;
    out.extend_from_slice(&[1, 0, gap, starts, ends]).ok()?;
    push_contents(out, sample, starts, state)
}

/// Adds at most 12 packets of the design's channels, others for each number, and gives how many they are.
fn push_drawn(out: &mut Vec<u8>, sample: Sample, number: u64) -> Option<u8> {
    let mut drawn = next(number);
    let mut flying = 0;
    let mut packets: u8 = 0;
    for _ in 0..number % 13 {
        let starts = byte(drawn) & all(sample) & (255 ^ flying);
        drawn = next(drawn);
        let ends = byte(drawn) & (flying | starts);
        drawn = push_packet(out, sample, starts, ends, next(drawn))?;
        packets = packets.wrapping_add(u8::from(starts | ends != 0));
        flying = (flying | starts) & (255 ^ ends);
    }
    Some(packets)
}

/// A trace of at most 12 packets of the design's channels, another for each number.
pub(crate) fn drawn_trace(alloc: Global, sample: Sample, number: u64) -> Option<Vec<u8>> {
    let mut out = Vec::new(alloc);
    out.extend_from_slice(header(sample)).ok()?;
    let packets = push_drawn(&mut out, sample, number)?;
    out.extend_from_slice(&[0, 0, 0, 0, packets]).ok()?;
    Some(out)
}

/// A trace of two epochs, each as drawn for its own number, with a reset between them.
pub(crate) fn drawn_epochs(
    alloc: Global,
    sample: Sample,
    first: u64,
    second: u64,
) -> Option<Vec<u8>> {
    let mut out = Vec::new(alloc);
    out.extend_from_slice(header(sample)).ok()?;
    let before = push_drawn(&mut out, sample, first)?;
    out.extend_from_slice(&[2, 0, 0]).ok()?;
    let behind = push_drawn(&mut out, sample, second)?;
    let packets = before.wrapping_add(1).wrapping_add(behind);
    out.extend_from_slice(&[0, 0, 0, 0, packets]).ok()?;
    Some(out)
}

/// Adds a round of the register file: a word is written and read again. Where `early`, there is a gap of three cycles before it, and the
/// address comes a cycle before the word.
fn push_round(out: &mut Vec<u8>, round: u8, early: bool) -> Option<()> {
    let at = round % 16 * 4;
    let [high, low] = (1000 + u16::from(round)).to_be_bytes();
    if early {
        let packets = [
            1, 0, 3, 1, 0, 0, 0, 0, at, 1, 0, 0, 2, 3, 0, 0, high, low, 15,
        ];
        out.extend_from_slice(&packets).ok()?;
    } else {
        let packet = [1, 0, 0, 3, 3, 0, 0, 0, at, 0, 0, high, low, 15];
        out.extend_from_slice(&packet).ok()?;
    }
    let rest = [
        1, 0, 0, 4, 4, 0, 1, 0, 0, 8, 8, 0, 0, 0, at, 1, 0, 0, 16, 16, 0, 0, high, low, 0,
    ];
    out.extend_from_slice(&rest).ok()
}

/// The trace of 60 rounds: 259 packets where the store stalls in each third round, else 240.
pub(crate) fn rounds(alloc: Global, stalls: bool) -> Option<Vec<u8>> {
    let mut out = Vec::new(alloc);
    out.extend_from_slice(REGS_HEADER).ok()?;
    for round in 0..60 {
        push_round(&mut out, round, stalls && round != 0 && round % 3 == 0)?;
    }
    let end: [u8; 5] = if stalls {
        [0, 0, 0, 1, 3]
    } else {
        [0, 0, 0, 0, 240]
    };
    out.extend_from_slice(&end).ok()?;
    Some(out)
}
