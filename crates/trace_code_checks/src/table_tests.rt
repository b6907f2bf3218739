//! Tables of many channels and long contents.

ghost use Rattle.std.specs.Prelude.{◌≤◌, length};

use crate::bytes_tests::is_written;
use std::alloc::Global;
use trace_v2::trace_code::{CodeError, decode, salvage_front};

/// Whether there is memory for channel `c` with ports of these widths.
fn has_channel(bytes: &mut Vec<u8>, c: u8, widths: &[u8]) -> bool
    requires { length widths.now ≤ 16 }
{
    let head = [c % 2, 2, b'A' + c / 16, b'a' + c % 16, widths.len() as u8];
    bytes.extend_from_slice(&head).is_ok() && bytes.extend_from_slice(widths).is_ok()
}

/// Whether there is memory for the header of so many channels with ports of these widths, the last of which has others.
fn has_header(bytes: &mut Vec<u8>, channels: u8, widths: &[u8], last: &[u8]) -> bool
    requires widths { length widths.now ≤ 16 }
    requires last { length last.now ≤ 16 }
{
    let mut has = bytes.extend_from_slice(b"VIDITRC2").is_ok() && bytes.push(channels).is_ok();
    for c in 0..channels {
        has &= has_channel(bytes, c, if c + 1 == channels { last } else { widths });
    }
    has
}

/// Whether such a table is read, or refused.
fn is_judged(alloc: Global, channels: u8, widths: &[u8], last: &[u8], lawful: bool) -> bool
    requires widths { length widths.now ≤ 16 }
    requires last { length last.now ≤ 16 }
{
    let mut bytes = Vec::new(alloc);
    let has = has_header(&mut bytes, channels, widths, last)
        && bytes.extend_from_slice(&[0; 5]).is_ok();
    let right = match decode(alloc, bytes.as_slice()) {
        Ok(t) => lawful && t.channels.len() == usize::from(channels),
        Err(error) => !lawful && matches!(error, CodeError::BadTrace { at: 0 }),
    };
    has && right
}

// 2,048 bytes in 8 channels or in 128, and one more.
#[test]
fn tables_have_128_channels(rt: HostRuntime) {
    let alloc = rt.alloc();
    let few = is_judged(alloc, 128, &[], &[], true) && is_judged(alloc, 129, &[], &[], false);
    let none = is_judged(alloc, 0, &[], &[], false) && is_judged(alloc, 255, &[], &[], false);
    let long = is_judged(alloc, 8, &[128; 16], &[128; 16], true);
    let wide = is_judged(alloc, 128, &[1; 16], &[1; 16], true);
    let more = is_judged(alloc, 9, &[128; 16], &[8], false);
    assert!(rt; few && none && long && wide && more);
}

/// Whether the bytes are those of a trace of one packet, or of none that is whole, which begins at `at`.
fn is_packet(alloc: Global, bytes: &[u8], at: usize, lawful: bool) -> bool {
    let coded = match decode(alloc, bytes) {
        Ok(trace) => lawful && trace.packets.len() == 1 && is_written(alloc, &trace, bytes, &[]),
        Err(error) => !lawful && error == CodeError::BadTrace { at: at as u64 },
    };
    let whole = match salvage_front(alloc, bytes) {
        Ok(whole) => (whole.len == at) != lawful && (whole.packets == 1) == lawful,
        Err(_) => false,
    };
    coded && whole
}

/// Whether a packet with these masks and contents is read behind a table of so many channels.
fn is_packet_judged(
    alloc: Global,
    channels: u8,
    widths: &[u8],
    masks: &[u8],
    contents: &[u8],
    lawful: bool,
) -> bool
    requires { length widths.now ≤ 16 }
{
    let mut bytes = Vec::new(alloc);
    let mut has = has_header(&mut bytes, channels, widths, widths);
    let at = bytes.as_slice().len();
    has &= bytes.extend_from_slice(&[1, 0xff, 0xff]).is_ok();
    has &= bytes.extend_from_slice(masks).is_ok() && bytes.extend_from_slice(contents).is_ok();
    has &= bytes.extend_from_slice(&[0, 0, 0, 0, 1]).is_ok();
    has && is_packet(alloc, bytes.as_slice(), at, lawful)
}

// Masks of 1, 32, 33 and 128 channels: the last channel starts, and a spare bit.
#[test]
fn masks_have_a_bit_a_channel(rt: HostRuntime) {
    let alloc = rt.alloc();
    let one = is_packet_judged(alloc, 1, &[], &[1, 0], &[], true)
        && is_packet_judged(alloc, 1, &[], &[2, 0], &[], false);
    let word = is_packet_judged(alloc, 32, &[], &[0, 0, 0, 128, 0, 0, 0, 0], &[], true);
    let more = is_packet_judged(alloc, 33, &[], &[0, 0, 0, 0, 1, 0, 0, 0, 0, 1], &[], true);
    let spare = is_packet_judged(alloc, 33, &[], &[0, 0, 0, 0, 2, 0, 0, 0, 0, 0], &[], false)
        && is_packet_judged(alloc, 33, &[], &[3, 0, 0, 0, 2, 0, 0, 0], &[], false);
    let mut masks = [0; 32];
    masks[15] = 128;
    let last = is_packet_judged(alloc, 128, &[], &masks, &[], true);
    assert!(rt; one && word && more && spare && last);
}

// The longest packet: 128 channels of 16 ports, of one byte each, all start and complete.
#[test]
fn the_longest_packet_is_coded(rt: HostRuntime) {
    let alloc = rt.alloc();
    let whole = is_packet_judged(alloc, 128, &[8; 16], &[255; 32], &[7; 2048], true);
    let short = is_packet_judged(alloc, 128, &[8; 16], &[255; 32], &[7; 2042], false);
    assert!(rt; whole && short);
}
