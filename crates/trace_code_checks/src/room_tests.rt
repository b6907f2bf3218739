//! Gates, the permit to reset and capacities: of two channels, and of 128.

ghost use Rattle.std.specs.Prelude.{◌≡◌, ◌+◌, ◌*◌, ◌≤◌, length, sum_by, IfOk, OnOk};
ghost use Rattle.room_ledger.specs.trace_model.Channel.{content_bytes};

use room_ledger::trace_model::{Channel, Channels, Dir};
use room_ledger::vidi_bits::{Bytes, Memory};
use room_ledger::{Room, RoomError};
use std::alloc::Global;

/// A cycle: its starts, its ends and the length of its packet.
type Emission = (u128, u128, u32);

/// What comes behind it: whether the design is reset, and how many bytes may drain.
type Behind = (bool, u32);

/// The next cycle: the gates, the bytes used, and the permit to reset.
type Next = (u128, u32, bool);

/// Adds a channel with one port of this width, or without a port where it is 0.
fn push_channel(channels: &mut Channels, alloc: Global, width: u8) -> Result<(), Memory>
    requires { width ≤ 128 }
    ensures count { OnOk result (length channels.new ≡ length channels.old + 1) }
    ensures content { OnOk result (sum_by content_bytes channels.new ≤ sum_by content_bytes channels.old + 16) }
{
    let mut widths = Bytes::new(alloc);
    if width > 0 {
        widths.push(width)?;
    }
    let name = Bytes::new(alloc);
    let dir = Dir::Inward;
    channels.push(Channel { dir, name, widths })?;
    Ok(())
}

/// So many of them.
fn channels_of(alloc: Global, count: usize, width: u8) -> Result<Channels, Memory>
    requires { width ≤ 128 }
    ensures count { IfOk result (λ channels. length channels ≡ count) }
    ensures content { IfOk result (λ channels. sum_by content_bytes channels ≤ 16 * count) }
{
    let mut channels = Channels::new(alloc);
    for _ in 0..count {
        push_channel(&mut channels, alloc, width)?;
    }
    Ok(channels)
}

/// A room of so many of them, or why there is none.
fn room_of(
    alloc: Global,
    count: usize,
    width: u8,
    resets: bool,
    capacity: u32,
) -> Result<Room, RoomError>
    requires some { 1 ≤ count }
    requires few { count ≤ 128 }
    requires width { width ≤ 128 }
{
    match channels_of(alloc, count, width) {
        Ok(channels) => Room::new(alloc, &channels, resets, capacity),
        Err(_) => Err(RoomError::Memory),
    }
}

/// Whether so many of them need so many bytes: of these a room is made, and of one less it is refused.
fn is_need(alloc: Global, count: usize, width: u8, resets: bool, bytes: u32) -> bool
    requires some { 1 ≤ count }
    requires few { count ≤ 128 }
    requires width { width ≤ 128 }
    requires least { 1 ≤ bytes }
{
    let less = bytes - 1;
    let refused = match room_of(alloc, count, width, resets, less) {
        Err(RoomError::TooSmall { need, given }) => need == bytes && given == less,
        _ => false,
    };
    refused && room_of(alloc, count, width, resets, bytes).is_ok()
}

/// Whether a reset is lawful, its packet has 3 bytes, and no second one is lawful behind it.
fn is_reset_right(room: &mut Room) -> bool {
    if !room.may_reset() {
        return false;
    }
    let three = room.reset() == 3;
    three && !room.may_reset()
}

/// Whether a cycle may have these events, and makes this of the room.
fn is_cycle_right(room: &mut Room, events: Emission, behind: Behind, next: Next) -> bool {
    let (starts, ends, len) = events;
    let (resets, allowance) = behind;
    let (gates, used, permit) = next;
    if !room.fits(starts, ends) {
        return false;
    }
    let mut right = room.emit(starts, ends) == len;
    if resets {
        right &= is_reset_right(room);
    }
    let _bytes = room.drain(Some(allowance));
    room.regrant();
    right &= room.gates() == gates && room.gate(1) == (gates & 2 == 2);
    right && room.used() == used && room.may_reset() == permit
}

fn are_cycles_right(room: &mut Room, cycles: &[(Emission, Behind, Next)]) -> bool {
    let mut right = true;
    for cycle in cycles {
        let (events, behind, next) = *cycle;
        right &= is_cycle_right(room, events, behind, next);
    }
    right
}

/// Whether a room of two channels of 8 bits each, all of whose gates are up at first, has these cycles.
fn has_cycles(
    alloc: Global,
    resets: bool,
    capacity: u32,
    cycles: &[(Emission, Behind, Next)],
) -> bool {
    match room_of(alloc, 2, 8, resets, capacity) {
        Ok(mut room) => {
            let first = room.gates() == 3 && room.used() == 0 && room.may_reset() == resets;
            are_cycles_right(&mut room, cycles) && first
        }
        Err(_) => false,
    }
}

// A head is 5 bytes long, and each of the two channels needs 2 * 5 + 1 = 11. In cycle 0 the first one, a, starts and completes, in cycle 1
// both start and the other one, b, completes, in cycle 2 a completes: 6 + 11 + 11 = 28, 13 + 5 + 11 > 28, and 18 + 11 > 28. Then 5 bytes
// drain, where 13 + 11 <= 28 and 13 + 11 + 11 > 28, and then the others.
const STEPS: [(Emission, Behind, Next); 5] = [
    ((1, 1, 6), (false, 0), (3, 6, false)),
    ((3, 2, 7), (false, 0), (1, 13, false)),
    ((0, 1, 5), (false, 0), (0, 18, false)),
    ((0, 0, 0), (false, 5), (1, 13, false)),
    ((0, 0, 0), (false, 13), (3, 0, false)),
];

// In cycle 0 a starts, in cycle 1 b: 6 + 5 + 11 + 3 <= 28. Behind cycle 1, in which both are in flight, and behind the four cycles after it the
// design is reset. Then 12 + 3 + 3 <= 28 leaves the permit, and 15 + 3 + 11 > 28 no gate; 24 + 3 <= 28 leaves it too, and 27 + 3 > 28 doesn't.
// After 4 bytes have drained 23 + 3 <= 28 and 23 + 3 + 11 > 28, after 9 more 14 + 3 + 11 = 28, and then the others drain.
const RESETS: [(Emission, Behind, Next); 9] = [
    ((1, 0, 6), (false, 0), (3, 6, true)),
    ((2, 0, 6), (true, 0), (0, 15, true)),
    ((0, 0, 0), (true, 0), (0, 18, true)),
    ((0, 0, 0), (true, 0), (0, 21, true)),
    ((0, 0, 0), (true, 0), (0, 24, true)),
    ((0, 0, 0), (true, 0), (0, 27, false)),
    ((0, 0, 0), (false, 4), (0, 23, true)),
    ((0, 0, 0), (false, 9), (1, 14, true)),
    ((0, 0, 0), (false, 14), (3, 0, true)),
];

// With the least capacity: 9 + 11 + 3 <= 25 leaves the permit behind the first reset, and 12 + 11 + 3 > 25 doesn't behind the second one.
const WAITS: [(Emission, Behind, Next); 2] = [
    ((1, 1, 6), (true, 0), (2, 9, true)),
    ((0, 0, 0), (true, 0), (2, 12, false)),
];

// Gates go up while there is room.
#[test]
fn gates_follow_the_room(rt: HostRuntime) {
    assert!(rt; has_cycles(rt.alloc(), false, 28, &STEPS));
}

// The permit goes up before the gates, and a channel in flight loses its gate.
#[test]
fn permits_come_first(rt: HostRuntime) {
    assert!(rt; has_cycles(rt.alloc(), true, 28, &RESETS));
    assert!(rt; has_cycles(rt.alloc(), true, 25, &WAITS));
}

#[test]
fn rooms_hold_what_channels_need(rt: HostRuntime) {
    assert!(rt; is_need(rt.alloc(), 2, 8, false, 22));
    assert!(rt; is_need(rt.alloc(), 2, 8, true, 25));
}

// The masks of 128 channels have 16 bytes each, so a head is 3 + 2 * 16 = 35 bytes long, and each channel needs 2 * 35 = 70: 8,960 bytes,
// and 2,048 more where each has 16 bytes of content.
#[test]
fn many_channels_have_room(rt: HostRuntime) {
    assert!(rt; is_need(rt.alloc(), 128, 0, false, 8960));
    assert!(rt; is_need(rt.alloc(), 128, 0, true, 8963));
    assert!(rt; is_need(rt.alloc(), 128, 128, false, 11008));
}

/// Whether all of 128 channels with 16 bytes of content each start and complete in one cycle, and so many gates go up behind it.
fn is_full_cycle_right(alloc: Global) -> bool {
    match room_of(alloc, 128, 128, false, 11008) {
        Ok(mut room) => {
            let events = (u128::MAX, u128::MAX, 2083);
            room.gates() == u128::MAX
                && is_cycle_right(&mut room, events, (false, 0), ((1 << 103) - 1, 2083, false))
        }
        Err(_) => false,
    }
}

// The packet has 35 + 2,048 bytes. Behind it each gate takes 70 + 16 = 86: 2,083 + 103 * 86 = 10,941, and 86 more don't fit.
#[test]
fn many_channels_start(rt: HostRuntime) {
    assert!(rt; is_full_cycle_right(rt.alloc()));
}
