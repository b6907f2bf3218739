//! Sums over the channels, whose content bytes are `sizes`.

ghost use Rattle.room_ledger.specs.declared.room.TheConstants.{ROOM_CONTENT_BYTES};
ghost use Rattle.std.specs.Prelude.{◌≡◌, ◌+◌, ◌<◌, ◌≤◌, ◌^◌, IfOk, IfErr, length, map, sum_by, if◌then◌else◌};
ghost use Rattle.std.specs.List.{enumerate_from};
ghost use Rattle.trace_model.specs.vidi_bits.Number.{has};
ghost use Rattle.trace_model.specs.Channel.{content_bytes};
ghost use Rattle.trace_model.specs.Length.{head_len, sizes_under};
ghost use Rattle.room_ledger.specs.Reservation.{whole, need, least, reservation, event_len, reset_len, permit_room};
ghost use Rattle.room_ledger.specs.Raising.{raise};

use crate::error::RoomError;
use std::alloc::Global;
use trace_model::{Channel, RESET_LEN, content_len, head_len, names};

/// The length in bytes of a packet of these channels without contents.
pub(crate) fn head_of(sizes: &[u32]) -> u32
    requires { length sizes.now ≤ 128 }
    ensures { result ≡ head_len (length sizes.now) }
{
    head_len(sizes.len()) as u32
}

/// The content bytes of each channel.
pub(crate) fn sizes_of(alloc: Global, channels: &[Channel]) -> Result<Vec<u32>, RoomError>
    requires { sum_by content_bytes channels.now ≤ ROOM_CONTENT_BYTES }
    ensures sizes { IfOk result (λ sizes. sizes.items ≡ map content_bytes channels.now) }
    ensures memory { IfErr result (λ e. e ≡ RoomError.Memory) }
{
    let mut sizes = Vec::new(alloc);
    for channel in channels {
        sizes.push(content_len(channel) as u32)?;
    }
    Ok(sizes)
}

/// The room that all channels need together.
fn need(sizes: &[u32], head: u32) -> u32
    requires few { head ≤ 64 }
    requires small { sum_by (whole head) sizes.now < 2 ^ 32 }
    ensures { result ≡ sum_by (whole head) sizes.now }
{
    let mut total = 0;
    for size in sizes {
        total += 2 * head + *size;
    }
    total
}

/// The least capacity: what all channels need together, and the room of a permit where there may be resets.
pub(crate) fn least(sizes: &[u32], resets: bool) -> u32
    requires few { length sizes.now ≤ 128 }
    requires small { need sizes.now + reset_len < 2 ^ 32 }
    ensures { result ≡ least sizes.now resets }
{
    let need = need(sizes, head_of(sizes));
    if resets {
        need + RESET_LEN as u32
    } else {
        need
    }
}

/// What the permit to reset reserves.
pub(crate) fn permit_room(resets: bool, permit: bool) -> u32
    ensures { result ≡ permit_room resets permit }
{
    if resets && permit {
        RESET_LEN as u32
    } else {
        0
    }
}

/// The bytes of the contents of the channels that start.
fn contents_len(sizes: &[u32], starts: u128) -> u32
    requires { sizes_under starts sizes.now < 2 ^ 32 }
    ensures { result ≡ sizes_under starts sizes.now }
{
    let mut total = 0;
    for (c, size) in sizes.iter().enumerate() {
        total += if names(starts, c) { *size } else { 0 };
    }
    total
}

/// The length in bytes of the packet of these starts and ends, 0 where there is no event.
pub(crate) fn event_len(sizes: &[u32], starts: u128, ends: u128) -> u32
    requires few { length sizes.now ≤ 128 }
    requires small { event_len sizes.now starts ends < 2 ^ 32 }
    ensures { result ≡ event_len sizes.now starts ends }
{
    if starts == 0 && ends == 0 {
        return 0;
    }
    head_of(sizes) + contents_len(sizes, starts)
}

/// What one channel reserves, by whether its gate is up and whether it is in flight.
fn reservation(head: u32, size: u32, up: bool, flies: bool) -> u32
    requires { whole head size < 2 ^ 32 }
    ensures { result ≡ (if up then (if flies then head else whole head size) else 0) }
{
    match (up, flies) {
        (true, true) => head,
        (true, false) => 2 * head + size,
        (false, _) => 0,
    }
}

/// What the channels reserve, where these have their gate up and are in flight.
pub(crate) fn reserved(sizes: &[u32], head: u32, gates: u128, flying: u128) -> u32
    requires few { head ≤ 64 }
    requires small { sum_by (whole head) sizes.now < 2 ^ 32 }
    ensures { result ≡ sum_by (reservation head (has gates) (has flying)) (enumerate_from 0 sizes.now) }
{
    let mut total = 0;
    for (c, size) in sizes.iter().enumerate() {
        total += reservation(head, *size, names(gates, c), names(flying, c));
    }
    total
}

/// The gates after each that is down was taken in channel order and went up where there is room, with
/// `claimed` bytes used and reserved before.
pub(crate) fn raised(sizes: &[u32], head: u32, capacity: u32, claimed: u32, gates: u128) -> u128
    requires few { length sizes.now ≤ 128 }
    requires within { claimed ≤ capacity }
    ensures { result ≡ raise head capacity sizes.now 0 claimed gates }
{
    let limit = u64::from(capacity);
    let mut total = u64::from(claimed);
    let mut up = gates;
    for (c, size) in sizes.iter().enumerate() {
        let whole = 2 * u64::from(head) + u64::from(*size);
        if !names(up, c) && total + whole <= limit {
            total += whole;
            up |= 1 << c;
        }
    }
    up
}
