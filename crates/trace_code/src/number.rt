//! Reading the masks and the numbers of a packet.

ghost use Rattle.std.specs.Prelude.{◌≡◌, ◌^◌, ◌≤◌, length, sum_by, option_map};
ghost use Rattle.vec_clock.specs.trace_model.Channel.{byte_count};
ghost use Rattle.vec_clock.specs.trace_model.Length.{mask_len};
ghost use Rattle.trace_code.specs.PacketReading.{low_value, high_value, mask_at, number_at};

use crate::writing::write_at;
use vec_clock::trace_model::fits;

/// The bytes that hold a number of this width in bits.
pub(crate) fn byte_count(width: u8) -> usize
    ensures { result ≡ byte_count width }
{
    usize::from(width).div_ceil(8)
}

/// The bytes that hold a number of each width.
pub(crate) fn numbers_len(widths: &[u8]) -> usize
    requires { length widths.now ≤ 16 }
    ensures small { result ≤ 512 }
    ensures value { result ≡ sum_by byte_count widths.now }
{
    let mut total = 0;
    for width in widths {
        total += byte_count(*width);
    }
    total
}

/// The bytes of a mask of this many channels.
pub(crate) fn mask_len(channels: usize) -> usize
    ensures { result ≡ mask_len channels }
{
    channels.div_ceil(8)
}

/// The number in the bytes, the lowest first.
pub(crate) fn low_first(bytes: &[u8]) -> u128
    requires { length bytes.now ≤ 16 }
    ensures { result ≡ low_value bytes.now }
{
    let mut value = 0;
    for i in (0..bytes.len()).rev() {
        value = value * 256 + u128::from(bytes[i]);
    }
    value
}

/// The number in the bytes, the highest first.
pub(crate) fn high_first(bytes: &[u8]) -> u128
    requires { length bytes.now ≤ 16 }
    ensures { result ≡ high_value bytes.now }
{
    let mut whole = [0; 16];
    let _end = write_at(&mut whole, 16 - bytes.len(), bytes);
    u128::from_be_bytes(whole)
}

/// The mask of this many channels at the front of the bytes, and the bytes after it.
#[tactic(auto, unfolding(crate::specs::PacketReading::sized_at))]
pub(crate) fn read_mask(channels: usize, bytes: &[u8]) -> Option<(u128, &[u8])>
    requires { channels ≤ 128 }
    ensures { option_map (λ x. (x.0, x.1.now)) result ≡ mask_at channels bytes.now }
{
    let len = channels.div_ceil(8);
    if bytes.len() < len {
        return None;
    }
    let (front, rest) = bytes.split_at(len);
    let mask = low_first(front);
    if !fits(mask, channels) {
        return None;
    }
    Some((mask, rest))
}

/// The number of this width in bits at the front of the bytes, and the bytes after it.
#[tactic(auto, unfolding(crate::specs::PacketReading::sized_at))]
pub(crate) fn read_number(width: u8, bytes: &[u8]) -> Option<(u128, &[u8])>
    requires { width ≤ 128 }
    ensures { option_map (λ x. (x.0, x.1.now)) result ≡ number_at width bytes.now }
{
    let len = byte_count(width);
    if bytes.len() < len {
        return None;
    }
    let (front, rest) = bytes.split_at(len);
    let number = high_first(front);
    if !fits(number, usize::from(width)) {
        return None;
    }
    Some((number, rest))
}
