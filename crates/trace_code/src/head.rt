//! The head of a packet: its masks, and what they say of its length.

ghost use Rattle.std.specs.Prelude.{◌≡◌, ◌≢◌, IsTrue, ◌≤◌, ◌<◌, ◌+◌, ◌*◌, ◌^◌, ℕ, true, false, length, drop, take, slice_index};
ghost use Rattle.vec_clock.specs.trace_model.Length.{head_len, sizes_under};
ghost use Rattle.trace_code.specs.declared.head.TheConstants.{MASKS_LEN};
ghost use Rattle.trace_code.specs.Heads.{front_len, heads, AreMasks, IsHead};

use crate::number::{low_first, mask_len};
use crate::writing::write_at;
use vec_clock::trace_model::{Kind, RESET_LEN, head_len, lowest, names};

/// The most packets that are looked at ahead.
const MOST_AHEAD: u32 = 32;

/// The bytes of both masks of the most channels.
const MASKS_LEN: usize = 32;

/// A packet's masks and its length. Where the next packet's masks are the same bytes, nothing is counted anew.
#[derive(Drop)]
pub(crate) struct Head {
    /// The content bytes of each channel.
    pub(crate) sizes: Vec<u32>,
    /// Whether it is a reset, which has no events.
    pub(crate) reset: bool,
    pub(crate) starts: u128,
    pub(crate) ends: u128,
    /// The length of the packet.
    pub(crate) len: usize,
    /// The bytes of both masks, where it is no reset.
    masks: [u8; MASKS_LEN],
    ghost some: { 0 < length sizes.items },
    ghost few: { length sizes.items ≤ 128 },
    ghost small: { (mask : ℕ) → sizes_under mask sizes.items < 2 ^ 32 },
    ghost len_is: { len ≡ front_len (length sizes.items) reset + sizes_under starts sizes.items },
    ghost masks_are: { reset ≡ false → AreMasks (length sizes.items) starts ends masks },
}

/// The sum of the sizes of the channels that start.
pub(crate) fn starts_len(sizes: &[u32], starts: u128) -> usize
    requires { sizes_under starts sizes.now < 2 ^ 32 }
    ensures { result ≡ sizes_under starts sizes.now }
{
    let mut total: u32 = 0;
    let mut left = starts;
    'starts: while let Some((channel, others)) = lowest(left) {
        if channel >= sizes.len() {
            return total as usize;
        }
        total += sizes[channel];
        left = others;
    }
    total as usize
}

/// The bytes of both masks, and zeros behind them.
fn padded(masks: &[u8]) -> [u8; MASKS_LEN]
    requires { length masks.now ≤ MASKS_LEN }
    ensures { take (length masks.now) result ≡ masks.now }
{
    let mut whole = [0; MASKS_LEN];
    let _end = write_at(&mut whole, 0, masks);
    whole
}

impl Head {
    /// A head of no packet, for channels with these content bytes.
    pub(crate) fn new(sizes: Vec<u32>) -> Head
        requires some { 0 < length sizes.items }
        requires few { length sizes.items ≤ 128 }
        requires small { (mask : ℕ) → sizes_under mask sizes.items < 2 ^ 32 }
        ensures { result.sizes.items ≡ sizes.items }
    {
        let contents = starts_len(sizes.as_slice(), 0);
        Head {
            sizes,
            reset: true,
            starts: 0,
            ends: 0,
            len: RESET_LEN + contents,
            masks: [0; MASKS_LEN],
        }
    }

    /// The number of channels.
    pub(crate) fn channels(&self) -> usize
        ensures { result ≡ length self.now.sizes.items }
    {
        self.sizes.as_slice().len()
    }

    /// How many bytes of the packet's contents stand before a channel's.
    pub(crate) fn below(&self, channel: usize) -> usize
        requires channel { channel ≤ length self.now.sizes.items }
        requires small { sizes_under self.now.starts (take channel self.now.sizes.items) < 2 ^ 32 }
        ensures { result ≡ sizes_under self.now.starts (take channel self.now.sizes.items) }
    {
        starts_len(&self.sizes.as_slice()[..channel], self.starts)
    }

    /// Whether one look tells that the packet at the front of the bytes has these masks.
    fn is_of(&self, rest: &[u8]) -> bool
        ensures { IsTrue result → IsHead (length self.now.sizes.items) self.now.reset self.now.starts self.now.ends rest.now }
    {
        if self.reset {
            return false;
        }
        if rest.len() < 3 {
            return false;
        }
        if rest[0] != 1 {
            return false;
        }
        let len = 2 * mask_len(self.channels());
        rest[3..].starts_with(&self.masks[..len])
    }

    /// Reads the masks of the packet at the front of the bytes, which is no reset.
    fn read(&mut self, rest: &[u8])
        requires row { slice_index rest.now 0 ≡ 1 }
        requires long { head_len (length self.old.sizes.items) ≤ length rest.now }
        ensures sizes { self.new.sizes.items ≡ self.old.sizes.items }
        ensures head { IsHead (length self.old.sizes.items) self.new.reset self.new.starts self.new.ends rest.now }
    {
        let channels = self.channels();
        let len = mask_len(channels);
        let (masks, _contents) = rest[3..].split_at(2 * len);
        let (starts, ends) = masks.split_at(len);
        let starts = low_first(starts);
        self.len = head_len(channels) + starts_len(self.sizes.as_slice(), starts);
        self.reset = false;
        self.starts = starts;
        self.ends = low_first(ends);
        self.masks = padded(masks);
    }

    /// Makes it the head of a reset.
    fn read_reset(&mut self)
        ensures sizes { self.new.sizes.items ≡ self.old.sizes.items }
        ensures reset { self.new.reset ≡ true }
        ensures starts { self.new.starts ≡ 0 }
        ensures ends { self.new.ends ≡ 0 }
    {
        self.reset = true;
        self.starts = 0;
        self.ends = 0;
        self.len = RESET_LEN + starts_len(self.sizes.as_slice(), 0);
    }

    /// Makes it the head of the packet at the front of the bytes.
    pub(crate) fn turn_to(&mut self, rest: &[u8])
        requires some { 0 < length rest.now }
        requires row { slice_index rest.now 0 ≢ 2
            → (slice_index rest.now 0 ≡ 1) × (head_len (length self.old.sizes.items) ≤ length rest.now) }
        ensures sizes { self.new.sizes.items ≡ self.old.sizes.items }
        ensures head { IsHead (length self.old.sizes.items) self.new.reset self.new.starts self.new.ends rest.now }
    {
        if rest[0] == 2 {
            self.read_reset();
        } else if !self.is_of(rest) {
            self.read(rest);
        }
    }

    /// How many packets behind the one at the front of the bytes have its masks, as far as one looks ahead.
    pub(crate) fn count_same(&self, rest: &[u8]) -> u32
        ensures { (i : ℕ) → i < result → IsHead (length self.now.sizes.items) self.now.reset self.now.starts self.now.ends
            (drop ((i + 1) * self.now.len) rest.now) }
    {
        let mut here = rest;
        for same in 0..MOST_AHEAD {
            if here.len() <= self.len {
                return same;
            }
            here = &here[self.len..];
            if !self.is_of(here) {
                return same;
            }
        }
        MOST_AHEAD
    }

    /// Whether the packet has an event of this kind on this channel.
    pub(crate) fn has_event(&self, kind: Kind, channel: usize) -> bool
        ensures { result ≡ heads kind channel self.now.reset self.now.starts self.now.ends }
    {
        match kind {
            Kind::Start => names(self.starts, channel),
            Kind::End => names(self.ends, channel),
            Kind::Reset => self.reset,
        }
    }
}
