//! Packets: what one cycle adds to a trace.

use vidi_bits::{Items, Numbers};

/// The most channels of a table (this project's profile).
pub const MOST_CHANNELS: usize = 128;

/// The most bytes of the contents of a table's channels together (this project's profile).
pub const MOST_CONTENT_BYTES: usize = 2_048;

/// The most cycles of a run (this project's profile).
pub const MOST_CYCLES: u32 = 50_000;

/// The least number of cycles that no gap has (this project's profile): a gap is written in two bytes.
pub const GAP_LIMIT: u32 = 65_536;

/// The bytes of a reset (this project's profile): a byte, and the gap in two.
pub const RESET_LEN: usize = 3;

/// The bytes of the longest packet of a table's channels (this project's profile): a byte, the gap in two, the masks of the
/// most channels' starts and ends, and the most contents.
pub const LONGEST_PACKET: usize = 3 + 2 * ((MOST_CHANNELS + 7) / 8) + MOST_CONTENT_BYTES;

/// The events of one cycle, or that the design was reset before the next one: bit c of a mask is channel c.
#[derive(Debug, Drop)]
pub struct Packet {
    /// The cycles between the end of the packet before, or the first cycle, and this one.
    pub gap: u32,
    /// The design was reset; there are no events.
    pub reset: bool,
    /// The channels that start.
    pub starts: u128,
    /// The channels that complete.
    pub ends: u128,
    /// The numbers of the starting channels' ports, in channel order and then in port order.
    pub contents: Numbers,
}

/// A list of packets, numbered from 0 in order.
pub type Packets = Items<Packet>;
