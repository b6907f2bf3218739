//! What E8 finds.

/// What kind of net a net is to E8.
#[derive(Clone, Copy, Debug, PartialEq, Eq)]
pub enum NetKind {
    /// An input of the top, which the pins drive.
    Pin,
    /// A wire, or another port that isn't `output reg`.
    Wire,
    /// A reg, or an `output reg`.
    Reg,
}

/// A net or a memory that isn't driven as it has to be.
#[derive(Clone, Copy, Debug, PartialEq, Eq)]
pub enum Misdriven {
    /// A bit of a net, and how many drivers it has; of a reg bit 0, and how many always blocks write it.
    Net { net: usize, bit: u32, drivers: u128 },
    /// A memory, by its place, and how many always blocks write it.
    Memory { memory: usize, drivers: u128 },
}
