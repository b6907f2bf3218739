//! All files of a sample.

use room_ledger::vidi_bits::Bytes;

/// The texts of a sample's files, and what its line tells of them.
#[derive(Drop)]
pub struct Sample {
    /// The design, with the top `pipe`.
    pub design: Bytes,
    /// The map of the design.
    pub map: Bytes,
    /// The script.
    pub script: Bytes,
    /// The plan of stalls.
    pub stalls: Bytes,
    /// How many registers the design chains, 1 to 8.
    pub stages: u32,
    /// How many transactions the script sends.
    pub sends: u32,
    /// How many cycles the script has.
    pub cycles: u32,
}
