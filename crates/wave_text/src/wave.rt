//! Waves.

use vlog_lex::vidi_bits::{Items, Name, Numbers};

/// A net of a wave.
#[derive(Debug, Drop)]
pub struct WaveNet {
    /// One or more identifiers joined by `.`: the instances from the top down, and the net's own name.
    pub name: Name,
    /// The number of its bits, 1 to 128.
    pub width: u32,
}

/// The nets of a wave, numbered from 0.
pub type WaveNets = Items<WaveNet>;

/// The numbers of the nets, row by row.
pub type Grid = Items<Numbers>;

/// The numbers of a design's nets, one row a cycle.
#[derive(Debug, Drop)]
pub struct Wave {
    /// The name of the top module.
    pub top: Name,
    pub nets: WaveNets,
    pub rows: Grid,
}
