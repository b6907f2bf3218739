//! What the lines of a map say.

use trace_model::Dir;
use vidi_lines::Names;
use vidi_lines::vidi_bits::{Items, Name};

/// A line `in` or `out`.
#[derive(Drop)]
pub struct ChannelLine {
    pub dir: Dir,
    pub name: Name,
    pub valid: Name,
    pub ready: Name,
    pub contents: Names,
}

/// What a line of a map says. Ports are named.
#[derive(Drop)]
pub enum Entry {
    /// The top module.
    Top {
        name: Name,
    },
    Clock {
        port: Name,
    },
    /// An input that is held at a number.
    Tie {
        port: Name,
        number: u128,
    },
    /// The reset port, its active value, and for how many cycles it is active: 1 to 1,000.
    Reset {
        port: Name,
        active: bool,
        cycles: u32,
    },
    /// An output that is passed over.
    Ignore {
        port: Name,
    },
    Channel {
        channel: ChannelLine,
    },
}

/// What the line with this number, counted from 1, says.
#[derive(Drop)]
pub struct MapLine {
    pub line: u32,
    pub entry: Entry,
}

/// A list of lines that have words, in the order of the text.
pub type MapLines = Items<MapLine>;
