//! What a map is once it is bound to a design.

ghost use Rattle.std.specs.Prelude.{◌≡◌};

use trace_model::Channels;
use vidi_lines::vidi_bits::{Items, Name};

/// A port of the top.
#[derive(Drop)]
pub struct Pin {
    pub name: Name,
    /// Its place among the ports of its direction, from 0.
    pub place: usize,
}

/// A list of pins.
pub type Pins = Items<Pin>;

/// The pins of a channel.
#[derive(Drop)]
pub struct Plug {
    pub valid: Pin,
    pub ready: Pin,
    pub contents: Pins,
}

/// The pins of the channels, in the order of the table.
pub type Plugs = Items<Plug>;

/// An input that is held at a number of at most `width` bits.
#[derive(Drop)]
pub struct Tie {
    pub pin: Pin,
    pub width: u32,
    pub number: u128,
}

/// A list of ties.
pub type Ties = Items<Tie>;

/// The reset pin, its active value, and for how many cycles it is active: 1 to 1,000.
#[derive(Drop)]
pub struct Reset {
    pub pin: Pin,
    pub active: bool,
    pub cycles: u32,
}

/// A map, bound to a design.
pub struct Map {
    /// The name of the top module.
    pub top: Name,
    pub channels: Channels,
    pub plugs: Plugs,
    pub ties: Ties,
    pub reset: Option<Reset>,
    pub clock: Pin,
}

/// Written out, so that the drops of its parts are proved here and not in each crate that lets go of a map.
impl Drop for Map {
    fn drop(self) {
        let Map {
            top,
            channels,
            plugs,
            ties,
            reset,
            clock,
        } = self;
    }
}

impl Map {
    /// The channel table.
    pub fn channels(&self) -> &Channels
        ensures { result.now ≡ self.now.channels }
    {
        &self.channels
    }
}
