//! Numbers at input pins.

use chan_map::vidi_bits::Items;

/// An input pin, by its place among the input ports, with the number that is entered at it.
#[derive(Clone, Copy)]
pub struct PinNumber {
    pub place: usize,
    pub number: u128,
}

/// A list of pins with their numbers.
pub type PinNumbers = Items<PinNumber>;
