//! Events that a replay holds back, and what they wait for.

use chan_map::trace_model::Event;
use chan_map::vidi_bits::Items;

/// A channel with fewer completions than an event asks for.
#[derive(Clone, Copy, PartialEq, Eq)]
pub struct Await {
    pub channel: usize,
    /// The completions that there are.
    pub have: u32,
    /// The completions that the event's clock asks for.
    pub need: u32,
}

/// What an event awaits, in channel order.
pub type Awaits = Items<Await>;

/// An event that is held back, with everything that it awaits.
#[derive(Drop)]
pub struct Held {
    pub event: Event,
    pub awaits: Awaits,
}

/// The events that are held back, in channel order.
pub type Helds = Items<Held>;
