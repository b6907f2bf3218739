//! Events: a channel starts or completes a transaction.

use vidi_bits::Items;

/// Whether an event is the start or the completion of a transaction, or a reset.
#[derive(Clone, Copy, Debug, PartialEq, Eq)]
pub enum Kind {
    Start,
    End,
    /// The design was reset in mid-run.
    Reset,
}

/// The `index`-th start or completion of a channel, counted from 0.
#[derive(Clone, Copy, Debug, PartialEq, Eq)]
pub struct Event {
    pub channel: usize,
    pub kind: Kind,
    pub index: u32,
    /// How many resets came before it.
    pub epoch: u32,
}

/// A list of events.
pub type Events = Items<Event>;
