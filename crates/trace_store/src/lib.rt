//! The store: the recorded bytes that wait to be written, in a ring of fixed capacity.
#![tactic(auto)]

mod store;

pub use store::Store;
pub use vidi_bits;
