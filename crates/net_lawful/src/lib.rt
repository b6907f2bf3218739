//! Whether a flat design is lawful, clause by clause.
//!
//! `frame` looks at instances, nets, memories, ports and the clock, `registers` at the state, `range`, `words` and `places` at
//! statements, `code` at drivers and clocked blocks, `driven` at who writes each bit of each net, and `lawful` puts all together.
//! `masks` compares sets of bits, and `rooms` finds memories.
#![tactic(auto)]

mod code;
mod driven;
mod frame;
mod lawful;
mod masks;
mod places;
mod range;
mod registers;
mod rooms;
mod words;

pub use lawful::is_lawful;
