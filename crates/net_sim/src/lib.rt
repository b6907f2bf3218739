//! The simulator: a lawful design that runs.
//!
//! `Sim::new` makes instructions (`net_instr`) of the design's drivers, in an order (`net_order`), and of its clocked blocks. `settle` and
//! `clock` run that code once over the numbers of nets and words, which stand in one list (`slots`), and take no memory. `names` finds
//! nets by full name.
#![tactic(auto)]

mod code;
mod names;
mod number;
mod run;
mod sim;
mod slots;
mod start;
mod table;

pub use net_order;
pub use net_order::vidi_bits;
pub use sim::Sim;
