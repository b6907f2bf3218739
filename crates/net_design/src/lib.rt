//! The flat design: what a Verilog text means, as plain data, and what its numbers are in a cycle.
//!
//! The definitions stand in `specs/`: `Value` (the number of an expression), `Updates` (what a block
//! writes), `Last` (what the last of updates makes a bit), `Bits` (the bits that code reads and writes),
//! `Settled` (the settled map, the next state and the initial state), `Lawful` (the designs that
//! elaboration answers), `Example` (one of them) and `Pins` (what is entered at input ports). `laws` has
//! what follows from them. The trait `Block` is a design that runs.
#![tactic(auto)]

mod act;
mod block;
mod counts;
mod design;
mod initial;
mod laws;
mod parts;
mod rhs;
mod values;

pub use act::{Act, Code, Guard, Lhs, Mask, Place, Timing};
pub use block::Block;
pub use counts::{count_words, few_words};
pub use design::{Counts, Design, DesignMemory, Direction, Driver, Instance, Net, Port, Register};
pub use initial::{initial_numbers, zeros};
pub use laws::{
    assignment_is_equation, blocks_in_order, choice_by_lists, initial_is_state, last_update_stands,
    lawful_design_shown, lawful_is_sized, next_is_state, target_is_equation, unwritten_bits_stay,
    updates_in_order,
};
pub use parts::{place_width, see_branch};
pub use rhs::{Rhs, Room, Span};
pub use values::{Target, Update, Values, number_at};
pub use vidi_bits;
