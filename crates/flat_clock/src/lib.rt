//! The clock of a file and its top as a port of the flat design (this project's profile: one clock, an input of the top).
//!
//! `specs/Clock` says which input the clocked blocks wait for and where it stands among the ports; that it is the clock of the file's
//! meaning is a law.
#![tactic(auto)]

mod laws;
mod place;

pub use flat_parts;
pub use laws::clock_is_joined_input;
pub use place::clock_place;
