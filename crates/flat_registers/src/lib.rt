//! The registers of the flat design, and that they are the state of the file (IEEE 1364-2005, 4.2.2 and 9.9.2; this project's profile).
//!
//! `specs/Laws` says that the registers hold the bits that the file's state does and begin with its initial numbers.
#![tactic(auto)]

mod always;
mod initials;
mod laws;
mod marks;
mod places;
mod register;

pub use laws::registers_are_state;
pub use marks::reg_marks;
pub use register::registers;
