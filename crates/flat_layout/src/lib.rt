//! Where the instances of a design stand in the flat design, and its instances, nets, memories and ports (IEEE 1364-2005, 4.2, 4.9, 12.3
//! and 12.5; this project's profile).
//!
//! The laws say that each instance's numbers stand from its seat's places on, and that each net is one instance's.
#![tactic(auto)]

mod instance;
mod laws;
mod memory;
mod net;
mod port;

pub use instance::instances;
pub use laws::{built_numbers, names_differ, nets_have_seats, parts_are_counted, seats_stand};
pub use memory::memories;
pub use net::nets;
pub use port::ports;
