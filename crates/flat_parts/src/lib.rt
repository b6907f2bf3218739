//! What the parts of the flat design are that a file's instances make, and what it is for the design to mean the file.
//!
//! `specs/Seats` says where each instance's nets and words stand (`bases_of` finds it), `specs/Instances` what is known of the instances,
//! `specs/Nets` the nets, memories and ports, `specs/Drivers` the drivers and clocked blocks, `specs/State` the registers, `specs/Marks`
//! which nets are regs; `specs/Built` puts them together, and `specs/Meaning` says what such a design means.
//!
//! A flat design that is built of these parts means the file (IEEE 1364-2005, 12.1 and 12.5), as laws: `instances_are_paths`, the
//! instances of a file and its top are the paths below the top; `settled_alike` and `state_alike`, the flat design has the file's settled
//! maps, next states and initial state.
#![tactic(auto)]

mod bases;
mod laws;

pub use bases::bases_of;
pub use laws::{instances_are_paths, settled_alike, state_alike};
pub use vlog_driver;
pub use vlog_driver::{net_code, net_drive};
pub use vlog_elab;
pub use vlog_elab::{vidi_bits, vlog_hierarchy, vlog_names, vlog_scope, vlog_size};
