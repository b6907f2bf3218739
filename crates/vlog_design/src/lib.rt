//! The flat design that a design text means (IEEE 1364-2005, clause 12; this project's profile).
//!
//! `specs/Design` says what the design of a file is, and `specs/Reasons` why a file has none.
#![tactic(auto)]

mod code;
mod design;
mod laws;
mod whole;

pub use flat_drive::{vlog_elab, vlog_size};
pub use laws::loops_alike;
pub use net_order;
pub use whole::elaborate;
