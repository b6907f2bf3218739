//! The drivers and clocked blocks of the flat design, and E9 over all instances (IEEE 1364-2005, 6.1, 9.7.5, 9.9.2 and 12.3; this
//! project's profile).
//!
//! `specs/Latches` lists the findings of E9 over an instance, `specs/Seated` says what is known of the instances that are handed in, and
//! `specs/Adding` what an item adds.
#![tactic(auto)]

mod all;
mod child;
mod copied;
mod fits;
mod flat;
mod item;
mod laws;
mod seat;

pub use all::drivers_of;
pub use flat::FlatCode;
pub use laws::{instances_are_declared, instances_are_faultless};
