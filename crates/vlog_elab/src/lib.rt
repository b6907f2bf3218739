//! Elaboration of a design text: why it is refused, and its instances with their scopes (IEEE 1364-2005, clause 12; this project's
//! profile).
//!
//! `specs/Instances` lists the instances of a file and its top, `specs/Reasons` says why they are refused, in the order in which the
//! reasons are tried, and `specs/Told` what an error tells of them.
#![tactic(auto)]

mod all;
mod child;
mod clock;
mod error;
mod inside;
mod instance;
mod laws;
mod modules;
mod reasons;

pub use clock::clock_inputs;
pub use error::{Big, ElabError};
pub use instance::{ModuleInstance, ModuleInstances};
pub use laws::instances_are_nodes;
pub use reasons::instances_of;
pub use vlog_hierarchy;
pub use vlog_hierarchy::{vidi_bits, vlog_size};
pub use vlog_names;
pub use vlog_scope;
