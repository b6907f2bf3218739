//! The hierarchy of a design: modules that contain themselves, instances in preorder and their
//! nets, and the one clock (IEEE 1364-2005, clause 12; this project's profile).
#![tactic(auto)]

mod clock;
mod error;
mod flags;
mod labels;
mod laws;
mod nodes;
mod outline;
mod places;
mod port;
mod reads;
mod scopes;
mod walk;

pub use clock::check_clock;
pub use error::{HierarchyError, HierarchyLimit};
pub use laws::{clocks_are_of_all_nodes, more_levels_change_nothing};
pub use nodes::{MOST_LEVELS, Node, Nodes, nodes_of};
pub use port::clock_port;
pub use vlog_size;
pub use vlog_size::vidi_bits;
pub use walk::nested;
