//! E8: each bit of a net has exactly one driver, and each reg and memory is written by at most one always block.
#![tactic(auto)]

mod blocks;
mod drive;
mod findings;
mod laws;
mod tally;
mod targets;

pub use drive::misdriven;
pub use findings::{Misdriven, NetKind};
pub use laws::{none_found_all_driven, none_found_memories_once};
pub use net_code;
pub use net_code::vidi_bits;
pub use targets::named_nets;
