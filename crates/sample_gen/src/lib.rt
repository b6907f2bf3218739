//! The files of a sample: for each number up to 6,000 a design, its map, a script and a plan of stalls.
//!
//! `specs/` spells them. The design is a chain of one to eight registers, each with a valid and a ready on both sides; what the script
//! sends and how the store drains comes from a sequence of numbers that the sample's number begins. `specs/Accepted` says that the
//! readers find nothing against the map, the scripts and the plans.
#![tactic(auto)]

mod design;
mod files;
mod generate;
mod joint;
mod laws;
mod script;
mod sequence;
#[cfg(test)]
mod tests;

pub use env_script;
pub use files::Sample;
pub use generate::{LARGEST, sample};
pub use laws::{capacities_suffice, map_is_bound, map_is_read, plans_are_read, scripts_are_read};
pub use room_ledger::{trace_model, vidi_bits};
