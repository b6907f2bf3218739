//! What a trace lacks, has beyond, or does earlier than another one over the same channels.
//!
//! `Findings` in `specs/` says which findings two traces have, as one list; `compare` gives it. In each epoch each channel
//! is walked once in both traces; which clocks cover which is found before, in one walk over the epoch's packets.
#![tactic(auto)]

mod comparing;
mod content;
mod covering;
mod epochs;
mod pairs;
mod places;
mod report;
mod tally;

pub use comparing::compare;
pub use report::{Finding, Report, What};
