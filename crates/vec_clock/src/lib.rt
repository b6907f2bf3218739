//! Vector clocks: for each channel, how many of its transactions have completed (Fidge, Mattern; *Clock*).
//!
//! A `Clock` is a list of numbers, one a channel. `Clock` in `trace_model/specs` has the clock of an event;
//! `Counts` in `specs/` has it as such a list.
#![tactic(auto)]

mod clock;

pub use clock::Clock;
pub use trace_model;
pub use trace_model::vidi_bits;
