//! The room in the store: which channels may start another transaction, so that each packet fits.
//!
//! A channel with its gate up has reserved room for the packets of its start and its end. What is meant
//! stands in `specs/`: `Reservation` (what is reserved), `Gates` (*Gates*, over the rows of a run),
//! `Ledger` (what a `Room` stands for), and `Laws` (the ledger follows *Gates*).
#![tactic(auto)]

mod error;
mod laws;
mod room;
mod sums;

pub use error::RoomError;
pub use laws::{
    all_stay_up, down_only_while_bytes_wait, one_set_of_gates, permit_down_only_while_bytes_wait,
    room_keeps_gates, same_length,
};
pub use room::Room;
pub use trace_model;
pub use trace_model::vidi_bits;
