//! Rows and traces of channels as plain data: what the channels show in a cycle, what is recorded of it,
//! and when a trace is well-formed.
//!
//! The definitions stand in `specs/`: `Channel` (channel tables), `Row` (what one cycle shows),
//! `Recording` (*Transactions*, *Trace of rows*), `Stability` (*Unstable*), `Packet` (what one cycle
//! records), `Trace` (*Well-formed*) and `Clock` (the vector clock of an event). They count: "the j-th
//! row in which c starts" is `IsNth` of `Counting`.
#![tactic(auto)]

mod channel;
mod contents;
mod event;
mod flight;
mod lawful;
mod laws;
mod length;
mod letters;
mod mask;
mod packet;
mod row;
mod stability;
mod table;
mod trace;

pub use channel::{Channel, Channels, Dir};
pub use contents::{fits, split_content};
pub use event::{Event, Events, Kind};
pub use flight::{in_flight_after, in_flight_behind, is_in_flight};
pub use lawful::{is_over, well_formed};
pub use laws::{
    recorded_once, row_adds_its_packet, rows_are_well_formed, starts_wait_for_ends,
    trace_records_once,
};
pub use length::{all_contents_len, content_len, head_len, longest_packet, packets_in};
pub use letters::{are_letters_or_digits, is_letter};
pub use mask::{all_up, lowest, names, with_bit};
pub use packet::{
    GAP_LIMIT, LONGEST_PACKET, MOST_CHANNELS, MOST_CONTENT_BYTES, MOST_CYCLES, Packet, Packets,
    RESET_LEN,
};
pub use row::{Offers, Row, Rows, push_zeros, row_over};
pub use stability::unstable;
pub use table::same_channels;
pub use trace::Trace;
pub use vidi_bits;
