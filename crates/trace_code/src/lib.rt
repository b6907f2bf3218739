//! The bytes of a trace, version 2: `Encoding` in `specs/` spells a trace, `encode` writes it, whole or by
//! its parts, `decode` reads it back, and `salvage` reads what is whole of a trace that was cut off. A `Cursor` walks over the
//! events of one channel and kind where they stand in the bytes: `Stands` in `specs/` says where it is.
#![tactic(auto)]

mod cursor;
mod decoding;
mod encoding;
mod error;
mod head;
mod header;
mod laws;
mod number;
mod packets;
mod salvaging;
mod skipping;
mod tally;
mod walk;
mod writing;

pub use cursor::Cursor;
pub use decoding::{TRACE_LIMIT, decode, is_end_mark};
pub use encoding::{encode, end_mark, header_bytes};
pub use error::{CodeError, FAULT};
pub use header::{names_differ, read_table};
pub use laws::{front_is_salvaged, one_place, one_reading, one_salvage, reads_back};
pub use packets::{read_contents, read_masks};
pub use salvaging::{Whole, salvage, salvage_front};
pub use vec_clock;
pub use vec_clock::{trace_model, vidi_bits};
pub use writing::{write_packet, write_reset};
