//! The bytes of a trace, version 1, which are read and no longer written: `Old` in `specs/` spells an old trace, `decode_v1` reads it,
//! `salvage_v1` reads what is whole of one that was cut off, and `migrate` writes it in the bytes of today.
#![tactic(auto)]

mod decoding;
mod header;
mod laws;
mod migrating;
mod packets;

pub use decoding::{decode_v1, salvage_v1};
pub use header::{MOST_OLD_CHANNELS, MOST_OLD_CONTENT_BYTES, OLD_TRACE_LIMIT, begins_old};
pub use laws::{migration_keeps, one_old_place, one_old_reading, one_old_salvage, versions_differ};
pub use migrating::migrate;
pub use trace_code;
pub use trace_code::{trace_model, vidi_bits};
