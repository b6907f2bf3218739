//! What Vidi reads and writes: a `Shelf` of named files and a `Sink` of bytes.
//!
//! A shelf or sink may tell what it holds; every clause about told bytes is then an equation on an
//! `Option`, which says nothing of one that tells nothing. Each counts its faults, and no call
//! answers `Failed` unless the count rose (`specs/Cause`).
#![tactic(auto)]

mod entries;
mod fails;
mod fixed_sink;
mod host;
mod mem_shelf;
mod mem_sink;
mod reading;
mod shelf;
mod shelf_sink;
mod sink;
mod words;
mod writing;

pub use fails::{Fail, FailCall, Fails};
pub use fixed_sink::FixedSink;
pub use host::{HostShelf, HostSink};
pub use mem_shelf::MemShelf;
pub use mem_sink::MemSink;
pub use reading::{ReadError, read_whole};
pub use shelf::{FetchError, Shelf};
pub use shelf_sink::ShelfSink;
pub use sink::{Failed, Sink};
pub use vidi_bits;
pub use words::{Text, Words};
pub use writing::write_whole;
