//! Texts that are printed piece by piece, on a `Page`: in memory (`Draft`), or on a sink through a pad of one size
//! (`Printer`).
#![tactic(auto)]

mod draft;
mod pad;
mod page;
mod printer;

pub use draft::Draft;
pub use pad::{PAD_BYTES, Pad};
pub use page::{Page, print_number, print_numbers};
pub use printer::Printer;
pub use vidi_io;
