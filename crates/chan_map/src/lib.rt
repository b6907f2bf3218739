//! The map: which ports of the top are channels, ties, the reset and the clock (this project's profile).
//!
//! The definitions stand in `specs/`: `Forms` (what a line of a map says), `Text` (reason M1, over a whole file),
//! `Ports` (the ports that words name), `Reasons` (M2, M3 and M4), `Bound` (the map that lines and a design make) and `Places`
//! (its pins). `Laws` says that of a text there is one list of lines, and of lines and a design one map.
#![tactic(auto)]

mod binding;
mod error;
mod fits;
mod forms;
mod laws;
mod limits;
mod map_text;
mod parts;
mod pins;
mod reading;
mod seen;
mod sockets;
mod text;
mod times;

pub use binding::bind_map;
pub use error::{MapError, MapLimit};
pub use laws::{have_widths, lawful_ports_have_widths, one_binding, one_map_text};
pub use map_text::{ChannelLine, Entry, MapLine, MapLines};
pub use pins::{Map, Pin, Pins, Plug, Plugs, Reset, Tie, Ties};
pub use reading::read_map;
pub use text::MapText;
pub use trace_model;
pub use vidi_lines;
pub use vidi_lines::vidi_bits;
