//! Waves as value change dumps (IEEE 1364-2005, clause 18, this project's profile), printed and read.
//!
//! The definitions stand in `specs/`: `Wave` (what a wave is), `Text` (its lines) and `Reading` (how they are read, and what
//! `read_wave` owes).
#![tactic(auto)]

mod declarations;
mod error;
mod lawful;
mod laws;
mod matching;
mod names;
mod printing;
mod reading;
mod value_lines;
mod wave;
mod words;

pub use declarations::print_declarations;
pub use error::WaveError;
pub use lawful::MOST_NUMBERS;
pub use laws::{flick_is_written, wave_is_read};
pub use matching::Matcher;
pub use printing::print_wave;
pub use reading::read_wave;
pub use text_page;
pub use value_lines::{print_mark, print_row};
pub use vidi_lines;
pub use vlog_lex;
pub use wave::{Grid, Wave, WaveNet, WaveNets};
