//! Plays case files: texts that give the words and the files of a call, and what has to come of it. docs/CASES.md has their form.
//!
//! A case comes out where the exit number, the whole text and all files are as it says. One that is wanted to fail is
//! right where it doesn't come out. What can't be read, a case's file, a case or a whole case file, never counts as right.
#![tactic(auto)]

mod caller;
mod case;
mod ending;
mod error;
mod failing;
mod file;
mod mark;
mod playing;
mod program;
mod reading;
mod report;
mod score;
mod section;

pub use caller::Caller;
pub use error::PlayError;
pub use playing::{play_files, play_text};
pub use program::play_program;
pub use score::Score;
pub use vidi_io;
