//! Tests of what no command prints: rows of runs and of plain runs under scripts with all their masks, shells that are reset, and where an
//! environment stands after a recording whose push failed. `play_shell` plays any shell under what is given in each cycle, which shows that
//! the contract of `Shell` says enough.
#![tactic(auto)]

mod play;
mod sends;

pub use play::{Played, play_shell};
pub use sends::is_two_sends;

#[cfg(test)]
mod failing_tests;
#[cfg(test)]
mod given;
#[cfg(test)]
mod plain_tests;
#[cfg(test)]
mod run_tests;
