//! Tests of `vidi_bits`, `vidi_lines`, `vidi_io` and `case_player`, which stand apart so that these crates are proved without them.
#![tactic(auto)]

#[cfg(test)]
mod bits_tests;
#[cfg(test)]
mod lines_tests;
#[cfg(test)]
mod player_tests;
#[cfg(test)]
mod tests;
