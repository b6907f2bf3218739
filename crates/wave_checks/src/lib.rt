//! Tests of `wave_text`, which stand apart so that it is proved without them.
#![tactic(auto)]

#[cfg(test)]
mod changed_tests;
#[cfg(test)]
mod long_tests;
#[cfg(test)]
mod wave_tests;
