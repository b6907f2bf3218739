//! Tests of `axi_burst`, which stand apart so that it is proved without them.
#![tactic(auto)]

#[cfg(test)]
mod bind_tests;
#[cfg(test)]
mod burst_tests;
#[cfg(test)]
mod read_tests;
