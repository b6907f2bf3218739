//! Tests of `axi_memory`, which stand apart so that it is proved without them.
#![tactic(auto)]

#[cfg(test)]
mod lack_tests;
#[cfg(test)]
mod serve_tests;
