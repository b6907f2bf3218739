//! Tests of replays: of the definitions' rows and lists, of replayers round a design and the clocks that they are fed, and of `replay` against both.
#![tactic(auto)]

#[cfg(test)]
mod agreeing;
#[cfg(test)]
mod example_tests;
#[cfg(test)]
mod needs_tests;
#[cfg(test)]
mod reference_tests;
#[cfg(test)]
mod replayer_tests;
#[cfg(test)]
mod reset_tests;
#[cfg(test)]
mod trace_tests;
#[cfg(test)]
mod traces;
#[cfg(test)]
mod watched;
