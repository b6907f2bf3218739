//! Tests of wrapped designs: the printed texts of worked examples, and names that are kept for shims.
#![tactic(auto)]

#[cfg(test)]
mod maps;
#[cfg(test)]
mod texts;
#[cfg(test)]
mod wrapped;
