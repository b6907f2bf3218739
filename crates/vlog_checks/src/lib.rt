//! Tests that are no cases: tokens with their kinds and lines, trees of design texts that no text spells, and statements within one
//! another that take much of the stack.
#![tactic(auto)]

#[cfg(test)]
mod build;
#[cfg(test)]
mod depth;
#[cfg(test)]
mod shapes;
#[cfg(test)]
mod tokens;
#[cfg(test)]
mod unspelled;
