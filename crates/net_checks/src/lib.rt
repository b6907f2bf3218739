//! Tests of flat designs, which are made by hand: their settled maps, next states, bits and moves; whether they are lawful, and
//! driven once; the order of their drivers; the simulator.
#![tactic(auto)]

#[cfg(test)]
mod bits;
#[cfg(test)]
mod build;
#[cfg(test)]
mod chains;
#[cfg(test)]
mod clocked;
#[cfg(test)]
mod driven;
#[cfg(test)]
mod example;
#[cfg(test)]
mod lawful;
#[cfg(test)]
mod moves;
#[cfg(test)]
mod numbers;
#[cfg(test)]
mod settled;
#[cfg(test)]
mod sim;
