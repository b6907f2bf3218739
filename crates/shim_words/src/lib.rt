//! What the words of a case ask for of a wrapped design: recordings and replays by monitors and replayers round the design, and by the
//! Verilog of the wrapped file as it is simulated. docs/CASES.md has the words.
#![tactic(auto)]

mod alike;
mod answers;
mod beside;
mod drawn;
mod fed_nets;
mod feeds;
mod line_feeder;
mod nets;
mod rows;
mod said;
mod watched;

pub use said::say;
