//! What the words of a case ask for of a flat design: its parts and drivers, an order of them, and the numbers that it settles to and runs
//! through. docs/CASES.md has the words. Those on a Verilog text are answered by `vlog_words`.
#![tactic(auto)]

mod answers;
mod cycles;
mod designs;
mod drivers;
mod parts;
mod runs;
mod said;

pub use said::say;
