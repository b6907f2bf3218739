//! Instructions: the statements of a design as small steps over one list of numbers, the slots, and the machine that runs them.
//!
//! `specs/Machine` says what instructions do, `Expressions` and `Statements` which instructions an expression and a statement become,
//! `InPlace` when instructions may read a net in the place of one that only copies it, `Needs` which nets they need.
#![tactic(auto)]

mod expressions;
mod instr;
mod laws;
mod machine;
mod needs;
mod places;
mod slots;
mod statements;

pub use instr::{Instr, Step};
pub use laws::{code_is_safe, code_makes_updates};
pub use machine::{run_code, run_noting};
pub use needs::needed;
pub use places::{InPlace, in_place};
pub use slots::slots_of;
pub use statements::push_acts;
