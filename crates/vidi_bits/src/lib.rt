//! What every crate of Vidi is built of: lists, whole-number work on bits, the numbers of Verilog's operators.
//!
//! A list is a growable array that contracts see as the mathematical list of its items, so that two
//! lists with equal items are equal whatever their capacities. `push` alone takes memory.
//! `specs/Number` has vectors of bits as whole numbers, `specs/Operators` the number of each operator (IEEE 1364-2005,
//! clause 5.1), `specs/Findings` what an answer says where a list of findings decides it.
#![tactic(auto)]

mod arithmetic;
mod bits;
mod items;
mod laws;
mod memory;
mod numbers;
mod operators;

pub use arithmetic::{add_w, mul_w, shl_w, shr_w, sub_w};
pub use bits::{join, ones, put, slice, trim};
pub use items::{Bytes, Items, Name, Numbers, copied};
pub use laws::numbers_fit;
pub use memory::Memory;
pub use numbers::{binary, joined, selected, times, unary};
pub use operators::{BinaryOp, UnaryOp};
