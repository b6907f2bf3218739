//! A memory that answers an AXI4 port (AMBA AXI4, IHI 0022; this project's profile), as the environment of a design that reads and writes it.
//!
//! The definitions stand in `specs/`: `Memory` (*Memory environment*: what the memory offers after the rows before) and `Lack` (what an AXI
//! file lacks for it). `Stands` says what a `MemoryEnv` keeps of the rows, `Laws` that its offers last.
#![tactic(auto)]

mod content;
mod lacking;
mod laws;
mod memory_env;
mod reason;
mod served;
mod turn;
mod word;

pub use axi_burst;
pub use env_script;
pub use lacking::lack;
pub use laws::{examples, memory_is_lasting};
pub use memory_env::MemoryEnv;
pub use reason::Lack;
pub use served::{Ports, Served};
pub use turn::Turn;
