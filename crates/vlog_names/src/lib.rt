//! The names of a design text: those that stand twice, and those that aren't declared (IEEE 1364-2005, 4 and 12;
//! this project's profile).
//!
//! The definitions stand in `specs/`: `Entries` (what a module declares), `Ports` (its ports and regs by name), `Twice` (E3) and `Unknown` (E4), each as the
//! list of all findings in text order, and `Different` (names that are all different).
#![tactic(auto)]

mod check;
mod connections;
mod declaration;
mod declaring;
mod error;
mod expressions;
mod items;
mod kinds;
mod laws;
mod ports;
mod statements;
mod table;

pub use check::check_names;
pub use declaration::{Declaration, Declarations, ModuleTable, Shape, is_reg_port};
pub use error::NameError;
pub use kinds::{KindError, check_kinds};
pub use laws::names_are_different;
pub use ports::{input_after, is_output, is_reg};
pub use table::names_at;
