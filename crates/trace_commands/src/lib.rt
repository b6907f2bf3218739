//! The commands of `vidi` on traces: `dump`, `compare`, `salvage`, `migrate`, `bursts` and `move`. `specs/Traces`, `Migrating`,
//! `Bursts` and `Moves` have what each owes.
#![tactic(auto)]

mod bursting;
mod comparing;
mod dumping;
mod migrating;
mod moving;
mod salvaging;
mod writing;

pub use axi_burst;
pub use bursting::{axi_over, bursts};
pub use comparing::compare;
pub use dumping::dump;
pub use migrating::migrate;
pub use moving::{Completion, Wish, move_completion};
pub use salvaging::salvage;
pub use trace_edit;
pub use vidi_answer;
pub use writing::{TraceBytes, encoded, written};
