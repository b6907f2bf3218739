//! The order in which the drivers of a design are evaluated once each, or a loop of drivers.
//!
//! The definitions stand in `specs/Order`, over any relation of reading and of a design. The graph of who reads whom is made
//! from the masks of the drivers' code (`graph`), by way of the writers of each net (`writers`), and searched depth first with
//! an explicit path (`search`).
#![tactic(auto)]

mod answer;
mod graph;
mod laws;
mod search;
mod turn;
mod writers;

pub use answer::{Order, OrderError};
pub use graph::order;
pub use laws::{one_settled_map, order_or_loop};
pub use search::sorted;
pub use vidi_bits;
