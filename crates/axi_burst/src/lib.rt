//! AXI4 bursts (AMBA AXI4, IHI 0022; this project's profile): the AXI file, which says what the channels of a trace are, and
//! what bursts and broken rules a trace has.
//!
//! The definitions stand in `specs/`: `Forms` and `Reading` (the AXI file), `Ports` and `Binding` (the channels), `Transfers` and `Bursts` (the rules).
#![tactic(auto)]

mod axi;
mod axi_text;
mod binding;
mod collecting;
mod content;
mod counts;
mod error;
mod forms;
mod grouping;
mod heads;
mod laws;
mod ports;
mod reading;
mod responses;
mod rules;
mod sides;
mod text;
mod transfers;
mod turns;

pub use axi::{AddressPorts, Axi, Broken, Burst, Bursts, DataPorts, Reads, Writes};
pub use axi_text::{AxiLine, AxiLines, AxiText, Entry, Places, Role};
pub use binding::bind_axi;
pub use error::{AxiError, BurstError};
pub use grouping::bursts;
pub use laws::{examples, heads_advance};
pub use reading::read_axi;
pub use text::burst_text;
pub use trace_model;
pub use transfers::{Address, address_at};
