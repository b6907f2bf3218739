//! The drivers and the clocked blocks of the flat design that an instance's items make (IEEE 1364-2005, 6.1, 9.7.5, 9.9.2 and 12.3; this
//! project's profile).
//!
//! `specs/Sites` says where the code of an instance stands, `specs/Drivers` what a driver has to say of its item, and `specs/Duties` which
//! drivers an item makes, in text order.
#![tactic(auto)]

mod assign;
mod block;
mod conn;
mod copy;
mod fits;
mod latches;
mod laws;
mod meaning;
mod placed;
mod site;
mod whole;

pub use assign::{add_assigns, assignment};
pub use block::{add_always, clocked_block};
pub use conn::add_conns;
pub use copy::target_form;
pub use fits::{expr_fits, net_fits, read_fits, target_fits, wire_fits};
pub use latches::{
    BlockError, bind_block, code_latch, latch, latches_shown, no_latch_is_whole, no_latch_means,
    written_bits_are_there, written_nets_are_named,
};
pub use laws::drivers_are_items;
pub use meaning::{meaning_shown, own_numbers_decide};
pub use net_drive;
pub use net_drive::net_code;
pub use site::Site;
pub use vlog_block;
pub use vlog_block::vlog_size;
pub use whole::{add_input, add_output, add_wire, whole_target};
