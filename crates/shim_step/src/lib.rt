//! Lock step of the shims' Verilog with monitors and replayers (this project's profile), and what that rests on: a design below an
//! instance, and nets by their names (IEEE 1364-2005, 12.1, 12.3 and 12.5).
//!
//! `specs/Part` says what a map has below an instance of the top, and `specs/FlatPart` the same at flat designs; `specs/Maps` makes maps of
//! lists. `specs/Plain` has the nets of a module without parameters and memories, and `specs/Nets` the net that a name is.
#![tactic(auto)]

mod laws;

pub use laws::{
    flat_parts_are_designs, lists_are_maps, nets_are_named, nets_stand, one_shown_row,
    parts_are_designs, recording_steps, replaying_steps, shown_rows_stand,
};
