//! Code of flat designs: the bits that it reads and writes, whether it can be evaluated, and its move to an
//! instance's base.
//!
//! `code_bits` finds the bits in one walk over statements, in sets of bits (`bit_map`). `tally` keeps what is named
//! once and more than once. `sized` tests widths and places. `moved` moves code, whose laws stand in `move_laws`.
//! What statements name as targets is defined in `specs/Targets`.
#![tactic(auto)]

mod base;
mod bit_map;
mod code_bits;
mod move_laws;
mod moved;
mod sized;
mod tally;

pub use base::Base;
pub use bit_map::BitMap;
pub use code_bits::{code_of, span_mask, surely_assigned};
pub use move_laws::{
    moved_changes, moved_code_bits, moved_is_fixed, moved_is_sized, moved_number, moved_shape,
    moved_updates,
};
pub use moved::{
    code_is_near, expression_is_near, move_code, move_expression, move_target, target_is_near,
};
pub use net_design::vidi_bits;
pub use sized::{is_narrow, is_sized, is_sized_block, is_width};
pub use tally::Tally;
