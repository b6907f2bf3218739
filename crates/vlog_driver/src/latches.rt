//! E9: bits that an `always @*` block leaves as they are on some path, or reads before it has surely assigned them (this project's
//! profile, which has no latches).

mod bind;
mod code;
mod error;
mod laws;

pub use bind::bind_block;
pub use code::{code_latch, latch};
pub use error::BlockError;
pub use laws::{
    latches_shown, no_latch_is_whole, no_latch_means, written_bits_are_there,
    written_nets_are_named,
};
