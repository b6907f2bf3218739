//! Where the code of an instance stands.

use net_drive::net_code::Base;
use vlog_block::vlog_size::Scope;

/// An instance of a module: its scope, in which the parameters are declared that stand before the item in question, and where it stands
/// in the flat design.
#[derive(Clone, Copy)]
pub struct Site<'a> {
    pub scope: &'a Scope,
    pub base: Base,
}
