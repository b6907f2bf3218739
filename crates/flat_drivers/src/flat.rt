//! The instances with the places where they stand, and the code that they make.

use flat_parts::net_code::Base;
use flat_parts::vidi_bits::Items;
use flat_parts::vlog_elab::ModuleInstance;
use flat_parts::vlog_names::ModuleTable;
use net_design::{Code, Driver};

/// All instances, what the modules of the file declare, and where the instances stand.
#[derive(Clone, Copy)]
pub struct Flat<'b, 'a> {
    pub modules: &'b ModuleTable,
    pub list: &'b [ModuleInstance<'a>],
    pub bases: &'b [Base],
}

/// The drivers and the clocked blocks of the flat design, each in preorder of instances and text order.
#[derive(Drop)]
pub struct FlatCode {
    pub drivers: Items<Driver>,
    pub blocks: Items<Code>,
}
