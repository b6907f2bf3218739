//! The instances of a design, each with its scope.

use vlog_hierarchy::vidi_bits::{Items, Name};
use vlog_hierarchy::vlog_size::Scope;
use vlog_names::ModuleTable;
use vlog_tree::Module;

/// An instance of the design.
#[derive(Drop)]
pub struct ModuleInstance<'a> {
    /// The names of the instances that lead to it, its own the last; the top's is left out.
    pub path: Items<&'a Name>,
    /// The place of its module in the file, counted from 0.
    pub place: usize,
    /// Its module.
    pub tree: &'a Module,
    /// Its parameters, nets and memories.
    pub scope: Scope,
}

/// The instances of a design in preorder and text order.
#[derive(Drop)]
pub struct ModuleInstances<'a> {
    /// What each module of the file declares.
    pub modules: ModuleTable,
    pub list: Items<ModuleInstance<'a>>,
    /// For each instance the number of its first net, which is the number of nets of the instances before it.
    pub firsts: Items<u128>,
    /// The number of nets of all instances.
    pub nets: u128,
}
