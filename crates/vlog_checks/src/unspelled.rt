//! What is said of `{ }`, which no text spells.

use crate::build::operand_alone;
use std::alloc::Global;
use vlog_driver::vlog_size::{Scope, ScopeNet, SizeError, Table, fixed, numbered, whole_view};
use vlog_print::vidi_bits::{Items, Memory, copied};
use vlog_tree::{Expr, Operand};

/// A scope with the net s alone, of 1 bit.
pub fn scope(alloc: Global) -> Result<Scope, Memory> {
    let mut nets = Table::new(alloc);
    nets.push(copied(alloc, b"s")?, ScopeNet { width: 1 })?;
    Ok(Scope {
        params: Table::new(alloc),
        declared: 0,
        nets,
        memories: Table::new(alloc),
    })
}

/// The fault of the width of an expression in a constant position.
fn width_fault(alloc: Global, e: &Expr) -> Result<Option<SizeError>, Memory> {
    let scope = scope(alloc)?;
    Ok(numbered(&fixed(&whole_view(&scope)), e).facts.width_fault)
}

/// The fault of a width in `{ }`, which stands on line 1.
fn empty_concatenation(alloc: Global) -> Result<Option<SizeError>, Memory> {
    let parts = Items::new(alloc);
    let e = operand_alone(alloc, Operand::Concat { line: 1, parts })?;
    width_fault(alloc, &e)
}

#[test]
fn a_concatenation_of_nothing(rt: HostRuntime) {
    let fault = empty_concatenation(rt.alloc());
    assert!(rt; fault == Ok(Some(SizeError::Width { line: 1, got: 0 })));
}
