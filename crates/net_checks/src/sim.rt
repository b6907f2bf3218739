//! The order of the example's drivers, and some cycles of it.
//!
//! `assign y = t` stands before the `always @*` that gives t the number of q; q becomes d at each clock, and is 2 at first.

ghost use Rattle.std.specs.Prelude.{◌≡◌, ◌<◌, IfSome};
ghost use Rattle.net_design.specs.Example.{example};

use crate::example::example;
use net_design::{Block, Design, lawful_design_shown};
use net_sim::Sim;
use net_sim::net_order::order;
use std::alloc::Global;

/// The example, in its initial state.
fn start(alloc: Global) -> Option<Sim>
    ensures { IfSome result (λ sim. sim.design ≡ example) }
{
    lawful_design_shown();
    let design = example(alloc)?;
    let order = order(alloc, &design).ok()?;
    Sim::new(alloc, design, order).ok()
}

/// The number of y where d has this number.
fn y_at(sim: &mut Sim, d: u128) -> u128
    requires design { sim.old.design ≡ example }
    requires fits { d < 4 }
    ensures { sim.new.design ≡ example }
{
    sim.settle(&[0, d]);
    sim.pin(0)
}

/// Whether the order is that of the reads and not of the text.
fn has_order(alloc: Global, design: &Design) -> bool
    requires { design.now ≡ example }
{
    lawful_design_shown();
    match order(alloc, design) {
        Ok(order) => order.drivers.as_slice() == [1, 0].as_slice(),
        Err(_) => false,
    }
}

fn is_ordered(alloc: Global) -> bool {
    match example(alloc) {
        Some(design) => has_order(alloc, &design),
        None => false,
    }
}

/// The numbers of y in some cycles: with q at first, after a clock, after a clock that follows a clock, and after `load`.
fn cycles(sim: &mut Sim) -> [u128; 5]
    requires { sim.old.design ≡ example }
{
    let first = y_at(sim, 3);
    sim.clock();
    let second = y_at(sim, 1);
    sim.clock();
    sim.clock();
    let third = y_at(sim, 2);
    sim.load();
    let loaded = y_at(sim, 3);
    sim.load();
    sim.clock();
    let last = y_at(sim, 3);
    [first, second, third, loaded, last]
}

/// Whether nets have the numbers that they settle to, by name.
fn nets_are_found(sim: &mut Sim) -> bool
    requires { sim.old.design ≡ example }
    ensures { sim.new.design ≡ example }
{
    let y = y_at(sim, 3);
    y == 2
        && sim.net(b"t") == Some(2)
        && sim.net(b"d") == Some(3)
        && sim.net(b"c") == Some(0)
        && sim.net(b"u.t").is_none()
        && sim.net(b"u").is_none()
        && sim.net(b"").is_none()
}

fn runs(sim: &mut Sim) -> bool
    requires { sim.old.design ≡ example }
{
    let found = nets_are_found(sim);
    found & (cycles(sim) == [2, 3, 1, 2, 0])
}

fn all_is_well(alloc: Global) -> bool {
    match start(alloc) {
        Some(mut sim) => runs(&mut sim),
        None => false,
    }
}

// Its drivers follow what they read.
#[test]
fn a_design_is_ordered_and_runs(rt: HostRuntime) {
    let ordered = is_ordered(rt.alloc());
    let runs = all_is_well(rt.alloc());
    assert!(rt; ordered && runs);
}
