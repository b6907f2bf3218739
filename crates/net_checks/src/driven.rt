//! Designs' parts whose nets and memories are driven wrongly, and what is found in them.

use crate::build::{Part, Step, Value, add_block, add_driver, add_memories, add_nets, nothing};
use net_design::{Design, Driver};
use net_drive::{Misdriven, NetKind, misdriven};
use net_sim::vidi_bits::Items;
use std::alloc::Global;

/// A pin, a wire of two bits and a reg.
const KINDS: [NetKind; 3] = [NetKind::Pin, NetKind::Wire, NetKind::Reg];

/// An assignment of 0 to a place.
fn zero(to: Part) -> Step {
    Step::Set(to, Value::Number(0))
}

fn zero_bits(net: usize, low: u32, width: u32) -> Step {
    zero(Part::Takes((net, low, width), 1))
}

/// Whether it is an `always @*`, and what it names: a net, its lowest bit and how many.
type Named = (bool, usize, u32, u32);

fn add_named(alloc: Global, drivers: &mut Items<Driver>, named: &[Named]) -> bool {
    let mut added = true;
    for (always, net, low, width) in named {
        added &= add_driver(alloc, drivers, *always, &[zero_bits(*net, *low, *width)]);
    }
    added
}

/// Whether this is found in a design whose first nets are of these kinds.
fn has(alloc: Global, design: &Design, kinds: &[NetKind], want: Option<Misdriven>) -> bool {
    let found = misdriven(
        alloc,
        design.nets.as_slice(),
        kinds,
        design.memories.as_slice(),
        design.drivers.as_slice(),
        design.blocks.as_slice(),
    );
    found == Ok(want)
}

/// Whether this is found where these are the drivers, and the reg is named by one clocked block.
fn nets_have(alloc: Global, drivers: &[Named], want: Option<Misdriven>) -> bool {
    let mut design = nothing(alloc);
    let added = add_nets(alloc, &mut design.nets, &[1, 2, 4])
        & add_named(alloc, &mut design.drivers, drivers)
        & add_block(alloc, &mut design.blocks, &[zero_bits(2, 0, 1)]);
    added && has(alloc, &design, &KINDS, want)
}

const OPEN: Misdriven = Misdriven::Net {
    net: 1,
    bit: 0,
    drivers: 0,
};

const THRICE: Misdriven = Misdriven::Net {
    net: 1,
    bit: 1,
    drivers: 3,
};

const PIN: Misdriven = Misdriven::Net {
    net: 0,
    bit: 0,
    drivers: 2,
};

const REG: Misdriven = Misdriven::Net {
    net: 2,
    bit: 0,
    drivers: 3,
};

/// The drivers, and what is found. Places without bits name no bit of a wire. In the last row an `always @*` names the reg out of range.
static NETS: [(&[Named], Option<Misdriven>); 5] = [
    (
        &[(false, 1, 0, 1), (false, 1, 1, 1), (false, 1, 0, 0)],
        None,
    ),
    (
        &[(false, 1, 1, 1), (false, 1, 0, 0), (false, 1, 0, 0)],
        Some(OPEN),
    ),
    (
        &[(false, 1, 0, 2), (false, 1, 1, 1), (false, 1, 1, 1)],
        Some(THRICE),
    ),
    (
        &[(false, 1, 0, 2), (false, 0, 0, 1), (false, 1, 0, 0)],
        Some(PIN),
    ),
    (
        &[(false, 1, 0, 2), (true, 2, 0, 0), (true, 2, 3, 1)],
        Some(REG),
    ),
];

fn nets_are_found(alloc: Global) -> bool {
    let mut right = true;
    for (drivers, want) in &NETS {
        right &= nets_have(alloc, drivers, *want);
    }
    right
}

fn memories_are_found(alloc: Global) -> bool {
    let named_twice = zero(Part::FirstBit((4, 2)));
    let want = Misdriven::Memory {
        memory: 1,
        drivers: 2,
    };
    let mut design = nothing(alloc);
    let added = add_memories(alloc, &mut design.memories, 1, &[(2, 2), (4, 2)])
        & add_block(alloc, &mut design.blocks, &[named_twice])
        & add_block(alloc, &mut design.blocks, &[named_twice]);
    added && has(alloc, &design, &[], Some(want))
}

#[test]
fn nets_and_memories(rt: HostRuntime) {
    let nets = nets_are_found(rt.alloc());
    let memories = memories_are_found(rt.alloc());
    assert!(rt; nets && memories);
}
