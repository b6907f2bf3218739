//! A bit is an input's, or held by the state, or written by one driver: tried on designs of a top that has one net of one bit, y.

ghost use Rattle.std.specs.Prelude.{[], ◌≡◌, All, IsTrue, IfSome};
ghost use Rattle.net_design.specs.declared.act.Timing.TheVariants.{Blocking};
ghost use Rattle.net_design.specs.Bits.{HasBits};

use crate::build::{
    BIT_IN, Part, Step, Value, add_nets, add_ports, add_registers, add_top, code_with_bits, nothing,
};
use net_design::{Design, Direction, Driver, Register, Timing};
use net_lawful::is_lawful;
use net_sim::vidi_bits::Items;
use std::alloc::Global;

/// `y = 1;`
static ONE: [Step; 1] = [Step::Set(Part::Whole((0, 0, 1)), Value::Number(1))];

const HELD: Register = Register {
    net: 0,
    held: 1,
    initial: 1,
};

/// `assign y = 1;`, where memory is found.
fn constant(alloc: Global) -> Option<Driver>
    ensures { IfSome result (λ x. HasBits Blocking x.code) }
{
    let code = code_with_bits(alloc, Timing::Blocking, &ONE)?;
    Some(Driver {
        line: 1,
        always: false,
        code,
    })
}

/// Adds so many times `assign y = 1;`, and answers whether memory was found.
fn add_constants(alloc: Global, drivers: &mut Items<Driver>, count: usize) -> bool
    requires { All (λ x. HasBits Blocking x.code) drivers.old }
    ensures { All (λ x. HasBits Blocking x.code) drivers.new }
{
    for _i in 0..count {
        let Some(driver) = constant(alloc) else {
            return false;
        };
        match drivers.push(driver) {
            Ok(()) => {}
            Err(_) => return false,
        }
    }
    true
}

/// Whether a design of one net is lawful exactly where `lawful`.
fn judged(alloc: Global, design: &Design, lawful: bool) -> bool
    requires drivers { All (λ x. HasBits Blocking x.code) design.now.drivers }
    requires blocks { design.now.blocks ≡ [] }
{
    design.nets.len() == 1 && is_lawful(alloc, design) == Ok(lawful)
}

fn is_judged(
    alloc: Global,
    pins: &[(Direction, u32)],
    held: &[Register],
    count: usize,
    lawful: bool,
) -> bool {
    let mut design = nothing(alloc);
    let added = add_top(alloc, &mut design.instances)
        & add_nets(alloc, &mut design.nets, &[1])
        & add_ports(alloc, &mut design.ports, pins)
        & add_registers(&mut design.registers, held);
    added && add_constants(alloc, &mut design.drivers, count) && judged(alloc, &design, lawful)
}

/// A design's ports and registers, how many drivers write y, and whether that is lawful.
static CASES: [(&[(Direction, u32)], &[Register], usize, bool); 8] = [
    (&[], &[], 1, true),
    (&[BIT_IN], &[], 0, true),
    (&[], &[HELD], 0, true),
    (&[], &[], 0, false),
    (&[], &[], 2, false),
    (&[BIT_IN], &[], 1, false),
    (&[], &[HELD], 1, false),
    (&[BIT_IN], &[HELD], 0, false),
];

#[test]
fn a_bit_is_given_once(rt: HostRuntime) {
    let mut right = true;
    for (pins, held, count, lawful) in &CASES {
        right &= is_judged(rt.alloc(), pins, held, *count, *lawful);
    }
    assert!(rt; right);
}
