//! Small designs by hand, whose statements stand in tables.
//!
//! A function that adds a part answers whether memory was found. Where it wasn't, the function goes on, so that nothing has to be
//! let go of on the way.

ghost use Rattle.std.specs.Prelude.{◌≡◌, [], IfSome};
ghost use Rattle.net_design.specs.Bits.{HasBits};

use net_design::{
    Act, Code, Design, DesignMemory, Direction, Driver, Guard, Instance, Lhs, Net, Place, Port,
    Register, Rhs, Room, Span, Timing, Values,
};
use net_drive::net_code::{code_of, is_sized_block};
use net_sim::vidi_bits::{BinaryOp, Items, Numbers, UnaryOp};
use std::alloc::Global;
use std::boxed::Box;

/// Bits of a net: its number, the lowest bit, and how many.
pub type Bits = (usize, u32, u32);

/// The words of a memory: the first, and how many.
pub type Words = (usize, usize);

/// A part of a target.
#[derive(Clone, Copy)]
pub enum Part {
    /// Bits of a net, as many as they take.
    Whole(Bits),
    /// Bits of a net. It takes so many bits of the value.
    Takes(Bits, u32),
    /// `whole[at +: width]`
    BitsFrom { whole: Bits, at: Bits, width: u32 },
    /// `m[at][6 +: 4]`, where m has words of 8 bits
    WordEnd(Words, Bits),
    /// `m[0][0]`
    FirstBit(Words),
}

/// A value.
#[derive(Clone, Copy)]
pub enum Value {
    Number(u128),
    Bits(Bits),
    /// `~of`
    Complement(Bits),
    /// `left op right`, at the width of `left`
    Binary(BinaryOp, Bits, Bits),
    /// `m[at]`
    Word(Words, Bits),
}

/// A statement.
#[derive(Clone, Copy)]
pub enum Step {
    Set(Part, Value),
    /// `{first, second} = value;`
    SetBoth(Part, Part, Value),
    /// The subject of a `case` that has `default` alone.
    Read(Bits),
    /// `if (first) to = 1; else if (second) to = 2; else other = 3;`, without the second where there is none
    Choice {
        first: Bits,
        second: Option<Bits>,
        to: Bits,
        other: Bits,
    },
}

/// What a design has, besides a top.
#[derive(Clone, Copy)]
pub struct Plan<'a> {
    /// The width of each net.
    pub widths: &'a [u32],
    /// The direction and the width of each port.
    pub pins: &'a [(Direction, u32)],
    pub registers: &'a [Register],
    /// Memories of words of 8 bits.
    pub rooms: &'a [Words],
    /// The statement of each `assign`.
    pub assigns: &'a [Step],
    /// The statements of each `always @*`.
    pub always: &'a [&'a [Step]],
    /// The statements of each clocked block.
    pub blocks: &'a [&'a [Step]],
}

/// What a design without parts has.
pub const NOTHING: Plan<'static> = Plan {
    widths: &[],
    pins: &[],
    registers: &[],
    rooms: &[],
    assigns: &[],
    always: &[],
    blocks: &[],
};

/// An input port of 1 bit.
pub const BIT_IN: (Direction, u32) = (Direction::Input, 1);

// ---- statements

fn span(bits: Bits) -> Span {
    let (net, low, width) = bits;
    Span { net, low, width }
}

fn room(words: Words) -> Room {
    let (first, length) = words;
    Room { first, length }
}

fn bits(of: Bits) -> Rhs {
    Rhs::Bits(span(of))
}

fn place(part: Part) -> Place {
    match part {
        Part::Whole(of) => Place::Bits {
            span: span(of),
            takes: of.2,
        },
        Part::Takes(of, takes) => Place::Bits {
            span: span(of),
            takes,
        },
        Part::BitsFrom { whole, at, width } => Place::BitsFrom {
            whole: span(whole),
            at: bits(at),
            width,
        },
        Part::WordEnd(words, at) => Place::Word {
            room: room(words),
            word: bits(at),
            low: 6,
            width: 2,
            takes: 4,
        },
        Part::FirstBit(words) => Place::Word {
            room: room(words),
            word: Rhs::Number(0),
            low: 0,
            width: 1,
            takes: 1,
        },
    }
}

/// Adds parts to a target.
pub fn add_places(target: &mut Lhs, parts: &[Part]) -> bool {
    let mut added = true;
    for part in parts {
        added &= target.push(place(*part)).is_ok();
    }
    added
}

fn boxed_bits(alloc: Global, of: Bits) -> Option<Box<Rhs>> {
    Box::new(alloc, bits(of)).ok()
}

/// `m[at]`
pub fn word(alloc: Global, words: Words, at: Bits) -> Option<Rhs> {
    let at = boxed_bits(alloc, at)?;
    let room = room(words);
    Some(Rhs::Word { room, at })
}

fn complement(alloc: Global, of: Bits) -> Option<Rhs> {
    let operand = boxed_bits(alloc, of)?;
    Some(Rhs::Unary {
        op: UnaryOp::Complement,
        operand,
        width: of.2,
    })
}

fn binary(alloc: Global, op: BinaryOp, left: Bits, right: Bits) -> Option<Rhs> {
    let width = left.2;
    let left = boxed_bits(alloc, left)?;
    let right = boxed_bits(alloc, right)?;
    Some(Rhs::Binary {
        op,
        left,
        right,
        width,
    })
}

fn rhs(alloc: Global, value: Value) -> Option<Rhs> {
    match value {
        Value::Number(number) => Some(Rhs::Number(number)),
        Value::Bits(of) => Some(bits(of)),
        Value::Complement(of) => complement(alloc, of),
        Value::Binary(op, left, right) => binary(alloc, op, left, right),
        Value::Word(words, at) => word(alloc, words, at),
    }
}

fn push_set(alloc: Global, acts: &mut Items<Act>, parts: &[Part], value: Rhs) -> bool {
    let mut target = Items::new(alloc);
    let added = add_places(&mut target, parts);
    added & acts.push(Act::Set { target, value }).is_ok()
}

fn add_set(alloc: Global, acts: &mut Items<Act>, parts: &[Part], value: Value) -> bool {
    match rhs(alloc, value) {
        Some(value) => push_set(alloc, acts, parts, value),
        None => false,
    }
}

/// A guard with `to = number;` alone.
fn add_guard(
    alloc: Global,
    guards: &mut Items<Guard>,
    condition: Bits,
    to: Bits,
    number: u128,
) -> bool {
    let mut body = Items::new(alloc);
    let added = push_set(alloc, &mut body, &[Part::Whole(to)], Rhs::Number(number));
    let condition = bits(condition);
    added & guards.push(Guard { condition, body }).is_ok()
}

fn add_second(alloc: Global, guards: &mut Items<Guard>, second: Option<Bits>, to: Bits) -> bool {
    match second {
        Some(condition) => add_guard(alloc, guards, condition, to, 2),
        None => true,
    }
}

fn add_choice(
    alloc: Global,
    acts: &mut Items<Act>,
    first: Bits,
    second: Option<Bits>,
    to: Bits,
    other: Bits,
) -> bool {
    let mut otherwise = Items::new(alloc);
    let mut added = push_set(alloc, &mut otherwise, &[Part::Whole(other)], Rhs::Number(3));
    let mut guards = Items::new(alloc);
    added &= add_guard(alloc, &mut guards, first, to, 1);
    added &= add_second(alloc, &mut guards, second, to);
    added & acts.push(Act::Branch { guards, otherwise }).is_ok()
}

fn add_step(alloc: Global, acts: &mut Items<Act>, step: Step) -> bool {
    match step {
        Step::Set(to, value) => add_set(alloc, acts, &[to], value),
        Step::SetBoth(first, second, value) => add_set(alloc, acts, &[first, second], value),
        Step::Read(of) => acts.push(Act::Read(bits(of))).is_ok(),
        Step::Choice {
            first,
            second,
            to,
            other,
        } => add_choice(alloc, acts, first, second, to, other),
    }
}

fn add_steps(alloc: Global, acts: &mut Items<Act>, steps: &[Step]) -> bool {
    let mut added = true;
    for step in steps {
        added &= add_step(alloc, acts, *step);
    }
    added
}

/// Code with its bits, where it can be evaluated and memory is found.
pub fn code_with_bits(alloc: Global, timing: Timing, steps: &[Step]) -> Option<Code>
    ensures { IfSome result (λ code. HasBits timing code) }
{
    let mut acts = Items::new(alloc);
    let added = add_steps(alloc, &mut acts, steps);
    if !added || !is_sized_block(&acts) {
        return None;
    }
    code_of(alloc, timing, acts).ok()
}

/// Code whose bits nobody asks for.
fn code(alloc: Global, acts: Items<Act>) -> Code {
    Code {
        acts,
        writes: Items::new(alloc),
        reads: Items::new(alloc),
    }
}

// ---- designs

/// A design with nothing.
pub fn nothing(alloc: Global) -> Design
    ensures drivers { result.drivers ≡ [] }
    ensures blocks { result.blocks ≡ [] }
{
    Design {
        instances: Items::new(alloc),
        nets: Items::new(alloc),
        registers: Items::new(alloc),
        memories: Items::new(alloc),
        drivers: Items::new(alloc),
        blocks: Items::new(alloc),
        ports: Items::new(alloc),
        clock: None,
    }
}

/// Adds the top.
pub fn add_top(alloc: Global, instances: &mut Items<Instance>) -> bool {
    let top = Instance {
        parent: 0,
        name: Items::new(alloc),
    };
    instances.push(top).is_ok()
}

/// Adds nets of these widths.
pub fn add_nets(alloc: Global, nets: &mut Items<Net>, widths: &[u32]) -> bool {
    let mut added = true;
    for width in widths {
        let net = Net {
            instance: 0,
            name: Items::new(alloc),
            width: *width,
        };
        added &= nets.push(net).is_ok();
    }
    added
}

/// Adds ports of these directions and widths.
pub fn add_ports(alloc: Global, ports: &mut Items<Port>, pins: &[(Direction, u32)]) -> bool {
    let mut added = true;
    for pin in pins {
        let port = Port {
            name: Items::new(alloc),
            direction: pin.0,
            width: pin.1,
        };
        added &= ports.push(port).is_ok();
    }
    added
}

/// Adds registers.
pub fn add_registers(registers: &mut Items<Register>, held: &[Register]) -> bool {
    let mut added = true;
    for register in held {
        added &= registers.push(*register).is_ok();
    }
    added
}

/// Adds memories of words of so many bits.
pub fn add_memories(
    alloc: Global,
    memories: &mut Items<DesignMemory>,
    width: u32,
    rooms: &[Words],
) -> bool {
    let mut added = true;
    for words in rooms {
        let memory = DesignMemory {
            instance: 0,
            name: Items::new(alloc),
            width,
            room: room(*words),
        };
        added &= memories.push(memory).is_ok();
    }
    added
}

/// Adds an `assign`, or an `always @*`.
pub fn add_driver(
    alloc: Global,
    drivers: &mut Items<Driver>,
    always: bool,
    steps: &[Step],
) -> bool {
    let mut acts = Items::new(alloc);
    let added = add_steps(alloc, &mut acts, steps);
    let driver = Driver {
        line: 1,
        always,
        code: code(alloc, acts),
    };
    added & drivers.push(driver).is_ok()
}

/// Adds an `assign` for each of the statements.
fn add_assigns(alloc: Global, drivers: &mut Items<Driver>, steps: &[Step]) -> bool {
    let mut added = true;
    for step in steps {
        added &= add_driver(alloc, drivers, false, &[*step]);
    }
    added
}

/// Adds a clocked block.
pub fn add_block(alloc: Global, blocks: &mut Items<Code>, steps: &[Step]) -> bool {
    let mut acts = Items::new(alloc);
    let added = add_steps(alloc, &mut acts, steps);
    added & blocks.push(code(alloc, acts)).is_ok()
}

fn add_drivers(alloc: Global, drivers: &mut Items<Driver>, always: &[&[Step]]) -> bool {
    let mut added = true;
    for steps in always {
        added &= add_driver(alloc, drivers, true, steps);
    }
    added
}

fn add_blocks(alloc: Global, blocks: &mut Items<Code>, plan: &[&[Step]]) -> bool {
    let mut added = true;
    for steps in plan {
        added &= add_block(alloc, blocks, steps);
    }
    added
}

fn add_parts(alloc: Global, design: &mut Design, plan: &Plan) -> bool {
    add_top(alloc, &mut design.instances)
        & add_nets(alloc, &mut design.nets, plan.widths)
        & add_ports(alloc, &mut design.ports, plan.pins)
        & add_registers(&mut design.registers, plan.registers)
        & add_memories(alloc, &mut design.memories, 8, plan.rooms)
        & add_assigns(alloc, &mut design.drivers, plan.assigns)
        & add_drivers(alloc, &mut design.drivers, plan.always)
        & add_blocks(alloc, &mut design.blocks, plan.blocks)
}

/// A design with these parts, where memory is found.
pub fn design_of(alloc: Global, plan: &Plan) -> Option<Design> {
    let mut design = nothing(alloc);
    if add_parts(alloc, &mut design, plan) {
        Some(design)
    } else {
        None
    }
}

fn add_numbers(numbers: &mut Numbers, from: &[u128]) -> bool {
    let mut added = true;
    for number in from {
        added &= numbers.push(*number).is_ok();
    }
    added
}

/// Numbers of nets and of words, where memory is found.
pub fn values(alloc: Global, nets: &[u128], words: &[u128]) -> Option<Values> {
    let mut values = Values {
        nets: Items::new(alloc),
        words: Items::new(alloc),
    };
    if add_numbers(&mut values.nets, nets) & add_numbers(&mut values.words, words) {
        Some(values)
    } else {
        None
    }
}
