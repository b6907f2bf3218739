//! The lawful design that `net_design` shows (its `specs/Example`), made in memory. What adds a part answers whether memory was found.

ghost use Rattle.std.specs.Prelude.{◌≡◌, ◌++◌, ◌∷◌, [], IsTrue, IfSome, MatchOption, Some};
ghost use Rattle.net_design.specs.declared.design.Direction.TheVariants.{Input, Output};
ghost use Rattle.net_design.specs.Example.{net_of, port_of, pair, both_bits, four_words, copies, stores, assigned, combined, example};

use net_design::{
    Act, Code, Design, DesignMemory, Direction, Driver, Instance, Mask, Net, Place, Port, Register,
    Rhs, Room, Span,
};
use net_sim::vidi_bits::{Items, Memory, Name};
use std::alloc::Global;

const WORDS: Room = Room {
    first: 0,
    length: 4,
};

/// The name of one letter.
fn named(alloc: Global, letter: u8) -> Option<Name>
    ensures { IfSome result (λ name. name ≡ letter ∷ []) }
{
    let mut name = Items::new(alloc);
    if name.push(letter).is_err() {
        return None;
    }
    Some(name)
}

fn add_net(nets: &mut Items<Net>, alloc: Global, letter: u8, width: u32) -> bool
    ensures { IsTrue result → nets.new ≡ nets.old ++ net_of 0 letter width ∷ [] }
{
    let Some(name) = named(alloc, letter) else {
        return false;
    };
    let net = Net {
        instance: 0,
        name,
        width,
    };
    nets.push(net).is_ok()
}

fn add_port(
    ports: &mut Items<Port>,
    alloc: Global,
    direction: Direction,
    letter: u8,
    width: u32,
) -> bool
    ensures { IsTrue result → ports.new ≡ ports.old ++ port_of direction letter width ∷ [] }
{
    let Some(name) = named(alloc, letter) else {
        return false;
    };
    let port = Port {
        name,
        direction,
        width,
    };
    ports.push(port).is_ok()
}

fn add_nets(nets: &mut Items<Net>, alloc: Global) -> bool
    requires { nets.old ≡ [] }
    ensures { IsTrue result → nets.new ≡ example.nets }
{
    add_net(nets, alloc, b'c', 1)
        && add_net(nets, alloc, b'd', 2)
        && add_net(nets, alloc, b'y', 2)
        && add_net(nets, alloc, b'q', 2)
        && add_net(nets, alloc, b't', 2)
}

fn add_ports(ports: &mut Items<Port>, alloc: Global) -> bool
    requires { ports.old ≡ [] }
    ensures { IsTrue result → ports.new ≡ example.ports }
{
    add_port(ports, alloc, Direction::Input, b'c', 1)
        && add_port(ports, alloc, Direction::Input, b'd', 2)
        && add_port(ports, alloc, Direction::Output, b'y', 2)
}

fn add_instance(instances: &mut Items<Instance>, name: Name) -> bool
    ensures { IsTrue result → instances.new ≡ instances.old ++ record { parent = 0; name = name } ∷ [] }
{
    instances.push(Instance { parent: 0, name }).is_ok()
}

fn add_instances(instances: &mut Items<Instance>, alloc: Global) -> bool
    requires { instances.old ≡ [] }
    ensures { IsTrue result → instances.new ≡ example.instances }
{
    let Some(name) = named(alloc, b'u') else {
        return false;
    };
    add_instance(instances, Items::new(alloc)) && add_instance(instances, name)
}

fn add_memory(memories: &mut Items<DesignMemory>, alloc: Global) -> bool
    requires { memories.old ≡ [] }
    ensures { IsTrue result → memories.new ≡ example.memories }
{
    let Some(name) = named(alloc, b'm') else {
        return false;
    };
    let memory = DesignMemory {
        instance: 0,
        name,
        width: 2,
        room: WORDS,
    };
    memories.push(memory).is_ok()
}

fn add_register(registers: &mut Items<Register>) -> bool
    requires { registers.old ≡ [] }
    ensures { IsTrue result → registers.new ≡ example.registers }
{
    let q = Register {
        net: 3,
        held: 3,
        initial: 2,
    };
    registers.push(q).is_ok()
}

/// The two bits of a net.
fn two_bits(net: usize) -> Span
    ensures { result ≡ pair net }
{
    Span {
        net,
        low: 0,
        width: 2,
    }
}

/// The mask of the two bits of a net.
fn mask(net: usize) -> Mask
    ensures { result ∷ [] ≡ both_bits net }
{
    Mask { net, bits: 3 }
}

/// An assignment to one place.
fn add_assign(acts: &mut Items<Act>, alloc: Global, place: Place, from: usize) -> bool
    requires { acts.old ≡ [] }
    ensures { IsTrue result → acts.new ≡ Act.Set (place ∷ []) (Rhs.Bits (pair from)) ∷ [] }
{
    let mut target = Items::new(alloc);
    let is_placed = target.push(place).is_ok();
    let value = Rhs::Bits(two_bits(from));
    let is_added = acts.push(Act::Set { target, value }).is_ok();
    is_placed && is_added
}

/// Code without statements.
fn nothing(alloc: Global) -> Code
    ensures { result ≡ record { acts = []; writes = []; reads = [] } }
{
    Code {
        acts: Items::new(alloc),
        writes: Items::new(alloc),
        reads: Items::new(alloc),
    }
}

/// The two bits of one net become those of another.
fn copying(alloc: Global, to: usize, from: usize) -> Option<Code>
    ensures { IfSome result (λ code. code ≡ copies to from) }
{
    let place = Place::Bits {
        span: two_bits(to),
        takes: 2,
    };
    let mut code = nothing(alloc);
    let is_whole = add_assign(&mut code.acts, alloc, place, from)
        && code.writes.push(mask(to)).is_ok()
        && code.reads.push(mask(from)).is_ok();
    if is_whole { Some(code) } else { None }
}

/// A word at a place that a net has becomes the bits of another.
fn storing(alloc: Global, at: usize, from: usize) -> Option<Code>
    ensures { IfSome result (λ code. code ≡ stores at from) }
{
    let place = Place::Word {
        room: WORDS,
        word: Rhs::Bits(two_bits(at)),
        low: 0,
        width: 2,
        takes: 2,
    };
    let mut code = nothing(alloc);
    let is_whole = add_assign(&mut code.acts, alloc, place, from)
        && code.reads.push(mask(at)).is_ok()
        && code.reads.push(mask(from)).is_ok();
    if is_whole { Some(code) } else { None }
}

fn add_driver(drivers: &mut Items<Driver>, line: u32, always: bool, code: Option<Code>) -> bool
    ensures { IsTrue result → MatchOption code ⊥ (λ code. drivers.new ≡ drivers.old ++ record { line = line; always = always; code = code } ∷ []) }
{
    match code {
        Some(code) => drivers.push(Driver { line, always, code }).is_ok(),
        None => false,
    }
}

fn add_drivers(drivers: &mut Items<Driver>, alloc: Global) -> bool
    requires { drivers.old ≡ [] }
    ensures { IsTrue result → drivers.new ≡ assigned ∷ combined ∷ [] }
{
    add_driver(drivers, 1, false, copying(alloc, 2, 4))
        && add_driver(drivers, 2, true, copying(alloc, 4, 3))
}

fn add_block(blocks: &mut Items<Code>, block: Option<Code>) -> bool
    ensures { IsTrue result → MatchOption block ⊥ (λ block. blocks.new ≡ blocks.old ++ block ∷ []) }
{
    match block {
        Some(block) => blocks.push(block).is_ok(),
        None => false,
    }
}

fn add_blocks(blocks: &mut Items<Code>, alloc: Global) -> bool
    requires { blocks.old ≡ [] }
    ensures { IsTrue result → blocks.new ≡ example.blocks }
{
    add_block(blocks, copying(alloc, 3, 1)) && add_block(blocks, storing(alloc, 3, 1))
}

/// A design without parts.
fn blank(alloc: Global) -> Design
    ensures { result ≡ record { instances = []; nets = []; registers = []; memories = []; drivers = []; blocks = []; ports = []; clock = Some 0 } }
{
    Design {
        instances: Items::new(alloc),
        nets: Items::new(alloc),
        registers: Items::new(alloc),
        memories: Items::new(alloc),
        drivers: Items::new(alloc),
        blocks: Items::new(alloc),
        ports: Items::new(alloc),
        clock: Some(0),
    }
}

/// That design.
pub fn example(alloc: Global) -> Option<Design>
    ensures { IfSome result (λ design. design ≡ example) }
{
    let mut design = blank(alloc);
    let is_whole = add_nets(&mut design.nets, alloc)
        && add_ports(&mut design.ports, alloc)
        && add_instances(&mut design.instances, alloc)
        && add_memory(&mut design.memories, alloc)
        && add_register(&mut design.registers)
        && add_drivers(&mut design.drivers, alloc)
        && add_blocks(&mut design.blocks, alloc);
    if is_whole { Some(design) } else { None }
}
