//! Flat designs.

use crate::act::Code;
use crate::rhs::Room;
use vidi_bits::{Items, Name};

/// An instance of a module. The first is the top, whose name and parent say nothing.
#[derive(Drop)]
pub struct Instance {
    /// The number of the instance that holds this one; it comes before this one.
    pub parent: usize,
    pub name: Name,
}

/// A net: a port, a wire or a reg of an instance.
#[derive(Drop)]
pub struct Net {
    pub instance: usize,
    pub name: Name,
    /// 1 to 128 bits.
    pub width: u32,
}

/// A reg of the state: the bits of it that no `always @*` writes, and its initial number, which has no other bits.
#[derive(Clone, Copy)]
pub struct Register {
    pub net: usize,
    pub held: u128,
    pub initial: u128,
}

/// A memory of an instance.
#[derive(Drop)]
pub struct DesignMemory {
    pub instance: usize,
    pub name: Name,
    /// The width of a word, 1 to 128 bits.
    pub width: u32,
    pub room: Room,
}

/// What gives bits of nets their numbers: an `assign`, a wire's expression, a connection or an `always @*`.
#[derive(Drop)]
pub struct Driver {
    pub line: u32,
    /// Whether it is an `always @*`.
    pub always: bool,
    pub code: Code,
}

/// The direction of a port, as seen from the design.
#[derive(Clone, Copy, PartialEq, Eq)]
pub enum Direction {
    Input,
    Output,
}

/// A port of the top.
#[derive(Drop)]
pub struct Port {
    pub name: Name,
    pub direction: Direction,
    pub width: u32,
}

/// A flat design. Nets and memories are named by their places. The nets of all instances stand in preorder of
/// the instances and within one in text order, so that port k of the top is net k; the words of the memories
/// stand one memory after the other.
pub struct Design {
    pub instances: Items<Instance>,
    pub nets: Items<Net>,
    pub registers: Items<Register>,
    pub memories: Items<DesignMemory>,
    pub drivers: Items<Driver>,
    /// What each `always @(posedge ..)` does.
    pub blocks: Items<Code>,
    pub ports: Items<Port>,
    /// The place of the clock among the ports, where there is one.
    pub clock: Option<usize>,
}

/// Written out, so that the drops of its parts are proved here and not in each crate that lets go of a design.
impl Drop for Design {
    fn drop(self) {
        let Design {
            instances,
            nets,
            registers,
            memories,
            drivers,
            blocks,
            ports,
            clock,
        } = self;
    }
}

/// How much a design has.
#[derive(Clone, Copy, PartialEq, Eq)]
pub struct Counts {
    pub instances: u32,
    pub nets: u32,
    pub drivers: u32,
    /// The number of `always @(posedge ..)` blocks.
    pub blocks: u32,
    /// The number of words of all memories.
    pub words: u32,
}
