//! The names that an expression may read, and what they stand for.

use crate::table::Table;

/// A constant (IEEE 1364-2005, 3.5.1 and 4.10).
#[derive(Clone, Copy, PartialEq, Eq)]
pub enum Const {
    /// A whole number, 0 to 2,147,483,647. As an operand it is 32 bits wide.
    Plain { n: u32 },
    /// A number below 2 to the power of the width, which is 1 to 128 bits.
    Sized { width: u32, n: u128 },
}

/// What a parameter stands for.
#[derive(Clone, Copy)]
pub struct Param {
    pub value: Const,
    /// Whether the number is known. It isn't where what makes the parameter is at fault: then
    /// `value` tells only whether it is plain, and its width.
    pub known: bool,
}

/// The parameters declared so far, by name and in text order.
pub type Params = Table<Param>;

/// A net: its width in bits.
#[derive(Clone, Copy)]
pub struct ScopeNet {
    pub width: u32,
}

/// Nets by name, in text order.
pub type ScopeNets = Table<ScopeNet>;

/// A memory: the width of its words in bits, and the number of its words.
#[derive(Clone, Copy)]
pub struct ScopeMemory {
    pub width: u32,
    pub length: u32,
}

/// Memories by name, in text order.
pub type ScopeMemories = Table<ScopeMemory>;

/// The names of one module instance.
#[derive(Drop)]
pub struct Scope {
    pub params: Params,
    /// The number of parameters whose names stand before what is looked at: its constant positions
    /// may read the first so many, and no other.
    pub declared: usize,
    pub nets: ScopeNets,
    pub memories: ScopeMemories,
}
