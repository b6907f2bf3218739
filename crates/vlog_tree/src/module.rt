//! Files, modules, ports and items as trees (IEEE 1364-2005, A.1 to A.2).

use crate::expr::{Expr, Ident};
use crate::stmt::{Body, Target};
use vlog_lex::vidi_bits::{Items, Name};

/// A design text: its modules, in their order.
pub struct File {
    pub modules: Modules,
}

/// Written out, so that the drops of its parts are proved here and not in each crate that lets go of a file.
impl Drop for File {
    fn drop(self) {
        let File { modules } = self;
    }
}

/// A list of modules.
pub type Modules = Items<Module>;

/// A module (IEEE 1364-2005, 12.1).
#[derive(Drop)]
pub struct Module {
    pub name: Name,
    /// What `#(..)` declares; empty where it isn't there.
    pub parameters: Parameters,
    pub ports: Ports,
    pub items: Items<Item>,
}

/// A list of parameters.
pub type Parameters = Items<Parameter>;

/// A parameter of a module's header: `parameter range id = value`.
#[derive(Drop)]
pub struct Parameter {
    /// The word `parameter` and the range. A parameter without takes the range of the one before.
    pub head: Option<ParameterHead>,
    pub id: Ident,
    pub value: Expr,
}

/// The word `parameter`, and the range behind it.
#[derive(Drop)]
pub struct ParameterHead {
    pub range: Option<Range>,
}

/// A list of ports.
pub type Ports = Items<Port>;

/// A port of a module's header.
#[derive(Drop)]
pub struct Port {
    /// Its direction and range. A port without takes those of the port before.
    pub head: Option<PortHead>,
    pub id: Ident,
    /// The value after `=`.
    pub init: Option<Expr>,
}

/// The direction of a port, and its range.
#[derive(Drop)]
pub struct PortHead {
    pub direction: Direction,
    pub range: Option<Range>,
}

/// The direction of a port, with the word that may stand after it.
#[derive(Clone, Copy, Debug, PartialEq, Eq)]
pub enum Direction {
    /// `input`, with `wire` or without.
    Input { wire: bool },
    /// `output`, with `wire` or `reg` or without.
    Output { kind: Option<NetKind> },
}

/// The word after `output`.
#[derive(Clone, Copy, Debug, PartialEq, Eq)]
pub enum NetKind {
    Wire,
    Reg,
}

/// `[first:second]`
#[derive(Drop)]
pub struct Range {
    pub first: Expr,
    pub second: Expr,
}

/// An item of a module.
#[derive(Drop)]
pub enum Item {
    /// `wire range name, ..;`
    Wires {
        range: Option<Range>,
        names: Idents,
    },
    /// `wire range name = value, ..;`
    DrivenWires {
        range: Option<Range>,
        wires: NamedValues,
    },
    /// `reg range reg, ..;`
    Regs {
        range: Option<Range>,
        regs: Reg1s,
    },
    /// `localparam range name = value, ..;`
    Localparams {
        range: Option<Range>,
        parameters: NamedValues,
    },
    /// `assign target = value, ..;`
    Assign {
        assigns: Assigns,
    },
    Always(Always),
    Instance(Instance),
}

/// A list of declared names.
pub type Idents = Items<Ident>;

/// A declared wire or local parameter with its value: `name = value`.
#[derive(Drop)]
pub struct NamedValue {
    pub id: Ident,
    pub value: Expr,
}

/// A list of declared names with their values.
pub type NamedValues = Items<NamedValue>;

/// A declared register.
#[derive(Drop)]
pub struct Reg1 {
    pub id: Ident,
    pub tail: Option<RegTail>,
}

/// What stands after a register's name.
#[derive(Drop)]
pub enum RegTail {
    /// `= value`
    Init(Expr),
    /// The range of a memory's words.
    Memory(Range),
}

/// A list of declared registers.
pub type Reg1s = Items<Reg1>;

/// A continuous assignment: `target = value`.
#[derive(Drop)]
pub struct Assign {
    pub target: Target,
    pub value: Expr,
}

/// A list of continuous assignments.
pub type Assigns = Items<Assign>;

/// An `always` block (IEEE 1364-2005, 9.9.2).
#[derive(Drop)]
pub struct Always {
    /// The line of `always`.
    pub line: u32,
    pub event: Event,
    pub body: Body,
}

/// What an `always` block waits for.
#[derive(Drop)]
pub enum Event {
    /// `@(posedge clock)`
    Posedge(Ident),
    /// All that the block reads (IEEE 1364-2005, 9.7.5): `@*`, or `@(*)` with parentheses.
    Implicit { parens: bool },
}

/// An instance of a module (IEEE 1364-2005, 12.1.2): `module_id #(..) id (..);`
#[derive(Drop)]
pub struct Instance {
    pub module_id: Ident,
    /// The connections in `#(..)`; empty where it isn't there.
    pub parameters: Conns,
    pub id: Ident,
    pub ports: Conns,
}

/// A list of connections.
pub type Conns = Items<Conn>;

/// A connection of a port or a parameter by its name: `.id(value)`.
#[derive(Drop)]
pub struct Conn {
    /// The line of `.`.
    pub line: u32,
    pub id: Ident,
    pub value: Option<Expr>,
}
