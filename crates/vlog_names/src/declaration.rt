//! What the names of a module are declared as.

ghost use Rattle.std.specs.Prelude.{◌≡◌, Some};
ghost use Rattle.vlog_names.specs.Ports.{is_output_port, is_reg_word, is_reg_port, is_output, is_reg};

use vlog_size::Table;
use vlog_tree::{Direction, NetKind};

/// Whether a net, or a memory's word, is declared with a range (IEEE 1364-2005, 4.3).
#[derive(Clone, Copy, Debug, PartialEq, Eq)]
pub enum Shape {
    Scalar,
    Vector,
}

/// What a name is declared as.
#[derive(Clone, Copy, Debug, PartialEq, Eq)]
pub enum Declaration {
    /// A parameter of the module's header, which a connection may name.
    Parameter,
    Localparam,
    Port { direction: Direction, shape: Shape },
    Wire { shape: Shape },
    Reg { shape: Shape },
    /// A memory, and the shape of its words.
    Memory { shape: Shape },
    Instance,
}

fn is_output_port(direction: Direction) -> bool
    ensures { result ≡ is_output_port direction }
{
    match direction {
        Direction::Output { kind: _ } => true,
        Direction::Input { wire: _ } => false,
    }
}

fn is_reg_word(kind: Option<NetKind>) -> bool
    ensures { result ≡ is_reg_word kind }
{
    match kind {
        Some(NetKind::Reg) => true,
        _ => false,
    }
}

/// Whether a port of this direction is an `output reg`.
pub fn is_reg_port(direction: Direction) -> bool
    ensures { result ≡ is_reg_port direction }
{
    match direction {
        Direction::Input { wire: _ } => false,
        Direction::Output { kind } => is_reg_word(kind),
    }
}

impl Declaration {
    /// Whether it is an output.
    pub fn is_output(self) -> bool
        ensures { result ≡ is_output (Some self) }
    {
        match self {
            Declaration::Port {
                direction,
                shape: _,
            } => is_output_port(direction),
            _ => false,
        }
    }

    /// Whether it is a reg, also an `output reg`.
    pub fn is_reg(self) -> bool
        ensures { result ≡ is_reg (Some self) }
    {
        match self {
            Declaration::Reg { shape: _ } => true,
            Declaration::Port {
                direction,
                shape: _,
            } => is_reg_port(direction),
            _ => false,
        }
    }
}

/// The names of one module in text order, and what each is declared as.
pub type Declarations = Table<Declaration>;

/// The modules of a file in text order, and what each declares.
pub type ModuleTable = Table<Declarations>;
