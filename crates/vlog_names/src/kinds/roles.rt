//! What a declared name may be used for.

ghost use Rattle.std.specs.Prelude.{◌≡◌};
ghost use Rattle.vlog_tree.specs.Plain.{plain_ident};
ghost use Rattle.vlog_names.specs.Table.{value_of};
ghost use Rattle.vlog_names.specs.Roles.{is_wire_port, is_wire, is_stored, is_place, is_memory, is_output_reg, is_wrong_sign};

use crate::declaration::{Declaration, Declarations, is_reg_port};
use vlog_tree::{AssignOp, Direction, Ident, NetKind};

fn is_wire_port(direction: Direction) -> bool
    ensures { result ≡ is_wire_port direction }
{
    match direction {
        Direction::Output {
            kind: Some(NetKind::Reg),
        } => false,
        Direction::Output { kind: _ } => true,
        Direction::Input { wire: _ } => false,
    }
}

/// Whether `assign` and a child's output may drive it.
pub fn is_wire(names: &Declarations, ident: &Ident) -> bool
    ensures { result ≡ is_wire (value_of names.now (plain_ident ident.now).name) }
{
    match names.get(ident.name.as_slice()) {
        None => true,
        Some(Declaration::Wire { shape: _ }) => true,
        Some(
            Declaration::Port {
                direction,
                shape: _,
            },
        ) => is_wire_port(*direction),
        Some(_) => false,
    }
}

/// Whether an always block, clocked or not, may write it.
pub fn is_stored(is_clocked: bool, names: &Declarations, ident: &Ident) -> bool
    ensures { result ≡ is_stored is_clocked (value_of names.now (plain_ident ident.now).name) }
{
    match names.get(ident.name.as_slice()) {
        None => true,
        Some(Declaration::Reg { shape: _ }) => true,
        Some(Declaration::Memory { shape: _ }) => is_clocked,
        Some(
            Declaration::Port {
                direction,
                shape: _,
            },
        ) => is_reg_port(*direction),
        Some(_) => false,
    }
}

/// Whether it is a net or a memory.
pub fn is_place(names: &Declarations, ident: &Ident) -> bool
    ensures { result ≡ is_place (value_of names.now (plain_ident ident.now).name) }
{
    match names.get(ident.name.as_slice()) {
        Some(Declaration::Wire { shape: _ }) => true,
        Some(Declaration::Reg { shape: _ }) => true,
        Some(Declaration::Memory { shape: _ }) => true,
        Some(Declaration::Port { .. }) => true,
        _ => false,
    }
}

pub fn is_memory(names: &Declarations, ident: &Ident) -> bool
    ensures { result ≡ is_memory (value_of names.now (plain_ident ident.now).name) }
{
    match names.get(ident.name.as_slice()) {
        Some(Declaration::Memory { shape: _ }) => true,
        _ => false,
    }
}

/// Whether a port may have an initialiser.
pub fn is_output_reg(names: &Declarations, ident: &Ident) -> bool
    ensures { result ≡ is_output_reg (value_of names.now (plain_ident ident.now).name) }
{
    match names.get(ident.name.as_slice()) {
        None => true,
        Some(
            Declaration::Port {
                direction,
                shape: _,
            },
        ) => is_reg_port(*direction),
        Some(_) => false,
    }
}

/// Whether this sign can't stand in an always block that is clocked or isn't.
pub fn is_wrong_sign(is_clocked: bool, op: AssignOp) -> bool
    ensures { result ≡ is_wrong_sign is_clocked op }
{
    match op {
        AssignOp::Blocking => is_clocked,
        AssignOp::Nonblocking => !is_clocked,
    }
}
