//! The ports and regs of a module by their names.

ghost use Rattle.std.specs.Prelude.{◌≡◌, option_map};
ghost use Rattle.vlog_tree.specs.Plain.{plain_ident, plain_head};
ghost use Rattle.vlog_size.specs.Table.{value_of};
ghost use Rattle.vlog_names.specs.Ports.{is_input_port, input_after, is_output, is_reg};

use crate::declaration::Declarations;
use vlog_tree::{Direction, Ident, PortHead};

fn is_input_port(direction: Direction) -> bool
    ensures { result ≡ is_input_port direction }
{
    match direction {
        Direction::Input { wire: _ } => true,
        Direction::Output { kind: _ } => false,
    }
}

/// Whether a port with this head is an input, where the port before it is one or isn't: one without a head is as the port before
/// (IEEE 1364-2005, 12.3.3).
pub fn input_after(before: bool, head: &Option<PortHead>) -> bool
    ensures { result ≡ input_after before (option_map plain_head head.now) }
{
    match head {
        Some(head) => is_input_port(head.direction),
        None => before,
    }
}

/// Whether a module with these names has an output of this name.
pub fn is_output(names: &Declarations, ident: &Ident) -> bool
    ensures { result ≡ is_output (value_of names.now (plain_ident ident.now).name) }
{
    match names.get(ident.name.as_slice()) {
        Some(declaration) => declaration.is_output(),
        None => false,
    }
}

/// Whether a module with these names has a reg of this name, also an `output reg` (IEEE 1364-2005, 4.2.2).
pub fn is_reg(names: &Declarations, name: &[u8]) -> bool
    ensures { result ≡ is_reg (value_of names.now name.now) }
{
    match names.get(name) {
        Some(declaration) => declaration.is_reg(),
        None => false,
    }
}
