//! The ports of the flat design.

ghost use Rattle.std.specs.Prelude.{◌≡◌, IfOk, option_map};
ghost use Rattle.vlog_tree.specs.Plain.{plain_head, plain_module, plain_port};
ghost use Rattle.flat_parts.specs.vlog_size.Table.{value_of};
ghost use Rattle.flat_parts.specs.vlog_driver.Next as meaning;
ghost use Rattle.flat_parts.specs.Nets.{flat_ports};
ghost use Rattle.flat_layout.specs.Layout.{seen, direction_after};

use flat_parts::vidi_bits::{Items, Memory, copied};
use flat_parts::vlog_size::{Scope, ScopeNets};
use net_design::{Direction, Port};
use std::alloc::Global;
use vlog_tree::{Direction as Written, Module, PortHead};

fn seen(direction: Written) -> Direction
    ensures { result ≡ seen direction }
{
    match direction {
        Written::Input { .. } => Direction::Input,
        Written::Output { .. } => Direction::Output,
    }
}

/// The direction of a port behind one of the direction `before`.
fn direction_after(before: Direction, head: &Option<PortHead>) -> Direction
    ensures { result ≡ direction_after before (option_map plain_head head.now) }
{
    match head {
        None => before,
        Some(head) => seen(head.direction),
    }
}

/// The width of the net of this name, 0 where there is none.
fn net_width(list: &ScopeNets, name: &[u8]) -> u32
    ensures { result ≡ meaning.net_width (value_of list.now name.now) }
{
    match list.get(name) {
        Some(net) => net.width,
        None => 0,
    }
}

/// The ports of the top, a module with this scope.
pub fn ports(alloc: Global, top: &Module, scope: &Scope) -> Result<Items<Port>, Memory>
    ensures { IfOk result (λ ps. ps ≡ flat_ports (plain_module top.now) scope.now) }
{
    let mut ports = Items::new(alloc);
    let mut direction = Direction::Input;
    for port in top.ports.as_slice() {
        direction = direction_after(direction, &port.head);
        let name = copied(alloc, port.id.name.as_slice())?;
        let width = net_width(&scope.nets, port.id.name.as_slice());
        ports.push(Port {
            name,
            direction,
            width,
        })?;
    }
    Ok(ports)
}
