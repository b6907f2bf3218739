//! The clock's place among the ports of the top.

ghost use Rattle.std.specs.Prelude.{◌≡◌, ℕ, ◌↔◌, [], map, position, IfOk, Some};
ghost use Rattle.std.specs.Str.{bytes_eq};
ghost use Rattle.vlog_tree.specs.Tree.{ModuleOf};
ghost use Rattle.vlog_tree.specs.Plain.{plain, plain_port};
ghost use Rattle.flat_parts.specs.vlog_hierarchy.Plain.{plain_path};
ghost use Rattle.flat_parts.specs.vlog_elab.Scope.{scope_with};
ghost use Rattle.flat_parts.specs.vlog_elab.Instances.{instances};
ghost use Rattle.flat_parts.specs.vlog_elab.Plain.{plain_instances};
ghost use Rattle.flat_parts.specs.vlog_elab.Reasons.{Clear};
ghost use Rattle.flat_parts.specs.Nets.{flat_ports};
ghost use Rattle.flat_parts.specs.Built.{IsClockPort};
ghost use Rattle.flat_parts.specs.Laws.{IsTop};
ghost use Rattle.flat_clock.specs.Clock.{name_at, port_named, place_in};

use flat_parts::vidi_bits::{Memory, Name};
use flat_parts::vlog_elab::{ModuleInstance, clock_inputs};
use flat_parts::vlog_hierarchy::clock_port;
use std::alloc::Global;
use vlog_tree::{File, Port};

/// The place of the first port of this name.
fn port_named(ports: &[Port], name: &[u8]) -> Option<usize>
    ensures { result ≡ position (λ p. bytes_eq name.now p.id.name) ports.now }
{
    ports
        .iter()
        .position(|port| name == port.id.name.as_slice())
}

/// The place of the first port that has the name at a place.
fn port_of(ports: &[Port], names: &[&Name], place: Option<usize>) -> Option<usize>
    ensures { result ≡ port_named (map plain_port ports.now) (name_at (plain_path names.now) place) }
{
    match place {
        Some(place) => match names.get(place) {
            Some(name) => port_named(ports, name.as_slice()),
            None => None,
        },
        None => None,
    }
}

/// The place of the first port of the top, which is the first instance, that has the clock's name.
fn place_in(list: &[ModuleInstance<'_>], names: &[&Name], place: Option<usize>) -> Option<usize>
    ensures { result ≡ place_in (plain_instances list.now) (name_at (plain_path names.now) place) }
{
    match list.first() {
        Some(top) => port_of(top.tree.ports.as_slice(), names, place),
        None => None,
    }
}

/// The place of the clock among the ports of the flat design of a file and its top, counted from 0: of the input to which the names of
/// all clocked blocks are joined, by plain names through ports (this project's profile). `None` where there is no clocked block.
/// `list` are the instances of the file and its top.
///
/// # Errors
///
/// `Memory`: there isn't enough memory.
pub fn clock_place(
    alloc: Global,
    file: &File,
    name: &[u8],
    list: &[ModuleInstance<'_>],
) -> Result<Option<usize>, Memory>
    requires clear { Clear (plain file.now) name.now }
    requires listed { plain_instances list.now ≡ instances (plain file.now) name.now }
    ensures { IfOk result (λ place. (top : ModuleOf ℕ) → IsTop (plain file.now) name.now top → (k : ℕ)
        → (place ≡ Some k) ↔ IsClockPort (plain file.now).modules top (flat_ports top (scope_with [] top)) k) }
{
    let inputs = clock_inputs(alloc, list)?;
    let port = clock_port(alloc, file, name, inputs.as_slice())?;
    Ok(place_in(list, inputs.as_slice(), port))
}
