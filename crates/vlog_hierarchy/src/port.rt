//! The clock, as a port of the top.

ghost use Rattle.std.specs.Prelude.{◌≡◌, IfOk};
ghost use Rattle.vlog_tree.specs.Plain.{plain};
ghost use Rattle.vlog_hierarchy.specs.Outlines.{outlines_of, place_of};
ghost use Rattle.vlog_hierarchy.specs.Plain.{plain_path};
ghost use Rattle.vlog_hierarchy.specs.Clock.{clock_ports, first_port, scopes_of};

use crate::clock::{clock_ports, first_port};
use crate::outline::outlines;
use crate::places::{index_of, place_named};
use crate::scopes::scopes_of;
use std::alloc::Global;
use vlog_size::vidi_bits::{Memory, Name};
use vlog_tree::File;

/// Of a top whose 1-bit input ports are these: the place among them, counted from 0, of the one to which the name of the first clocked
/// block is joined, by plain names through ports; `None` where there is no clocked block, its name isn't joined to one, or the top isn't
/// declared (E4). The instances are taken in preorder, and each in text order. Ask only where `nodes_of` has an answer: the walk looks at
/// all instances.
///
/// # Errors
///
/// `Memory`: there isn't enough memory.
pub fn clock_port(
    alloc: Global,
    file: &File,
    top: &[u8],
    inputs: &[&Name],
) -> Result<Option<usize>, Memory>
    ensures { IfOk result (λ port. port ≡ first_port (clock_ports (plain file.now).modules
        (scopes_of (outlines_of (plain file.now).modules) (plain_path inputs.now) (place_of (plain file.now).modules top.now)))) }
{
    let index = index_of(alloc, file.modules.as_slice())?;
    let place = place_named(&index, top);
    let outlines = outlines(alloc, &index)?;
    let scopes = scopes_of(alloc, outlines.as_slice(), inputs, place)?;
    let ports = clock_ports(alloc, file.modules.as_slice(), scopes.as_slice())?;
    Ok(first_port(ports.as_slice()))
}
