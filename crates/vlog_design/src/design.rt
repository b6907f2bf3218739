//! The flat design of instances.

ghost use Rattle.std.specs.Prelude.{◌≡◌, ◌≢◌, ◌≤◌, ℕ, List, IfOk, All, AllPairs, length};
ghost use Rattle.vlog_tree.specs.Tree.{ModuleOf};
ghost use Rattle.vlog_tree.specs.Plain.{plain};
ghost use Rattle.flat_drive.specs.vlog_elab.Instances.{instances};
ghost use Rattle.flat_drive.specs.vlog_elab.Plain.{plain_instances};
ghost use Rattle.flat_drive.specs.vlog_elab.Reasons as elab;
ghost use Rattle.net_design.specs.Lawful.{IsLawful};
ghost use Rattle.flat_drive.specs.flat_parts.Instances.{AreDeclaredIn};
ghost use Rattle.flat_drive.specs.flat_parts.Built.{IsBuilt};
ghost use Rattle.flat_drive.specs.flat_parts.Laws.{IsTop};
ghost use Rattle.vlog_design.specs.Design.{IsDesignOf};
ghost use Rattle.vlog_design.specs.Parts.{AreParts, FirstPorts, HasTop};

use crate::code::Checked;
use flat_clock::clock_place;
use flat_clock::flat_parts::{instances_are_paths, settled_alike, state_alike};
use flat_drive::vlog_elab::ModuleInstance;
use flat_drive::vlog_names::ModuleTable;
use flat_layout::{built_numbers, instances, names_differ, nets_have_seats, ports, seats_stand};
use flat_registers::{registers, registers_are_state};
use net_design::{Design, Port};
use net_lawful::is_lawful;
use net_order::vidi_bits::{Items, Memory};
use std::alloc::Global;
use vlog_tree::File;

/// The ports of the top, which is the first instance.
fn top_ports(alloc: Global, list: &[ModuleInstance<'_>]) -> Result<Items<Port>, Memory>
    requires { 1 ≤ length list.now }
    ensures { IfOk result (λ ps. FirstPorts (plain_instances list.now) ps) }
{
    match list.first() {
        Some(top) => ports(alloc, top.tree, &top.scope),
        None => unreachable!(),
    }
}

/// The flat design with these parts.
fn built(
    alloc: Global,
    file: &File,
    top: &[u8],
    modules: &ModuleTable,
    list: &[ModuleInstance<'_>],
    parts: Checked,
) -> Result<Design, Memory>
    requires clear { elab.Clear (plain file.now) top.now }
    requires names { AreDeclaredIn modules.now (plain_instances list.now) }
    requires listed { plain_instances list.now ≡ instances (plain file.now) top.now }
    requires parts { AreParts (plain_instances list.now) parts }
    ensures top { IfOk result (λ _. HasTop (plain file.now) top.now) }
    ensures built { IfOk result (λ d. (m : ModuleOf ℕ) → IsTop (plain file.now) top.now m
        → IsBuilt (plain file.now).modules m (instances (plain file.now) top.now) d) }
{
    instances_are_paths();
    let Checked {
        nets,
        memories,
        drivers,
        blocks,
    } = parts;
    let instances = instances(alloc, list)?;
    let ports = top_ports(alloc, list)?;
    let registers = registers(alloc, modules, list, drivers.as_slice())?;
    let clock = clock_place(alloc, file, top, list)?;
    Ok(Design {
        instances,
        nets,
        registers,
        memories,
        drivers,
        blocks,
        ports,
        clock,
    })
}

/// The flat design with these parts, which means the file; it is tried whether it is lawful, and want of memory is answered where it
/// isn't.
pub fn design_of(
    alloc: Global,
    file: &File,
    top: &[u8],
    modules: &ModuleTable,
    list: &[ModuleInstance<'_>],
    parts: Checked,
) -> Result<Design, Memory>
    requires clear { elab.Clear (plain file.now) top.now }
    requires names { AreDeclaredIn modules.now (plain_instances list.now) }
    requires listed { plain_instances list.now ≡ instances (plain file.now) top.now }
    requires parts { AreParts (plain_instances list.now) parts }
    ensures { IfOk result (λ d. IsDesignOf (plain file.now) top.now d) }
{
    let design = built(alloc, file, top, modules, list, parts)?;
    built_numbers();
    names_differ();
    nets_have_seats();
    seats_stand();
    registers_are_state();
    instances_are_paths();
    settled_alike();
    state_alike();
    if !is_lawful(alloc, &design)? {
        return Err(Memory);
    }
    Ok(design)
}
