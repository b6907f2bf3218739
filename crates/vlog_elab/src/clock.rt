//! E13: one clock, which is an input of the top.

ghost use Rattle.std.specs.Prelude.{◌≡◌, ◌&&◌, ◌++◌, false, map, IfOk, OnOk};
ghost use Rattle.vlog_hierarchy.specs.vidi_bits.Findings.{told_if};
ghost use Rattle.vlog_tree.specs.Plain.{plain, plain_port};
ghost use Rattle.vlog_hierarchy.specs.vlog_size.Table.{value_of};
ghost use Rattle.vlog_hierarchy.specs.Plain.{plain_path};
ghost use Rattle.vlog_elab.specs.Clock as clock;
ghost use Rattle.vlog_elab.specs.Plain.{plain_instances};
ghost use Rattle.vlog_elab.specs.Reasons.{clock_faults_of, clock_findings};
ghost use Rattle.vlog_hierarchy.specs.vidi_bits.Findings.{Judged};
ghost use Rattle.vlog_elab.specs.Told.{elab_told};

use crate::error::ElabError;
use crate::instance::ModuleInstance;
use std::alloc::Global;
use vlog_hierarchy::check_clock;
use vlog_hierarchy::vidi_bits::{Items, Memory, Name};
use vlog_hierarchy::vlog_size::ScopeNets;
use vlog_names::input_after;
use vlog_tree::{File, Port};

fn is_one_bit(nets: &ScopeNets, name: &[u8]) -> bool
    ensures { result ≡ clock.is_one_bit (value_of nets.now name.now) }
{
    match nets.get(name) {
        Some(net) => net.width == 1,
        None => false,
    }
}

/// Adds the name of a port that is one bit wide, where it is an input.
fn add_input<'a>(
    nets: &ScopeNets,
    is_input: bool,
    port: &'a Port,
    inputs: &mut Items<&'a Name>,
) -> Result<(), Memory>
    ensures { OnOk result (plain_path inputs.new ≡ plain_path inputs.old
        ++ told_if (is_input && clock.is_one_bit (value_of nets.now (plain_port port.now).id.name)) (plain_port port.now).id.name) }
{
    if is_input && is_one_bit(nets, port.id.name.as_slice()) {
        return inputs.push(&port.id.name);
    }
    Ok(())
}

/// The input ports of one bit.
fn one_bit_inputs<'a>(
    alloc: Global,
    nets: &ScopeNets,
    ports: &'a [Port],
) -> Result<Items<&'a Name>, Memory>
    ensures { IfOk result (λ names. plain_path names ≡ clock.one_bit_inputs nets.now false (map plain_port ports.now)) }
{
    let mut inputs = Items::new(alloc);
    let mut before = false;
    for port in ports {
        before = input_after(before, &port.head);
        add_input(nets, before, port, &mut inputs)?;
    }
    Ok(inputs)
}

/// The names of the input ports of the top that are one bit wide, in text order, where these are the instances of a file and its top, the
/// top first; none where there is no instance.
///
/// # Errors
///
/// `Memory`: there isn't enough memory.
pub fn clock_inputs<'a>(
    alloc: Global,
    list: &[ModuleInstance<'a>],
) -> Result<Items<&'a Name>, Memory>
    ensures { IfOk result (λ names. plain_path names ≡ clock.clock_inputs (plain_instances list.now)) }
{
    match list.first() {
        Some(top) => one_bit_inputs(alloc, &top.scope.nets, top.tree.ports.as_slice()),
        None => Ok(Items::new(alloc)),
    }
}

/// E13, where the top has these input ports of one bit.
#[tactic(auto, using(crate::proofs::Firsts::hierarchy_first, crate::proofs::Passed::none_map))]
fn clock_checked(alloc: Global, file: &File, top: &[u8], inputs: &[&Name]) -> Result<(), ElabError>
    ensures { Judged elab_told result (clock_faults_of (plain file.now) top.now (plain_path inputs.now)) }
{
    Ok(check_clock(alloc, file, top, inputs)?)
}

/// E13, where these are the instances of the file and its top.
#[tactic(auto, unfolding(crate::specs::Reasons::clock_findings))]
pub fn one_clock(
    alloc: Global,
    file: &File,
    top: &[u8],
    list: &[ModuleInstance<'_>],
) -> Result<(), ElabError>
    ensures { Judged elab_told result (clock_findings (plain file.now) top.now (plain_instances list.now)) }
{
    let inputs = clock_inputs(alloc, list)?;
    clock_checked(alloc, file, top, inputs.as_slice())
}
