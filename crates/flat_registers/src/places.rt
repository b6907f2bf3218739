//! The regs of the flat design: their nets, widths and initial numbers.

ghost use Rattle.std.specs.Prelude.{◌≡◌, ◌<◌, ◌+◌, ◌++◌, OnOk, IfOk, Some, length, slice_get};
ghost use Rattle.flat_parts.specs.vlog_size.declared.scope.ScopeNet.{ScopeNet};
ghost use Rattle.flat_parts.specs.vlog_size.Table.{Named, value_of};
ghost use Rattle.flat_parts.specs.vlog_size.Size.{or_zero};
ghost use Rattle.flat_parts.specs.vlog_elab.Plain.{plain_instance, plain_instances};
ghost use Rattle.flat_parts.specs.Instances.{IsDeclaredIn, AreDeclaredIn};
ghost use Rattle.flat_parts.specs.Seats.{seats_of};
ghost use Rattle.flat_parts.specs.State.{regs_from, all_regs};
ghost use Rattle.flat_registers.specs.Places.{plain_places, reg_named, told_reg, told_regs};

use crate::initials::initials_of;
use flat_parts::vidi_bits::{Items, Memory};
use flat_parts::vlog_elab::ModuleInstance;
use flat_parts::vlog_names::{Declarations, ModuleTable, is_reg};
use flat_parts::vlog_size::{ScopeNets, Table};
use std::alloc::Global;

/// A reg of the flat design.
#[derive(Clone, Copy)]
pub struct RegNet {
    /// The place of its net, counted from 0.
    pub net: usize,
    /// Its width in bits.
    pub width: u32,
    /// The number of its initialiser, else 0.
    pub initial: u128,
}

/// The initialiser of this name, else 0.
fn initial_named(initials: &Table<u128>, name: &[u8]) -> u128
    ensures { result ≡ or_zero (value_of initials.now name.now) }
{
    match initials.get(name) {
        Some(number) => *number,
        None => 0,
    }
}

/// Adds a net of this name and width, where it is a reg.
fn add_named(
    names: &Declarations,
    initials: &Table<u128>,
    name: &[u8],
    width: u32,
    net: usize,
    out: &mut Items<RegNet>,
) -> Result<(), Memory>
    ensures { OnOk result (plain_places out.new ≡ plain_places out.old ++ reg_named names.now initials.now name.now width net) }
{
    if !is_reg(names, name) {
        return Ok(());
    }
    let initial = initial_named(initials, name);
    out.push(RegNet {
        net,
        width,
        initial,
    })
}

/// Adds the net at this place, where it is a reg.
fn add_net(
    names: &Declarations,
    initials: &Table<u128>,
    nets: &ScopeNets,
    place: usize,
    first: usize,
    out: &mut Items<RegNet>,
) -> Result<(), Memory>
    requires { place < length nets.now }
    ensures { OnOk result ((n : Named ScopeNet) → slice_get nets.now place ≡ Some n
        → plain_places out.new ≡ plain_places out.old ++ told_reg names.now initials.now (first + place) n) }
{
    let net = sum(first, place)?;
    match (nets.name_at(place), nets.value_at(place)) {
        (Some(name), Some(found)) => add_named(names, initials, name, found.width, net, out),
        _ => unreachable!(),
    }
}

/// Adds those of these nets that are regs.
fn add_nets(
    names: &Declarations,
    initials: &Table<u128>,
    nets: &ScopeNets,
    first: usize,
    out: &mut Items<RegNet>,
) -> Result<(), Memory>
    ensures { OnOk result (plain_places out.new ≡ plain_places out.old ++ told_regs names.now initials.now first nets.now) }
{
    for place in 0..nets.len() {
        add_net(names, initials, nets, place, first, out)?;
    }
    Ok(())
}

/// Adds the regs of an instance, whose first net this is.
fn add_instance(
    alloc: Global,
    modules: &ModuleTable,
    instance: &ModuleInstance<'_>,
    first: usize,
    out: &mut Items<RegNet>,
) -> Result<(), Memory>
    requires { IsDeclaredIn modules.now (plain_instance instance.now) }
    ensures { OnOk result (plain_places out.new ≡ plain_places out.old ++ regs_from (plain_instance instance.now).tree
        (plain_instance instance.now).scope first (plain_instance instance.now).scope.nets) }
{
    let Some(names) = modules.value_at(instance.place) else {
        unreachable!();
    };
    let initials = initials_of(alloc, instance.tree, &instance.scope)?;
    add_nets(names, &initials, &instance.scope.nets, first, out)
}

/// The sum of two counts.
fn sum(a: usize, b: usize) -> Result<usize, Memory>
    ensures { IfOk result (λ n. n ≡ a + b) }
{
    match a.checked_add(b) {
        Some(n) => Ok(n),
        None => Err(Memory),
    }
}

/// The regs of all instances, in the order of the flat design's nets.
pub fn reg_nets(
    alloc: Global,
    modules: &ModuleTable,
    list: &[ModuleInstance<'_>],
) -> Result<Items<RegNet>, Memory>
    requires { AreDeclaredIn modules.now (plain_instances list.now) }
    ensures { IfOk result (λ rs. plain_places rs ≡ all_regs (seats_of (plain_instances list.now))) }
{
    let mut out = Items::new(alloc);
    let mut first = 0;
    for instance in list {
        add_instance(alloc, modules, instance, first, &mut out)?;
        first = sum(first, instance.scope.nets.len())?;
    }
    Ok(out)
}
