//! Which nets of the flat design are regs.

ghost use Rattle.std.specs.Prelude.{◌≡◌, ◌<◌, ◌++◌, ◌∷◌, [], OnOk, IfOk, Some, length, map, slice_get};
ghost use Rattle.flat_parts.specs.vlog_size.declared.scope.ScopeNet.{ScopeNet};
ghost use Rattle.flat_parts.specs.vlog_size.Table.{Named, value_of};
ghost use Rattle.flat_parts.specs.vlog_names.Ports.{is_reg};
ghost use Rattle.flat_parts.specs.vlog_elab.Plain.{plain_instance, plain_instances};
ghost use Rattle.flat_parts.specs.Instances.{IsDeclaredIn, AreDeclaredIn};
ghost use Rattle.flat_parts.specs.Seats.{seats_of};
ghost use Rattle.flat_parts.specs.Marks as marks;

use flat_parts::vidi_bits::{Items, Memory};
use flat_parts::vlog_elab::ModuleInstance;
use flat_parts::vlog_names::{Declarations, ModuleTable, is_reg};
use flat_parts::vlog_size::ScopeNets;
use std::alloc::Global;

/// Adds whether the net at this place is a reg.
fn add_mark(
    names: &Declarations,
    nets: &ScopeNets,
    place: usize,
    out: &mut Items<bool>,
) -> Result<(), Memory>
    requires { place < length nets.now }
    ensures { OnOk result ((n : Named ScopeNet) → slice_get nets.now place ≡ Some n
        → out.new ≡ out.old ++ is_reg (value_of names.now n.name) ∷ []) }
{
    match nets.name_at(place) {
        Some(name) => out.push(is_reg(names, name)),
        None => unreachable!(),
    }
}

/// Adds for each of these nets whether it is a reg.
fn add_marks(names: &Declarations, nets: &ScopeNets, out: &mut Items<bool>) -> Result<(), Memory>
    ensures { OnOk result (out.new ≡ out.old ++ map (λ (n : Named ScopeNet). is_reg (value_of names.now n.name)) nets.now) }
{
    for place in 0..nets.len() {
        add_mark(names, nets, place, out)?;
    }
    Ok(())
}

/// Adds the same for the nets of an instance.
fn add_instance(
    modules: &ModuleTable,
    instance: &ModuleInstance<'_>,
    out: &mut Items<bool>,
) -> Result<(), Memory>
    requires { IsDeclaredIn modules.now (plain_instance instance.now) }
    ensures { OnOk result (out.new ≡ out.old ++ marks.instance_marks (plain_instance instance.now)) }
{
    let Some(names) = modules.value_at(instance.place) else {
        unreachable!();
    };
    add_marks(names, &instance.scope.nets, out)
}

/// For each net of the instances, in the order of the flat design's nets, whether it is a reg, also an `output reg` (IEEE 1364-2005,
/// 4.2.2). By condition the table has what each instance's module declares.
///
/// # Errors
///
/// `Memory`.
pub fn reg_marks(
    alloc: Global,
    modules: &ModuleTable,
    list: &[ModuleInstance<'_>],
) -> Result<Items<bool>, Memory>
    requires { AreDeclaredIn modules.now (plain_instances list.now) }
    ensures { IfOk result (λ bs. bs ≡ marks.reg_marks (seats_of (plain_instances list.now))) }
{
    let mut out = Items::new(alloc);
    for instance in list {
        add_instance(modules, instance, &mut out)?;
    }
    Ok(out)
}
