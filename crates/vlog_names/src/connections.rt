//! Instances of modules, and connected ports and parameters, that aren't declared.

ghost use Rattle.std.specs.Prelude.{◌≡◌, not, map};
ghost use Rattle.std.specs.List.{flat_map};
ghost use Rattle.vlog_size.specs.vidi_bits.Findings.{told_if};
ghost use Rattle.vlog_tree.specs.Plain.{plain_conn, plain_instance};
ghost use Rattle.vlog_size.specs.Table.{value_of};
ghost use Rattle.vlog_names.specs.Unknown.{is_parameter, is_port, unknown_parameter_conn, unknown_port_conn, unknown_instance};
ghost use Rattle.vlog_size.specs.vidi_bits.Findings.{Judged};
ghost use Rattle.vlog_names.specs.Told.{name_told};
ghost use Rattle.vlog_names.specs.declared.error.NameError.TheVariants as e;

use crate::declaration::{Declaration, Declarations, ModuleTable};
use crate::error::NameError;
use crate::expressions::known_value;
use std::alloc::Global;
use vlog_size::vidi_bits::{Name, copied};
use vlog_tree::{Conn, Instance};

/// Refuses a name that isn't declared as what is asked for.
fn known_if(alloc: Global, is_known: bool, name: &Name) -> Result<(), NameError>
    ensures { Judged name_told result (told_if (not is_known) (e.Unknown name.now)) }
{
    if is_known {
        return Ok(());
    }
    let name = copied(alloc, name.as_slice())?;
    Err(NameError::Unknown { name })
}

/// Whether the name is that of a parameter that can be connected.
fn is_parameter(names: &Declarations, name: &[u8]) -> bool
    ensures { result ≡ is_parameter (value_of names.now name.now) }
{
    match names.get(name) {
        Some(Declaration::Parameter) => true,
        _ => false,
    }
}

fn is_port(names: &Declarations, name: &[u8]) -> bool
    ensures { result ≡ is_port (value_of names.now name.now) }
{
    match names.get(name) {
        Some(Declaration::Port { .. }) => true,
        _ => false,
    }
}

fn known_parameter_conn(
    alloc: Global,
    child: &Declarations,
    names: &Declarations,
    conn: &Conn,
) -> Result<(), NameError>
    ensures { Judged name_told result (unknown_parameter_conn child.now names.now (plain_conn conn.now)) }
{
    let is_known = is_parameter(child, conn.id.name.as_slice());
    known_if(alloc, is_known, &conn.id.name)?;
    known_value(alloc, names, &conn.value)
}

fn known_port_conn(
    alloc: Global,
    child: &Declarations,
    names: &Declarations,
    conn: &Conn,
) -> Result<(), NameError>
    ensures { Judged name_told result (unknown_port_conn child.now names.now (plain_conn conn.now)) }
{
    let is_known = is_port(child, conn.id.name.as_slice());
    known_if(alloc, is_known, &conn.id.name)?;
    known_value(alloc, names, &conn.value)
}

fn known_parameter_conns(
    alloc: Global,
    child: &Declarations,
    names: &Declarations,
    conns: &[Conn],
) -> Result<(), NameError>
    ensures { Judged name_told result (flat_map (unknown_parameter_conn child.now names.now) (map plain_conn conns.now)) }
{
    for conn in conns {
        known_parameter_conn(alloc, child, names, conn)?;
    }
    Ok(())
}

fn known_port_conns(
    alloc: Global,
    child: &Declarations,
    names: &Declarations,
    conns: &[Conn],
) -> Result<(), NameError>
    ensures { Judged name_told result (flat_map (unknown_port_conn child.now names.now) (map plain_conn conns.now)) }
{
    for conn in conns {
        known_port_conn(alloc, child, names, conn)?;
    }
    Ok(())
}

/// An instance in a module that declares `names`.
#[tactic(auto, unfolding(crate::specs::Unknown::unknown_instance))]
pub fn known_instance(
    alloc: Global,
    modules: &ModuleTable,
    names: &Declarations,
    instance: &Instance,
) -> Result<(), NameError>
    ensures { Judged name_told result (unknown_instance (value_of modules.now (plain_instance instance.now).module_id.name) names.now
        (plain_instance instance.now)) }
{
    match modules.get(instance.module_id.name.as_slice()) {
        None => {
            let name = copied(alloc, instance.module_id.name.as_slice())?;
            Err(NameError::Unknown { name })
        }
        Some(child) => {
            known_parameter_conns(alloc, child, names, instance.parameters.as_slice())?;
            known_port_conns(alloc, child, names, instance.ports.as_slice())
        }
    }
}
