//! Connections of a wrong kind.

ghost use Rattle.std.specs.Prelude.{map, option_map};
ghost use Rattle.std.specs.List.{flat_map};
ghost use Rattle.vlog_tree.specs.Plain.{plain_conn, plain_expr, plain_instance};
ghost use Rattle.vlog_names.specs.vidi_bits.Findings.{Judged};
ghost use Rattle.vlog_names.specs.Told.{kind_told};
ghost use Rattle.vlog_names.specs.Uses.{in_parameter_conn, in_output, in_port_conn, in_connected, in_port_conns, in_instance};

use crate::declaration::{Declarations, ModuleTable};
use crate::kinds::error::KindError;
use crate::kinds::expressions::{check_expr, check_value, refuse_if};
use crate::kinds::targets::is_wire_target;
use crate::ports::is_output;
use vlog_tree::{Conn, Expr, Instance};

fn check_parameter_conns(names: &Declarations, conns: &[Conn]) -> Result<(), KindError>
    ensures { Judged kind_told result (flat_map (in_parameter_conn names.now) (map plain_conn conns.now)) }
{
    for conn in conns {
        refuse_if(conn.value.is_none(), conn.line)?;
        check_value(names, &conn.value)?;
    }
    Ok(())
}

/// A connection of a child's output, whose `.` stands on `line`.
fn check_output(names: &Declarations, line: u32, value: &Option<Expr>) -> Result<(), KindError>
    ensures { Judged kind_told result (in_output names.now line (option_map plain_expr value.now)) }
{
    match value {
        None => Ok(()),
        Some(e) => {
            refuse_if(!is_wire_target(names, e), line)?;
            check_expr(names, e)
        }
    }
}

fn check_port_conn(child: &Declarations, names: &Declarations, conn: &Conn) -> Result<(), KindError>
    ensures { Judged kind_told result (in_port_conn child.now names.now (plain_conn conn.now)) }
{
    if is_output(child, &conn.id) {
        return check_output(names, conn.line, &conn.value);
    }
    check_value(names, &conn.value)
}

fn check_child_ports(
    child: &Declarations,
    names: &Declarations,
    conns: &[Conn],
) -> Result<(), KindError>
    ensures { Judged kind_told result (flat_map (in_port_conn child.now names.now) (map plain_conn conns.now)) }
{
    for conn in conns {
        check_port_conn(child, names, conn)?;
    }
    Ok(())
}

fn check_connected(names: &Declarations, conns: &[Conn]) -> Result<(), KindError>
    ensures { Judged kind_told result (flat_map (in_connected names.now) (map plain_conn conns.now)) }
{
    for conn in conns {
        check_value(names, &conn.value)?;
    }
    Ok(())
}

/// An instance in a module that declares `names`.
pub fn check_instance(
    modules: &ModuleTable,
    names: &Declarations,
    instance: &Instance,
) -> Result<(), KindError>
    ensures { Judged kind_told result (in_instance modules.now names.now (plain_instance instance.now)) }
{
    check_parameter_conns(names, instance.parameters.as_slice())?;
    match modules.get(instance.module_id.name.as_slice()) {
        None => check_connected(names, instance.ports.as_slice()),
        Some(child) => check_child_ports(child, names, instance.ports.as_slice()),
    }
}
