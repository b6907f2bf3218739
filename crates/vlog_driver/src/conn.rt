//! Connections of an instance's ports as drivers.

ghost use Rattle.std.specs.Prelude.{OnOk, map};
ghost use Rattle.std.specs.List.{AllByRecursion, flat_map};
ghost use Rattle.vlog_tree.specs.Plain.{plain_expr, plain_conn};
ghost use Rattle.vlog_block.specs.Faultless.{IsFaultless};
ghost use Rattle.vlog_driver.specs.Items.{read, target_of};
ghost use Rattle.vlog_driver.specs.Sites.{site_of};
ghost use Rattle.vlog_driver.specs.Duties.{DoMore, output_duties, conn_duties, IsFaultlessForm, IsFaultlessConn};

use crate::copy::target_form;
use crate::site::Site;
use crate::whole::{add_input, add_output};
use net_design::Driver;
use net_drive::vidi_bits::{Items, Memory};
use std::alloc::Global;
use vlog_names::{Declarations, is_output};
use vlog_tree::{Conn, Expr};

/// Adds the driver of the target that gets a child's output.
fn add_from_port<'a>(
    alloc: Global,
    parent: &Site<'a>,
    child: &Site<'a>,
    conn: &Conn,
    e: &Expr,
    out: &mut Items<Driver>,
) -> Result<(), Memory>
    requires port { IsFaultless (site_of child.now).names (read (plain_conn conn.now).id) }
    requires target { IsFaultlessForm (site_of parent.now) (target_of (plain_expr e.now)) }
    ensures { OnOk result (DoMore (output_duties (site_of parent.now) (site_of child.now) (plain_conn conn.now).line
        (plain_conn conn.now).id (target_of (plain_expr e.now))) out.old out.new) }
{
    match target_form(alloc, e)? {
        None => Ok(()),
        Some(target) => add_output(alloc, parent, child, conn, &target, out),
    }
}

/// Adds the driver of a connection, on the connection's line; an empty one makes none.
fn add_conn<'a>(
    alloc: Global,
    parent: &Site<'a>,
    child: &Site<'a>,
    names: &Declarations,
    conn: &Conn,
    out: &mut Items<Driver>,
) -> Result<(), Memory>
    requires { IsFaultlessConn names.now (site_of parent.now) (site_of child.now) (plain_conn conn.now) }
    ensures { OnOk result (DoMore (conn_duties names.now (site_of parent.now) (site_of child.now) (plain_conn conn.now)) out.old out.new) }
{
    match &conn.value {
        None => Ok(()),
        Some(e) => {
            if is_output(names, &conn.id) {
                return add_from_port(alloc, parent, child, conn, e, out);
            }
            add_input(alloc, parent, child, conn, e, out)
        }
    }
}

/// Adds the drivers of the connections of a child's ports (IEEE 1364-2005, 12.3), where the child's module declares these names.
///
/// By condition nothing is wrong with the names, constants and widths in the connections.
///
/// # Errors
///
/// `Memory`, as for `assignment`.
pub fn add_conns<'a>(
    alloc: Global,
    parent: &Site<'a>,
    child: &Site<'a>,
    names: &Declarations,
    conns: &[Conn],
    out: &mut Items<Driver>,
) -> Result<(), Memory>
    requires { AllByRecursion (IsFaultlessConn names.now (site_of parent.now) (site_of child.now)) (map plain_conn conns.now) }
    ensures { OnOk result (DoMore (flat_map (conn_duties names.now (site_of parent.now) (site_of child.now)) (map plain_conn conns.now))
        out.old out.new) }
{
    for conn in conns {
        add_conn(alloc, parent, child, names, conn, out)?;
    }
    Ok(())
}
