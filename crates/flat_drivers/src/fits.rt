//! Whether nothing is found in connections: tests that always succeed where E4, E5 and E6 find nothing.

ghost use Rattle.std.specs.Prelude.{IsTrue, IfOk, Some, true, false, map};
ghost use Rattle.std.specs.List.{AllByRecursion};
ghost use Rattle.vlog_tree.specs.Plain.{plain_ident, plain_expr, plain_conn};
ghost use Rattle.flat_parts.specs.vlog_driver.Items.{target_of};
ghost use Rattle.flat_parts.specs.vlog_driver.Sites.{site_of};
ghost use Rattle.flat_parts.specs.vlog_driver.Duties.{IsFaultlessForm, IsFaultlessJoin, IsFaultlessConn};

use flat_parts::vidi_bits::Memory;
use flat_parts::vlog_driver::{Site, expr_fits, net_fits, read_fits, target_fits, target_form};
use flat_parts::vlog_names::{Declarations, is_output};
use std::alloc::Global;
use vlog_tree::{Conn, Expr, Ident};

/// Of the target that an expression has the form of, where it has one.
fn form_fits(alloc: Global, site: &Site<'_>, e: &Expr) -> Result<bool, Memory>
    ensures { IfOk result (λ b. IsTrue b → IsFaultlessForm (site_of site.now) (target_of (plain_expr e.now))) }
{
    match target_form(alloc, e)? {
        None => Ok(true),
        Some(target) => Ok(target_fits(site, &target)),
    }
}

fn input_fits(
    alloc: Global,
    parent: &Site<'_>,
    child: &Site<'_>,
    port: &Ident,
    e: &Expr,
) -> Result<bool, Memory>
    ensures { IfOk result (λ b. IsTrue b → IsFaultlessJoin false (site_of parent.now) (site_of child.now) (plain_ident port.now)
        (Some (plain_expr e.now))) }
{
    Ok(net_fits(alloc, child, port)? && expr_fits(parent, e))
}

fn output_fits(
    alloc: Global,
    parent: &Site<'_>,
    child: &Site<'_>,
    port: &Ident,
    e: &Expr,
) -> Result<bool, Memory>
    ensures { IfOk result (λ b. IsTrue b → IsFaultlessJoin true (site_of parent.now) (site_of child.now) (plain_ident port.now)
        (Some (plain_expr e.now))) }
{
    Ok(read_fits(alloc, child, port)? && form_fits(alloc, parent, e)?)
}

fn conn_fits(
    alloc: Global,
    parent: &Site<'_>,
    child: &Site<'_>,
    names: &Declarations,
    conn: &Conn,
) -> Result<bool, Memory>
    ensures { IfOk result (λ b. IsTrue b
        → IsFaultlessConn names.now (site_of parent.now) (site_of child.now) (plain_conn conn.now)) }
{
    match &conn.value {
        None => Ok(true),
        Some(e) => {
            if is_output(names, &conn.id) {
                return output_fits(alloc, parent, child, &conn.id, e);
            }
            input_fits(alloc, parent, child, &conn.id, e)
        }
    }
}

pub fn conns_fit(
    alloc: Global,
    parent: &Site<'_>,
    child: &Site<'_>,
    names: &Declarations,
    conns: &[Conn],
) -> Result<bool, Memory>
    ensures { IfOk result (λ b. IsTrue b
        → AllByRecursion (IsFaultlessConn names.now (site_of parent.now) (site_of child.now)) (map plain_conn conns.now)) }
{
    for conn in conns {
        if !conn_fits(alloc, parent, child, names, conn)? {
            return Ok(false);
        }
    }
    Ok(true)
}
