//! Wires' expressions and connections of ports, in which a whole net is named.

ghost use Rattle.std.specs.Prelude.{◌≡◌, [], ◌∷◌, Some, IfOk, OnOk, map};
ghost use Rattle.std.specs.List.{AllByRecursion};
ghost use Rattle.vlog_tree.specs.Plain.{plain_ident, plain_expr, plain_target, plain_named, plain_conn};
ghost use Rattle.vlog_block.specs.Faultless.{IsFaultless, IsFaultlessTarget};
ghost use Rattle.vlog_driver.specs.Items.{whole, read, target_of};
ghost use Rattle.vlog_driver.specs.Sites.{site_of};
ghost use Rattle.vlog_driver.specs.Duties.{DoMore, wire_duty, IsFaultlessWire, input_duties, output_duties};

use crate::assign::{assignment, push_driver};
use crate::site::Site;
use net_design::Driver;
use net_drive::vidi_bits::{Items, Memory, copied};
use std::alloc::Global;
use vlog_tree::{Conn, Expr, Ident, NamedValue, Operand, Ref, Target, Unary};

/// A whole net as a target.
pub fn whole_target(alloc: Global, id: &Ident) -> Result<Target, Memory>
    ensures { IfOk result (λ t. plain_target t ≡ whole (plain_ident id.now)) }
{
    let name = copied(alloc, id.name.as_slice())?;
    let line = id.line;
    Ok(Target::Ref(Ref {
        id: Ident { name, line },
        index: None,
        sel: None,
    }))
}

/// A whole net as an expression.
pub fn whole_read(alloc: Global, id: &Ident) -> Result<Expr, Memory>
    ensures { IfOk result (λ e. plain_expr e ≡ read (plain_ident id.now)) }
{
    let name = copied(alloc, id.name.as_slice())?;
    let line = id.line;
    Ok(Expr::Unary(Unary {
        sign: None,
        prim: Operand::Ref(Ref {
            id: Ident { name, line },
            index: None,
            sel: None,
        }),
    }))
}

/// Adds the driver of a wire's expression, on the line of the wire's name.
///
/// By condition nothing is wrong with the names, constants and widths in it.
///
/// # Errors
///
/// `Memory`, as for `assignment`.
pub fn add_wire(
    alloc: Global,
    site: &Site<'_>,
    wire: &NamedValue,
    out: &mut Items<Driver>,
) -> Result<(), Memory>
    requires { IsFaultlessWire (site_of site.now) (plain_named wire.now) }
    ensures { OnOk result (DoMore (wire_duty (site_of site.now) (plain_named wire.now) ∷ []) out.old out.new) }
{
    let target = whole_target(alloc, &wire.id)?;
    let driver = assignment(alloc, wire.id.line, site, &target, site, &wire.value)?;
    push_driver(out, driver)
}

/// Adds the driver of a child's input, on the line of its connection: it gets the number of the parent's expression
/// (IEEE 1364-2005, 12.3).
///
/// By condition nothing is wrong with the names, constants and widths in it.
///
/// # Errors
///
/// `Memory`, as for `assignment`.
pub fn add_input<'a>(
    alloc: Global,
    parent: &Site<'a>,
    child: &Site<'a>,
    conn: &Conn,
    e: &Expr,
    out: &mut Items<Driver>,
) -> Result<(), Memory>
    requires port { IsFaultlessTarget (site_of child.now).names (whole (plain_conn conn.now).id) }
    requires value { IsFaultless (site_of parent.now).names (plain_expr e.now) }
    ensures { OnOk result (DoMore (input_duties (site_of parent.now) (site_of child.now) (plain_conn conn.now).line
        (plain_conn conn.now).id (plain_expr e.now)) out.old out.new) }
{
    let target = whole_target(alloc, &conn.id)?;
    let driver = assignment(alloc, conn.line, child, &target, parent, e)?;
    push_driver(out, driver)
}

/// Adds the driver of the target that gets a child's output, on the line of its connection (IEEE 1364-2005, 12.3).
///
/// By condition it is the target that the connection's expression has the form of, and nothing is wrong with the names, constants
/// and widths in it.
///
/// # Errors
///
/// `Memory`, as for `assignment`.
pub fn add_output<'a>(
    alloc: Global,
    parent: &Site<'a>,
    child: &Site<'a>,
    conn: &Conn,
    target: &Target,
    out: &mut Items<Driver>,
) -> Result<(), Memory>
    requires port { IsFaultless (site_of child.now).names (read (plain_conn conn.now).id) }
    requires target { IsFaultlessTarget (site_of parent.now).names (plain_target target.now) }
    ensures { OnOk result (DoMore (output_duties (site_of parent.now) (site_of child.now) (plain_conn conn.now).line
        (plain_conn conn.now).id (Some (plain_target target.now))) out.old out.new) }
{
    let value = whole_read(alloc, &conn.id)?;
    let driver = assignment(alloc, conn.line, parent, target, child, &value)?;
    push_driver(out, driver)
}
