//! Assignments and wires' expressions as drivers.

ghost use Rattle.std.specs.Prelude.{◌≡◌, false, [], ◌∷◌, IfOk, OnOk, map};
ghost use Rattle.std.specs.List.{AllByRecursion};
ghost use Rattle.vlog_tree.specs.Plain.{plain_expr, plain_target, plain_assign};
ghost use Rattle.net_design.specs.declared.act.Act.{Set};
ghost use Rattle.net_design.specs.declared.act.Timing.TheVariants as timing;
ghost use Rattle.net_design.specs.Bits.{HasBits};
ghost use Rattle.vlog_block.specs.Faultless.{IsFaultless, IsFaultlessTarget};
ghost use Rattle.vlog_driver.specs.Sites.{site_of};
ghost use Rattle.vlog_driver.specs.Drivers.{IsAssignment};
ghost use Rattle.vlog_driver.specs.Duties.{Duty, DoMore, Does, assign_duty, IsFaultlessAssign};

use crate::placed::{own_target_width, own_width, placed_target, placed_value};
use crate::site::Site;
use net_design::{Act, Driver, Lhs, Rhs, Timing};
use net_drive::net_code::{code_of, is_sized_block};
use net_drive::vidi_bits::{Items, Memory};
use std::alloc::Global;
use vlog_tree::{Assign, Expr, Target, target_line};

/// A driver that is one assignment.
fn set_driver(alloc: Global, line: u32, target: Lhs, value: Rhs) -> Result<Driver, Memory>
    ensures line { IfOk result (λ d. d.line ≡ line) }
    ensures always { IfOk result (λ d. d.always ≡ false) }
    ensures acts { IfOk result (λ d. d.code.acts ≡ Set target value ∷ []) }
    ensures bits { IfOk result (λ d. HasBits timing.Blocking d.code) }
{
    let mut acts = Items::new(alloc);
    acts.push(Act::Set { target, value })?;
    if !is_sized_block(&acts) {
        return Err(Memory);
    }
    let code = code_of(alloc, Timing::Blocking, acts)?;
    Ok(Driver {
        line,
        always: false,
        code,
    })
}

/// The driver that gives a target of the instance `to` the number of an expression of the instance `from`, at the larger of both
/// widths (IEEE 1364-2005, 5.4.1 and 6.1).
///
/// By condition nothing is wrong with the names, constants and widths in target and expression.
///
/// # Errors
///
/// `Memory`: there isn't enough memory, or the nets or words can't be counted in 32 bits.
pub fn assignment<'a>(
    alloc: Global,
    line: u32,
    to: &Site<'a>,
    target: &Target,
    from: &Site<'a>,
    e: &Expr,
) -> Result<Driver, Memory>
    requires target { IsFaultlessTarget (site_of to.now).names (plain_target target.now) }
    requires value { IsFaultless (site_of «from».now).names (plain_expr e.now) }
    ensures { IfOk result (IsAssignment line (site_of to.now) (plain_target target.now) (site_of «from».now) (plain_expr e.now)) }
{
    let own = own_width(from, e);
    let w = own_target_width(to, target).max(own);
    let value = placed_value(alloc, from, e, w)?;
    let places = placed_target(alloc, to, target)?;
    set_driver(alloc, line, places, value)
}

/// Adds a driver that does this.
pub fn push_driver(out: &mut Items<Driver>, driver: Driver) -> Result<(), Memory>
    ensures { OnOk result ((x : Duty) → Does x driver → DoMore (x ∷ []) out.old out.new) }
{
    out.push(driver)
}

/// Adds the driver of an assignment.
fn add_assign(
    alloc: Global,
    site: &Site<'_>,
    a: &Assign,
    out: &mut Items<Driver>,
) -> Result<(), Memory>
    requires { IsFaultlessAssign (site_of site.now) (plain_assign a.now) }
    ensures { OnOk result (DoMore (assign_duty (site_of site.now) (plain_assign a.now) ∷ []) out.old out.new) }
{
    let line = target_line(&a.target);
    let driver = assignment(alloc, line, site, &a.target, site, &a.value)?;
    push_driver(out, driver)
}

/// Adds the drivers of an `assign`, on the lines of their targets.
///
/// # Errors
///
/// `Memory`, as for `assignment`.
pub fn add_assigns(
    alloc: Global,
    site: &Site<'_>,
    assigns: &[Assign],
    out: &mut Items<Driver>,
) -> Result<(), Memory>
    requires { AllByRecursion (IsFaultlessAssign (site_of site.now)) (map plain_assign assigns.now) }
    ensures { OnOk result (DoMore (map (assign_duty (site_of site.now)) (map plain_assign assigns.now)) out.old out.new) }
{
    for a in assigns {
        add_assign(alloc, site, a, out)?;
    }
    Ok(())
}
