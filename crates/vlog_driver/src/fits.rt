//! Tests of what is made a driver that always succeed where E4, E5 and E6 find nothing.

ghost use Rattle.std.specs.Prelude.{IsTrue, IfOk};
ghost use Rattle.vlog_tree.specs.Plain.{plain_ident, plain_expr, plain_target, plain_named};
ghost use Rattle.vlog_block.specs.Faultless.{IsFaultless, IsFaultlessTarget};
ghost use Rattle.vlog_driver.specs.Items.{whole, read};
ghost use Rattle.vlog_driver.specs.Sites.{site_of};
ghost use Rattle.vlog_driver.specs.Duties.{IsFaultlessWire};

use crate::site::Site;
use crate::whole::{whole_read, whole_target};
use net_drive::vidi_bits::Memory;
use std::alloc::Global;
use vlog_block::vlog_size::{target_width, width};
use vlog_tree::{Expr, Ident, NamedValue, Target};

/// Whether nothing is found in an expression of an instance; it is so where E4, E5 and E6 find nothing.
pub fn expr_fits(site: &Site<'_>, e: &Expr) -> bool
    ensures { IsTrue result → IsFaultless (site_of site.now).names (plain_expr e.now) }
{
    match width(e, site.scope) {
        Ok(_) => true,
        Err(_) => false,
    }
}

/// The same of a target.
pub fn target_fits(site: &Site<'_>, target: &Target) -> bool
    ensures { IsTrue result → IsFaultlessTarget (site_of site.now).names (plain_target target.now) }
{
    match target_width(target, site.scope) {
        Ok(_) => true,
        Err(_) => false,
    }
}

/// The same of a whole net as a target.
///
/// # Errors
///
/// `Memory`.
pub fn net_fits(alloc: Global, site: &Site<'_>, id: &Ident) -> Result<bool, Memory>
    ensures { IfOk result (λ b. IsTrue b → IsFaultlessTarget (site_of site.now).names (whole (plain_ident id.now))) }
{
    let target = whole_target(alloc, id)?;
    Ok(target_fits(site, &target))
}

/// The same of a whole net as an expression.
///
/// # Errors
///
/// `Memory`.
pub fn read_fits(alloc: Global, site: &Site<'_>, id: &Ident) -> Result<bool, Memory>
    ensures { IfOk result (λ b. IsTrue b → IsFaultless (site_of site.now).names (read (plain_ident id.now))) }
{
    let value = whole_read(alloc, id)?;
    Ok(expr_fits(site, &value))
}

/// The same of a wire and its expression.
///
/// # Errors
///
/// `Memory`.
pub fn wire_fits(alloc: Global, site: &Site<'_>, wire: &NamedValue) -> Result<bool, Memory>
    ensures { IfOk result (λ b. IsTrue b → IsFaultlessWire (site_of site.now) (plain_named wire.now)) }
{
    Ok(net_fits(alloc, site, &wire.id)? && expr_fits(site, &wire.value))
}
