//! Always blocks as drivers and clocked blocks.

ghost use Rattle.std.specs.Prelude.{◌≡◌, [], ◌∷◌, IfOk, OnOk};
ghost use Rattle.vlog_tree.specs.Plain.{plain_always};
ghost use Rattle.net_design.specs.declared.act.Timing.TheVariants.{Blocking, Nonblocking};
ghost use Rattle.vlog_block.specs.Faultless.{IsFaultlessBody};
ghost use Rattle.vlog_block.specs.Updates.{timing_of};
ghost use Rattle.net_drive.specs.vidi_bits.Findings.{Judged};
ghost use Rattle.vlog_driver.specs.Told.{block_told};
ghost use Rattle.vlog_driver.specs.Blocks.{block_latches};
ghost use Rattle.vlog_driver.specs.Sites.{site_of};
ghost use Rattle.vlog_driver.specs.Drivers.{IsSettling, IsClocked};
ghost use Rattle.vlog_driver.specs.Duties.{DoMore, always_duties};

use crate::assign::push_driver;
use crate::latches::BlockError;
use crate::placed::placed_block;
use crate::site::Site;
use net_design::{Code, Driver};
use net_drive::vidi_bits::{Items, Memory};
use std::alloc::Global;
use vlog_tree::{Always, Event};

/// The driver that an `always @*` is, on the line of `always`.
fn always_driver(alloc: Global, site: &Site<'_>, block: &Always) -> Result<Driver, BlockError>
    requires faultless { IsFaultlessBody (site_of site.now).names (plain_always block.now).body }
    requires implicit { timing_of (plain_always block.now).event ≡ Blocking }
    ensures latch { Judged block_told result (block_latches (site_of site.now).names (plain_always block.now)) }
    ensures driver { IfOk result (IsSettling (site_of site.now) (plain_always block.now)) }
{
    let code = placed_block(alloc, site, block)?;
    Ok(Driver {
        line: block.line,
        always: true,
        code,
    })
}

/// Adds the driver of an `always @*`; a clocked block makes none (IEEE 1364-2005, 9.7.5).
///
/// By condition nothing is wrong with the names, constants and widths in the block.
///
/// # Errors
///
/// `Latch`, with the line of `always` and the net declared first of those at which E9 holds, exactly where it holds at one. `Memory`:
/// there isn't enough memory, or nets or words can't be counted in 32 bits, or more than 2,048 statements stand within one another.
pub fn add_always(
    alloc: Global,
    site: &Site<'_>,
    block: &Always,
    out: &mut Items<Driver>,
) -> Result<(), BlockError>
    requires { IsFaultlessBody (site_of site.now).names (plain_always block.now).body }
    ensures latch { Judged block_told result (block_latches (site_of site.now).names (plain_always block.now)) }
    ensures driver { OnOk result (DoMore (always_duties (site_of site.now) (plain_always block.now)) out.old out.new) }
{
    match &block.event {
        Event::Posedge(_) => Ok(()),
        Event::Implicit { .. } => {
            let driver = always_driver(alloc, site, block)?;
            push_driver(out, driver)?;
            Ok(())
        }
    }
}

/// A clocked block in the flat design (IEEE 1364-2005, 9.2.2 and 9.9.2): its updates are those of the text, at the instance's places.
///
/// By condition the block is clocked, and nothing is wrong with the names, constants and widths in it.
///
/// # Errors
///
/// `Memory`: there isn't enough memory, or nets or words can't be counted in 32 bits, or more than 2,048 statements stand within one
/// another.
pub fn clocked_block(alloc: Global, site: &Site<'_>, block: &Always) -> Result<Code, Memory>
    requires faultless { IsFaultlessBody (site_of site.now).names (plain_always block.now).body }
    requires clocked { timing_of (plain_always block.now).event ≡ Nonblocking }
    ensures { IfOk result (IsClocked (site_of site.now) (plain_always block.now)) }
{
    match placed_block(alloc, site, block) {
        Ok(code) => Ok(code),
        Err(BlockError::Latch { .. }) => unreachable!(),
        Err(BlockError::Memory) => Err(Memory),
    }
}
