//! The drivers and clocked blocks that an item adds.

ghost use Rattle.std.specs.Prelude.{◌≡◌, ◌≤◌, [], ◌∷◌, IfOk, OnOk, map};
ghost use Rattle.vlog_tree.specs.Plain.{plain_item, plain_always, plain_named, plain_assign};
ghost use Rattle.flat_parts.specs.vlog_hierarchy.Plain.{plain_path};
ghost use Rattle.flat_parts.specs.vidi_bits.Findings.{Judged};
ghost use Rattle.flat_parts.specs.vlog_elab.Told.{elab_told};
ghost use Rattle.flat_parts.specs.vlog_driver.Sites.{site_of};
ghost use Rattle.flat_parts.specs.vlog_driver.Duties.{DoMore, wire_duty, assign_duty, always_duties};
ghost use Rattle.net_design.specs.declared.act.Timing.TheVariants.{Nonblocking};
ghost use Rattle.flat_parts.specs.vlog_driver.Updates.{timing_of};
ghost use Rattle.flat_parts.specs.vlog_driver.Faultless.{IsFaultlessBody};
ghost use Rattle.flat_parts.specs.vlog_driver.Drivers.{IsClocked};
ghost use Rattle.flat_parts.specs.Drivers.{ClockedBlock, IsBlockOf, event_blocks, item_blocks};
ghost use Rattle.flat_drivers.specs.Latches.{of_block, always_latches, item_latches};
ghost use Rattle.flat_drivers.specs.Seated.{IsFlat, seats_in};
ghost use Rattle.flat_drivers.specs.Adding.{BlocksMore, duties_in, IsFaultlessItem};

use crate::child::{add_child, past_child};
use crate::flat::{Flat, FlatCode};
use flat_parts::vidi_bits::{Items, Memory, Name};
use flat_parts::vlog_driver::{
    BlockError, Site, add_always, add_assigns, add_wire, clocked_block, wire_fits,
};
use flat_parts::vlog_elab::ElabError;
use net_design::{Code, Driver};
use std::alloc::Global;
use vlog_tree::{Always, Assign, Event, Item, NamedValue};

fn add_fit_wire(
    alloc: Global,
    site: &Site<'_>,
    wire: &NamedValue,
    out: &mut Items<Driver>,
) -> Result<(), Memory>
    ensures { OnOk result (DoMore (wire_duty (site_of site.now) (plain_named wire.now) ∷ []) out.old out.new) }
{
    if !wire_fits(alloc, site, wire)? {
        return Err(Memory);
    }
    add_wire(alloc, site, wire, out)
}

fn add_wires(
    alloc: Global,
    site: &Site<'_>,
    wires: &[NamedValue],
    out: &mut Items<Driver>,
) -> Result<(), Memory>
    ensures { OnOk result (DoMore (map (wire_duty (site_of site.now)) (map plain_named wires.now)) out.old out.new) }
{
    for wire in wires {
        add_fit_wire(alloc, site, wire, out)?;
    }
    Ok(())
}

/// A finding in a block as the reason why the design text is refused.
fn block_error(error: BlockError) -> ElabError
    ensures { result ≡ of_block error }
{
    match error {
        BlockError::Latch { name, line } => ElabError::Latch { name, line },
        BlockError::Memory => ElabError::Memory,
    }
}

/// Adds the driver of an `always @*`.
#[tactic(auto, using(crate::proofs::Told::block_first, crate::proofs::Passed::none_map))]
fn add_settling(
    alloc: Global,
    site: &Site<'_>,
    block: &Always,
    out: &mut Items<Driver>,
) -> Result<(), ElabError>
    requires { IsFaultlessBody (site_of site.now).names (plain_always block.now).body }
    ensures told { Judged elab_told result (always_latches (site_of site.now).names (plain_always block.now)) }
    ensures drivers { OnOk result (DoMore (always_duties (site_of site.now) (plain_always block.now)) out.old out.new) }
{
    match add_always(alloc, site, block, out) {
        Ok(()) => Ok(()),
        Err(error) => Err(block_error(error)),
    }
}

/// Adds a clocked block.
fn push_block(out: &mut Items<Code>, code: Code) -> Result<(), Memory>
    ensures { OnOk result ((b : ClockedBlock) → IsBlockOf b code → BlocksMore (b ∷ []) out.old out.new) }
{
    out.push(code)
}

/// Adds a block where it is clocked.
fn add_clocked(
    alloc: Global,
    site: &Site<'_>,
    block: &Always,
    out: &mut Items<Code>,
) -> Result<(), Memory>
    requires { IsFaultlessBody (site_of site.now).names (plain_always block.now).body }
    ensures { OnOk result (BlocksMore (event_blocks (plain_always block.now).event (site_of site.now) (plain_always block.now))
        out.old out.new) }
{
    match &block.event {
        Event::Posedge(_) => {
            let code = clocked_block(alloc, site, block)?;
            push_block(out, code)
        }
        Event::Implicit { .. } => Ok(()),
    }
}

/// Adds the driver that an always block is, or its clocked block.
fn add_block(
    alloc: Global,
    site: &Site<'_>,
    block: &Always,
    out: &mut FlatCode,
) -> Result<(), ElabError>
    requires { IsFaultlessBody (site_of site.now).names (plain_always block.now).body }
    ensures told { Judged elab_told result (always_latches (site_of site.now).names (plain_always block.now)) }
    ensures drivers { OnOk result (DoMore (always_duties (site_of site.now) (plain_always block.now)) out.old.drivers out.new.drivers) }
    ensures blocks { OnOk result (BlocksMore (event_blocks (plain_always block.now).event (site_of site.now) (plain_always block.now))
        out.old.blocks out.new.blocks) }
{
    add_settling(alloc, site, block, &mut out.drivers)?;
    add_clocked(alloc, site, block, &mut out.blocks)?;
    Ok(())
}

/// Adds what an item of the instance of this path makes; an instance in it stands at this place of the list.
pub fn add_item<'b>(
    alloc: Global,
    flat: &Flat<'b, '_>,
    path: &[&Name],
    site: &Site<'b>,
    at: usize,
    item: &Item,
    out: &mut FlatCode,
) -> Result<(), ElabError>
    requires flat { IsFlat flat.now }
    requires faultless { IsFaultlessItem (site_of site.now) (plain_item item.now) }
    ensures told { Judged elab_told result (item_latches (site_of site.now).names (plain_item item.now)) }
    ensures drivers { OnOk result (DoMore (duties_in (seats_in flat.now) (plain_path path.now) (site_of site.now) (plain_item item.now))
        out.old.drivers out.new.drivers) }
    ensures blocks { OnOk result (BlocksMore (item_blocks (site_of site.now) (plain_item item.now)) out.old.blocks out.new.blocks) }
{
    match item {
        Item::DrivenWires { wires, .. } => {
            Ok(add_wires(alloc, site, wires.as_slice(), &mut out.drivers)?)
        }
        Item::Assign { assigns } => {
            Ok(add_assigns(alloc, site, assigns.as_slice(), &mut out.drivers)?)
        }
        Item::Always(block) => add_block(alloc, site, block, out),
        Item::Instance(instance) => {
            Ok(add_child(alloc, flat, path, site, at, instance, &mut out.drivers)?)
        }
        _ => Ok(()),
    }
}

/// The place of the next instance in the same one, where that of the first that isn't past an item is this.
pub fn past_item(flat: &Flat<'_, '_>, at: usize, item: &Item) -> usize
    ensures { at ≤ result }
{
    match item {
        Item::Instance(_) => past_child(flat, at),
        _ => at,
    }
}
