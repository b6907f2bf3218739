//! The words on rows: a wrapped design beside monitors or replayers round the design itself, or round another one.

ghost use Rattle.std.specs.Prelude.{◌≡◌, ◌≤◌, ℕ};
ghost use Rattle.vlog_tree.specs.Tree.{FileOf};
ghost use Rattle.vlog_tree.specs.Plain.{plain};
ghost use Rattle.net_design.specs.declared.design.Design.{Design as OneDesign};
ghost use Rattle.shim_runs.specs.trace_model.declared.packet.TheConstants.{MOST_CYCLES};
ghost use Rattle.shim_runs.specs.run_model.Building.{PortsAreNets};
ghost use Rattle.shim_runs.specs.run_model.MapOf.{IsMapOf};
ghost use Rattle.shim_runs.specs.shim_cosim.Top.{IsWrapOf};

use crate::alike::{Around, Course, course_of, other_of, said};
use crate::beside::differ_at;
use net_design::Block;
use shim_runs::chan_map::Map;
use shim_runs::chan_monitor::Machines;
use shim_runs::chan_replayer::{Feed, ReplayMachines};
use shim_runs::run_stage::Gated;
use shim_runs::shim_cosim::{Rewrapped, Wrapped};
use shim_runs::trace_model::same_channels;
use shim_runs::vidi_io::{Shelf, Text};
use shim_runs::{Ended, Stage, stage_in};
use std::alloc::Global;

/// `rows DESIGN MAP SEED CYCLES [OTHER]`: whether the wrapped design, or that of another file, has the rows of monitors round the design,
/// under offers and gates that are drawn; and `fed_rows` with the same words: whether it has those of replayers, under feeds that are.
pub(crate) fn rows<S: Shelf>(
    alloc: Global,
    around: Around,
    words: &[Text],
    shelf: &mut S,
) -> Result<Vec<u8>, Ended> {
    let [design, map, seed, cycles, rest @ ..] = words else {
        return Err(Ended::Usage);
    };
    let other = other_of(design, rest)?;
    let course = course_of(around, seed, cycles)?;
    let other = stage_in(alloc, shelf, other.as_str(), map.as_str())?;
    said_round(alloc, shelf, [design, map], &other, course)
}

/// What is said of the design of a file with a map, and of the wrapped design of another stage.
fn said_round<S: Shelf>(
    alloc: Global,
    shelf: &mut S,
    files: [&Text; 2],
    other: &Stage,
    course: Course,
) -> Result<Vec<u8>, Ended>
    requires few { course.cycles ≤ MOST_CYCLES }
    requires wrapped { (f : FileOf ℕ) × (d : OneDesign) × IsWrapOf (plain other.now.wrapped) f other.now.map d }
{
    let [design, map] = files;
    let Stage { sim, map, .. } = stage_in(alloc, shelf, design.as_str(), map.as_str())?;
    said_of(alloc, sim, &map, other, course)
}

/// What is said of a design and of the wrapped design of another stage, where that has the same channels.
fn said_of<B: Block + Drop>(
    alloc: Global,
    block: B,
    map: &Map,
    other: &Stage,
    course: Course,
) -> Result<Vec<u8>, Ended>
    requires few { course.cycles ≤ MOST_CYCLES }
    requires nets { PortsAreNets (B.design block) }
    requires mapped { IsMapOf (B.design block) map.now }
    requires wrapped { (f : FileOf ℕ) × (d : OneDesign) × IsWrapOf (plain other.now.wrapped) f other.now.map d }
{
    match same_channels(&map.channels, &other.map.channels) {
        None => {
            let differ = differ_of(alloc, block, map, other, course)?;
            said(alloc, course.cycles, differ)
        }
        Some(_) => Err(Ended::Usage),
    }
}

/// The first cycle in which a design and the wrapped design of another stage of the same channels have different rows.
fn differ_of<B: Block + Drop>(
    alloc: Global,
    block: B,
    map: &Map,
    other: &Stage,
    course: Course,
) -> Result<Option<u32>, Ended>
    requires few { course.cycles ≤ MOST_CYCLES }
    requires nets { PortsAreNets (B.design block) }
    requires mapped { IsMapOf (B.design block) map.now }
    requires wrapped { (f : FileOf ℕ) × (d : OneDesign) × IsWrapOf (plain other.now.wrapped) f other.now.map d }
    requires same { map.now.channels ≡ other.now.map.channels }
{
    let channels = &map.channels;
    match course.around {
        Around::Monitors => {
            let mut one = Machines::new(alloc, block, map)?;
            let mut round = Wrapped::new(alloc, &other.wrapped, &other.map)?;
            let differ = differ_at::<Gated, _, _>(alloc, &mut one, &mut round, channels, course)?;
            Ok(differ)
        }
        Around::Replayers => {
            let mut one = ReplayMachines::new(alloc, block, map)?;
            let mut round = Rewrapped::new(alloc, &other.wrapped, &other.map)?;
            let differ = differ_at::<Feed, _, _>(alloc, &mut one, &mut round, channels, course)?;
            Ok(differ)
        }
    }
}
