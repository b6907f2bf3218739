//! The word on the nets of a recording.

ghost use Rattle.std.specs.Prelude.{◌≡◌, ◌<◌, ℕ};
ghost use Rattle.vlog_tree.specs.Tree.{FileOf};
ghost use Rattle.vlog_tree.specs.Plain.{plain};
ghost use Rattle.net_design.specs.declared.design.Design.{Design as OneDesign};
ghost use Rattle.shim_runs.specs.trace_model.Channel.{IsTable};
ghost use Rattle.shim_runs.specs.env_script.Fits.{FitsChannels};
ghost use Rattle.shim_runs.specs.shim_cosim.Top.{IsWrapOf};

use crate::watched::Watched;
use shim_runs::chan_map::Map;
use shim_runs::chan_monitor::Shell;
use shim_runs::shim_cosim::Wrapped;
use shim_runs::vidi_bits::{Items, Memory, Numbers};
use shim_runs::vidi_io::{MemSink, Shelf, Text};
use shim_runs::{Ended, Plan, Stage, cycles_of, plan_in, put_net, recorded, stage_in};
use std::alloc::Global;
use vlog_tree::File;

/// `nets DESIGN MAP SCRIPT STALLS CYCLE NAME..`: the settled numbers of these nets of the wrapped design, by full name, in this cycle of
/// the recording.
pub(crate) fn nets<S: Shelf>(
    alloc: Global,
    words: &[Text],
    shelf: &mut S,
) -> Result<Vec<u8>, Ended> {
    let [design, map, script, stalls, cycle, names @ ..] = words else {
        return Err(Ended::Usage);
    };
    let cycle = cycles_of(cycle)?;
    let Stage { map, wrapped, .. } = stage_in(alloc, shelf, design.as_str(), map.as_str())?;
    nets_under(alloc, shelf, &map, &wrapped, [script, stalls], cycle, names)
}

/// `NAME NUMBER` for each net in this cycle, under the script and the stalls of these files.
fn nets_under<S: Shelf>(
    alloc: Global,
    shelf: &mut S,
    map: &Map,
    wrapped: &File,
    plan: [&Text; 2],
    cycle: u32,
    names: &[Text],
) -> Result<Vec<u8>, Ended>
    requires wrapped { (f : FileOf ℕ) × (d : OneDesign) × IsWrapOf (plain wrapped.now) f map.now d }
{
    let [script, stalls] = plan;
    let plan = plan_in(alloc, shelf, map, script.as_str(), stalls.as_str())?;
    if cycle >= plan.script.cycles() {
        return Err(Ended::Usage);
    }
    nets_in(alloc, wrapped, map, &plan, cycle, names)
}

/// `NAME NUMBER` for each net in this cycle.
fn nets_in(
    alloc: Global,
    wrapped: &File,
    map: &Map,
    plan: &Plan,
    cycle: u32,
    names: &[Text],
) -> Result<Vec<u8>, Ended>
    requires wrapped { (f : FileOf ℕ) × (d : OneDesign) × IsWrapOf (plain wrapped.now) f map.now d }
    requires fits { FitsChannels map.now.channels plan.now.script }
    requires within { cycle < plan.now.script.cycles }
{
    let numbers = nothing_for(alloc, names)?;
    let shell = Wrapped::new(alloc, wrapped, map)?;
    let mut watched = Watched {
        shell,
        names,
        numbers,
        drives: 0,
    };
    watched_lines(alloc, &mut watched, map, plan, cycle)
}

/// `NAME NUMBER` for each net that is watched, in this cycle.
fn watched_lines(
    alloc: Global,
    watched: &mut Watched,
    map: &Map,
    plan: &Plan,
    cycle: u32,
) -> Result<Vec<u8>, Ended>
    requires table { IsTable map.now.channels }
    requires mapped { ⟦<Watched<'static> as Shell>⟧.map watched.old ≡ map.now }
    requires fits { FitsChannels map.now.channels plan.now.script }
    requires within { cycle < plan.now.script.cycles }
{
    let mut sink = MemSink::new(alloc, Numbers::new(alloc));
    recorded(alloc, watched, map, plan, cycle + 1, &mut sink)?;
    if watched.drives != cycle + 1 {
        return Err(Ended::Usage);
    }
    lines_of(alloc, watched.names, watched.numbers.as_slice())
}

/// A place for each number.
fn nothing_for(alloc: Global, names: &[Text]) -> Result<Items<Option<u128>>, Memory> {
    let mut numbers = Items::new(alloc);
    for _ in names {
        numbers.push(None)?;
    }
    Ok(numbers)
}

/// `NAME NUMBER` each, or `NAME none`
fn lines_of(alloc: Global, names: &[Text], numbers: &[Option<u128>]) -> Result<Vec<u8>, Ended> {
    let mut text = Vec::new(alloc);
    for (name, number) in names.iter().zip(numbers) {
        put_net(alloc, &mut text, name, *number)?;
    }
    Ok(text)
}
