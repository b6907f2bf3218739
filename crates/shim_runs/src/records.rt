//! The word on recordings.

ghost use Rattle.std.specs.Prelude.{◌≡◌, ℕ};
ghost use Rattle.vlog_tree.specs.Tree.{FileOf};
ghost use Rattle.vlog_tree.specs.Plain.{plain};
ghost use Rattle.net_design.specs.declared.design.Design.{Design as OneDesign};
ghost use Rattle.shim_cosim.specs.trace_model.Channel.{IsTable};
ghost use Rattle.shim_cosim.specs.run_model.Building.{PortsAreNets};
ghost use Rattle.shim_cosim.specs.run_model.MapOf.{IsMapOf};
ghost use Rattle.shim_cosim.specs.env_script.Fits.{FitsChannels};
ghost use Rattle.shim_cosim.specs.Top.{IsWrapOf};

use crate::ended::Ended;
use crate::plans::{Plan, plan_in, recorded};
use crate::stages::{Stage, stage_in};
use crate::texts::put_bytes;
use net_design::Block;
use report_text::vidi_io::{MemSink, Shelf, Text};
use report_text::{put, put_number};
use shim_cosim::Wrapped;
use shim_cosim::chan_map::Map;
use shim_cosim::chan_monitor::{Machines, Shell};
use shim_cosim::vidi_recorder::Outcome;
use std::alloc::Global;
use vlog_parse::vidi_bits::{Memory, Numbers};
use vlog_tree::File;

/// `record DESIGN MAP SCRIPT STALLS`: two lines, how the recording ends and its bytes: by monitors round the design, and by the wrapped
/// design.
pub fn record<S: Shelf>(alloc: Global, words: &[Text], shelf: &mut S) -> Result<Vec<u8>, Ended> {
    let [design, map, script, stalls] = words else {
        return Err(Ended::Usage);
    };
    let Stage { sim, map, wrapped } = stage_in(alloc, shelf, design.as_str(), map.as_str())?;
    both_recordings(alloc, shelf, sim, &map, &wrapped, [script, stalls])
}

/// Both lines of a recording under the script and the stalls of these files.
fn both_recordings<S: Shelf, B: Block + Drop>(
    alloc: Global,
    shelf: &mut S,
    block: B,
    map: &Map,
    wrapped: &File,
    plan: [&Text; 2],
) -> Result<Vec<u8>, Ended>
    requires nets { PortsAreNets (B.design block) }
    requires mapped { IsMapOf (B.design block) map.now }
    requires wrapped { (f : FileOf ℕ) × (d : OneDesign) × IsWrapOf (plain wrapped.now) f map.now d }
{
    let [script, stalls] = plan;
    let plan = plan_in(alloc, shelf, map, script.as_str(), stalls.as_str())?;
    let mut text = Vec::new(alloc);
    by_machines(alloc, &mut text, block, map, &plan)?;
    by_wrapped(alloc, &mut text, wrapped, map, &plan)?;
    Ok(text)
}

/// The line of monitors round a design.
fn by_machines<B: Block + Drop>(
    alloc: Global,
    text: &mut Vec<u8>,
    block: B,
    map: &Map,
    plan: &Plan,
) -> Result<(), Ended>
    requires nets { PortsAreNets (B.design block) }
    requires mapped { IsMapOf (B.design block) map.now }
    requires fits { FitsChannels map.now.channels plan.now.script }
{
    put(text, b"machines ")?;
    let mut shell = Machines::new(alloc, block, map)?;
    put_recording(alloc, text, &mut shell, map, plan)
}

/// The line of a wrapped design.
fn by_wrapped(
    alloc: Global,
    text: &mut Vec<u8>,
    wrapped: &File,
    map: &Map,
    plan: &Plan,
) -> Result<(), Ended>
    requires wrapped { (f : FileOf ℕ) × (d : OneDesign) × IsWrapOf (plain wrapped.now) f map.now d }
    requires fits { FitsChannels map.now.channels plan.now.script }
{
    put(text, b"wrapped ")?;
    let mut shell = Wrapped::new(alloc, wrapped, map)?;
    put_recording(alloc, text, &mut shell, map, plan)
}

/// How the recording of a shell ends, and its bytes.
fn put_recording<S: Shell>(
    alloc: Global,
    text: &mut Vec<u8>,
    shell: &mut S,
    map: &Map,
    plan: &Plan,
) -> Result<(), Ended>
    requires table { IsTable map.now.channels }
    requires mapped { S.map shell.old ≡ map.now }
    requires fits { FitsChannels map.now.channels plan.now.script }
{
    let mut sink = MemSink::new(alloc, Numbers::new(alloc));
    let outcome = recorded(alloc, shell, map, plan, plan.script.cycles(), &mut sink)?;
    put_outcome(text, &outcome)?;
    put_bytes(alloc, text, sink.bytes())
}

/// `whole PACKETS `, or `unstable CHANNEL CYCLE PACKETS `
fn put_outcome(text: &mut Vec<u8>, outcome: &Outcome) -> Result<(), Memory> {
    let packets = match outcome {
        Outcome::Whole { packets } => {
            put(text, b"whole ")?;
            *packets
        }
        Outcome::Unstable {
            channel,
            cycle,
            packets,
        } => {
            put(text, b"unstable ")?;
            put_number(text, *channel)?;
            put(text, b" ")?;
            put_number(text, *cycle)?;
            put(text, b" ")?;
            *packets
        }
    };
    put_number(text, packets)?;
    put(text, b" ")
}
