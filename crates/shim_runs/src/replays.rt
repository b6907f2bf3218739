//! The word on replays.

ghost use Rattle.std.specs.Prelude.{◌≡◌, ◌≤◌, ℕ, IfOk};
ghost use Rattle.vlog_tree.specs.Tree.{FileOf};
ghost use Rattle.vlog_tree.specs.Plain.{plain};
ghost use Rattle.net_design.specs.declared.design.Design.{Design as OneDesign};
ghost use Rattle.shim_cosim.specs.trace_model.declared.trace.Trace.{Trace as OneTrace};
ghost use Rattle.shim_cosim.specs.trace_model.declared.packet.TheConstants.{MOST_CYCLES};
ghost use Rattle.shim_cosim.specs.trace_code.Encoding.{Encodes};
ghost use Rattle.shim_cosim.specs.run_model.Building.{PortsAreNets};
ghost use Rattle.shim_cosim.specs.run_model.MapOf.{IsMapOf};
ghost use Rattle.shim_cosim.specs.Top.{IsWrapOf};

use crate::ended::Ended;
use crate::outcomes::put_outcome;
use crate::stages::{Stage, stage_in};
use crate::texts::{bytes_in, cycles_of, put_bytes};
use net_design::Block;
use report_text::put;
use report_text::vidi_io::{Shelf, Text};
use shim_cosim::Rewrapped;
use shim_cosim::chan_map::Map;
use shim_cosim::chan_replayer::{ReplayMachines, ReplayShell};
use shim_cosim::trace_code::decode;
use shim_cosim::trace_model::{Trace, same_channels};
use std::alloc::Global;
use vlog_tree::File;

/// `replay DESIGN MAP TRACE CYCLES`: two lines, how the replay ends and the bytes of its trace: by replayers and monitors round the
/// design, and by the wrapped design.
pub fn replay<S: Shelf>(alloc: Global, words: &[Text], shelf: &mut S) -> Result<Vec<u8>, Ended> {
    let [design, map, trace, cycles] = words else {
        return Err(Ended::Usage);
    };
    let cycles = cycles_of(cycles)?;
    let Stage { sim, map, wrapped } = stage_in(alloc, shelf, design.as_str(), map.as_str())?;
    both_replays(alloc, shelf, sim, &map, &wrapped, trace, cycles)
}

/// Both lines of a replay of the trace of this file.
fn both_replays<S: Shelf, B: Block + Drop>(
    alloc: Global,
    shelf: &mut S,
    block: B,
    map: &Map,
    wrapped: &File,
    trace: &Text,
    cycles: u32,
) -> Result<Vec<u8>, Ended>
    requires nets { PortsAreNets (B.design block) }
    requires mapped { IsMapOf (B.design block) map.now }
    requires wrapped { (f : FileOf ℕ) × (d : OneDesign) × IsWrapOf (plain wrapped.now) f map.now d }
    requires few { cycles ≤ MOST_CYCLES }
{
    let bytes = bytes_in(alloc, shelf, trace.as_str())?;
    let _trace = trace_over(alloc, bytes.as_slice(), map)?;
    let mut text = Vec::new(alloc);
    by_machines(alloc, &mut text, block, map, bytes.as_slice(), cycles)?;
    by_wrapped(alloc, &mut text, wrapped, map, bytes.as_slice(), cycles)?;
    Ok(text)
}

/// The trace of these bytes, which has the channels of the map.
fn trace_over(alloc: Global, bytes: &[u8], map: &Map) -> Result<Trace, Ended>
    ensures encodes { IfOk result (λ trace. Encodes trace bytes.now) }
    ensures same { IfOk result (λ trace. trace.channels ≡ map.now.channels) }
{
    let trace = trace_of(alloc, bytes)?;
    match same_channels(&trace.channels, &map.channels) {
        None => Ok(trace),
        Some(_) => Err(Ended::Usage),
    }
}

/// The trace of these bytes.
fn trace_of(alloc: Global, bytes: &[u8]) -> Result<Trace, Ended>
    ensures { IfOk result (λ trace. Encodes trace bytes.now) }
{
    match decode(alloc, bytes) {
        Ok(trace) => Ok(trace),
        Err(error) => Err(Ended::from(error)),
    }
}

/// The line of replayers and monitors round a design.
fn by_machines<B: Block + Drop>(
    alloc: Global,
    text: &mut Vec<u8>,
    block: B,
    map: &Map,
    bytes: &[u8],
    cycles: u32,
) -> Result<(), Ended>
    requires nets { PortsAreNets (B.design block) }
    requires mapped { IsMapOf (B.design block) map.now }
    requires trace { (t : OneTrace) × Encodes t bytes.now × (t.channels ≡ map.now.channels) }
    requires few { cycles ≤ MOST_CYCLES }
{
    put(text, b"machines ")?;
    let mut shell = ReplayMachines::new(alloc, block, map)?;
    put_replay(alloc, text, &mut shell, map, bytes, cycles)
}

/// The line of a wrapped design.
fn by_wrapped(
    alloc: Global,
    text: &mut Vec<u8>,
    wrapped: &File,
    map: &Map,
    bytes: &[u8],
    cycles: u32,
) -> Result<(), Ended>
    requires wrapped { (f : FileOf ℕ) × (d : OneDesign) × IsWrapOf (plain wrapped.now) f map.now d }
    requires trace { (t : OneTrace) × Encodes t bytes.now × (t.channels ≡ map.now.channels) }
    requires few { cycles ≤ MOST_CYCLES }
{
    put(text, b"wrapped ")?;
    let mut shell = Rewrapped::new(alloc, wrapped, map)?;
    put_replay(alloc, text, &mut shell, map, bytes, cycles)
}

/// How the replay of these bytes by a shell ends, and the bytes of its trace.
fn put_replay<S: ReplayShell>(
    alloc: Global,
    text: &mut Vec<u8>,
    shell: &mut S,
    map: &Map,
    bytes: &[u8],
    cycles: u32,
) -> Result<(), Ended>
    requires mapped { S.map shell.old ≡ map.now }
    requires trace { (t : OneTrace) × Encodes t bytes.now × (t.channels ≡ map.now.channels) }
    requires few { cycles ≤ MOST_CYCLES }
{
    let replayed = shim_cosim::replay_run::replay(alloc, shell, map, bytes, cycles)?;
    put_outcome(text, &replayed.outcome)?;
    put_bytes(alloc, text, replayed.out.as_slice())
}
