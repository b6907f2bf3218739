//! The word on the nets of a wrapped design under feeds.

ghost use Rattle.std.specs.Prelude.{◌≡◌, ℕ};
ghost use Rattle.vlog_tree.specs.Tree.{FileOf};
ghost use Rattle.vlog_tree.specs.Plain.{plain};
ghost use Rattle.net_design.specs.declared.design.Design.{Design as OneDesign};
ghost use Rattle.shim_runs.specs.trace_model.declared.row.Row.{Row as OneRow};
ghost use Rattle.shim_runs.specs.trace_model.Channel.{IsTable};
ghost use Rattle.shim_runs.specs.chan_replayer.Feed.{IsFeedOver};
ghost use Rattle.shim_runs.specs.shim_cosim.Top.{IsWrapOf};

use crate::line_feeder::{LineFeeder, go_through};
use shim_runs::chan_map::Map;
use shim_runs::chan_replayer::ReplayShell;
use shim_runs::net_sim::Sim;
use shim_runs::run_stage::TwoRows;
use shim_runs::shim_cosim::{RerunShell, Rewrapped};
use shim_runs::vidi_io::{Shelf, Text};
use shim_runs::vidi_lines::Line;
use shim_runs::{Ended, Stage, lines_in, put_net, stage_in};
use std::alloc::Global;
use vlog_tree::File;

/// `fed_nets DESIGN MAP FEEDS NAME..`: the settled numbers of these nets of the wrapped design, by full name, in the last cycle under
/// these feeds. No cycle before it may have an unstable row.
pub(crate) fn fed_nets<S: Shelf>(
    alloc: Global,
    words: &[Text],
    shelf: &mut S,
) -> Result<Vec<u8>, Ended> {
    let [design, map, feeds, names @ ..] = words else {
        return Err(Ended::Usage);
    };
    let lines = lines_in(alloc, shelf, feeds.as_str())?;
    let Stage { map, wrapped, .. } = stage_in(alloc, shelf, design.as_str(), map.as_str())?;
    fed_lines(alloc, &wrapped, &map, lines.as_slice(), names)
}

/// `NAME NUMBER` for each net in the last cycle under these feeds.
fn fed_lines(
    alloc: Global,
    wrapped: &File,
    map: &Map,
    lines: &[Line],
    names: &[Text],
) -> Result<Vec<u8>, Ended>
    requires wrapped { (f : FileOf ℕ) × (d : OneDesign) × IsWrapOf (plain wrapped.now) f map.now d }
{
    let mut feeder = LineFeeder::new(alloc, map, lines)?;
    let mut shell = Rewrapped::new(alloc, wrapped, map)?;
    last_nets(alloc, &mut shell, map, &mut feeder, names)
}

/// `NAME NUMBER` for each net of a shell in the cycle of the last line, from a reset on.
fn last_nets(
    alloc: Global,
    shell: &mut Rewrapped,
    map: &Map,
    feeder: &mut LineFeeder,
    names: &[Text],
) -> Result<Vec<u8>, Ended>
    requires table { IsTable map.now.channels }
    requires mapped { ⟦<RerunShell<'static, Sim> as ReplayShell>⟧.map shell.old ≡ map.now }
    requires same { feeder.old.map.now ≡ map.now }
    requires fits { IsFeedOver map.now.channels feeder.old.feed }
{
    let mut rows = TwoRows::new(alloc, &map.channels)?;
    go_through(shell, map, feeder, &mut rows)?;
    shell.drive(&feeder.feed, &mut rows.row);
    nets_of(alloc, shell, names)
}

/// `NAME NUMBER` for each net.
fn nets_of(alloc: Global, shell: &Rewrapped, names: &[Text]) -> Result<Vec<u8>, Ended>
    requires { (row : OneRow) × ⟦<RerunShell<'static, Sim> as ReplayShell>⟧.driven shell.now row }
{
    let mut text = Vec::new(alloc);
    for name in names {
        put_net(alloc, &mut text, name, shell.net(name.as_str().as_bytes()))?;
    }
    Ok(text)
}
