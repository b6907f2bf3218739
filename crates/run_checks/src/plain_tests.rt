//! Rows of plain runs under scripts, with all masks: gates, valids, readies, starts and ends.

ghost use Rattle.std.specs.Prelude.{◌<◌, ◌^◌, length};
ghost use Rattle.bench_run.specs.run_model.Building.{PortsAreNets};
ghost use Rattle.bench_run.specs.run_model.MapOf.{IsMapOf};
ghost use Rattle.bench_run.specs.env_script.Fits.{FitsChannels};

use crate::sends::is_two_sends;
use bench_run::chan_map::Map;
use bench_run::env_script::{Script, ScriptEnv, read_script};
use bench_run::trace_model::{Channels, Row};
use bench_run::vidi_bits::Memory;
use bench_run::{PlainRun, Spot, run_plain};
use sample_designs::net_sim::Sim;
use sample_designs::{Sample, flick_channels, is_row, sample_stage, stage_channels};
use std::alloc::Global;

/// It isn't taken in row 1, so row 2 is unstable.
fn is_cut(run: &PlainRun) -> bool {
    let rows = run.rows.as_slice();
    let spot = Spot {
        channel: 0,
        cycle: 2,
    };
    run.unstable == Some(spot)
        && rows.len() == 2
        && is_row(&rows[0], [1, 0, 0, 0, 0], &[])
        && is_row(&rows[1], [1, 1, 0, 1, 0], &[])
}

/// It is taken in rows 1 and 3, so no row is unstable.
fn is_whole(run: &PlainRun) -> bool {
    let rows = run.rows.as_slice();
    run.unstable == None
        && rows.len() == 4
        && is_row(&rows[0], [1, 0, 1, 0, 0], &[])
        && is_row(&rows[1], [1, 1, 1, 1, 1], &[])
        && is_row(&rows[2], [1, 0, 1, 0, 0], &[])
        && is_row(&rows[3], [1, 1, 1, 1, 1], &[])
}

/// One row, in which nothing is up.
fn is_one_row(run: &PlainRun) -> bool {
    let rows = run.rows.as_slice();
    run.unstable == None && rows.len() == 1 && is_row(&rows[0], [1, 0, 0, 0, 0], &[])
}

/// A fresh row with these masks and contents.
fn is_fresh_row(row: &Row, masks: [u128; 5], contents: &[u128]) -> bool {
    row.fresh
        && [row.gates, row.valids, row.readies, row.starts, row.ends] == masks
        && row.contents.as_slice() == contents
}

/// `a` completes in rows 0 and 1: the reset between them empties the stage, which held 5. So `b` has 6 alone, in row 2.
fn is_reset_between(run: &PlainRun) -> bool {
    let rows = run.rows.as_slice();
    run.unstable == None
        && rows.len() == 4
        && is_row(&rows[0], [3, 1, 3, 1, 1], &[5, 0])
        && is_fresh_row(&rows[1], [3, 1, 3, 1, 1], &[6, 0])
        && is_row(&rows[2], [3, 2, 2, 2, 2], &[0, 6])
        && is_row(&rows[3], [3, 0, 3, 0, 0], &[0, 6])
}

/// In row 1 both channels start and none completes; the reset behind it aborts both. `a` starts again in the fresh row, and `b`, which waits
/// for 3 cycles since the first row, is taken in row 3.
fn is_reset_aborting(run: &PlainRun) -> bool {
    let rows = run.rows.as_slice();
    run.unstable == None
        && rows.len() == 4
        && is_row(&rows[0], [3, 1, 1, 1, 1], &[5, 0])
        && is_row(&rows[1], [3, 3, 0, 3, 0], &[6, 5])
        && is_fresh_row(&rows[2], [3, 1, 1, 1, 1], &[6, 0])
        && is_row(&rows[3], [3, 2, 2, 2, 2], &[0, 6])
}

/// A run that a test wants.
#[derive(Clone, Copy)]
enum Wanted {
    Cut,
    Whole,
    OneRow,
    TwoSends,
    ResetBetween,
    ResetAborting,
}

fn is_as(run: &PlainRun, wanted: Wanted) -> bool {
    match wanted {
        Wanted::Cut => is_cut(run),
        Wanted::Whole => is_whole(run),
        Wanted::OneRow => is_one_row(run),
        Wanted::TwoSends => run.unstable == None && is_two_sends(run.rows.as_slice()),
        Wanted::ResetBetween => is_reset_between(run),
        Wanted::ResetAborting => is_reset_aborting(run),
    }
}

/// Whether the run of a design under a script is as wanted.
fn runs_by(
    alloc: Global,
    sim: &mut Sim,
    map: &Map,
    script: &Script,
    wanted: Wanted,
) -> Result<bool, Memory>
    requires fits { FitsChannels map.now.channels script.now }
    requires nets { PortsAreNets sim.old.design }
    requires mapped { IsMapOf sim.old.design map.now }
{
    let mut env = ScriptEnv::new(alloc, script, map)?;
    let run = run_plain(alloc, sim, map, &mut env, script.resets(), script.cycles())?;
    Ok(is_as(&run, wanted))
}

/// The same under the script of a text.
fn runs_on(alloc: Global, sim: &mut Sim, map: &Map, text: &[u8], wanted: Wanted) -> bool
    requires text { length text.now < 2 ^ 31 }
    requires nets { PortsAreNets sim.old.design }
    requires mapped { IsMapOf sim.old.design map.now }
{
    match read_script(alloc, text, map) {
        Ok(script) => runs_by(alloc, sim, map, &script, wanted) == Ok(true),
        Err(_) => false,
    }
}

/// The same of a design that has these channels.
fn runs(alloc: Global, sample: Sample, channels: &Channels, text: &[u8], wanted: Wanted) -> bool
    requires { length text.now < 2 ^ 31 }
{
    match sample_stage(alloc, sample, channels) {
        Some(mut stage) => runs_on(alloc, &mut stage.sim, &stage.map, text, wanted),
        None => false,
    }
}

/// The same of `flick`, whose one channel is outward: its valid rises in row 1 and falls in row 2, whatever the ready is.
fn flick_runs(alloc: Global, text: &[u8], wanted: Wanted) -> bool
    requires { length text.now < 2 ^ 31 }
{
    match flick_channels(alloc) {
        Ok(channels) => runs(alloc, Sample::Flick, &channels, text, wanted),
        Err(_) => false,
    }
}

#[test]
fn flick_is_unstable(rt: HostRuntime) {
    assert!(rt; flick_runs(rt.alloc(), b"cycles 6\nb wait 10", Wanted::Cut));
}

#[test]
fn flick_is_taken(rt: HostRuntime) {
    assert!(rt; flick_runs(rt.alloc(), b"cycles 4\nb take all", Wanted::Whole));
}

#[test]
fn one_cycle(rt: HostRuntime) {
    assert!(rt; flick_runs(rt.alloc(), b"cycles 1", Wanted::OneRow));
}

/// The same of the register stage.
fn pass_runs(alloc: Global, text: &[u8], wanted: Wanted) -> bool
    requires { length text.now < 2 ^ 31 }
{
    match stage_channels(alloc) {
        Ok(channels) => runs(alloc, Sample::Pass, &channels, text, wanted),
        Err(_) => false,
    }
}

#[test]
fn two_sends_are_played(rt: HostRuntime) {
    let text = b"cycles 6\na send 5\na send 6\nb take all";
    assert!(rt; pass_runs(rt.alloc(), text, Wanted::TwoSends));
}

#[test]
fn a_reset_between_two_sends(rt: HostRuntime) {
    let text = b"cycles 4\na send 5\na send 6\nreset at 1\nb take all";
    assert!(rt; pass_runs(rt.alloc(), text, Wanted::ResetBetween));
}

#[test]
fn a_reset_aborts(rt: HostRuntime) {
    let text = b"cycles 4\na send 5\na send 6\nreset at 2\nb wait 3\nb take all";
    assert!(rt; pass_runs(rt.alloc(), text, Wanted::ResetAborting));
}
