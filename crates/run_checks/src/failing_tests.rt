//! Recordings whose push fails: the run goes on while its bytes drain, so the environment stands for no row where the first push fails.

ghost use Rattle.std.specs.Prelude.{◌≡◌, ◌<◌, length};
ghost use Rattle.bench_run.specs.trace_model.Channel.{IsTable};
ghost use Rattle.bench_run.specs.env_script.Fits.{FitsChannels};
ghost use Rattle.bench_run.specs.run_model.Building.{PortsAreNets};
ghost use Rattle.bench_run.specs.run_model.MapOf.{IsMapOf};

use bench_run::chan_map::Map;
use bench_run::chan_monitor::{Machines, Shell};
use bench_run::env_script::{Env, Script, ScriptEnv, Stalls, read_script, read_stalls};
use bench_run::vidi_bits::Numbers;
use sample_designs::net_sim::Sim;
use sample_designs::{Sample, Stage, two_channel_stage};
use std::alloc::Global;
use vidi_recorder::room_ledger::Room;
use vidi_recorder::vidi_io::MemSink;
use vidi_recorder::{RecordError, record_run};

/// Two contents are offered, the first one from row 1 on. The register stage takes that one, and then no more.
const TWO_SENDS: &[u8; 35] = b"cycles 6\na wait 1\na send 5\na send 6";

/// A store that drains whole after each row.
const ALL_DRAINS: &[u8; 11] = b"capacity 28";

/// Whether a content is offered on the first channel after a recording of six cycles under a script and a plan whose push of this number fails.
fn offers_after<S: Shell>(
    alloc: Global,
    shell: &mut S,
    map: &Map,
    script: &Script,
    stalls: &Stalls,
    failing: u128,
) -> Option<bool>
    requires table { IsTable map.now.channels }
    requires some { 0 < length map.now.channels }
    requires mapped { S.map shell.old ≡ map.now }
    requires fits { FitsChannels map.now.channels script.now }
{
    let resets = script.resets();
    let room = Room::new(alloc, map.channels(), !resets.is_empty(), stalls.capacity()).ok()?;
    let mut env = ScriptEnv::new(alloc, script, map).ok()?;
    let mut fails = Numbers::new(alloc);
    fails.push(failing).ok()?;
    let mut sink = MemSink::new(alloc, fails);
    match record_run(
        alloc, shell, map, &mut env, stalls, resets, room, 6, &mut sink,
    ) {
        Err(RecordError::WriteFault) => Some(env.valid(0)),
        _ => None,
    }
}

/// The same of a shell, under the script and the plan.
fn sends_after<S: Shell>(alloc: Global, shell: &mut S, map: &Map, failing: u128) -> Option<bool>
    requires table { IsTable map.now.channels }
    requires some { 0 < length map.now.channels }
    requires mapped { S.map shell.old ≡ map.now }
{
    let Ok(script) = read_script(alloc, TWO_SENDS, map) else {
        return None;
    };
    let Ok(stalls) = read_stalls(alloc, ALL_DRAINS) else {
        return None;
    };
    offers_after(alloc, shell, map, &script, &stalls, failing)
}

/// The same of monitors round a design that runs.
fn monitored_after(alloc: Global, sim: Sim, map: &Map, failing: u128) -> Option<bool>
    requires nets { PortsAreNets sim.design }
    requires mapped { IsMapOf sim.design map.now }
{
    let Ok(mut shell) = Machines::new(alloc, sim, map) else {
        return None;
    };
    sends_after(alloc, &mut shell, map, failing)
}

/// The same of the register stage.
fn pass_sends_after(alloc: Global, failing: u128) -> Option<bool> {
    let Stage { sim, map } = two_channel_stage(alloc, Sample::Pass)?;
    monitored_after(alloc, sim, &map, failing)
}

// In row 0 it waits.
#[test]
fn no_row_where_the_header_fails(rt: HostRuntime) {
    assert!(rt; pass_sends_after(rt.alloc(), 1) == Some(false));
}

// Row 1 was committed before its packet was pushed.
#[test]
fn two_rows_where_the_first_packet_fails(rt: HostRuntime) {
    assert!(rt; pass_sends_after(rt.alloc(), 2) == Some(true));
}
