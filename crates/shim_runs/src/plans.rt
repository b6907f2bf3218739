//! Plans of recordings, and recordings by a shell.

ghost use Rattle.std.specs.Prelude.{◌≡◌, ◌≤◌, [], not, IfOk, length};
ghost use Rattle.shim_cosim.specs.trace_model.Channel.{IsTable};
ghost use Rattle.shim_cosim.specs.trace_model.declared.packet.TheConstants.{MOST_CYCLES};
ghost use Rattle.shim_cosim.specs.env_script.Fits.{FitsChannels};
ghost use Rattle.shim_cosim.specs.room_ledger.Ledger.{empty};
ghost use Rattle.shim_cosim.specs.vidi_recorder.Course.{sizes_of};
ghost use Rattle.shim_cosim.specs.chan_map.vidi_bits.Findings.{is_nil};

use crate::ended::Ended;
use crate::texts::bytes_in;
use report_text::vidi_io::{MemSink, Shelf};
use shim_cosim::chan_map::Map;
use shim_cosim::chan_monitor::Shell;
use shim_cosim::env_script::{Env, Script, ScriptEnv, Stalls, read_script, read_stalls};
use shim_cosim::room_ledger::Room;
use shim_cosim::trace_model::Channels;
use shim_cosim::vidi_recorder::{Outcome, record_run};
use std::alloc::Global;

/// A script and a plan of stalls.
#[derive(Drop)]
pub struct Plan {
    pub script: Script,
    pub stalls: Stalls,
}

/// What the files of a script and of stalls say.
pub fn plan_in<S: Shelf>(
    alloc: Global,
    shelf: &mut S,
    map: &Map,
    script: &str,
    stalls: &str,
) -> Result<Plan, Ended>
    ensures { IfOk result (λ plan. FitsChannels map.now.channels plan.script) }
{
    let lines = bytes_in(alloc, shelf, script)?;
    let script = read_script(alloc, lines.as_slice(), map)?;
    let lines = bytes_in(alloc, shelf, stalls)?;
    let stalls = read_stalls(alloc, lines.as_slice())?;
    Ok(Plan { script, stalls })
}

/// A new store of a plan, which has resets where its script has some.
fn room_of(alloc: Global, channels: &Channels, plan: &Plan) -> Result<Room, Ended>
    requires { IsTable channels.now }
    ensures { IfOk result (λ room. room ≡ empty (sizes_of channels.now) (not (is_nil plan.now.script.resets)) plan.now.stalls.capacity) }
{
    let resets = !plan.script.resets().is_empty();
    match Room::new(alloc, channels, resets, plan.stalls.capacity()) {
        Ok(room) => Ok(room),
        Err(error) => Err(Ended::from(error)),
    }
}

/// The environment of a script, before its first row.
fn env_of<'a>(alloc: Global, script: &'a Script, map: &'a Map) -> Result<ScriptEnv<'a>, Ended>
    requires { FitsChannels map.now.channels script.now }
    ensures channels { IfOk result (λ env. ⟦<ScriptEnv<'static> as Env>⟧.channels env ≡ map.now.channels) }
    ensures rows { IfOk result (λ env. ⟦<ScriptEnv<'static> as Env>⟧.stands_for env []) }
{
    Ok(ScriptEnv::new(alloc, script, map)?)
}

/// Records so many cycles of a shell under a plan.
pub fn recorded<S: Shell>(
    alloc: Global,
    shell: &mut S,
    map: &Map,
    plan: &Plan,
    cycles: u32,
    sink: &mut MemSink,
) -> Result<Outcome, Ended>
    requires table { IsTable map.now.channels }
    requires mapped { S.map shell.old ≡ map.now }
    requires fits { FitsChannels map.now.channels plan.now.script }
    requires some { 1 ≤ cycles }
    requires few { cycles ≤ MOST_CYCLES }
{
    let room = room_of(alloc, &map.channels, plan)?;
    let mut env = env_of(alloc, &plan.script, map)?;
    Ok(record_run(
        alloc,
        shell,
        map,
        &mut env,
        &plan.stalls,
        plan.script.resets(),
        room,
        cycles,
        sink,
    )?)
}
