//! The replay.

ghost use Rattle.std.specs.Prelude.{◌≡◌, ◌≤◌, [], ℕ, List, IfOk, OnErr, length};
ghost use Rattle.trace_code.specs.trace_model.declared.packet.TheConstants.{MOST_CYCLES};
ghost use Rattle.trace_code.specs.trace_model.declared.row.Row.{Row as OneRow};
ghost use Rattle.trace_code.specs.trace_model.declared.trace.Trace.{Trace};
ghost use Rattle.trace_code.specs.Encoding.{Encodes};
ghost use Rattle.net_design.specs.declared.design.Design.{Design};
ghost use Rattle.net_design.specs.declared.values.Values.{Values};
ghost use Rattle.run_stage.specs.chan_map.declared.pins.Map.{Map as OneMap};
ghost use Rattle.run_stage.specs.Playing.{AreOver};
ghost use Rattle.run_stage.specs.Stretching.{PlayStretches};
ghost use Rattle.replay_run.specs.Behind.{AreBehind};
ghost use Rattle.replay_run.specs.Lists.{HasRoom, IsKept};
ghost use Rattle.replay_run.specs.Replaying.{EndsAs, IsReplayed};
ghost use Rattle.replay_run.specs.Standing.{epoch_rule, IsAt, PlaysTo, StandsBehind, TurnsBehind};

use crate::feeder::Feeder;
use crate::lists::{Lists, held_and_waits};
use crate::outcome::{ReplayOutcome, Replayed};
use run_stage::chan_map::Map;
use run_stage::chan_replayer::ReplayShell;
use run_stage::{Ending, TwoRows, play_stretches};
use std::alloc::Global;
use trace_code::trace_model::Row;
use trace_code::vidi_bits::Memory;

/// Resets the shell and goes through the cycles of a replay.
fn played<S: ReplayShell>(
    shell: &mut S,
    map: &Map,
    feeder: &mut Feeder,
    rows: &mut TwoRows,
) -> Ending
    requires mapped { S.map shell.old ≡ map.now }
    requires same { feeder.old.map.now ≡ map.now }
    requires stands { StandsBehind feeder.old feeder.old [] [] }
    requires rows { AreOver map.now.channels rows.old }
    requires silent { rows.old.last.valids ≡ 0 }
    ensures ends { (past : List (List OneRow)) × (here : List OneRow) × StandsBehind feeder.old feeder.new past here
        × ((t : Trace) (d : Design) (s : Values) (before : List OneRow) → Encodes t feeder.old.bytes.now → S.runs shell.old d s before
        → PlaysTo d map.now t.packets feeder.old.cycles past here result
        × PlayStretches d map.now (epoch_rule map.now.channels t.packets) (TurnsBehind map.now.channels t.packets)
        (λ e state before rows. S.runs shell.new e state rows) rows.new.last past here) }
    ensures map { S.map shell.new ≡ S.map shell.old }
{
    let cycles = feeder.cycles;
    shell.reset();
    match play_stretches(shell, feeder, map, cycles, rows) {
        Ok(ending) => ending,
    }
}

/// How a replay ends, with the lists of *End of replay* where it is short. The last row is that before.
fn outcome_of(ending: Ending, lists: Lists, feeder: &Feeder, last: &Row) -> ReplayOutcome
    requires room { HasRoom (length feeder.now.map.now.channels) lists }
    requires long { length feeder.now.have ≡ length feeder.now.map.now.channels }
    requires behind { (t : Trace) × (have : ℕ → ℕ) × AreBehind t have feeder.now.cursors × (t.channels ≡ feeder.now.map.now.channels) }
    ensures { (t : Trace) (d : Design) (m : OneMap) (n : ℕ) (past : List (List OneRow)) (here : List OneRow) → IsAt t past here feeder.now
        → m.channels ≡ feeder.now.map.now.channels → IsKept (length m.channels) here feeder.now.have last.now
        → PlaysTo d m t.packets n past here ending → EndsAs d m t.packets n past here result }
{
    match ending {
        Ending::Done { cycles } => ReplayOutcome::Ended { cycles },
        Ending::Unstable { channel, cycle } => ReplayOutcome::Unstable { channel, cycle },
        Ending::Whole => {
            let channels = &feeder.map.channels;
            let (held, waits) = held_and_waits(
                lists,
                channels,
                &feeder.cursors,
                &feeder.have,
                last,
            );
            ReplayOutcome::Short { held, waits }
        }
    }
}

/// Replays a trace on a design behind replayers: from a reset of the shell on it plays cycles until the trace has ended, a row is
/// unstable, or `cycles` of them are used, of which there are at most `MOST_CYCLES`. The bytes are the encoding of a trace of the map's
/// channels, and the map is the shell's. Where an epoch of the trace is done and a reset follows it, the shell is reset in mid-run.
///
/// Where the shell runs a design, the rows are *the replay*'s of this design, stretch by stretch, and the shell stands behind them afterwards. `Ended` exactly
/// where the trace has ended in them, with their number; `Unstable` exactly where the next row is unstable, with the lowest channel and
/// the number of that row; else `Short`, with the lists of *End of replay*. `out` is the encoding of the rows' trace. `Memory` comes before
/// the shell is touched: no cycle takes memory.
pub fn replay<S: ReplayShell>(
    alloc: Global,
    shell: &mut S,
    map: &Map,
    trace: &[u8],
    cycles: u32,
) -> Result<Replayed, Memory>
    requires mapped { S.map shell.old ≡ map.now }
    requires trace { (t : Trace) × Encodes t trace.now × (t.channels ≡ map.now.channels) }
    requires few { cycles ≤ MOST_CYCLES }
    ensures replayed { IfOk result (λ answer. (t : Trace) (d : Design) (s : Values) (before : List OneRow) → Encodes t trace.now
        → S.runs shell.old d s before → IsReplayed d map.now t.packets cycles (S.runs shell.new) answer) }
    ensures memory { OnErr result (shell.new ≡ shell.old) }
    ensures map { S.map shell.new ≡ S.map shell.old }
{
    let mut feeder = Feeder::new(alloc, map, trace, cycles)?;
    let mut rows = TwoRows::new(alloc, &map.channels)?;
    let lists = Lists::new(alloc, map.channels.len())?;
    let ending = played(shell, map, &mut feeder, &mut rows);
    let outcome = outcome_of(ending, lists, &feeder, &rows.last);
    let Feeder { output, .. } = feeder;
    let out = output.close();
    Ok(Replayed { outcome, out })
}
