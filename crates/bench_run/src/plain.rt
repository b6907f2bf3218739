//! The plain run.

ghost use Rattle.std.specs.Prelude.{◌≡◌, ◌≤◌, ◌⊎◌, [], Option, length, IfOk, IfErr, OnErr};
ghost use Rattle.env_script.specs.trace_model.declared.row.Row.{Row as OneRow};
ghost use Rattle.net_design.specs.declared.design.Design.{Design};
ghost use Rattle.net_design.specs.declared.values.Values.{Values};
ghost use Rattle.run_stage.specs.run_model.Building.{PortsAreNets};
ghost use Rattle.run_stage.specs.run_model.MapOf.{IsMapOf};
ghost use Rattle.run_stage.specs.Playing.{AreOver};
ghost use Rattle.bench_run.specs.Playing.{HasBegun, IsAt};
ghost use Rattle.bench_run.specs.Plain.{spot_of, GoesOn, IsPlainRun, StandsBehind, StandsWithin};
ghost use Rattle.env_script.specs.Resets.{AreTimes};
ghost use Rattle.env_script.specs.trace_model.declared.packet.TheConstants.{MOST_CHANNELS, MOST_CYCLES};

use crate::lent::Lent;
use crate::player::{PlainCells, PlainPlayer, given_now};
use env_script::Env;
use env_script::trace_model::Rows;
use net_design::Block;
use run_stage::chan_map::Map;
use run_stage::chan_monitor::vidi_bits::{Memory, Numbers};
use run_stage::chan_monitor::{Machines, Shell};
use run_stage::{Ending, TwoRows, play_stretches};
use std::alloc::Global;

/// A channel in a cycle.
#[derive(Clone, Copy, PartialEq, Eq, Drop)]
pub struct Spot {
    /// The channel's place in the table.
    pub channel: usize,
    /// The cycle, which is the number of its row.
    pub cycle: u32,
}

/// What a plain run answers.
#[derive(Drop)]
pub struct PlainRun {
    /// The rows before the first unstable one; all of them where none is.
    pub rows: Rows,
    /// Where the first unstable row is, and the lowest channel on which it is.
    pub unstable: Option<Spot>,
}

/// Where the row is unstable that ends a run.
pub fn spot_of(ending: Ending) -> Option<Spot>
    ensures { result ≡ spot_of ending }
{
    match ending {
        Ending::Unstable { channel, cycle } => Some(Spot { channel, cycle }),
        Ending::Whole | Ending::Done { .. } => None,
    }
}

/// Plays the cycles of a plain run on a shell that was reset.
fn run_player<S: Shell, E: Env>(
    shell: &mut S,
    player: &mut PlainPlayer<'_, '_, '_, '_, E>,
    cycles: u32,
    two: &mut TwoRows,
) -> Result<Ending, Memory>
    requires mapped { S.map shell.old ≡ player.old.map.now }
    requires begun { ∥ ((d : Design) × HasBegun d player.old.map.now (S.runs shell.old)) ∥₁ }
    requires channels { E.channels player.old.env.now ≡ player.old.map.now.channels }
    requires few { length player.old.map.now.channels ≤ MOST_CHANNELS }
    requires at { IsAt player.old.map.now.channels (E.stands_for player.old.env.now) (E.current player.old.env.now)
        player.old.cells.now [] }
    requires cycles { cycles ≤ MOST_CYCLES }
    requires rows { AreOver player.old.map.now.channels two.old }
    requires silent { two.old.last.valids ≡ 0 }
    ensures run { IfOk result (λ ending. (d : Design) → HasBegun d player.old.map.now (S.runs shell.old)
        → IsPlainRun d player.old.map.now (E.offer (E.plan player.old.env.now)) player.old.resets.now cycles
        (record { rows = player.new.cells.now.rows; unstable = spot_of ending })) }
    ensures behind { IfOk result (λ _. (d : Design) → HasBegun d player.old.map.now (S.runs shell.old)
        → GoesOn (S.runs shell.new) d player.old.map.now (E.offer (E.plan player.old.env.now)) player.old.resets.now player.new.cells.now.rows) }
    ensures stands { IfOk result (λ _. E.stands_for player.new.env.now player.new.cells.now.rows) }
    ensures memory { IfErr result (λ _. (d : Design) → HasBegun d player.old.map.now (S.runs shell.old)
        → StandsWithin (E.stands_for player.new.env.now) d player.old.map.now (E.offer (E.plan player.old.env.now)) player.old.resets.now cycles) }
    ensures place { S.place shell.new ≡ S.place shell.old }
    ensures env_name { player.new.env.ghost_name ≡ player.old.env.ghost_name }
    ensures cells_name { player.new.cells.ghost_name ≡ player.old.cells.ghost_name }
    ensures plan { E.plan player.new.env.now ≡ E.plan player.old.env.now }
    ensures env_channels { E.channels player.new.env.now ≡ E.channels player.old.env.now }
{
    let map = player.map;
    play_stretches(shell, player, map, cycles, two)
}

/// The run of a shell from a reset on, of each design that it runs. The shell goes on behind its rows.
fn run_shell<S: Shell, E: Env>(
    alloc: Global,
    shell: &mut S,
    map: &Map,
    env: &mut E,
    resets: &Numbers,
    cycles: u32,
) -> Result<PlainRun, Memory>
    requires mapped { S.map shell.old ≡ map.now }
    requires same { E.channels env.old ≡ map.now.channels }
    requires few { length map.now.channels ≤ MOST_CHANNELS }
    requires first { E.stands_for env.old [] }
    requires cycles { cycles ≤ MOST_CYCLES }
    ensures run { IfOk result (λ run. (d : Design) (s : Values) (before : Option OneRow) → S.runs shell.old d s before
        → IsPlainRun d map.now (E.offer (E.plan env.old)) resets.now cycles run) }
    ensures behind { IfOk result (λ run. (d : Design) (s : Values) (before : Option OneRow) → S.runs shell.old d s before
        → GoesOn (S.runs shell.new) d map.now (E.offer (E.plan env.old)) resets.now run.rows) }
    ensures place { S.place shell.new ≡ S.place shell.old }
    ensures stands { IfOk result (λ run. E.stands_for env.new run.rows) }
    ensures plan { E.plan env.new ≡ E.plan env.old }
    ensures channels { E.channels env.new ≡ E.channels env.old }
    ensures memory { OnErr result ((d : Design) (s : Values) (before : Option OneRow) → S.runs shell.old d s before
        → StandsWithin (E.stands_for env.new) d map.now (E.offer (E.plan env.old)) resets.now cycles) }
{
    shell.reset();
    let mut two = TwoRows::new(alloc, &map.channels)?;
    let given = given_now(alloc, env, &map.channels)?;
    let rows = Rows::new(alloc);
    let mut cells = PlainCells {
        alloc,
        given,
        rows,
        cycles: 0,
        resets: 0,
    };
    let mut player = PlainPlayer {
        map,
        resets,
        env,
        cells: &mut cells,
    };
    let ending = run_player(shell, &mut player, cycles, &mut two)?;
    let PlainCells { rows, .. } = cells;
    Ok(PlainRun {
        rows,
        unstable: spot_of(ending),
    })
}

/// Runs a block in an environment for 1 to `MOST_CYCLES` cycles, from its map's reset on, with all gates up and without a store. At each of
/// the times, which increase from 1 on, it is reset in mid-run: the row with that number is fresh, or the one behind the last reset where that
/// is later. Port k of the block's design is its net k, as in every lawful design; the map is a map of it, and the environment is over the
/// map's channels and stands for no row yet.
///
/// The rows are those of *IsRun*, and end before the first unstable one; the environment and the block stand behind them afterwards. With
/// `Memory`, where no memory was found, it is as at entry, or stands for the first rows of that run.
pub fn run_plain<B: Block, E: Env>(
    alloc: Global,
    block: &mut B,
    map: &Map,
    env: &mut E,
    resets: &Numbers,
    cycles: u32,
) -> Result<PlainRun, Memory>
    requires nets { PortsAreNets (B.design block.old) }
    requires mapped { IsMapOf (B.design block.old) map.now }
    requires channels { E.channels env.old ≡ map.now.channels }
    requires first { E.stands_for env.old [] }
    requires some { 1 ≤ cycles }
    requires few { cycles ≤ MOST_CYCLES }
    requires times { AreTimes resets.now }
    ensures run { IfOk result (λ run. IsPlainRun (B.design block.old) map.now (E.offer (E.plan env.old)) resets.now cycles run) }
    ensures design { IfOk result (λ run. B.design block.new ≡ B.design block.old) }
    ensures behind { IfOk result (λ run. StandsBehind (B.state block.new) (B.design block.old) map.now (E.offer (E.plan env.old)) resets.now run.rows) }
    ensures stands { IfOk result (λ run. E.stands_for env.new run.rows) }
    ensures plan { E.plan env.new ≡ E.plan env.old }
    ensures channels { E.channels env.new ≡ E.channels env.old }
    ensures memory { OnErr result ((env.new ≡ env.old)
        ⊎ StandsWithin (E.stands_for env.new) (B.design block.old) map.now (E.offer (E.plan env.old)) resets.now cycles) }
{
    let mut shell = Machines::new(alloc, Lent::new(block), map)?;
    let run = run_shell(alloc, &mut shell, map, env, resets, cycles);
    // The borrow ends, with the block as the shell leaves it.
    let Lent { block: _back } = shell.into_block();
    run
}
