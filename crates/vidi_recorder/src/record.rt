//! The recording.

ghost use Rattle.std.specs.Prelude.{◌≡◌, ◌≤◌, [], not, false, List, Err, Option, IfOk, IfErr, OnErr, length};
ghost use Rattle.circular_buffer.specs.Buffer.{buffer};
ghost use Rattle.trace_code.specs.trace_model.declared.row.Row.{Row as OneRow};
ghost use Rattle.trace_code.specs.trace_model.Channel.{IsTable};
ghost use Rattle.trace_code.specs.trace_model.Row.{all_widths};
ghost use Rattle.trace_code.specs.Encoding.{header_bytes};
ghost use Rattle.net_design.specs.declared.design.Design.{Design};
ghost use Rattle.net_design.specs.declared.values.Values.{Values};
ghost use Rattle.env_script.specs.Resets.{AreTimes};
ghost use Rattle.env_script.specs.chan_map.vidi_bits.Findings.{is_nil};
ghost use Rattle.room_ledger.specs.Ledger.{empty};
ghost use Rattle.run_stage.specs.Playing.{AreOver};
ghost use Rattle.vidi_io.specs.Cause.{HasCause};
ghost use Rattle.vidi_io.specs.Sink.{Frame};
ghost use Rattle.vidi_recorder.specs.Course.{course, plan_of, sizes_of};
ghost use Rattle.vidi_recorder.specs.Recording.{EndsWith, FailsFor, FailsWith, IsCutOff};
ghost use Rattle.vidi_recorder.specs.Standing.{Going, Reached, RunsTo, ended};
ghost use Rattle.trace_code.specs.trace_model.declared.packet.TheConstants.{MOST_CYCLES};

use crate::cells::open;
use crate::error::{Outcome, RecordError};
use crate::recorder::Recorder;
use crate::steps::{close, offer};
use env_script::chan_map::Map;
use env_script::{Env, Stalls};
use room_ledger::Room;
use run_stage::chan_monitor::Shell;
use run_stage::{Ending, TwoRows, play_stretches};
use std::alloc::Global;
use vidi_io::vidi_bits::Numbers;
use vidi_io::{Failed, Sink};

/// How a recording ends whose cycles ended so; a recorder is never done before.
fn outcome(ending: Ending, packets: u32) -> Outcome
    ensures { result ≡ ended packets ending }
{
    match ending {
        Ending::Unstable { channel, cycle } => Outcome::Unstable {
            channel,
            cycle,
            packets,
        },
        Ending::Whole | Ending::Done { .. } => Outcome::Whole { packets },
    }
}

/// Resets the shell, pushes the header and goes through the cycles of the run. The rest and the end mark aren't pushed yet.
fn run<S: Shell, E: Env, K: Sink>(
    shell: &mut S,
    recorder: &mut Recorder<'_, '_, '_, '_, '_, '_, E, K>,
    rows: &mut TwoRows,
) -> Result<Outcome, Failed>
    requires table { IsTable recorder.old.map.now.channels }
    requires mapped { S.map shell.old ≡ recorder.old.map.now }
    requires channels { E.channels recorder.old.env.now ≡ recorder.old.map.now.channels }
    requires first { E.stands_for recorder.old.env.now [] }
    requires few { recorder.old.cycles ≤ MOST_CYCLES }
    requires header { recorder.old.cells.now.header ≡ header_bytes recorder.old.map.now.channels }
    requires room { recorder.old.cells.now.room ≡ empty (sizes_of recorder.old.map.now.channels) (not (is_nil recorder.old.resets.now))
        recorder.old.stalls.now.capacity }
    requires store { recorder.old.cells.now.store ≡ buffer [] recorder.old.stalls.now.capacity }
    requires out { length recorder.old.cells.now.out.items ≡ recorder.old.stalls.now.capacity }
    requires offers { length recorder.old.cells.now.given.offers.contents ≡ length (all_widths recorder.old.map.now.channels) }
    requires packets { recorder.old.cells.now.packets ≡ 0 }
    requires end { recorder.old.cells.now.end ≡ 0 }
    requires resets { recorder.old.cells.now.resets ≡ 0 }
    requires fresh { recorder.old.cells.now.fresh ≡ false }
    requires rows { AreOver recorder.old.map.now.channels rows.old }
    requires silent { rows.old.last.valids ≡ 0 }
    ensures ok { IfOk result (λ outcome. (played : List OneRow) × E.stands_for recorder.new.env.now played
        × Going recorder.old.map.now.channels (plan_of recorder.old.stalls.now recorder.old.resets.now) (K.told recorder.old.sink.now) played
        recorder.new.cells.now.fresh recorder.new.cells.now.room recorder.new.cells.now.store.items
        (K.told recorder.new.sink.now) recorder.new.cells.now.packets
        × ((d : Design) (s : Values) (before : Option OneRow) → S.runs shell.old d s before
        → RunsTo (course d recorder.old.map.now (E.offer (E.plan recorder.old.env.now)) recorder.old.stalls.now
        recorder.old.resets.now recorder.old.cycles) played recorder.new.cells.now.packets outcome
        × Reached (course d recorder.old.map.now (E.offer (E.plan recorder.old.env.now)) recorder.old.stalls.now
        recorder.old.resets.now recorder.old.cycles) (S.runs shell.new) played × (recorder.new.cells.now.fresh ≡ false))) }
    ensures cut { OnErr result ((d : Design) (s : Values) (before : Option OneRow) → S.runs shell.old d s before
        → IsCutOff (course d recorder.old.map.now (E.offer (E.plan recorder.old.env.now)) recorder.old.stalls.now
        recorder.old.resets.now recorder.old.cycles) (S.runs shell.new) (E.stands_for recorder.new.env.now)
        (K.told recorder.old.sink.now) (K.told recorder.new.sink.now)) }
    ensures waits { IfOk result (λ _. length recorder.new.cells.now.store.items ≤ length recorder.new.cells.now.out.items) }
    ensures map { S.map shell.new ≡ S.map shell.old }
    ensures plan { E.plan recorder.new.env.now ≡ E.plan recorder.old.env.now }
    ensures env_channels { E.channels recorder.new.env.now ≡ E.channels recorder.old.env.now }
    ensures place { K.place recorder.new.sink.now ≡ K.place recorder.old.sink.now }
    ensures frame { (f : Frame) → K.has_frame recorder.old.sink.now f → K.has_frame recorder.new.sink.now f }
    ensures cause { HasCause (K.faults recorder.old.sink.now) (K.faults recorder.new.sink.now) result }
    ensures same_env { recorder.new.env.ghost_name ≡ recorder.old.env.ghost_name }
    ensures same_cells { recorder.new.cells.ghost_name ≡ recorder.old.cells.ghost_name }
    ensures same_sink { recorder.new.sink.ghost_name ≡ recorder.old.sink.ghost_name }
{
    let map = recorder.map;
    let cycles = recorder.cycles;
    let cells = &mut *recorder.cells;
    shell.reset();
    recorder.sink.push(cells.header.as_slice())?;
    offer(&*recorder.env, &map.channels, &cells.room, &mut cells.given);
    let ending = play_stretches(shell, recorder, map, cycles, rows)?;
    Ok(outcome(ending, recorder.cells.packets))
}

/// Runs a design behind the gates of its channels for 1 to 50,000 cycles, with resets in mid-run at these times, and writes the trace of the
/// run to the sink as it drains. The map's table is lawful, the shell and the environment are of the map's design and channels, the
/// environment stands for no row yet, times increase and are at least 1, and the room is new, of the map's channels and the plan's
/// capacity, with resets exactly where there is a time. A reset comes before the row with its number, or before the first one behind it
/// for which there is the permit; none comes behind the last row.
///
/// `Whole` exactly where no row of the run is unstable, `Unstable` where one is: the run ends before it. The sink has grown by the
/// encoding of the run's trace, of at most 134,217,728 bytes; the environment stands for its rows, and the shell in the state behind
/// them. After `WriteFault`, which comes only where the sink's count of faults rose, environment and shell stand behind the first k
/// rows of the run. The sink has grown by a front of the header and their packets, with that of the reset that comes behind them, or,
/// where they are the whole run, of its trace's encoding; for a lawful design it is a front of that of the run. Where k isn't 0 the
/// header is out, and what drains after all of these rows but the last. `Memory` comes before anything is moved.
pub fn record_run<S: Shell, E: Env, K: Sink>(
    alloc: Global,
    shell: &mut S,
    map: &Map,
    env: &mut E,
    stalls: &Stalls,
    resets: &Numbers,
    room: Room,
    cycles: u32,
    sink: &mut K,
) -> Result<Outcome, RecordError>
    requires table { IsTable map.now.channels }
    requires mapped { S.map shell.old ≡ map.now }
    requires channels { E.channels env.old ≡ map.now.channels }
    requires first { E.stands_for env.old [] }
    requires room { room ≡ empty (sizes_of map.now.channels) (not (is_nil resets.now)) stalls.now.capacity }
    requires times { AreTimes resets.now }
    requires some { 1 ≤ cycles }
    requires few { cycles ≤ MOST_CYCLES }
    ensures ok { IfOk result (λ outcome. (d : Design) (s : Values) (before : Option OneRow) → S.runs shell.old d s before
        → EndsWith (course d map.now (E.offer (E.plan env.old)) stalls.now resets.now cycles) (S.runs shell.new) (E.stands_for env.new)
        (K.told sink.old) (K.told sink.new) outcome) }
    ensures err { IfErr result (λ e. (d : Design) (s : Values) (before : Option OneRow) → S.runs shell.old d s before
        → FailsWith (course d map.now (E.offer (E.plan env.old)) stalls.now resets.now cycles) (S.runs shell.new) (E.stands_for env.new)
        (K.told sink.old) (K.told sink.new) e) }
    ensures cause { IfErr result (FailsFor (K.faults sink.old) (K.faults sink.new)) }
    ensures memory { result ≡ Err RecordError.Memory → (shell.new ≡ shell.old) × (env.new ≡ env.old) × (sink.new ≡ sink.old) }
    ensures map { S.map shell.new ≡ S.map shell.old }
    ensures plan { E.plan env.new ≡ E.plan env.old }
    ensures env_channels { E.channels env.new ≡ E.channels env.old }
    ensures later { K.faults sink.old ≤ K.faults sink.new }
    ensures place { K.place sink.new ≡ K.place sink.old }
    ensures frame { (f : Frame) → K.has_frame sink.old f → K.has_frame sink.new f }
{
    let mut cells = open(alloc, &map.channels, stalls.capacity(), room)?;
    let mut rows = TwoRows::new(alloc, &map.channels)?;
    let mut recorder = Recorder {
        map,
        stalls,
        resets,
        cycles,
        env,
        cells: &mut cells,
        sink,
    };
    let outcome = run(shell, &mut recorder, &mut rows)?;
    close(
        &mut cells.store,
        cells.packets,
        cells.out.as_mut_slice(),
        sink,
    )?;
    Ok(outcome)
}
