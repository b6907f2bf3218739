//! The command `run`.

ghost use Rattle.std.specs.Prelude.{◌≡◌, IfOk, length};
ghost use Rattle.vidi_recorder.specs.vidi_io.Cause.{Rose};
ghost use Rattle.vidi_recorder.specs.vidi_io.Shelf.{Later};
ghost use Rattle.bench_run.specs.trace_model.Channel.{IsTable};
ghost use Rattle.net_design.specs.Lawful.{IsLawful};
ghost use Rattle.net_sim.specs.net_order.Order.{IsOrder};
ghost use Rattle.bench_run.specs.run_model.MapOf.{IsMapOf};
ghost use Rattle.bench_run.specs.env_script.Fits.{FitsChannels};
ghost use Rattle.bench_run.specs.env_script.ScriptOffer.{script_offer};
ghost use Rattle.bench_run.specs.Plain.{IsPlainRun};
ghost use Rattle.vidi_bench.specs.report_text.Rows.{run_text};
ghost use Rattle.vidi_bench.specs.AnswerText.{text_of};
ghost use Rattle.vidi_bench.specs.Benches.{IsPlayable};
ghost use Rattle.vidi_bench.specs.Ended.{IsAnswered};
ghost use Rattle.run_commands.specs.Runs.{Runs, IsPlayed, IsEnded};
ghost use Rattle.run_commands.specs.Said as said;
ghost use Rattle.vidi_bench.specs.Steps.{IsSaid};

use bench_run::chan_map::Map;
use bench_run::env_script::{Script, ScriptEnv};
use bench_run::trace_model::{Channels, Rows};
use bench_run::{PlainRun, Spot, run_plain};
use net_design::{Block, Design};
use net_sim::Sim;
use net_sim::net_order::Order;
use net_sim::vidi_bits::{Bytes, Memory};
use std::alloc::Global;
use std::mem::replace;
use vidi_bench::report_text::{Pad, RunLines, put, put_number};
use vidi_bench::{
    Answer, AnswerText, Bench, Device, Ended, LINE_BYTES, Status, bench_of, read_texts,
    unstable_line,
};
use vidi_recorder::vidi_io::Shelf;

/// What `run` is answered.
pub fn run<S: Shelf>(
    alloc: Global,
    design: &str,
    map: &str,
    script: &str,
    shelf: &mut S,
) -> Result<Answer, Ended>
    ensures answered { IsAnswered (Runs design.now map.now script.now (S.files shelf.old)
        (λ name. Rose (S.read_faults shelf.old name) (S.read_faults shelf.new name))) result }
    ensures files { S.files shelf.new ≡ S.files shelf.old }
    ensures starts { S.starts shelf.new ≡ S.starts shelf.old }
    ensures counts { Later (S.read_faults shelf.old) (S.read_faults shelf.new) (S.write_faults shelf.old) (S.write_faults shelf.new) }
{
    let texts = read_texts(alloc, design, map, script, shelf)?;
    let bench = bench_of(alloc, &texts)?;
    Ok(played(alloc, bench)?)
}

/// Plays the design in the environment of the script, with all gates up.
fn played(alloc: Global, bench: Bench) -> Result<Answer, Memory>
    requires { IsPlayable bench }
    ensures { IfOk result (λ a. IsPlayed bench.device.design bench.device.map bench.script a.status (text_of a.text)) }
{
    let Bench { device, script } = bench;
    let Device { design, order, map } = device;
    let run = run_of(alloc, design, order, &map, &script)?;
    ended(alloc, map, run)
}

/// The rows of the run.
#[tactic(auto, using(crate::proofs::PortNets::port_nets))]
fn run_of(
    alloc: Global,
    design: Design,
    order: Order,
    map: &Map,
    script: &Script,
) -> Result<PlainRun, Memory>
    requires lawful { IsLawful design }
    requires order { IsOrder design order.drivers }
    requires mapped { IsMapOf design map.now }
    requires fits { FitsChannels map.now.channels script.now }
    ensures { IfOk result (λ run. IsPlainRun design map.now (script_offer script.now) script.now.resets script.now.cycles run) }
{
    let sim = Sim::new(alloc, design, order)?;
    run_block(alloc, sim, map, script)
}

/// The rows of the run of a block.
#[tactic(auto, using(crate::proofs::PortNets::port_nets))]
fn run_block<B: Block + Drop>(
    alloc: Global,
    mut block: B,
    map: &Map,
    script: &Script,
) -> Result<PlainRun, Memory>
    requires lawful { IsLawful (B.design block) }
    requires mapped { IsMapOf (B.design block) map.now }
    requires fits { FitsChannels map.now.channels script.now }
    ensures { IfOk result (λ run. IsPlainRun (B.design block) map.now (script_offer script.now) script.now.resets script.now.cycles run) }
{
    let mut env = ScriptEnv::new(alloc, script, map)?;
    run_plain(
        alloc,
        &mut block,
        map,
        &mut env,
        script.resets(),
        script.cycles(),
    )
}

/// The lines of the rows, and how the run ended. They keep the channels of the map, which is let go.
fn ended(alloc: Global, map: Map, run: PlainRun) -> Result<Answer, Memory>
    requires { IsTable map.channels }
    ensures { IfOk result (λ a. IsEnded map run.rows run.unstable a.status (text_of a.text)) }
{
    let mut map = map;
    let channels = replace(&mut map.channels, Channels::new(alloc));
    match run.unstable {
        None => whole(alloc, channels, run.rows),
        Some(spot) => broken(alloc, channels, run.rows, spot),
    }
}

fn whole(alloc: Global, channels: Channels, rows: Rows) -> Result<Answer, Memory>
    ensures { IfOk result (λ a. IsSaid Status.Done (run_text rows channels (said.cycles_line (length rows))) a.status (text_of a.text)) }
{
    let mut last = Vec::new(alloc);
    put(&mut last, b"cycles ")?;
    put_number(&mut last, rows.len())?;
    put(&mut last, b"\n")?;
    with_lines(alloc, Status::Done, channels, rows, last)
}

fn broken(alloc: Global, channels: Channels, rows: Rows, spot: Spot) -> Result<Answer, Memory>
    requires { IsTable channels }
    ensures { IfOk result (λ a. IsSaid (Status.Unstable spot.channel spot.cycle)
        (run_text rows channels (said.unstable_line channels spot.channel spot.cycle)) a.status (text_of a.text)) }
{
    let Spot { channel, cycle } = spot;
    let pad = Pad::new(alloc, LINE_BYTES)?;
    let line = unstable_line(pad, &channels, channel, cycle);
    let last = Vec::from_slice(alloc, line.as_slice())?;
    with_lines(
        alloc,
        Status::Unstable { channel, cycle },
        channels,
        rows,
        last,
    )
}

/// The answer of this status with the lines of rows, and a last one.
fn with_lines(
    alloc: Global,
    status: Status,
    channels: Channels,
    rows: Rows,
    last: Vec<u8>,
) -> Result<Answer, Memory>
    ensures { IfOk result (λ a. IsSaid status (run_text rows channels last.items) a.status (text_of a.text)) }
{
    let lines = RunLines::new(alloc, rows, channels, Bytes::from_vec(last))?;
    Ok(Answer {
        status,
        text: AnswerText::Run(lines),
    })
}
