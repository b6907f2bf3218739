//! Replayers and monitors round designs of two channels, which are fed by hand.

ghost use Rattle.std.specs.Prelude.{◌≡◌, ◌<◌, ◌≤◌, All, IfOk, length};
ghost use Rattle.run_reference.specs.run_model.Building.{PortsAreNets};
ghost use Rattle.run_reference.specs.run_model.MapOf.{IsMapOf};
ghost use Rattle.replay_run.specs.chan_replayer.Feed.{IsFeedOver};
ghost use Rattle.sample_designs.specs.Stage.{stage_channels};
ghost use Rattle.run_reference.specs.trace_model.declared.packet.TheConstants.{MOST_CYCLES};

use crate::agreeing::{rows_of, trace_with};
use crate::traces::{LAST_END_MISSING, THREE};
use crate::watched::Watched;
use replay_run::chan_replayer::{Feed, Needs, ReplayMachines, ReplayShell};
use replay_run::run_stage::{Ending, Player, TwoRows, play};
use run_reference::chan_map::Map;
use run_reference::trace_model::Row;
use run_reference::vidi_bits::{Items, Memory, Numbers};
use sample_designs::net_sim::Sim;
use sample_designs::{Sample, Stage, two_channel_stage};
use std::alloc::Global;

/// What is fed in a cycle: whether a start of `a` and a completion of `b` are to come, their clocks, and the content of the start.
#[derive(Clone, Copy, Drop)]
struct Cycle {
    start: bool,
    end: bool,
    needs: [u32; 4],
    content: u8,
}

/// Nothing is to come.
const IDLE: Cycle = Cycle {
    start: false,
    end: false,
    needs: [0, 0, 0, 0],
    content: 0,
};

/// A feed of both channels.
#[tactic(auto, using(crate::proofs::FeedLaws::feed_over))]
fn feed(alloc: Global, more: u128, needs: [u32; 4], content: u8) -> Result<Feed, Memory>
    requires { more < 4 }
    ensures { IfOk result (IsFeedOver stage_channels) }
{
    let mut all = Items::new(alloc);
    all.push(needs[0])?;
    all.push(needs[1])?;
    all.push(needs[2])?;
    all.push(needs[3])?;
    let needs = Needs::of_numbers(alloc, 2, all)?;
    let mut contents = Numbers::new(alloc);
    contents.push(u128::from(content))?;
    contents.push(0)?;
    Ok(Feed {
        more,
        needs,
        contents,
    })
}

/// The feed of the cycle at this place, and that of no event behind the last one.
fn feed_at(alloc: Global, cycles: &[Cycle], at: usize) -> Result<Feed, Memory>
    ensures { IfOk result (IsFeedOver stage_channels) }
{
    let Cycle {
        start,
        end,
        needs,
        content,
    } = *cycles.get(at).unwrap_or(&IDLE);
    feed(
        alloc,
        u128::from(start) + 2 * u128::from(end),
        needs,
        content,
    )
}

/// Feeds one cycle after the other.
#[derive(Drop)]
struct Feeder<'a> {
    alloc: Global,
    map: &'a Map,
    cycles: &'a [Cycle],
    /// That of the next cycle.
    feed: Feed,
    ghost stage: { map.now.channels ≡ stage_channels },
}

impl<'a> Feeder<'a> {
    /// Before the first cycle.
    fn new(alloc: Global, map: &'a Map, cycles: &'a [Cycle]) -> Result<Feeder<'a>, Memory>
        requires { map.now.channels ≡ stage_channels }
        ensures map { IfOk result (λ feeder. feeder.map.now ≡ map.now) }
        ensures fits { IfOk result (λ feeder. IsFeedOver stage_channels feeder.feed) }
    {
        let feed = feed_at(alloc, cycles, 0)?;
        Ok(Feeder {
            alloc,
            map,
            cycles,
            feed,
        })
    }
}

impl Player<Feed> for Feeder<'_> {
    ghost use Rattle.std.specs.Prelude.{false};

    type Fault = Memory;

    ghost map = { λ feeder. feeder.map.now };

    ghost most = { λ _. MOST_CYCLES };

    ghost rule = { λ _ _ _. Unit {0} };

    ghost stands = { λ first now _. (now.map.now ≡ first.map.now) × IsFeedOver first.map.now.channels now.feed };

    ghost ends = { λ _ _ over. over ≡ false };

    ghost broke = { λ _ _ _ _. Unit {0} };

    fn is_done(&self, _last: &Row) -> bool {
        false
    }

    fn given(&self) -> &Feed {
        &self.feed
    }

    fn keep(&mut self, cycle: u32, _last: &Row) -> Result<(), Memory> {
        self.feed = feed_at(self.alloc, self.cycles, cycle as usize + 1)?;
        Ok(())
    }
}

/// Whether all these cycles are played from a reset on: no row is unstable.
fn plays<S: ReplayShell>(alloc: Global, shell: &mut S, map: &Map, cycles: &[Cycle]) -> Option<bool>
    requires stage { map.now.channels ≡ stage_channels }
    requires map { S.map shell.old ≡ map.now }
    requires few { length cycles.now ≤ MOST_CYCLES }
    ensures map { S.map shell.new ≡ S.map shell.old }
{
    shell.reset();
    let mut rows = TwoRows::new(alloc, &map.channels).ok()?;
    let mut feeder = Feeder::new(alloc, map, cycles).ok()?;
    let ending = play(shell, &mut feeder, map, cycles.len() as u32, &mut rows).ok()?;
    Some(ending == Ending::Whole)
}

/// The same of each of these stretches.
fn plays_all<S: ReplayShell>(
    alloc: Global,
    shell: &mut S,
    map: &Map,
    stretches: &[&[Cycle]],
) -> Option<bool>
    requires stage { map.now.channels ≡ stage_channels }
    requires map { S.map shell.old ≡ map.now }
    requires few { All (λ cycles. length cycles.now ≤ MOST_CYCLES) stretches.now }
{
    let mut all = true;
    for cycles in stretches {
        all &= plays(alloc, shell, map, cycles)?;
    }
    Some(all)
}

/// Whether a shell gives these rows in each stretch.
fn gives<S: ReplayShell>(
    alloc: Global,
    shell: &mut S,
    map: &Map,
    rows: &[Row],
    stretches: &[&[Cycle]],
) -> Option<bool>
    requires stage { map.now.channels ≡ stage_channels }
    requires map { S.map shell.old ≡ map.now }
    requires few { All (λ cycles. length cycles.now ≤ MOST_CYCLES) stretches.now }
{
    let mut shell = Watched::new(shell, rows);
    let all = plays_all(alloc, &mut shell, map, stretches)?;
    Some(all && shell.same)
}

/// The same of replayers round a design that runs.
fn gives_on(
    alloc: Global,
    sim: Sim,
    map: &Map,
    rows: &[Row],
    stretches: &[&[Cycle]],
) -> Option<bool>
    requires nets { PortsAreNets sim.design }
    requires mapped { IsMapOf sim.design map.now }
    requires stage { map.now.channels ≡ stage_channels }
    requires few { All (λ cycles. length cycles.now ≤ MOST_CYCLES) stretches.now }
{
    let Ok(mut shell) = ReplayMachines::new(alloc, sim, map) else {
        return None;
    };
    gives(alloc, &mut shell, map, rows, stretches)
}

/// The same round a design.
fn gives_from(alloc: Global, sample: Sample, rows: &[Row], stretches: &[&[Cycle]]) -> Option<bool>
    requires { All (λ cycles. length cycles.now ≤ MOST_CYCLES) stretches.now }
{
    let Stage { sim, map } = two_channel_stage(alloc, sample)?;
    gives_on(alloc, sim, &map, rows, stretches)
}

/// Whether replayers round a design give so many rows of the replay of a trace with these packets in each stretch, from a reset on.
fn replays(
    alloc: Global,
    sample: Sample,
    packets: &[u8],
    cycles: u32,
    stretches: &[&[Cycle]],
) -> Option<bool>
    requires { All (λ cycles. length cycles.now ≤ MOST_CYCLES) stretches.now }
{
    let trace = trace_with(alloc, sample, packets)?;
    let rows = rows_of(alloc, sample, &trace, cycles)?;
    gives_from(alloc, sample, rows.as_slice(), stretches)
}

/// The first start is taken in row 0, and then the second start awaits the completion of `b`, which is never shown.
const TAKEN: Cycle = Cycle {
    start: true,
    end: true,
    needs: [0, 0, 1, 0],
    content: 5,
};

const HELD: Cycle = Cycle {
    start: true,
    end: true,
    needs: [1, 1, 1, 0],
    content: 6,
};

#[test]
fn replayers_hold_a_start(rt: HostRuntime) {
    let cycles = [TAKEN, HELD, HELD, HELD, HELD, HELD, HELD, HELD, HELD, HELD];
    assert!(rt; replays(rt.alloc(), Sample::Dead, THREE, 10, &[&cycles]) == Some(true));
}

/// The start of `a` is taken in row 0. The completion of `b` isn't recorded.
const FIRST: Cycle = Cycle {
    start: true,
    end: false,
    needs: [0, 0, 0, 0],
    content: 5,
};

// Both rows; then the first of them, after which two resets come, and both again.
#[test]
fn replayers_begin_anew(rt: HostRuntime) {
    let both = [FIRST, IDLE];
    let stretches: [&[Cycle]; 4] = [&both, &[FIRST], &[], &both];
    assert!(rt; replays(rt.alloc(), Sample::Pass, LAST_END_MISSING, 2, &stretches) == Some(true));
}
