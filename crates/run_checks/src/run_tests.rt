//! Rows of runs, by the definitions and by monitors. Channel 0 is `a`, inward, and channel 1 is `b`, outward; the masks of a row are
//! its gates, valids, readies, starts and ends.

ghost use Rattle.std.specs.Prelude.{◌≡◌, ◌<◌, ◌^◌, All, IfOk, length};
ghost use Rattle.run_reference.specs.trace_model.Row.{AreOffers};
ghost use Rattle.run_reference.specs.run_model.Building.{PortsAreNets};
ghost use Rattle.run_reference.specs.run_model.MapOf.{IsMapOf};
ghost use Rattle.run_stage.specs.Given.{FitsGates};
ghost use Rattle.sample_designs.specs.Stage.{flick_channels, stage_channels};

use crate::given::{two_sends, two_sends_behind};
use crate::play::{Played, play_shell};
use crate::sends::is_two_sends;
use bench_run::chan_monitor::{Machines, Shell};
use run_reference::chan_map::Map;
use run_reference::run_rows;
use run_reference::trace_model::{Channels, Offers, Row, Rows};
use run_reference::vidi_bits::{Items, Memory, Numbers};
use run_stage::{Ending, Gated};
use sample_designs::net_sim::Sim;
use sample_designs::{
    Sample, Stage, flick_channels, is_row, sample_stage, stage_channels, two_channel_stage,
};
use std::alloc::Global;

/// All gates are up.
const OPEN: [u128; 6] = [3, 3, 3, 3, 3, 3];

/// The gates of a store of 28 bytes that never drains: a packet has 5 bytes without contents, and 11 are kept for each idle channel
/// whose gate is up, 5 for one in flight. After row 0, 6 are used and `a` has its gate again; after row 1, 13 are, and after row 2, 18.
const SHUT: [u128; 6] = [3, 3, 1, 0, 0, 0];

/// The rows of a design's run under these offers and gates, by the definitions.
fn rows_on(
    alloc: Global,
    sim: &mut Sim,
    map: &Map,
    offers: &[Offers],
    gates: &[u128],
) -> Option<Rows>
    requires nets { PortsAreNets sim.old.design }
    requires mapped { IsMapOf sim.old.design map.now }
    requires offers { All (AreOffers map.now.channels) offers.now }
    requires gates { All (λ g. g < 2 ^ length map.now.channels) gates.now }
    requires count { length gates.now ≡ length offers.now }
{
    run_rows(alloc, sim, map, offers, gates).ok()
}

/// The same of a design that has these channels.
fn rows_of(
    alloc: Global,
    sample: Sample,
    channels: &Channels,
    offers: &[Offers],
    gates: &[u128],
) -> Option<Rows>
    requires offers { All (AreOffers channels.now) offers.now }
    requires gates { All (λ g. g < 2 ^ length channels.now) gates.now }
    requires count { length gates.now ≡ length offers.now }
{
    let mut stage = sample_stage(alloc, sample, channels)?;
    rows_on(alloc, &mut stage.sim, &stage.map, offers, gates)
}

/// The rows of the register stage under these offers and gates.
fn pass_rows(alloc: Global, offers: &[Offers], gates: &[u128]) -> Option<Rows>
    requires offers { All (AreOffers stage_channels) offers.now }
    requires gates { All (λ g. g < 4) gates.now }
    requires count { length gates.now ≡ length offers.now }
{
    let channels = stage_channels(alloc).ok()?;
    rows_of(alloc, Sample::Pass, &channels, offers, gates)
}

/// Its rows with two contents offered and all taken.
fn two_sends_rows(alloc: Global, gates: [u128; 6]) -> Option<Rows>
    requires { All (λ g. g < 4) gates }
{
    let offers = two_sends(alloc).ok()?;
    pass_rows(alloc, offers.as_slice(), &gates)
}

/// The gate of `b` is down from row 2 on and that of `a` from row 3 on, so the second content stays in the stage.
fn is_one_gate(rows: &[Row]) -> bool {
    rows.len() == 6
        && is_row(&rows[0], [3, 1, 3, 1, 1], &[5, 0])
        && is_row(&rows[1], [3, 3, 2, 3, 2], &[6, 5])
        && is_row(&rows[2], [1, 1, 3, 0, 1], &[6, 5])
        && is_row(&rows[3], [0, 2, 2, 0, 0], &[0, 6])
        && is_row(&rows[4], [0, 2, 2, 0, 0], &[0, 6])
        && is_row(&rows[5], [0, 2, 2, 0, 0], &[0, 6])
}

#[test]
fn two_sends_pass(rt: HostRuntime) {
    let rows = two_sends_rows(rt.alloc(), OPEN);
    assert!(rt; rows.is_some_and(|rows| is_two_sends(rows.as_slice())));
}

#[test]
fn one_gate_rises(rt: HostRuntime) {
    let rows = two_sends_rows(rt.alloc(), SHUT);
    assert!(rt; rows.is_some_and(|rows| is_one_gate(rows.as_slice())));
}

/// Nothing is offered, in one cycle.
fn idle(alloc: Global) -> Offers
    ensures { AreOffers flick_channels result }
{
    Offers {
        valids: 0,
        readies: 0,
        contents: Numbers::new(alloc),
    }
}

/// Nothing is offered, in six cycles.
fn idle_offers(alloc: Global) -> Result<Items<Offers>, Memory>
    ensures long { IfOk result (λ os. length os ≡ 6) }
    ensures fit { IfOk result (All (AreOffers flick_channels)) }
{
    let mut offers = Items::new(alloc);
    offers.push(idle(alloc))?;
    offers.push(idle(alloc))?;
    offers.push(idle(alloc))?;
    offers.push(idle(alloc))?;
    offers.push(idle(alloc))?;
    offers.push(idle(alloc))?;
    Ok(offers)
}

/// The rows of `flick` under these offers, with the gate up.
fn flick_rows(alloc: Global, offers: &[Offers]) -> Option<Rows>
    requires offers { All (AreOffers flick_channels) offers.now }
    requires count { length offers.now ≡ 6 }
{
    let channels = flick_channels(alloc).ok()?;
    rows_of(alloc, Sample::Flick, &channels, offers, &[1; 6])
}

/// Six cycles of `flick` with nothing offered and the gate up.
fn flick_run(alloc: Global) -> Option<Rows> {
    let offers = idle_offers(alloc).ok()?;
    flick_rows(alloc, offers.as_slice())
}

/// In row 1 the valid is up and a transaction starts, and in row 2 the valid is down again.
fn is_flick_run(rows: &[Row]) -> bool {
    rows.len() == 6
        && is_row(&rows[0], [1, 0, 0, 0, 0], &[])
        && is_row(&rows[1], [1, 1, 0, 1, 0], &[])
        && is_row(&rows[2], [1, 0, 0, 0, 0], &[])
        && is_row(&rows[3], [1, 1, 0, 1, 0], &[])
}

// The rows go on behind an unstable one, where a plain run ends.
#[test]
fn flick_takes_its_valid_back(rt: HostRuntime) {
    let rows = flick_run(rt.alloc());
    assert!(rt; rows.is_some_and(|rows| is_flick_run(rows.as_slice())));
}

/// The rows of a shell of a stage from a reset on, with two contents offered and all taken.
fn played<S: Shell>(
    alloc: Global,
    shell: &mut S,
    map: &Map,
    gates: [u128; 6],
) -> Result<Played, Memory>
    requires table { map.now.channels ≡ stage_channels }
    requires map { S.map shell.old ≡ map.now }
    requires gates { All (λ g. g < 4) gates }
    ensures map { S.map shell.new ≡ S.map shell.old }
{
    let given = two_sends_behind(alloc, &gates)?;
    play_shell(alloc, shell, map, given.as_slice())
}

/// Whether a shell shows the rows with all gates up from a reset on, of which none is unstable.
fn shows_all<S: Shell>(alloc: Global, shell: &mut S, map: &Map) -> Result<bool, Memory>
    requires table { map.now.channels ≡ stage_channels }
    requires map { S.map shell.old ≡ map.now }
    ensures map { S.map shell.new ≡ S.map shell.old }
{
    let played = played(alloc, shell, map, OPEN)?;
    Ok(played.ending == Ending::Whole && is_two_sends(played.rows.as_slice()))
}

/// Whether a shell shows the rows with the gates of the store from a reset on, of which none is unstable.
fn shows_one_gate<S: Shell>(alloc: Global, shell: &mut S, map: &Map) -> Result<bool, Memory>
    requires table { map.now.channels ≡ stage_channels }
    requires map { S.map shell.old ≡ map.now }
    ensures map { S.map shell.new ≡ S.map shell.old }
{
    let played = played(alloc, shell, map, SHUT)?;
    Ok(played.ending == Ending::Whole && is_one_gate(played.rows.as_slice()))
}

/// Whether a shell shows the rows with all gates up, then those with the gates of the store, and then the first ones again.
fn begins_again<S: Shell>(alloc: Global, shell: &mut S, map: &Map) -> Option<bool>
    requires table { map.now.channels ≡ stage_channels }
    requires map { S.map shell.old ≡ map.now }
{
    let first = shows_all(alloc, shell, map).ok()?;
    let shut = shows_one_gate(alloc, shell, map).ok()?;
    let again = shows_all(alloc, shell, map).ok()?;
    Some(first && shut && again)
}

/// The same of monitors round a design that runs.
fn begins_again_on(alloc: Global, sim: Sim, map: &Map) -> Option<bool>
    requires nets { PortsAreNets sim.design }
    requires mapped { IsMapOf sim.design map.now }
    requires table { map.now.channels ≡ stage_channels }
{
    let Ok(mut shell) = Machines::new(alloc, sim, map) else {
        return None;
    };
    begins_again(alloc, &mut shell, map)
}

/// The same round the register stage.
fn pass_begins_again(alloc: Global) -> Option<bool> {
    let Stage { sim, map } = two_channel_stage(alloc, Sample::Pass)?;
    begins_again_on(alloc, sim, &map)
}

// The gates of the store leave a content in the stage.
#[test]
fn a_reset_shell_begins_again(rt: HostRuntime) {
    assert!(rt; pass_begins_again(rt.alloc()) == Some(true));
}

/// Nothing is offered to `flick`, and its gate is down.
#[tactic(auto, using(crate::proofs::SendLaws::idle_fits))]
fn idle_behind(alloc: Global) -> Gated
    ensures { FitsGates flick_channels result }
{
    Gated {
        offers: idle(alloc),
        gates: 0,
    }
}

/// The same in three cycles.
fn three_idle(alloc: Global) -> Result<Items<Gated>, Memory>
    ensures long { IfOk result (λ given. length given ≡ 3) }
    ensures fit { IfOk result (All (FitsGates flick_channels)) }
{
    let mut given = Items::new(alloc);
    given.push(idle_behind(alloc))?;
    given.push(idle_behind(alloc))?;
    given.push(idle_behind(alloc))?;
    Ok(given)
}

/// Behind the gate no transaction starts; row 2 is unstable, since its valid is down again.
fn is_broken(played: &Played) -> bool {
    let rows = played.rows.as_slice();
    let ending = Ending::Unstable {
        channel: 0,
        cycle: 2,
    };
    played.ending == ending
        && rows.len() == 2
        && is_row(&rows[0], [0, 0, 0, 0, 0], &[])
        && is_row(&rows[1], [0, 1, 0, 0, 0], &[])
}

/// Whether a shell's run ends so.
fn breaks<S: Shell>(alloc: Global, shell: &mut S, map: &Map) -> Option<bool>
    requires table { map.now.channels ≡ flick_channels }
    requires map { S.map shell.old ≡ map.now }
{
    let given = three_idle(alloc).ok()?;
    let played = play_shell(alloc, shell, map, given.as_slice()).ok()?;
    Some(is_broken(&played))
}

/// The same of monitors round a design that runs.
fn breaks_on(alloc: Global, sim: Sim, map: &Map) -> Option<bool>
    requires nets { PortsAreNets sim.design }
    requires mapped { IsMapOf sim.design map.now }
    requires table { map.now.channels ≡ flick_channels }
{
    let Ok(mut shell) = Machines::new(alloc, sim, map) else {
        return None;
    };
    breaks(alloc, &mut shell, map)
}

/// The same round `flick`.
fn flick_breaks(alloc: Global) -> Option<bool> {
    let channels = flick_channels(alloc).ok()?;
    let Stage { sim, map } = sample_stage(alloc, Sample::Flick, &channels)?;
    breaks_on(alloc, sim, &map)
}

#[test]
fn a_shell_is_unstable_behind_its_gate(rt: HostRuntime) {
    assert!(rt; flick_breaks(rt.alloc()) == Some(true));
}
