//! Two stages beside each other, whose rows may be unstable.

ghost use Rattle.std.specs.Prelude.{◌≡◌, ◌≤◌, ◌<◌, ◌+◌, length};
ghost use Rattle.shim_runs.specs.trace_model.declared.packet.TheConstants.{MOST_CHANNELS, MOST_CYCLES};
ghost use Rattle.shim_runs.specs.chan_monitor.Shell.{HasPlaces};

use crate::alike::{Course, are_same};
use crate::drawn::{Draw, Urn};
use shim_runs::run_stage::{Given, Stage};
use shim_runs::trace_model::{Channels, Row, row_over};
use shim_runs::vidi_bits::Memory;
use std::alloc::Global;

/// One cycle of a stage, and its row.
fn cycle<G: Given, S: Stage<G>>(stage: &mut S, given: &G, row: &mut Row)
    requires fits { G.fits (S.map stage.old).channels given.now }
    requires places { HasPlaces (S.map stage.old).channels row.old }
    requires few { S.cycles stage.old < MOST_CYCLES }
    ensures places { HasPlaces (S.map stage.old).channels row.new }
    ensures cycles { S.cycles stage.new ≤ S.cycles stage.old + 1 }
    ensures map { S.map stage.new ≡ S.map stage.old }
{
    stage.drive(given, row);
    stage.clock();
}

/// Resets two stages, and what is drawn for them, where it is time.
fn reset_if<G: Given, S: Stage<G>, T: Stage<G>>(
    now: bool,
    one: &mut S,
    other: &mut T,
    urn: &mut Urn,
)
    ensures one { S.map one.new ≡ S.map one.old }
    ensures other { T.map other.new ≡ T.map other.old }
    ensures one_cycles { S.cycles one.new ≤ S.cycles one.old }
    ensures other_cycles { T.cycles other.new ≤ T.cycles other.old }
    ensures channels { urn.new.channels.now ≡ urn.old.channels.now }
{
    if now {
        one.reset();
        other.reset();
        urn.reset();
    }
}

/// The first cycle in which two stages of these channels have different rows under what is drawn, from a reset on. Both are reset again
/// in the middle.
pub(crate) fn differ_at<G: Draw, S: Stage<G>, T: Stage<G>>(
    alloc: Global,
    one: &mut S,
    other: &mut T,
    channels: &Channels,
    course: Course,
) -> Result<Option<u32>, Memory>
    requires few { length channels.now ≤ MOST_CHANNELS }
    requires short { course.cycles ≤ MOST_CYCLES }
    requires one { (S.map one.old).channels ≡ channels.now }
    requires other { (T.map other.old).channels ≡ channels.now }
{
    let mut urn = Urn::new(alloc, channels, course.seed)?;
    let mut given = G::blank(alloc, channels)?;
    let mut row = row_over(alloc, channels)?;
    let mut its = row_over(alloc, channels)?;
    one.reset();
    other.reset();
    for at in 0..course.cycles {
        reset_if::<G, S, T>(at == course.cycles / 2, one, other, &mut urn);
        given.draw(&mut urn);
        cycle(one, &given, &mut row);
        cycle(other, &given, &mut its);
        if !are_same(&row, &its) {
            return Ok(Some(at));
        }
        urn.count(row.ends);
    }
    Ok(None)
}
