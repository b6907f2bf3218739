//! Laws of runs and replays in stretches.

ghost use Rattle.run_laws.specs.StretchLaws.{NoCircleInStretches, OneEndingInStretches, OneReplayInStretches, OneRunInStretches};
ghost use Rattle.run_laws.specs.StretchLaws.{OrderInStretches, ReplayStretchesKeepContents, RunStretchesKeepContents};

/// For a design, its map, an environment, a plan of gates and a test of where resets come there is exactly one run of each number of
/// rows, with exactly one way to cut it into stretches.
pub fn one_run_in_stretches()
    ensures { OneRunInStretches }
{}

/// For a design, its map, an environment, a plan of gates and a test of where resets come there is exactly one run of each number of
/// cycles, and it ends in exactly one way: with all its rows, or before the first unstable one, whose lowest channel is told.
pub fn one_ending_in_stretches()
    ensures { OneEndingInStretches }
{}

/// For a design, its map and the epochs of a trace there is exactly one replay of each number of rows, with exactly one way to cut it
/// into stretches.
pub fn one_replay_in_stretches()
    ensures { OneReplayInStretches }
{}

/// In each stable stretch of a run each transaction completes with the content of its start, and the trace of fewer than 65,536
/// rows is well-formed, where offers stay until they are taken and gates go down only at completions.
pub fn run_stretches_keep_contents()
    ensures { RunStretchesKeepContents }
{}

/// The same of each stable stretch of a replay.
pub fn replay_stretches_keep_contents()
    ensures { ReplayStretchesKeepContents }
{}

/// A replay has at most as many stretches as there are epochs. In what a stable stretch records, each event that the replayers control
/// is a recorded one of its epoch, with its content, and comes after every completion of the epoch that was recorded before it.
pub fn order_in_stretches()
    ensures { OrderInStretches }
{}

/// Where a replay hasn't ended and the stretch of its last row is stable, no event of the first packet of its epoch that it hasn't shown
/// whole is held back, and some event of it is waited for; where there is no such packet, the reset behind the epoch awaits nothing.
pub fn no_circle_in_stretches()
    ensures { NoCircleInStretches }
{}
