//! Designs that replayers drive.

ghost use Rattle.std.specs.Prelude.{◌≡◌, ◌+◌, ◌<◌, ℕ, [], List};
ghost use Rattle.vec_clock.specs.trace_model.declared.packet.TheConstants.{MOST_CYCLES};
ghost use Rattle.vec_clock.specs.trace_model.declared.row.Row.{Row};
ghost use Rattle.vec_clock.specs.trace_model.Row.{IsOver};
ghost use Rattle.net_design.specs.declared.design.Design.{Design};
ghost use Rattle.net_design.specs.declared.values.Values.{Values};
ghost use Rattle.chan_monitor.specs.chan_map.declared.pins.Map.{Map};
ghost use Rattle.chan_monitor.specs.run_model.Step.{IsFirst};
ghost use Rattle.chan_monitor.specs.Shell.{HasPlaces, IsMapped};
ghost use Rattle.chan_replayer.specs.Feed.{IsFeedOver};
ghost use Rattle.chan_replayer.specs.Shell.{GoesTo, IsRunning, IsShown};

use crate::feed::Feed;
use vec_clock::trace_model::Row;

/// A design behind replayers and the gates of its channels, all of which are up. It runs cycle by cycle; each cycle is a `drive`
/// and a `clock`. No call takes memory.
pub trait ReplayShell {
    /// The map of the design's channels, which stays the same.
    ghost map: { Self → Map };

    /// The shell runs this design; the next cycle begins in this state, after these rows since it was made or last reset. What is
    /// in flight is what is in flight after the last of them, and what has completed is what completes in them.
    ghost runs: { Self → Design → Values → List Row → Type 0 };

    /// The number of cycles since it was made or last reset.
    ghost cycles: { Self → ℕ };

    /// The last `drive` filled this row, and there was no `clock` and no `reset` since.
    ghost driven: { Self → Row → Type 0 };

    /// Loads the design and runs the map's reset cycles. The next cycle begins in s_0 with no channel in flight and nothing
    /// completed, whatever was before.
    fn reset(&mut self)
        ensures first { (d : Design) (s : Values) (rows : List Row) → runs self.old d s rows
            → (first : Values) × IsFirst d (map self.old) first × runs self.new d first [] }
        ensures cycles { cycles self.new ≡ 0 }
        ensures undriven { (row : Row) → ¬ driven self.new row }
        ensures map { map self.new ≡ map self.old };

    /// Settles everything for what replayers offer under this feed, and fills the row: under the feed of a trace it is the row
    /// of *IsReplay*. Whether the row is fresh is the caller's to say, and stays. The row has a place for each port's number, as `row_over`
    /// makes it.
    fn drive(&mut self, feed: &Feed, row: &mut Row)
        requires feed { IsFeedOver (map self.old).channels feed.now }
        requires places { HasPlaces (map self.old).channels row.old }
        ensures over { IsOver (map self.old).channels row.new }
        ensures row { (d : Design) (s : Values) (rows : List Row) → runs self.old d s rows → IsShown d (map self.old) s rows feed.now row.new }
        ensures fresh { row.new.fresh ≡ row.old.fresh }
        ensures runs { (d : Design) (s : Values) (rows : List Row) → runs self.old d s rows → runs self.new d s rows }
        ensures driven { driven self.new row.new }
        ensures cycles { cycles self.new ≡ cycles self.old }
        ensures map { map self.new ≡ map self.old };

    /// Commits the cycle of the last `drive`, since which there was no `clock` and no `reset`: the state becomes the next one, and
    /// the row joins those before. At most `MOST_CYCLES` cycles follow one another without a reset.
    fn clock(&mut self)
        requires driven { (row : Row) × driven self.old row }
        requires few { cycles self.old < MOST_CYCLES }
        ensures next { (d : Design) (s : Values) (rows : List Row) (row : Row) → runs self.old d s rows → driven self.old row
            → GoesTo (runs self.new) d (map self.old) s rows row }
        ensures cycles { cycles self.new ≡ cycles self.old + 1 }
        ensures undriven { (row : Row) → ¬ driven self.new row }
        ensures map { map self.new ≡ map self.old };

    /// It runs some design.
    ghost running: { (shell : Self) → ∥ IsRunning (runs shell) ∥₁ };

    /// The design settles in one way, and the map is a map of it.
    ghost ready: { (shell : Self) (d : Design) (s : Values) (rows : List Row) → runs shell d s rows → IsMapped d (map shell) };
}
