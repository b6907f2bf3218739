//! Designs that run cycle by cycle.

ghost use Rattle.std.specs.Prelude.{◌≡◌, ◌+◌, ◌<◌, ◌≤◌, ℕ, List, Option};
ghost use Rattle.std.specs.Borrow.{GName};
ghost use Rattle.chan_replayer.specs.trace_model.declared.packet.TheConstants.{MOST_CYCLES};
ghost use Rattle.chan_replayer.specs.trace_model.declared.row.Row.{Row};
ghost use Rattle.chan_replayer.specs.trace_model.Row.{IsOver};
ghost use Rattle.net_design.specs.declared.design.Design.{Design};
ghost use Rattle.net_design.specs.declared.values.Values.{Values};
ghost use Rattle.chan_replayer.specs.chan_map.declared.pins.Map.{Map};
ghost use Rattle.chan_replayer.specs.chan_monitor.Shell.{HasPlaces};
ghost use Rattle.chan_replayer.specs.run_model.Stretches.{and_stretch};
ghost use Rattle.run_stage.specs.Playing.{IsShown};
ghost use Rattle.run_stage.specs.Stretching.{BeginsBehind, GoesTo};

use crate::given::Given;
use chan_replayer::run_model::trace_model::Row;

/// A design that is given something in each cycle and shows a row for it. Each cycle is a `drive` and a `clock`. No call takes memory.
pub trait Stage<G: Given> {
    /// The map of the design's channels, which stays the same.
    ghost map: { Self → Map };

    /// It began as the first stage, which had shown no row since its reset, and runs this design. The next cycle begins in this state, behind
    /// these stretches of rows, each of which a reset ended, and these rows since.
    ghost runs: { Self → Self → Design → Values → List (List Row) → List Row → Type 0 };

    /// The last `drive` filled this row, and there was no `clock` and no `reset` since.
    ghost driven: { Self → Row → Type 0 };

    /// At most so many cycles came since it was made or last reset.
    ghost cycles: { Self → ℕ };

    /// The borrow that the design runs through, where there is one.
    ghost place: { Self → Option GName };

    /// What else stays the same.
    type Own;

    /// What it is.
    ghost own: { Self → Self.Own };

    /// Loads the design and runs the map's reset cycles: the next cycle begins in s_0, after no row.
    fn reset(&mut self)
        ensures first { (first : Self) (d : Design) (s : Values) (past : List (List Row)) (here : List Row) → runs first self.old d s past here
            → BeginsBehind d (map self.old) (runs first self.new) (and_stretch past here) }
        ensures cycles { cycles self.new ≡ 0 }
        ensures map { map self.new ≡ map self.old }
        ensures place { place self.new ≡ place self.old }
        ensures own { own self.new ≡ own self.old };

    /// Settles everything for what is given, and fills the row. Whether the row is fresh is the caller's to say, and stays. The row has a
    /// place for each port's number, as `row_over` makes it.
    fn drive(&mut self, given: &G, row: &mut Row)
        requires fits { G.fits (map self.old).channels given.now }
        requires places { HasPlaces (map self.old).channels row.old }
        ensures over { IsOver (map self.old).channels row.new }
        ensures row { (first : Self) (d : Design) (s : Values) (past : List (List Row)) (here : List Row) → runs first self.old d s past here
            → IsShown d (map self.old) s here (G.allows (map self.old).channels given.now) row.new }
        ensures fresh { row.new.fresh ≡ row.old.fresh }
        ensures runs { (first : Self) (d : Design) (s : Values) (past : List (List Row)) (here : List Row) → runs first self.old d s past here
            → runs first self.new d s past here }
        ensures driven { driven self.new row.new }
        ensures cycles { cycles self.new ≡ cycles self.old }
        ensures map { map self.new ≡ map self.old }
        ensures place { place self.new ≡ place self.old }
        ensures own { own self.new ≡ own self.old };

    /// Commits the cycle of the last `drive`: the state becomes the next one, and the row joins those before. At most `MOST_CYCLES`
    /// cycles follow one another without a reset.
    fn clock(&mut self)
        requires driven { (row : Row) × driven self.old row }
        requires few { cycles self.old < MOST_CYCLES }
        ensures next { (first : Self) (d : Design) (s : Values) (past : List (List Row)) (here : List Row) (row : Row)
            → runs first self.old d s past here → driven self.old row → GoesTo (runs first self.new) d (map self.old) s past here row }
        ensures cycles { cycles self.new ≤ cycles self.old + 1 }
        ensures map { map self.new ≡ map self.old }
        ensures place { place self.new ≡ place self.old }
        ensures own { own self.new ≡ own self.old };
}
