//! Shells: designs that run behind the gates of their channels.

ghost use Rattle.std.specs.Prelude.{◌≡◌, ◌<◌, ◌^◌, ℕ, Option, length};
ghost use Rattle.std.specs.Borrow.{GName};
ghost use Rattle.run_model.specs.Offers.{AreZeroWhileDown};
ghost use Rattle.run_model.specs.trace_model.declared.row.Row.{Row};
ghost use Rattle.run_model.specs.trace_model.Row.{AreOffers};
ghost use Rattle.net_design.specs.declared.design.Design.{Design};
ghost use Rattle.net_design.specs.declared.values.Values.{Values};
ghost use Rattle.run_model.specs.chan_map.declared.pins.Map.{Map};
ghost use Rattle.run_model.specs.Step.{IsFirst, IsStep};
ghost use Rattle.chan_monitor.specs.Shell.{HasPlaces, IsMapped, IsRunning, IsShown};

use run_model::trace_model::{Offers, Row};

/// A design behind the gates of its channels, which runs cycle by cycle. Each cycle is a `drive` and a `clock`. No call takes
/// memory.
pub trait Shell {
    /// The map of the design's channels, which stays the same.
    ghost map: { Self → Map };

    /// The shell runs this design; the next cycle begins in this state, after this row: none after a reset. What is in flight
    /// is what is in flight after that row.
    ghost runs: { Self → Design → Values → Option Row → Type 0 };

    /// The last `drive` filled this row, and there was no `clock` and no `reset` since.
    ghost driven: { Self → Row → Type 0 };

    /// The borrow that the design runs through, where there is one.
    ghost place: { Self → Option GName };

    /// Loads the design and runs the map's reset cycles. The next cycle begins in s_0 with no channel in flight, whatever was
    /// before.
    fn reset(&mut self)
        ensures first { (d : Design) (s : Values) (before : Option Row) → runs self.old d s before
            → (first : Values) × IsFirst d (map self.old) first × runs self.new d first None }
        ensures undriven { (row : Row) → ¬ driven self.new row }
        ensures map { map self.new ≡ map self.old }
        ensures place { place self.new ≡ place self.old };

    /// Settles everything for these offers and gates, and fills the row: it is the row of *IsRun*. Bit c of a mask is channel
    /// c. An inward channel's content is 0 while its valid is down; an outward channel's numbers in the offers are passed over.
    /// Whether the row is fresh is the caller's to say, and stays.
    /// The row has a place for each port's number, as `row_over` makes it.
    fn drive(&mut self, offers: &Offers, gates: u128, row: &mut Row)
        requires offers { AreOffers (map self.old).channels offers.now }
        requires zeros { AreZeroWhileDown (map self.old).channels offers.now }
        requires gates { gates < 2 ^ length (map self.old).channels }
        requires places { HasPlaces (map self.old).channels row.old }
        ensures row { (d : Design) (s : Values) (before : Option Row) → runs self.old d s before
            → IsShown d (map self.old) s before offers.now gates row.new }
        ensures fresh { row.new.fresh ≡ row.old.fresh }
        ensures runs { (d : Design) (s : Values) (before : Option Row) → runs self.old d s before → runs self.new d s before }
        ensures driven { driven self.new row.new }
        ensures map { map self.new ≡ map self.old }
        ensures place { place self.new ≡ place self.old };

    /// Commits the cycle of the last `drive`, since which there was no `clock` and no `reset`: the state becomes the next one,
    /// and in flight is what is in flight after the row.
    fn clock(&mut self)
        requires driven { (row : Row) × driven self.old row }
        ensures next { (d : Design) (s : Values) (before : Option Row) (row : Row) → runs self.old d s before
            → driven self.old row → (after : Values) × IsStep d (map self.old) s row after × runs self.new d after (Some row) }
        ensures undriven { (row : Row) → ¬ driven self.new row }
        ensures map { map self.new ≡ map self.old }
        ensures place { place self.new ≡ place self.old };

    /// It runs some design.
    ghost running: { (shell : Self) → ∥ IsRunning (runs shell) ∥₁ };

    /// The design settles in one way, and the map is a map of it.
    ghost ready: { (shell : Self) (d : Design) (s : Values) (before : Option Row) → runs shell d s before → IsMapped d (map shell) };
}
