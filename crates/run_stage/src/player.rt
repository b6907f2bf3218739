//! Who gives what a stage is given, and keeps the rows.

ghost use Rattle.std.specs.Prelude.{◌≡◌, ◌<◌, ◌++◌, ◌∷◌, [], ℕ, Bool, false, List, length, IfOk, IfErr};
ghost use Rattle.chan_replayer.specs.trace_model.declared.row.Row.{Row};
ghost use Rattle.chan_replayer.specs.trace_model.Row.{row_before, IsOver};
ghost use Rattle.chan_replayer.specs.chan_map.declared.pins.Map.{Map};
ghost use Rattle.run_stage.specs.Playing.{AreRuled, IsLast};

use crate::given::Given;
use chan_replayer::run_model::trace_model::Row;

/// Who gives what a stage is given in each cycle, keeps the rows that it shows, and asks for no reset. What a player is for, its rule above all, is said of
/// the player that it was at the start, `first` below.
pub trait Player<G: Given> {
    /// Why no further row can be kept.
    type Fault;

    /// The map of the channels that it plays on.
    ghost map: { Self → Map };

    /// The most rows that it can keep.
    ghost most: { Self → ℕ };

    /// After these rows the next one has to be this.
    ghost rule: { Self → List Row → Row → Type 0 };

    /// It began as the first player and stands behind these rows, with all that it leaves as it was.
    ghost stands: { Self → Self → List Row → Type 0 };

    /// Whether it is done behind these rows.
    ghost ends: { Self → List Row → Bool → Type 0 };

    /// It began as the first player, and this fault came when it kept the last of these rows.
    ghost broke: { Self → Self → List Row → Self.Fault → Type 0 };

    /// Whether it wants no further row. The last row is that before, or a silent one.
    fn is_done(&self, last: &Row) -> bool
        requires { (first : Self) × (rows : List Row) × stands first self.now rows × IsOver (map first).channels last.now }
        ensures { (first : Self) (rows : List Row) → stands first self.now rows → AreRuled (map first) (rule first) rows
            → IsLast (row_before rows (length rows)) last.now → ends first rows result };

    /// What the stage is given in the next cycle: each row that it allows is one that has to come.
    fn given(&self) -> &G
        requires { (first : Self) × (rows : List Row) × stands first self.now rows }
        ensures fits { (first : Self) (rows : List Row) → stands first self.now rows → G.fits (map first).channels result.now }
        ensures ruled { (first : Self) (rows : List Row) (row : Row) → stands first self.now rows
            → G.allows (map first).channels result.now rows row → row.fresh ≡ false → rule first rows row };

    /// Keeps the row of a cycle, which was committed, and turns to the next.
    fn keep(&mut self, cycle: u32, last: &Row) -> Result<(), Self::Fault>
        requires { (first : Self) × (rows : List Row) × (length rows ≡ cycle) × (cycle < most first) × stands first self.old rows
            × AreRuled (map first) (rule first) (rows ++ last.now ∷ []) }
        ensures stands { IfOk result (λ _. (first : Self) (rows : List Row) → length rows ≡ cycle → stands first self.old rows
            → AreRuled (map first) (rule first) (rows ++ last.now ∷ []) → stands first self.new (rows ++ last.now ∷ [])) }
        ensures broke { IfErr result (λ fault. (first : Self) (rows : List Row) → length rows ≡ cycle → stands first self.old rows
            → AreRuled (map first) (rule first) (rows ++ last.now ∷ []) → broke first self.new (rows ++ last.now ∷ []) fault) };
}
