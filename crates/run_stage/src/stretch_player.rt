//! Who gives what a stage is given, keeps the rows, and may ask for a reset in mid-run.

ghost use Rattle.std.specs.Prelude.{◌≡◌, ◌<◌, ◌++◌, ◌∷◌, [], ℕ, Bool, true, false, List, length, IfOk, IfErr};
ghost use Rattle.chan_replayer.specs.trace_model.declared.row.Row.{Row};
ghost use Rattle.chan_replayer.specs.trace_model.Row.{row_before, IsOver};
ghost use Rattle.chan_replayer.specs.chan_map.declared.pins.Map.{Map};
ghost use Rattle.chan_replayer.specs.run_model.Stretches.{and_stretch};
ghost use Rattle.run_stage.specs.Playing.{IsLast};
ghost use Rattle.run_stage.specs.Stretching.{all_rows, is_fresh_behind, AreRuledStretches};

use crate::given::Given;
use chan_replayer::run_model::trace_model::Row;

/// Who gives what a stage is given in each cycle, keeps the rows that it shows, and may ask for a reset between two rows. What a player is for, its rule above all, is said of
/// the player that it was at the start, `first` below. It speaks of the stretches of rows before the last reset in mid-run, and of the rows
/// since.
pub trait StretchPlayer<G: Given> {
    /// Why no further row can be kept.
    type Fault;

    /// The map of the channels that it plays on.
    ghost map: { Self → Map };

    /// The most rows that it can keep.
    ghost most: { Self → ℕ };

    /// Behind these stretches, after these rows since, the next one has to be this.
    ghost rule: { Self → List (List Row) → List Row → Row → Type 0 };

    /// A reset in mid-run comes behind these stretches and these rows since, of which there is one.
    ghost turns: { Self → List (List Row) → List Row → Type 0 };

    /// It began as the first player and stands behind these rows, with all that it leaves as it was.
    ghost stands: { Self → Self → List (List Row) → List Row → Type 0 };

    /// Whether it is done behind these rows.
    ghost ends: { Self → List (List Row) → List Row → Bool → Type 0 };

    /// It began as the first player, and this fault came when it kept the last of these rows.
    ghost broke: { Self → Self → List (List Row) → List Row → Self.Fault → Type 0 };

    /// Whether it wants no further row. The last row is that before, or a silent one.
    fn is_done(&self, last: &Row) -> bool
        requires { (first : Self) × (past : List (List Row)) × (here : List Row) × stands first self.now past here
            × IsOver (map first).channels last.now }
        ensures { (first : Self) (past : List (List Row)) (here : List Row) → stands first self.now past here
            → AreRuledStretches (map first) (rule first) (turns first) past here → IsLast (row_before here (length here)) last.now
            → ends first past here result };

    /// Whether a reset comes now, behind at least one row since the last one. Where it does, the player turns to the rows behind it.
    fn turns(&mut self, last: &Row) -> bool
        requires { (first : Self) × (past : List (List Row)) × (here : List Row) × stands first self.old past here
            × (0 < length here) × IsOver (map first).channels last.now }
        ensures turned { result ≡ true → (first : Self) (past : List (List Row)) (here : List Row) → stands first self.old past here
            → 0 < length here → AreRuledStretches (map first) (rule first) (turns first) past here → IsLast (row_before here (length here)) last.now
            → turns first past here × stands first self.new (and_stretch past here) [] }
        ensures on { result ≡ false → (first : Self) (past : List (List Row)) (here : List Row) → stands first self.old past here
            → 0 < length here → AreRuledStretches (map first) (rule first) (turns first) past here → IsLast (row_before here (length here)) last.now
            → (¬ turns first past here) × stands first self.new past here };

    /// What the stage is given in the next cycle: each row that it allows is one that has to come.
    fn given(&self) -> &G
        requires { (first : Self) × (past : List (List Row)) × (here : List Row) × stands first self.now past here }
        ensures fits { (first : Self) (past : List (List Row)) (here : List Row) → stands first self.now past here
            → G.fits (map first).channels result.now }
        ensures ruled { (first : Self) (past : List (List Row)) (here : List Row) (row : Row) → stands first self.now past here
            → G.allows (map first).channels result.now here row → row.fresh ≡ is_fresh_behind past here → rule first past here row };

    /// Keeps the row of a cycle, which was committed, and turns to the next.
    fn keep(&mut self, cycle: u32, last: &Row) -> Result<(), Self::Fault>
        requires { (first : Self) × (past : List (List Row)) × (here : List Row) × (length (all_rows past here) ≡ cycle) × (cycle < most first)
            × stands first self.old past here × AreRuledStretches (map first) (rule first) (turns first) past (here ++ last.now ∷ []) }
        ensures stands { IfOk result (λ _. (first : Self) (past : List (List Row)) (here : List Row) → length (all_rows past here) ≡ cycle
            → stands first self.old past here → AreRuledStretches (map first) (rule first) (turns first) past (here ++ last.now ∷ [])
            → stands first self.new past (here ++ last.now ∷ [])) }
        ensures broke { IfErr result (λ fault. (first : Self) (past : List (List Row)) (here : List Row) → length (all_rows past here) ≡ cycle
            → stands first self.old past here → AreRuledStretches (map first) (rule first) (turns first) past (here ++ last.now ∷ [])
            → broke first self.new past (here ++ last.now ∷ []) fault) };
}
