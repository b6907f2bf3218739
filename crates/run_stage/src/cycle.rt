//! Cycles.

ghost use Rattle.std.specs.Prelude.{◌≡◌, ◌+◌, ◌<◌, ◌≤◌, ◌++◌, ◌∷◌, [], ℕ, true, false, List, None, Some, length, IfOk, IfErr};
ghost use Rattle.chan_replayer.specs.trace_model.declared.packet.TheConstants.{MOST_CYCLES};
ghost use Rattle.chan_replayer.specs.trace_model.declared.row.Row.{Row as OneRow};
ghost use Rattle.chan_replayer.specs.trace_model.Row.{row_before};
ghost use Rattle.net_design.specs.declared.design.Design.{Design};
ghost use Rattle.chan_replayer.specs.run_model.Played.{AreStable, StopsBefore};
ghost use Rattle.chan_replayer.specs.run_model.Stretches.{and_stretch};
ghost use Rattle.run_stage.specs.Playing.{AreOver, IsLast};
ghost use Rattle.run_stage.specs.Stretching.{is_fresh_behind, AllAreStable, AreRuledStretches, BeginsBehind, CameBehind, GoesOn, HaveCome};
ghost use Rattle.run_stage.specs.Stretching.{PlayStretches, StopIn};

use crate::ending::Ending;
use crate::given::Given;
use crate::stage::Stage;
use crate::stretch_player::StretchPlayer;
use crate::two_rows::TwoRows;
use chan_replayer::chan_map::Map;
use chan_replayer::run_model::trace_model::unstable;
use std::mem::swap;

/// Resets the stage where the player says so, behind at least one row since the last reset, and says whether it did: then no row comes
/// before the next one. Before the first cycle no reset comes.
fn turn<G: Given, S: Stage<G>, P: StretchPlayer<G>>(
    stage: &mut S,
    player: &mut P,
    map: &Map,
    cycle: u32,
    rows: &mut TwoRows,
) -> bool
    requires mapped { S.map stage.old ≡ map.now }
    requires stands { (first : P) × (past : List (List OneRow)) × (here : List OneRow) × P.stands first player.old past here
        × (0 < cycle → 0 < length here) × (P.map first ≡ map.now) }
    requires rows { AreOver map.now.channels rows.old }
    ensures turned { result ≡ true → (first : P) (past : List (List OneRow)) (here : List OneRow) → P.stands first player.old past here
        → 0 < length here → P.map first ≡ map.now → AreRuledStretches map.now (P.rule first) (P.turns first) past here
        → IsLast (row_before here (length here)) rows.old.last
        → P.turns first past here × P.stands first player.new (and_stretch past here) [] }
    ensures resets { result ≡ true → (first : P) (start : S) (d : Design) (past : List (List OneRow)) (here : List OneRow)
        → 0 < length here → P.turns first past here
        → PlayStretches d map.now (P.rule first) (P.turns first) (S.runs start stage.old) rows.old.last past here
        → PlayStretches d map.now (P.rule first) (P.turns first) (S.runs start stage.new) rows.new.last (and_stretch past here) [] }
    ensures silent { result ≡ true → (rows.new.last.valids ≡ 0) × (0 < cycle) }
    ensures on { result ≡ false → (first : P) (past : List (List OneRow)) (here : List OneRow) → P.stands first player.old past here
        → (0 < cycle → 0 < length here) → length here ≤ cycle → P.map first ≡ map.now
        → AreRuledStretches map.now (P.rule first) (P.turns first) past here → IsLast (row_before here (length here)) rows.old.last
        → GoesOn (P.turns first) past here × P.stands first player.new past here }
    ensures same { result ≡ false → (stage.new ≡ stage.old) × (rows.new ≡ rows.old) }
    ensures rows { AreOver map.now.channels rows.new }
    ensures cycles { S.cycles stage.new ≤ S.cycles stage.old }
    ensures map { S.map stage.new ≡ S.map stage.old }
    ensures place { S.place stage.new ≡ S.place stage.old }
    ensures own { S.own stage.new ≡ S.own stage.old }
{
    if cycle == 0 || !player.turns(&rows.last) {
        return false;
    }
    stage.reset();
    rows.last.valids = 0;
    true
}

/// A cycle, whose row is fresh or not. Gives the lowest channel on which its row is unstable, and then the cycle isn't committed; else its
/// row becomes the last one, and isn't kept yet.
fn play_cycle<G: Given, S: Stage<G>, P: StretchPlayer<G>>(
    stage: &mut S,
    player: &P,
    map: &Map,
    fresh: bool,
    rows: &mut TwoRows,
) -> Option<usize>
    requires mapped { S.map stage.old ≡ map.now }
    requires stands { (first : P) × (past : List (List OneRow)) × (here : List OneRow) × P.stands first player.now past here
        × (P.map first ≡ map.now) }
    requires rows { AreOver map.now.channels rows.old }
    requires few { S.cycles stage.old < MOST_CYCLES }
    ensures on { result ≡ None → (first : P) (start : S) (d : Design) (past : List (List OneRow)) (here : List OneRow) → P.stands first player.now past here
        → P.map first ≡ map.now → fresh ≡ is_fresh_behind past here → GoesOn (P.turns first) past here
        → PlayStretches d map.now (P.rule first) (P.turns first) (S.runs start stage.old) rows.old.last past here
        → PlayStretches d map.now (P.rule first) (P.turns first) (S.runs start stage.new) rows.new.last past (here ++ rows.new.last ∷ []) }
    ensures stable { result ≡ None → (past : List (List OneRow)) (here : List OneRow) → IsLast (row_before here (length here)) rows.old.last
        → AllAreStable map.now.channels past here → AllAreStable map.now.channels past (here ++ rows.new.last ∷ []) }
    ensures stops { (c : ℕ) → result ≡ Some c → (first : P) (start : S) (d : Design) (past : List (List OneRow)) (here : List OneRow)
        → P.stands first player.now past here → P.map first ≡ map.now → fresh ≡ is_fresh_behind past here
        → PlayStretches d map.now (P.rule first) (P.turns first) (S.runs start stage.old) rows.old.last past here
        → StopsBefore d map.now (P.rule first past) here c
        × PlayStretches d map.now (P.rule first) (P.turns first) (S.runs start stage.new) rows.new.last past here }
    ensures rows { AreOver map.now.channels rows.new }
    ensures cycles { S.cycles stage.new ≤ S.cycles stage.old + 1 }
    ensures map { S.map stage.new ≡ S.map stage.old }
    ensures place { S.place stage.new ≡ S.place stage.old }
    ensures own { S.own stage.new ≡ S.own stage.old }
{
    rows.row.fresh = fresh;
    stage.drive(player.given(), &mut rows.row);
    if let Some(channel) = unstable(&rows.last, &rows.row, &map.channels) {
        return Some(channel);
    }
    stage.clock();
    swap(&mut rows.row, &mut rows.last);
    None
}

/// PlayStretches at most so many cycles, of which there are at most `MOST_CYCLES`, on a stage that was reset and has shown no row since. The map is
/// the stage's and the player's; the player stands behind no row, and the last row is a silent one.
///
/// `Whole` where all cycles were played; `Done` where the player was done before, or behind the last one; `Unstable` where the next row is
/// unstable. With a fault of the player the row at which it came is the last of those that were committed. Where the stage runs a
/// design, the rows are played by it under the player's rule, from its reset and from each reset that the player asks for, none is
/// unstable, and the stage stands behind them afterwards. It takes no memory.
pub fn play_stretches<G: Given, S: Stage<G>, P: StretchPlayer<G>>(
    stage: &mut S,
    player: &mut P,
    map: &Map,
    cycles: u32,
    rows: &mut TwoRows,
) -> Result<Ending, P::Fault>
    requires mapped { S.map stage.old ≡ map.now }
    requires same { P.map player.old ≡ map.now }
    requires begun { ∥ ((d : Design) × BeginsBehind d map.now (S.runs stage.old stage.old) []) ∥₁ }
    requires reset { S.cycles stage.old ≡ 0 }
    requires stands { P.stands player.old player.old [] [] }
    requires few { cycles ≤ MOST_CYCLES }
    requires most { cycles ≤ P.most player.old }
    requires rows { AreOver map.now.channels rows.old }
    requires silent { rows.old.last.valids ≡ 0 }
    ensures ok { IfOk result (λ ending. (past : List (List OneRow)) × (here : List OneRow) × P.stands player.old player.new past here
        × HaveCome (P.ends player.old) cycles past here × CameBehind (P.ends player.old) cycles past here ending
        × ((d : Design) → BeginsBehind d map.now (S.runs stage.old stage.old) []
        → PlayStretches d map.now (P.rule player.old) (P.turns player.old) (S.runs stage.old stage.new) rows.new.last past here
        × StopIn d map.now (P.rule player.old) (P.turns player.old) past here ending)) }
    ensures fault { IfErr result (λ fault. (past : List (List OneRow)) × (here : List OneRow) × P.broke player.old player.new past here fault
        × HaveCome (P.ends player.old) cycles past here
        × ((d : Design) → BeginsBehind d map.now (S.runs stage.old stage.old) []
        → PlayStretches d map.now (P.rule player.old) (P.turns player.old) (S.runs stage.old stage.new) rows.new.last past here)) }
    ensures rows { AreOver map.now.channels rows.new }
    ensures map { S.map stage.new ≡ S.map stage.old }
    ensures place { S.place stage.new ≡ S.place stage.old }
    ensures own { S.own stage.new ≡ S.own stage.old }
{
    for cycle in 0..cycles {
        if player.is_done(&rows.last) {
            return Ok(Ending::Done { cycles: cycle });
        }
        let fresh = turn(stage, player, map, cycle, rows);
        if let Some(channel) = play_cycle(stage, player, map, fresh, rows) {
            return Ok(Ending::Unstable { channel, cycle });
        }
        player.keep(cycle, &rows.last)?;
    }
    if player.is_done(&rows.last) {
        Ok(Ending::Done { cycles })
    } else {
        Ok(Ending::Whole)
    }
}
