//! Players that ask for no reset.

ghost use Rattle.std.specs.Prelude.{◌≡◌, ◌≤◌, [], List, IfOk, IfErr};
ghost use Rattle.chan_replayer.specs.trace_model.declared.packet.TheConstants.{MOST_CYCLES};
ghost use Rattle.chan_replayer.specs.trace_model.declared.row.Row.{Row as OneRow};
ghost use Rattle.net_design.specs.declared.design.Design.{Design};
ghost use Rattle.run_stage.specs.Playing.{since, AreOver, Begins, Came, HasCome, Plays, Stops};

use crate::cycle::play_stretches;
use crate::ending::Ending;
use crate::given::Given;
use crate::player::Player;
use crate::stage::Stage;
use crate::stretch_player::StretchPlayer;
use crate::two_rows::TwoRows;
use chan_replayer::chan_map::Map;
use chan_replayer::run_model::trace_model::Row;

/// A player that asks for no reset, as one that might.
#[derive(Drop)]
struct Straight<'p, P> {
    player: &'p mut P,
}

impl<G: Given, P: Player<G>> StretchPlayer<G> for Straight<'_, P> {
    type Fault = P::Fault;

    ghost map = { λ s. P.map s.player.now };

    ghost most = { λ s. P.most s.player.now };

    ghost rule = { λ s past. P.rule s.player.now };

    ghost turns = { λ s past here. ⊥ };

    ghost stands = { λ first now past here. (past ≡ []) × (now.player.ghost_name ≡ first.player.ghost_name)
        × P.stands first.player.now now.player.now here };

    ghost ends = { λ s past. P.ends s.player.now };

    ghost broke = { λ first now past here fault. (past ≡ []) × (now.player.ghost_name ≡ first.player.ghost_name)
        × P.broke first.player.now now.player.now here fault };

    fn is_done(&self, last: &Row) -> bool {
        self.player.is_done(last)
    }

    fn turns(&mut self, _last: &Row) -> bool {
        false
    }

    fn given(&self) -> &G {
        self.player.given()
    }

    fn keep(&mut self, cycle: u32, last: &Row) -> Result<(), P::Fault> {
        self.player.keep(cycle, last)
    }
}

/// `play_stretches` of a player that asks for no reset.
fn play_straight<G: Given, S: Stage<G>, P: Player<G>>(
    stage: &mut S,
    straight: &mut Straight<'_, P>,
    map: &Map,
    cycles: u32,
    rows: &mut TwoRows,
) -> Result<Ending, P::Fault>
    requires mapped { S.map stage.old ≡ map.now }
    requires same { P.map straight.old.player.now ≡ map.now }
    requires begun { ∥ ((d : Design) × Begins d map.now (since (S.runs stage.old stage.old))) ∥₁ }
    requires reset { S.cycles stage.old ≡ 0 }
    requires stands { P.stands straight.old.player.now straight.old.player.now [] }
    requires few { cycles ≤ MOST_CYCLES }
    requires most { cycles ≤ P.most straight.old.player.now }
    requires rows { AreOver map.now.channels rows.old }
    requires silent { rows.old.last.valids ≡ 0 }
    ensures ok { IfOk result (λ ending. (played : List OneRow) × P.stands straight.old.player.now straight.new.player.now played
        × HasCome (P.ends straight.old.player.now) cycles played × Came (P.ends straight.old.player.now) cycles played ending
        × ((d : Design) → Begins d map.now (since (S.runs stage.old stage.old))
        → Plays d map.now (P.rule straight.old.player.now) (since (S.runs stage.old stage.new)) rows.new.last played
        × Stops d map.now (P.rule straight.old.player.now) played ending)) }
    ensures fault { IfErr result (λ fault. (played : List OneRow)
        × P.broke straight.old.player.now straight.new.player.now played fault
        × HasCome (P.ends straight.old.player.now) cycles played
        × ((d : Design) → Begins d map.now (since (S.runs stage.old stage.old))
        → Plays d map.now (P.rule straight.old.player.now) (since (S.runs stage.old stage.new)) rows.new.last played)) }
    ensures name { straight.new.player.ghost_name ≡ straight.old.player.ghost_name }
    ensures rows { AreOver map.now.channels rows.new }
    ensures map { S.map stage.new ≡ S.map stage.old }
    ensures place { S.place stage.new ≡ S.place stage.old }
    ensures own { S.own stage.new ≡ S.own stage.old }
{
    play_stretches(stage, straight, map, cycles, rows)
}

/// `play_stretches` of a player that asks for no reset: all rows are one stretch.
pub fn play<G: Given, S: Stage<G>, P: Player<G>>(
    stage: &mut S,
    player: &mut P,
    map: &Map,
    cycles: u32,
    rows: &mut TwoRows,
) -> Result<Ending, P::Fault>
    requires mapped { S.map stage.old ≡ map.now }
    requires same { P.map player.old ≡ map.now }
    requires begun { ∥ ((d : Design) × Begins d map.now (since (S.runs stage.old stage.old))) ∥₁ }
    requires reset { S.cycles stage.old ≡ 0 }
    requires stands { P.stands player.old player.old [] }
    requires few { cycles ≤ MOST_CYCLES }
    requires most { cycles ≤ P.most player.old }
    requires rows { AreOver map.now.channels rows.old }
    requires silent { rows.old.last.valids ≡ 0 }
    ensures ok { IfOk result (λ ending. (played : List OneRow) × P.stands player.old player.new played
        × HasCome (P.ends player.old) cycles played × Came (P.ends player.old) cycles played ending
        × ((d : Design) → Begins d map.now (since (S.runs stage.old stage.old))
        → Plays d map.now (P.rule player.old) (since (S.runs stage.old stage.new)) rows.new.last played
        × Stops d map.now (P.rule player.old) played ending)) }
    ensures fault { IfErr result (λ fault. (played : List OneRow) × P.broke player.old player.new played fault
        × HasCome (P.ends player.old) cycles played
        × ((d : Design) → Begins d map.now (since (S.runs stage.old stage.old))
        → Plays d map.now (P.rule player.old) (since (S.runs stage.old stage.new)) rows.new.last played)) }
    ensures rows { AreOver map.now.channels rows.new }
    ensures map { S.map stage.new ≡ S.map stage.old }
    ensures place { S.place stage.new ≡ S.place stage.old }
    ensures own { S.own stage.new ≡ S.own stage.old }
{
    let mut straight = Straight { player };
    play_straight(stage, &mut straight, map, cycles, rows)
}
