//! Runs of a shell under what is given in each cycle.

ghost use Rattle.std.specs.Prelude.{◌≡◌, ◌<◌, ◌≤◌, All, Option, length, IfOk};
ghost use Rattle.bench_run.specs.trace_model.declared.packet.TheConstants.{MOST_CYCLES};
ghost use Rattle.bench_run.specs.trace_model.declared.row.Row.{Row as OneRow};
ghost use Rattle.net_design.specs.declared.design.Design.{Design};
ghost use Rattle.net_design.specs.declared.values.Values.{Values};
ghost use Rattle.run_stage.specs.Given.{FitsGates};
ghost use Rattle.run_checks.specs.Playing.{EndsAs, IsAt, IsTurn};

use bench_run::chan_map::Map;
use bench_run::chan_monitor::Shell;
use bench_run::copied_row;
use bench_run::trace_model::{Row, Rows};
use bench_run::vidi_bits::Memory;
use run_stage::{Ending, Gated, Player, TwoRows, play};
use std::alloc::Global;
use std::cmp::min;

/// The rows of a run.
#[derive(Drop)]
pub struct Played {
    /// The rows before the first unstable one; all of them where none is.
    pub rows: Rows,
    /// Whether a row is unstable.
    pub ending: Ending,
}

/// What is given in each cycle, and the rows so far.
#[derive(Drop)]
struct Turns<'m, 't> {
    alloc: Global,
    map: &'m Map,
    given: &'t [Gated],
    rows: Rows,
}

impl Player<Gated> for Turns<'_, '_> {
    ghost use Rattle.std.specs.Prelude.{false};

    type Fault = Memory;

    ghost map = { λ turns. turns.map.now };

    ghost most = { λ _. MOST_CYCLES };

    ghost rule = { λ turns. IsTurn turns.map.now.channels turns.given.now };

    ghost stands = { λ first now rows. IsAt first.map.now now.map.now first.given.now now.given.now now.rows rows };

    ghost ends = { λ _ _ over. over ≡ false };

    ghost broke = { λ _ _ _ _. Unit {0} };

    fn is_done(&self, _last: &Row) -> bool {
        false
    }

    // Behind the last cycle nothing more is asked for.
    fn given(&self) -> &Gated {
        let cycle = min(self.rows.len(), self.given.len() - 1);
        &self.given[cycle]
    }

    fn keep(&mut self, _cycle: u32, last: &Row) -> Result<(), Memory> {
        let row = copied_row(self.alloc, last)?;
        self.rows.push(row)
    }
}

/// The rows of a shell from a reset on, under what is given in each cycle: they are a run of each design that the shell runs, which ends
/// before the first unstable row.
pub fn play_shell<S: Shell>(
    alloc: Global,
    shell: &mut S,
    map: &Map,
    given: &[Gated],
) -> Result<Played, Memory>
    requires mapped { S.map shell.old ≡ map.now }
    requires fits { All (FitsGates map.now.channels) given.now }
    requires some { 0 < length given.now }
    requires few { length given.now ≤ MOST_CYCLES }
    ensures run { IfOk result (λ played. (d : Design) (s : Values) (before : Option OneRow) → S.runs shell.old d s before
        → EndsAs d map.now given.now played.rows played.ending) }
    ensures map { S.map shell.new ≡ S.map shell.old }
{
    shell.reset();
    let mut two = TwoRows::new(alloc, &map.channels)?;
    let mut turns = Turns {
        alloc,
        map,
        given,
        rows: Rows::new(alloc),
    };
    let ending = play(shell, &mut turns, map, given.len() as u32, &mut two)?;
    let Turns { rows, .. } = turns;
    Ok(Played { rows, ending })
}
