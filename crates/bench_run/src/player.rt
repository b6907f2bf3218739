//! Who plays a plain run.

ghost use Rattle.std.specs.Prelude.{◌≡◌, ◌≤◌, if◌then◌else◌, length, IfOk};
ghost use Rattle.run_stage.specs.run_model.Played.{all_up};
ghost use Rattle.env_script.specs.Offered.{offers_on, AllFit};
ghost use Rattle.env_script.specs.trace_model.declared.packet.TheConstants.{MOST_CHANNELS};

use env_script::trace_model::{Channels, Row, Rows, all_up};
use env_script::{Env, gather, is_due, offers_over};
use run_stage::chan_map::Map;
use run_stage::chan_monitor::vidi_bits::{Items, Memory, Numbers};
use run_stage::{Gated, StretchPlayer};
use std::alloc::Global;

/// What the player of a plain run holds.
#[derive(Drop)]
pub(crate) struct PlainCells {
    pub alloc: Global,
    /// What is given for the next row.
    pub given: Gated,
    /// The rows so far.
    pub rows: Rows,
    /// How many they are.
    pub cycles: u32,
    /// How many of them are fresh.
    pub resets: usize,
}

/// An environment that plays with all gates up and asks for resets at given times, and the rows so far.
#[derive(Drop)]
pub(crate) struct PlainPlayer<'m, 'r, 'e, 'c, E: Env> {
    pub map: &'m Map,
    /// The times of the resets: each comes before the row with that number, or before a later one.
    pub resets: &'r Numbers,
    pub env: &'e mut E,
    pub cells: &'c mut PlainCells,
}

/// A copy of a row.
pub fn copied_row(alloc: Global, row: &Row) -> Result<Row, Memory>
    ensures { IfOk result (λ copy. copy ≡ row.now) }
{
    let contents = Vec::from_slice(alloc, row.contents.as_slice())?;
    Ok(Row {
        fresh: row.fresh,
        gates: row.gates,
        valids: row.valids,
        readies: row.readies,
        contents: Items::from_vec(contents),
        starts: row.starts,
        ends: row.ends,
    })
}

/// 1 where the row is fresh, else 0.
fn mark(row: &Row) -> usize
    ensures { result ≡ if row.now.fresh then 1 else 0 }
{
    usize::from(row.fresh)
}

/// What an environment offers now on these channels, of which there are at most `MOST_CHANNELS`, with all gates up.
pub fn given_now<E: Env>(alloc: Global, env: &E, channels: &Channels) -> Result<Gated, Memory>
    requires channels { E.channels env.now ≡ channels.now }
    requires few { length channels.now ≤ MOST_CHANNELS }
    requires fits { AllFit channels.now (E.current env.now) }
    ensures offers { IfOk result (λ given. given.offers ≡ offers_on channels.now (E.current env.now)) }
    ensures gates { IfOk result (λ given. given.gates ≡ all_up channels.now) }
{
    let mut offers = offers_over(alloc, channels)?;
    gather(env, channels, &mut offers);
    let gates = all_up(channels.len());
    Ok(Gated { offers, gates })
}

impl<E: Env> StretchPlayer<Gated> for PlainPlayer<'_, '_, '_, '_, E> {
    ghost use Rattle.std.specs.Prelude.{false, not};
    ghost use Rattle.run_stage.specs.run_model.Run.{AllUp, IsStretchRow};
    ghost use Rattle.run_stage.specs.run_model.Stretches.{offers_behind, Turns};
    ghost use Rattle.run_stage.specs.chan_monitor.vidi_bits.Findings.{is_nil};
    ghost use Rattle.run_stage.specs.Stretching.{all_rows};
    ghost use Rattle.env_script.specs.Offered.{offers_after};
    ghost use Rattle.env_script.specs.Resets.{is_due_behind};
    ghost use Rattle.env_script.specs.trace_model.declared.packet.TheConstants.{MOST_CYCLES};
    ghost use Rattle.bench_run.specs.Playing.{IsAt, IsSame};

    type Fault = Memory;

    ghost map = { λ p. p.map.now };

    ghost most = { λ _. MOST_CYCLES };

    ghost rule = { λ p past. IsStretchRow (not (is_nil past)) p.map.now.channels
        (offers_behind (offers_after p.map.now.channels (E.offer (E.plan p.env.now))) past) (AllUp p.map.now.channels) };

    ghost turns = { λ p. Turns (is_due_behind p.resets.now) };

    ghost stands = { λ first now past here. IsSame first.map.now now.map.now first.resets.now now.resets.now first.env.ghost_name
        now.env.ghost_name first.cells.ghost_name now.cells.ghost_name (E.plan first.env.now) (E.plan now.env.now) (E.channels now.env.now)
        × IsAt first.map.now.channels (E.stands_for now.env.now) (E.current now.env.now) now.cells.now (all_rows past here) };

    ghost ends = { λ _ _ _ over. over ≡ false };

    ghost broke = { λ first now past here _. IsSame first.map.now now.map.now first.resets.now now.resets.now first.env.ghost_name
        now.env.ghost_name first.cells.ghost_name now.cells.ghost_name (E.plan first.env.now) (E.plan now.env.now) (E.channels now.env.now)
        × E.stands_for now.env.now (all_rows past here) };

    fn is_done(&self, _last: &Row) -> bool {
        false
    }

    fn turns(&mut self, _last: &Row) -> bool {
        is_due(self.resets.as_slice(), self.cells.resets, self.cells.cycles)
    }

    fn given(&self) -> &Gated {
        &self.cells.given
    }

    fn keep(&mut self, cycle: u32, last: &Row) -> Result<(), Memory> {
        self.env.commit(last);
        let row = copied_row(self.cells.alloc, last)?;
        self.cells.rows.push(row)?;
        self.cells.cycles = cycle + 1;
        self.cells.resets += mark(last);
        gather(self.env, &self.map.channels, &mut self.cells.given.offers);
        Ok(())
    }
}
