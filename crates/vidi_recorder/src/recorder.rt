//! The recorder as a player of cycles.

ghost use Rattle.std.specs.Prelude.{◌≡◌, false};
ghost use Rattle.trace_code.specs.trace_model.Channel.{IsTable};
ghost use Rattle.trace_code.specs.trace_model.declared.packet.TheConstants.{MOST_CYCLES};
ghost use Rattle.env_script.specs.run_model.Stretches.{Turns};
ghost use Rattle.run_stage.specs.Stretching.{all_rows};
ghost use Rattle.vidi_io.specs.Cause.{Rose};
ghost use Rattle.vidi_recorder.specs.Course.{plan_of, turns_within};
ghost use Rattle.vidi_recorder.specs.Standing.{BreaksAt, SameEnv, SameSink, StandsAt, lent, rule_within};

use crate::cells::Cells;
use crate::steps::{give, keep, offer, reset_comes, restart};
use env_script::chan_map::Map;
use env_script::{Env, Stalls};
use run_stage::{Gated, StretchPlayer};
use trace_code::trace_model::Row;
use vidi_io::vidi_bits::Numbers;
use vidi_io::{Failed, Sink};

/// An environment behind gates that asks for resets at given times, with a room and a store for the packets of its rows, and a sink into
/// which they drain.
#[derive(Drop)]
pub(crate) struct Recorder<'m, 'p, 'r, 'e, 'c, 's, E: Env, K: Sink> {
    pub map: &'m Map,
    pub stalls: &'p Stalls,
    /// The times of the resets: each comes before the row with that number, or before a later one.
    pub resets: &'r Numbers,
    /// How many cycles there are. No reset comes behind the last one.
    pub cycles: u32,
    pub env: &'e mut E,
    pub cells: &'c mut Cells,
    pub sink: &'s mut K,
}

impl<E: Env, K: Sink> StretchPlayer<Gated> for Recorder<'_, '_, '_, '_, '_, '_, E, K> {
    type Fault = Failed;

    ghost map = { λ s. s.map.now };

    ghost most = { λ _. MOST_CYCLES };

    ghost rule = { λ s. rule_within s.map.now.channels (E.offer (E.plan s.env.now)) (plan_of s.stalls.now s.resets.now) s.resets.now s.cycles };

    ghost turns = { λ s. Turns (turns_within s.map.now.channels (plan_of s.stalls.now s.resets.now) s.resets.now s.cycles) };

    ghost stands = { λ first now past here.
        (lent now.map.now now.stalls.now now.resets.now now.cycles now.env.ghost_name now.cells.ghost_name now.sink.ghost_name
        ≡ lent first.map.now first.stalls.now first.resets.now first.cycles first.env.ghost_name first.cells.ghost_name first.sink.ghost_name)
        × IsTable first.map.now.channels
        × SameEnv E.plan E.channels first.map.now.channels first.env.now now.env.now
        × SameSink K.faults K.place K.has_frame first.sink.now now.sink.now
        × StandsAt first.map.now.channels (plan_of first.stalls.now first.resets.now) first.resets.now first.cycles (K.told first.sink.now)
        (K.told now.sink.now) (E.stands_for now.env.now) (E.current now.env.now) now.cells.now past here };

    ghost ends = { λ _ _ _ over. over ≡ false };

    ghost broke = { λ first now past here _.
        (lent now.map.now now.stalls.now now.resets.now now.cycles now.env.ghost_name now.cells.ghost_name now.sink.ghost_name
        ≡ lent first.map.now first.stalls.now first.resets.now first.cycles first.env.ghost_name first.cells.ghost_name first.sink.ghost_name)
        × SameEnv E.plan E.channels first.map.now.channels first.env.now now.env.now
        × SameSink K.faults K.place K.has_frame first.sink.now now.sink.now
        × Rose (K.faults first.sink.now) (K.faults now.sink.now)
        × BreaksAt first.map.now.channels (plan_of first.stalls.now first.resets.now) first.resets.now first.cycles (K.told first.sink.now)
        (K.told now.sink.now) (E.stands_for now.env.now) (all_rows past here) };

    fn is_done(&self, _last: &Row) -> bool {
        false
    }

    fn turns(&mut self, _last: &Row) -> bool {
        self.cells.fresh
    }

    fn given(&self) -> &Gated {
        &self.cells.given
    }

    fn keep(&mut self, cycle: u32, last: &Row) -> Result<(), Failed> {
        let channels = &self.map.channels;
        let cells = &mut *self.cells;
        self.env.commit(last);
        keep(last, cycle, channels, cells);
        let comes = reset_comes(cells, self.resets, cycle, self.cycles);
        restart(cycle, comes, cells);
        give(
            &mut cells.room,
            self.stalls.allowance(cycle),
            &mut cells.store,
            cells.out.as_mut_slice(),
            self.sink,
        )?;
        offer(self.env, channels, &cells.room, &mut cells.given);
        Ok(())
    }
}
