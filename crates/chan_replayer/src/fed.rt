//! Replayers round a shell.

ghost use Rattle.std.specs.Prelude.{◌≡◌, ◌≤◌, ◌<◌, ℕ, [], None, IfOk, length, slice_index};
ghost use Rattle.vec_clock.specs.trace_model.declared.row.Row.{Row as OneRow};
ghost use Rattle.vec_clock.specs.trace_model.Row.{all_widths};
ghost use Rattle.net_design.specs.declared.design.Design.{Design};
ghost use Rattle.net_design.specs.declared.values.Values.{Values};
ghost use Rattle.chan_replayer.specs.Fed.{IsFedAround, IsFresh};
ghost use Rattle.chan_replayer.specs.Shell.{IsRunning};

use crate::feed::Feed;
use crate::offers::fill_offers;
use crate::replayer::Replayer;
use crate::shell::ReplayShell;
use chan_monitor::Shell;
use chan_monitor::chan_map::Map;
use std::alloc::Global;
use vec_clock::trace_model::{Offers, Row, all_up, row_over};
use vec_clock::vidi_bits::Memory;

/// A shell behind replayers, with all gates up. Only `around` takes memory.
#[derive(Drop)]
pub struct FedShell<'a, S: Shell> {
    shell: S,
    map: &'a Map,
    have: Replayer,
    /// What the replayers made of the last feed.
    offers: Offers,
    /// The cycles since it was made or last reset.
    cycles: u32,
    /// The completions of the row of the last `drive`.
    ends: u128,
    ghost running: { ∥ IsRunning (IsFedAround (S.runs shell) have) ∥₁ },
    ghost map_is: { S.map shell ≡ map.now },
    ghost some: { 1 ≤ length map.now.channels },
    ghost few: { length map.now.channels ≤ 128 },
    ghost long: { length have ≡ length map.now.channels },
    ghost places: { length offers.contents ≡ length (all_widths map.now.channels) },
    ghost small: { (c : ℕ) → c < length have → slice_index have c ≤ cycles },
}

impl<'a, S: Shell + Drop> FedShell<'a, S> {
    /// Replayers round a shell of this map that was just made or reset, with no completions. No row came yet.
    pub fn around(alloc: Global, shell: S, map: &'a Map) -> Result<FedShell<'a, S>, Memory>
        requires some { 1 ≤ length map.now.channels }
        requires few { length map.now.channels ≤ 128 }
        requires map { S.map shell ≡ map.now }
        requires fresh { ∥ IsFresh (S.runs shell) ∥₁ }
        ensures runs { IfOk result (λ fed. (d : Design) (s : Values) → S.runs shell d s None
            → IsFedAround (S.runs fed.shell) fed.have d s []) }
        ensures undriven { IfOk result (λ fed. (row : OneRow) → ¬ S.driven shell row → ¬ S.driven fed.shell row) }
        ensures cycles { IfOk result (λ fed. fed.cycles ≡ 0) }
        ensures map { IfOk result (λ fed. fed.map.now ≡ map.now) }
    {
        let have = Replayer::new(alloc, map.channels.len())?;
        let row = row_over(alloc, &map.channels)?;
        let offers = Offers {
            valids: 0,
            readies: 0,
            contents: row.contents,
        };
        Ok(FedShell {
            shell,
            map,
            have,
            offers,
            cycles: 0,
            ends: 0,
        })
    }
}

impl<'a, S: Shell> ReplayShell for FedShell<'a, S> {
    ghost use Rattle.chan_replayer.specs.Fed.{IsFedAround};
    ghost use Rattle.std.proofs.Common.{subst};
    ghost use Rattle.chan_monitor.specs.Shell.{IsMapped};

    ghost map = { λ f. f.map.now };

    ghost runs = { λ f d s rows. IsFedAround (S.runs f.shell) f.have d s rows };

    ghost cycles = { λ f. f.cycles };

    ghost driven = { λ f row. S.driven f.shell row × (f.ends ≡ row.ends) };

    fn reset(&mut self) {
        self.shell.reset();
        self.have.reset();
        self.cycles = 0;
    }

    fn drive(&mut self, feed: &Feed, row: &mut Row) {
        let channels = &self.map.channels;
        fill_offers(&self.have, channels, feed, &mut self.offers);
        self.shell.drive(&self.offers, all_up(channels.len()), row);
        self.ends = row.ends;
    }

    fn clock(&mut self) {
        self.shell.clock();
        self.have.commit(self.ends);
        self.cycles += 1;
    }

    ghost running = { λ f. f.running };

    ghost ready = { λ f d s rows around. subst (IsMapped d) f.map_is (S.ready f.shell d s _ around.on) };
}
