//! Monitors round a block.

ghost use Rattle.std.specs.Prelude.{◌≡◌, None, IfOk};
ghost use Rattle.run_model.specs.Building.{PortsAreNets};
ghost use Rattle.run_model.specs.MapOf.{IsMapOf};
ghost use Rattle.chan_monitor.specs.Around.{IsAround};
ghost use Rattle.chan_monitor.specs.Shell.{IsRunning};

use crate::cycles::{forget, monitors_for, pins_for, restart, settle_offers, show};
use crate::monitor::Monitor;
use crate::pins::hold;
use crate::rows::{Handshakes, commit};
use crate::shell::Shell;
use net_design::Block;
use run_model::chan_map::Map;
use run_model::trace_model::{Offers, Row};
use run_model::vidi_bits::{Items, Memory, Numbers};
use std::alloc::Global;

/// The shell of monitors round a block, one for each channel of the map. Only `new` takes memory.
#[derive(Drop)]
pub struct Machines<'a, B: Block> {
    block: B,
    map: &'a Map,
    /// One number for each input port.
    pins: Numbers,
    /// One for each channel.
    monitors: Items<Monitor>,
    /// The masks of the row of the last `drive`, since which there was no `clock` and no `reset`.
    shown: Option<Handshakes>,
    ghost running: { ∥ IsRunning (IsAround (B.design block) (B.state block) map.now pins monitors) ∥₁ },
}

impl<'a, B: Block + Drop> Machines<'a, B> {
    /// Monitors of idle channels round a block. Port k of the design is its net k, as in every lawful design, and the map is a map
    /// of it. Nothing was driven yet; the state is the block's.
    pub fn new(alloc: Global, block: B, map: &'a Map) -> Result<Machines<'a, B>, Memory>
        requires nets { PortsAreNets (B.design block) }
        requires mapped { IsMapOf (B.design block) map.now }
        ensures runs { IfOk result (λ shell. IsAround (B.design shell.block) (B.state shell.block) shell.map.now shell.pins shell.monitors
            (B.design block) (B.state block) None) }
        ensures undriven { IfOk result (λ shell. shell.shown ≡ None) }
        ensures map { IfOk result (λ shell. shell.map.now ≡ map.now) }
        ensures place { IfOk result (λ shell. B.place shell.block ≡ B.place block) }
    {
        let mut pins = pins_for(alloc, map)?;
        let monitors = monitors_for(alloc, map.channels.len())?;
        hold(pins.as_mut_slice(), map, false);
        Ok(Machines {
            block,
            map,
            pins,
            monitors,
            shown: None,
        })
    }

    /// The block, without its monitors.
    pub fn into_block(self) -> B
        ensures { result ≡ self.entry.block }
    {
        let Machines { block, .. } = self;
        block
    }
}

impl<'a, B: Block> Machines<'a, B> {
    /// The block that the monitors are round: after a `drive` it shows the numbers of that row.
    pub fn block(&self) -> &B
        ensures { result.now ≡ self.now.block }
    {
        &self.block
    }
}

impl<'a, B: Block> Shell for Machines<'a, B> {
    ghost use Rattle.chan_monitor.specs.Around.{IsAround, IsDriven};

    ghost map = { λ s. s.map.now };

    ghost runs = { λ s d state before. IsAround (B.design s.block) (B.state s.block) s.map.now s.pins s.monitors d state before };

    ghost place = { λ s. B.place s.block };

    ghost driven = { λ s row. IsDriven (B.design s.block) (B.state s.block) (B.inputs s.block) (B.shown s.block) s.map.now s.shown row };

    fn reset(&mut self) {
        restart(&mut self.block, self.pins.as_mut_slice(), self.map);
        forget(self.monitors.as_mut_slice());
        self.shown = None;
    }

    fn drive(&mut self, offers: &Offers, gates: u128, row: &mut Row) {
        let monitors = self.monitors.as_slice();
        settle_offers(
            &mut self.block,
            self.pins.as_mut_slice(),
            self.map,
            monitors,
            offers,
            gates,
        );
        self.shown = Some(show(&self.block, self.map, monitors, offers, gates, row));
    }

    fn clock(&mut self) {
        let Some(shown) = self.shown else {
            return;
        };
        self.block.clock();
        commit(self.monitors.as_mut_slice(), shown);
        self.shown = None;
    }

    ghost running = { λ s. s.running };

    ghost ready = { λ s d state before runs. runs.ready };
}
