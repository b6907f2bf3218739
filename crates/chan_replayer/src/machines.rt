//! Replayers and monitors round a block.

ghost use Rattle.std.specs.Prelude.{◌≡◌, [], IfOk};
ghost use Rattle.vec_clock.specs.trace_model.declared.row.Row.{Row};
ghost use Rattle.chan_monitor.specs.run_model.Building.{PortsAreNets};
ghost use Rattle.chan_monitor.specs.run_model.MapOf.{IsMapOf};

use crate::fed::FedShell;
use crate::shell::ReplayShell;
use chan_monitor::Machines;
use chan_monitor::chan_map::Map;
use net_design::Block;
use std::alloc::Global;
use vec_clock::vidi_bits::Memory;

/// Replayers and monitors round a block, one of each for each channel of the map.
pub type ReplayMachines<'a, B> = FedShell<'a, Machines<'a, B>>;

impl<'a, B: Block + Drop> FedShell<'a, Machines<'a, B>> {
    /// Replayers and monitors of idle channels round a block, with no completions. Port k of the design is its net k, as in every
    /// lawful design, and the map is a map of it. No row came yet, and nothing was driven; the state is the block's. Only this
    /// call takes memory.
    pub fn new(alloc: Global, block: B, map: &'a Map) -> Result<ReplayMachines<'a, B>, Memory>
        requires nets { PortsAreNets (B.design block) }
        requires mapped { IsMapOf (B.design block) map.now }
        ensures runs { IfOk result (λ fed. ⟦<FedShell<'static, Machines<'static, B>> as ReplayShell>⟧.runs fed (B.design block)
            (B.state block) []) }
        ensures undriven { IfOk result (λ fed. (row : Row) → ¬ ⟦<FedShell<'static, Machines<'static, B>> as ReplayShell>⟧.driven fed row) }
        ensures cycles { IfOk result (λ fed. ⟦<FedShell<'static, Machines<'static, B>> as ReplayShell>⟧.cycles fed ≡ 0) }
        ensures map { IfOk result (λ fed. ⟦<FedShell<'static, Machines<'static, B>> as ReplayShell>⟧.map fed ≡ map.now) }
    {
        let shell = Machines::new(alloc, block, map)?;
        FedShell::around(alloc, shell, map)
    }
}
