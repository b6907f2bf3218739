//! A wrapped design as a shell.

ghost use Rattle.std.specs.Prelude.{◌≡◌, ◌+◌, ◌++◌, ◌<◌, ◌≤◌, ◌^◌, ℕ, List, None, IfOk, MatchOption, MatchResult, length, take};
ghost use Rattle.replay_run.specs.trace_model.declared.row.Row.{Row as OneRow};
ghost use Rattle.replay_run.specs.trace_model.Row.{AreOffers};
ghost use Rattle.vlog_tree.specs.Tree.{FileOf};
ghost use Rattle.vlog_tree.specs.Plain.{plain};
ghost use Rattle.net_design.specs.declared.design.Design.{Design};
ghost use Rattle.net_design.specs.Pins.{output_count, outputs, FitPins};
ghost use Rattle.net_design.specs.Settled.{initial, IsSettled};
ghost use Rattle.replay_run.specs.run_model.Step.{IsAfter};
ghost use Rattle.replay_run.specs.chan_map.declared.pins.Reset.{Reset as OneReset};
ghost use Rattle.replay_run.specs.chan_monitor.Entering.{offered};
ghost use Rattle.replay_run.specs.chan_monitor.Shell.{HasPlaces, IsRunning};
ghost use Rattle.shim_gen.specs.shim_trees.RecordTop.{record_name};
ghost use Rattle.shim_cosim.specs.Recorded.{inputs_count, outputs_count, row_inputs, IsMadeRow};
ghost use Rattle.shim_cosim.specs.Recording.{IsRecording};
ghost use Rattle.shim_cosim.specs.Top.{IsSettledNumber, IsTopDesign, IsTopError, IsWrapOf};

use crate::cycles::cycles_of;
use crate::error::CosimError;
use crate::held::held_pins;
use crate::recorded::{enter, push_channels, show};
use crate::top::sim_of;
use net_design::Block;
use net_sim::Sim;
use net_sim::vidi_bits::Numbers;
use replay_run::chan_map::Map;
use replay_run::chan_monitor::{Shell, run_cycles};
use replay_run::trace_model::{Offers, Row};
use std::alloc::Global;
use vlog_tree::File;

/// A block of a wrapped file's flat design with the top that records, as a shell: the monitors are in the design.
#[derive(Drop)]
pub struct RecordShell<'a, B: Block> {
    block: B,
    map: &'a Map,
    /// The numbers at the inputs of the top: first those that are held, then those of the last `drive`.
    pins: Numbers,
    /// Those of a reset cycle.
    resets: Numbers,
    /// How many inputs are held.
    first: usize,
    /// Whether there was a `drive` since the last `clock` or `reset`.
    driven: bool,
    ghost running: { ∥ IsRunning (IsRecording (B.design block) (B.state block) map.now first pins resets) ∥₁ },
}

/// A wrapped file with the top that records, simulated as one flat design. Only `new` takes memory.
pub type Wrapped<'a> = RecordShell<'a, Sim>;

/// Loads the block and runs the reset cycles of the map, if there are any.
pub(crate) fn restart<B: Block>(block: &mut B, pins: &[u128], map: &Map)
    requires { FitPins (B.design block.old) pins.now }
    ensures state { (n : ℕ) → MatchOption map.now.reset (n ≡ 0) (λ (r : OneReset). n ≡ r.cycles)
        → IsAfter (B.design block.old) pins.now n (initial (B.design block.old)) (B.state block.new) }
    ensures design { B.design block.new ≡ B.design block.old }
    ensures place { B.place block.new ≡ B.place block.old }
{
    block.load();
    run_cycles(block, pins, cycles_of(&map.reset));
}

/// Settles the block with these offers and gates at its inputs.
fn settle_offers<B: Block>(
    block: &mut B,
    pins: &mut [u128],
    first: usize,
    map: &Map,
    offers: &Offers,
    gates: u128,
)
    requires long { length pins.old ≡ first + inputs_count map.now.channels }
    requires offers { AreOffers map.now.channels offers.now }
    requires fit { (ps : List ℕ) → ps ≡ take first pins.old ++ row_inputs map.now.channels (offered gates offers.now)
        → FitPins (B.design block.old) ps }
    ensures entered { pins.new ≡ take first pins.old ++ row_inputs map.now.channels (offered gates offers.now) }
    ensures inputs { B.inputs block.new ≡ pins.new }
    ensures settled { IsSettled (B.design block.old) (B.state block.old) pins.new (B.shown block.new) }
    ensures state { B.state block.new ≡ B.state block.old }
    ensures design { B.design block.new ≡ B.design block.old }
    ensures place { B.place block.new ≡ B.place block.old }
{
    enter(pins, first, map.channels.as_slice(), offers, gates);
    block.settle(pins);
}

/// Fills the row of these offers and gates from the block's outputs.
fn fill_row<B: Block>(block: &B, map: &Map, offers: &Offers, gates: u128, row: &mut Row)
    requires few { length map.now.channels ≤ 128 }
    requires small { outputs_count map.now.channels < 2 ^ 32 }
    requires places { outputs_count map.now.channels ≤ output_count (B.design block.now) }
    requires offers { AreOffers map.now.channels offers.now }
    requires contents { HasPlaces map.now.channels row.old }
    ensures made { IsMadeRow map.now.channels offers.now gates (outputs (B.design block.now) (B.shown block.now)) row.new }
    ensures fresh { row.new.fresh ≡ row.old.fresh }
{
    show(block, map.channels.as_slice(), offers, gates, row);
}

impl<'a> RecordShell<'a, Sim> {
    /// The wrapped file with the top `vidi_record_top`. The file is one that `wrap` made of an accepted design and this map of it. Nothing
    /// was driven yet; the state is the initial one.
    ///
    /// # Errors
    ///
    /// `Top` with the number of the first of the reasons E3 to E13 that holds of the file with this top, exactly where one holds; `Memory`
    /// where no memory was found, or where `elaborate` says so.
    pub fn new(alloc: Global, file: &File, map: &'a Map) -> Result<Wrapped<'a>, CosimError>
        requires wrapped { (f : FileOf ℕ) × (d : Design) × IsWrapOf (plain file.now) f map.now d }
        ensures told { MatchResult result (λ shell. IsTopDesign (plain file.now) record_name shell.block.design)
            (IsTopError (plain file.now) record_name) }
        ensures runs { IfOk result (λ shell. (f : FileOf ℕ) (d : Design) → IsWrapOf (plain file.now) f map.now d
            → ⟦<RecordShell<'static, Sim> as Shell>⟧.runs shell d (initial d) None) }
        ensures undriven { IfOk result (λ shell. (row : OneRow) → ¬ ⟦<RecordShell<'static, Sim> as Shell>⟧.driven shell row) }
        ensures map { IfOk result (λ shell. shell.map.now ≡ map.now) }
    {
        let block = sim_of(alloc, file, b"vidi_record_top")?;
        let channels = map.channels.as_slice();
        let mut pins = held_pins(alloc, file, map, false)?;
        let first = pins.len();
        push_channels(&mut pins, channels)?;
        let mut resets = held_pins(alloc, file, map, true)?;
        push_channels(&mut resets, channels)?;
        Ok(RecordShell {
            block,
            map,
            pins,
            resets,
            first,
            driven: false,
        })
    }

    /// The settled number of a net of the flat design in the last `drive`, since which there was no `clock` and no `reset`, by its full
    /// name: the names of the instances down to it and its own, joined by dots. None exactly where no net has this name.
    pub fn net(&self, name: &[u8]) -> Option<u128>
        requires { (row : OneRow) × ⟦<RecordShell<'static, Sim> as Shell>⟧.driven self.now row }
        ensures { IsSettledNumber self.now.block.design (⟦<Sim as Block>⟧.state self.now.block) (⟦<Sim as Block>⟧.inputs self.now.block)
            name.now result }
    {
        self.block.net(name)
    }
}

impl<'a, B: Block> Shell for RecordShell<'a, B> {
    ghost use Rattle.std.specs.Prelude.{◌≡◌, true};
    ghost use Rattle.shim_cosim.specs.Recording.{IsRecording, IsRecorded};

    ghost map = { λ s. s.map.now };

    ghost runs = { λ s d state before. IsRecording (B.design s.block) (B.state s.block) s.map.now s.first s.pins s.resets d state before };

    ghost place = { λ s. B.place s.block };

    ghost driven = { λ s row. IsRecorded (B.design s.block) (B.state s.block) (B.inputs s.block) (B.shown s.block) s.map.now s.first s.pins row
        × (s.driven ≡ true) };

    fn reset(&mut self) {
        restart(&mut self.block, self.resets.as_slice(), self.map);
        self.driven = false;
    }

    fn drive(&mut self, offers: &Offers, gates: u128, row: &mut Row) {
        settle_offers(
            &mut self.block,
            self.pins.as_mut_slice(),
            self.first,
            self.map,
            offers,
            gates,
        );
        fill_row(&self.block, self.map, offers, gates, row);
        self.driven = true;
    }

    fn clock(&mut self) {
        self.block.clock();
        self.driven = false;
    }

    ghost running = { λ s. s.running };

    ghost ready = { λ s d state before runs. runs.round.mapped };
}
