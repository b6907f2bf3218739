//! A wrapped design behind its replayers, as a shell.

ghost use Rattle.std.specs.Prelude.{◌≡◌, ◌+◌, ◌++◌, ◌≤◌, ℕ, List, [], IfOk, MatchResult, length, take};
ghost use Rattle.replay_run.specs.trace_model.declared.row.Row.{Row as OneRow};
ghost use Rattle.replay_run.specs.trace_model.declared.packet.TheConstants.{MOST_CYCLES};
ghost use Rattle.vlog_tree.specs.Tree.{FileOf};
ghost use Rattle.vlog_tree.specs.Plain.{plain};
ghost use Rattle.net_design.specs.declared.design.Design.{Design};
ghost use Rattle.net_design.specs.Pins.{output_count, outputs, FitPins};
ghost use Rattle.net_design.specs.Settled.{initial, IsSettled};
ghost use Rattle.replay_run.specs.chan_monitor.Shell.{HasPlaces};
ghost use Rattle.replay_run.specs.chan_replayer.Feed.{IsFeedOver};
ghost use Rattle.replay_run.specs.chan_replayer.Shell.{IsRunning};
ghost use Rattle.shim_gen.specs.shim_trees.ReplayTop.{replay_name};
ghost use Rattle.shim_cosim.specs.Rewrapped.{inputs_count, outputs_count, feed_inputs, replay_row, flight_of, AreSmallNeeds};
ghost use Rattle.shim_cosim.specs.Replaying.{IsReplaying};
ghost use Rattle.shim_cosim.specs.Top.{IsSettledNumber, IsTopDesign, IsTopError, IsWrapOf};

use crate::error::CosimError;
use crate::fed_inputs::{enter_feed, push_channels};
use crate::held::held_pins;
use crate::shown_row::{fill_row, read_outputs, without, zero_outputs};
use crate::top::sim_of;
use crate::wrapped::restart;
use net_design::Block;
use net_sim::Sim;
use net_sim::vidi_bits::Numbers;
use replay_run::chan_map::Map;
use replay_run::chan_replayer::{Feed, ReplayShell};
use replay_run::trace_model::Row;
use std::alloc::Global;
use vlog_tree::File;

/// A block of a wrapped file's flat design with the top that replays, as a shell: the replayers are in the design, and which channels are
/// in flight is kept beside.
#[derive(Drop)]
pub struct RerunShell<'a, B: Block> {
    block: B,
    map: &'a Map,
    /// The numbers at the inputs of the top: first those that are held, then those of the last `drive`.
    pins: Numbers,
    /// Those of a reset cycle.
    resets: Numbers,
    /// How many inputs are held.
    first: usize,
    /// A place for the number of each output of the top.
    outputs: Numbers,
    /// The channels in flight.
    flight: u128,
    /// The cycles since it was made or last reset.
    cycles: u32,
    /// The channels that are in flight after the row of the last `drive`, since which there was no `clock` and no `reset`.
    next: Option<u128>,
    ghost running: { ∥ IsRunning (IsReplaying (B.design block) (B.state block) map.now first pins resets flight cycles) ∥₁ },
    ghost places: { length outputs ≡ outputs_count map.now.channels },
    ghost few: { cycles ≤ MOST_CYCLES },
}

/// A wrapped file with the top that replays, simulated as one flat design. Only `new` takes memory.
pub type Rewrapped<'a> = RerunShell<'a, Sim>;

/// Settles the block with this feed at its inputs.
fn settle_feed<B: Block>(block: &mut B, pins: &mut [u128], first: usize, map: &Map, feed: &Feed)
    requires few { length map.now.channels ≤ 128 }
    requires long { length pins.old ≡ first + inputs_count map.now.channels }
    requires feed { IsFeedOver map.now.channels feed.now }
    requires fit { (ps : List ℕ) → AreSmallNeeds map.now.channels feed.now → ps ≡ take first pins.old ++ feed_inputs map.now.channels feed.now
        → FitPins (B.design block.old) ps }
    ensures entered { pins.new ≡ take first pins.old ++ feed_inputs map.now.channels feed.now }
    ensures inputs { B.inputs block.new ≡ pins.new }
    ensures settled { IsSettled (B.design block.old) (B.state block.old) pins.new (B.shown block.new) }
    ensures state { B.state block.new ≡ B.state block.old }
    ensures design { B.design block.new ≡ B.design block.old }
{
    enter_feed(pins, first, map.channels.as_slice(), feed);
    block.settle(pins);
}

/// Fills the row that stands on the block's outputs under this feed, where these channels were in flight before. Gives those that are in
/// flight after it.
fn show_row<B: Block>(
    block: &B,
    map: &Map,
    feed: &Feed,
    flight: u128,
    numbers: &mut [u128],
    row: &mut Row,
) -> u128
    requires few { length map.now.channels ≤ 128 }
    requires feed { IsFeedOver map.now.channels feed.now }
    requires numbers { length numbers.old ≡ outputs_count map.now.channels }
    requires many { output_count (B.design block.now) ≡ outputs_count map.now.channels }
    requires shown { length (outputs (B.design block.now) (B.shown block.now)) ≡ outputs_count map.now.channels }
    requires places { HasPlaces map.now.channels row.old }
    ensures row { row.new ≡ replay_row map.now.channels row.old.fresh flight feed.now (outputs (B.design block.now) (B.shown block.now)) }
    ensures next { result ≡ flight_of (length map.now.channels) row.new }
{
    read_outputs(block, numbers);
    fill_row(map.channels.as_slice(), feed, flight, numbers, row);
    without(row.valids, row.readies)
}

impl<'a> RerunShell<'a, Sim> {
    /// The wrapped file with the top `vidi_replay_top`. The file is one that `wrap` made of an accepted design and this map of it. Nothing
    /// was driven yet; the state is the initial one, and nothing has completed.
    ///
    /// # Errors
    ///
    /// `Top` with the number of the first of the reasons E3 to E13 that holds of the file with this top, exactly where one holds; `Memory`
    /// where no memory was found, or where `elaborate` says so.
    pub fn new(alloc: Global, file: &File, map: &'a Map) -> Result<Rewrapped<'a>, CosimError>
        requires wrapped { (f : FileOf ℕ) × (d : Design) × IsWrapOf (plain file.now) f map.now d }
        ensures told { MatchResult result (λ shell. IsTopDesign (plain file.now) replay_name shell.block.design)
            (IsTopError (plain file.now) replay_name) }
        ensures runs { IfOk result (λ shell. (f : FileOf ℕ) (d : Design) → IsWrapOf (plain file.now) f map.now d
            → ⟦<RerunShell<'static, Sim> as ReplayShell>⟧.runs shell d (initial d) []) }
        ensures cycles { IfOk result (λ shell. ⟦<RerunShell<'static, Sim> as ReplayShell>⟧.cycles shell ≡ 0) }
        ensures undriven { IfOk result (λ shell. (row : OneRow) → ¬ ⟦<RerunShell<'static, Sim> as ReplayShell>⟧.driven shell row) }
        ensures map { IfOk result (λ shell. ⟦<RerunShell<'static, Sim> as ReplayShell>⟧.map shell ≡ map.now) }
    {
        let block = sim_of(alloc, file, b"vidi_replay_top")?;
        let channels = map.channels.as_slice();
        let mut pins = held_pins(alloc, file, map, false)?;
        let first = pins.len();
        push_channels(&mut pins, channels)?;
        let mut resets = held_pins(alloc, file, map, true)?;
        push_channels(&mut resets, channels)?;
        let outputs = zero_outputs(alloc, channels)?;
        Ok(RerunShell {
            block,
            map,
            pins,
            resets,
            first,
            outputs,
            flight: 0,
            cycles: 0,
            next: None,
        })
    }

    /// The settled number of a net of the flat design in the last `drive`, since which there was no `clock` and no `reset`, by its full
    /// name: the names of the instances down to it and its own, joined by dots. None exactly where no net has this name.
    pub fn net(&self, name: &[u8]) -> Option<u128>
        requires { (row : OneRow) × ⟦<RerunShell<'static, Sim> as ReplayShell>⟧.driven self.now row }
        ensures { IsSettledNumber self.now.block.design (⟦<Sim as Block>⟧.state self.now.block) (⟦<Sim as Block>⟧.inputs self.now.block)
            name.now result }
    {
        self.block.net(name)
    }
}

impl<'a, B: Block> ReplayShell for RerunShell<'a, B> {
    ghost use Rattle.shim_cosim.specs.Replaying.{IsReplaying, IsReplayed};

    ghost map = { λ s. s.map.now };

    ghost runs = { λ s d state rows. IsReplaying (B.design s.block) (B.state s.block) s.map.now s.first s.pins s.resets s.flight s.cycles
        d state rows };

    ghost cycles = { λ s. s.cycles };

    ghost driven = { λ s row. IsReplayed (B.design s.block) (B.state s.block) (B.inputs s.block) (B.shown s.block) s.map.now s.first s.pins
        s.flight s.next row };

    fn reset(&mut self) {
        restart(&mut self.block, self.resets.as_slice(), self.map);
        self.flight = 0;
        self.cycles = 0;
        self.next = None;
    }

    fn drive(&mut self, feed: &Feed, row: &mut Row) {
        settle_feed(
            &mut self.block,
            self.pins.as_mut_slice(),
            self.first,
            self.map,
            feed,
        );
        let next = show_row(
            &self.block,
            self.map,
            feed,
            self.flight,
            self.outputs.as_mut_slice(),
            row,
        );
        self.next = Some(next);
    }

    fn clock(&mut self) {
        let Some(flight) = self.next else {
            return;
        };
        self.block.clock();
        self.flight = flight;
        self.cycles += 1;
        self.next = None;
    }

    ghost running = { λ s. s.running };

    ghost ready = { λ s d state rows runs. runs.round.mapped };
}
