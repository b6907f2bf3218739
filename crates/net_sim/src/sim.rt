//! A design that runs.

ghost use Rattle.std.specs.Prelude.{◌≡◌, ℕ, ◌+◌, ◌<◌, ◌≤◌, ◌++◌, List, None, IsTrue, IfOk, MatchOption, length, slice_index, reverse};
ghost use Rattle.net_design.specs.declared.design.Direction.TheVariants.{Output};
ghost use Rattle.net_design.specs.Settled.{initial, next, word_count};
ghost use Rattle.net_design.specs.Lawful.{IsLawful, IsState};
ghost use Rattle.net_design.specs.Pins.{FitPins, no_pins};
ghost use Rattle.net_order.specs.Order.{IsOrder};
ghost use Rattle.net_order.specs.Run.{settled_by};
ghost use Rattle.net_instr.specs.Machine.{AreBelow};
ghost use Rattle.net_instr.specs.Layout.{IsReady};
ghost use Rattle.net_instr.specs.InPlace.{through, IsInPlace};
ghost use Rattle.net_instr.specs.Needs.{IsEnough};
ghost use Rattle.net_sim.specs.Places.{port_places};
ghost use Rattle.net_sim.specs.Names.{IsCalled};
ghost use Rattle.net_sim.specs.Table.{IsTable};
ghost use Rattle.net_sim.specs.Slots.{widths_of, span_of, shown_in, state_in, settling_code, clocking_code};

use crate::code::placed_of;
use crate::names::net_called;
use crate::number::number_seen;
use crate::run::{copy_numbers, is_done};
use crate::slots::{Copies, first_slots, load_slots, run_noted, settle_again, settle_slots};
use crate::start::{clear, first_numbers, places_of, zero_pins};
use crate::table::{Table, table_of};
use net_design::{Block, Design, Direction};
use net_instr::Instr;
use net_order::Order;
use net_order::vidi_bits::{Items, Memory, Numbers};
use std::alloc::Global;

/// A design that runs: its code, and its numbers in slots, which are the numbers that are shown, the state, and free slots.
pub struct Sim {
    design: Design,
    order: Order,
    /// The instructions of the drivers, in the order, without those that only copy a net.
    settling: Items<Instr>,
    /// The instructions of the clocked blocks.
    clocking: Items<Instr>,
    /// The slot at which each net is read.
    places: Items<u32>,
    /// What is copied before the drivers' instructions are run.
    copies: Copies,
    slots: Numbers,
    /// The initial state.
    first: Numbers,
    /// The inputs of the last `settle`.
    pins: Numbers,
    /// The nets of the output ports.
    outputs: Items<usize>,
    /// The nets by name.
    names: Table,
    /// Whether what is shown is settled for the state and the inputs.
    fresh: bool,
    /// Whether that holds, and the next state is the state.
    still: bool,
    ghost lawful: { ∥ IsLawful design ∥₁ },
    ghost ordered: { ∥ IsOrder design order.drivers ∥₁ },
    ghost placed: { ∥ IsInPlace (length design.nets) (reverse (settling_code design order.drivers)) (reverse (clocking_code design)) places settling clocking ∥₁ },
    ghost settling_below: { ∥ AreBelow (length (through places slots)) (settling_code design order.drivers) ∥₁ },
    ghost clocking_below: { ∥ AreBelow (length (through places slots)) (clocking_code design) ∥₁ },
    ghost enough: { ∥ IsEnough places settling copies.nets ∥₁ },
    ghost words_is: { copies.words ≡ length design.nets },
    ghost span_is: { copies.span ≡ span_of design },
    ghost ready: { IsReady (widths_of design) (word_count design) (through places slots) },
    ghost first_is: { first ≡ (initial design).nets ++ (initial design).words },
    ghost is_state: { IsState design (state_in design (through places slots)) },
    ghost are_pins: { FitPins design pins },
    ghost are_outputs: { outputs ≡ port_places Output 0 design.ports },
    ghost named: { IsTable design.instances design.nets (length design.nets) names.entries },
    ghost settled: { IsTrue fresh → shown_in design (through places slots) ≡ settled_by design order.drivers (state_in design (through places slots)) pins },
    ghost quiet: { IsTrue still → IsTrue fresh × (next design (shown_in design (through places slots)) (state_in design (through places slots)) ≡ state_in design (through places slots)) },
}

/// Written out, so that the drops of its parts are proved here and not in each crate that lets go of one.
impl Drop for Sim {
    fn drop(self) {
        let Sim {
            design,
            order,
            settling,
            clocking,
            places,
            copies,
            slots,
            first,
            pins,
            outputs,
            names,
            fresh,
            still,
        } = self;
    }
}

impl Sim {
    /// The design in its initial state, with the last inputs 0; the order is one of its drivers.
    pub fn new(alloc: Global, design: Design, order: Order) -> Result<Sim, Memory>
        requires lawful { IsLawful design }
        requires order { IsOrder design order.drivers }
        ensures design { IfOk result (λ sim. sim.design ≡ design) }
        ensures state { IfOk result (λ sim. state_in sim.design (through sim.places sim.slots) ≡ initial design) }
        ensures inputs { IfOk result (λ sim. sim.pins ≡ no_pins design) }
    {
        let codes = placed_of(alloc, &design, order.drivers.as_slice())?;
        let first = first_numbers(alloc, &design)?;
        let slots = first_slots(alloc, codes.slots, codes.copies.span, first.as_slice())?;
        let pins = zero_pins(alloc, design.ports.as_slice())?;
        let outputs = places_of(alloc, Direction::Output, design.ports.as_slice())?;
        let names = table_of(alloc, design.instances.as_slice(), design.nets.as_slice())?;
        Ok(Sim {
            design,
            order,
            settling: codes.made.settling,
            clocking: codes.made.clocking,
            places: codes.made.places,
            copies: codes.copies,
            slots,
            first,
            pins,
            outputs,
            names,
            fresh: false,
            still: false,
        })
    }

    /// The number of net n of the design in what was settled last.
    pub fn number(&self, n: usize) -> u128
        requires { n < length self.now.design.nets }
        ensures { result ≡ slice_index (shown_in self.now.design (through self.now.places self.now.slots)).nets n }
    {
        number_seen(&self.places, &self.slots, n)
    }

    /// The number that a net settled to last, by its full name: the names of the instances down to it and its own, joined by
    /// dots. None exactly where no net has this name.
    pub fn net(&self, name: &[u8]) -> Option<u128>
        ensures { MatchOption result ((m : ℕ) → IsCalled self.now.design.instances self.now.design.nets name.now m → ⊥)
            (λ x. (m : ℕ) × IsCalled self.now.design.instances self.now.design.nets name.now m
            × (x ≡ slice_index (shown_in self.now.design (through self.now.places self.now.slots)).nets m)) }
    {
        let design = &self.design;
        match net_called(
            &self.names,
            design.instances.as_slice(),
            design.nets.as_slice(),
            name,
        ) {
            Some(m) => Some(number_seen(&self.places, &self.slots, m)),
            None => None,
        }
    }
}

impl Block for Sim {
    ghost use Rattle.net_order.proofs.Known.{known_one};

    ghost design = { λ sim. sim.design };

    ghost state = { λ sim. state_in sim.design (through sim.places sim.slots) };

    ghost inputs = { λ sim. sim.pins };

    ghost shown = { λ sim. shown_in sim.design (through sim.places sim.slots) };

    ghost place = { λ sim. None };

    ghost one_map = { λ sim. known_one sim.design sim.lawful sim.order.drivers sim.ordered };

    ghost is_state = { λ sim. sim.is_state };

    ghost are_inputs = { λ sim. sim.are_pins };

    fn settle(&mut self, pins: &[u128]) {
        let done = is_done(self.fresh, self.pins.as_slice(), pins);
        if done {
            return;
        }
        self.fresh = false;
        self.still = false;
        copy_numbers(pins, &mut self.pins);
        let code = self.settling.as_slice();
        let ports = self.design.ports.as_slice();
        settle_slots(code, ports, pins, &self.copies, &mut self.slots);
        self.fresh = true;
    }

    fn pin(&self, port: usize) -> u128 {
        let outputs = self.outputs.as_slice();
        number_seen(&self.places, &self.slots, outputs[port])
    }

    fn clock(&mut self) {
        if self.still {
            return;
        }
        let code = self.settling.as_slice();
        let ports = self.design.ports.as_slice();
        let pins = self.pins.as_slice();
        settle_again(self.fresh, code, ports, pins, &self.copies, &mut self.slots);
        let moved = run_noted(self.clocking.as_slice(), &mut self.slots, self.copies.span);
        self.fresh = !moved;
        self.still = !moved;
    }

    fn load(&mut self) {
        self.fresh = false;
        self.still = false;
        load_slots(&mut self.slots, self.copies.span, self.first.as_slice());
        clear(&mut self.pins);
    }
}
