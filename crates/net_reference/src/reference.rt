//! The definitions, evaluated as they are written: slow and simple. Tests and faster evaluators are compared with it.

ghost use Rattle.std.specs.Prelude.{◌≡◌, ℕ, ◌^◌, ◌<◌, ◌≤◌, ◌↔◌, if◌then◌else◌, IsTrue, true};
ghost use Rattle.std.specs.Prelude.{◌++◌, ◌∷◌, [], All, map, slice_index, Some, OnOk, IfOk};
ghost use Rattle.std.specs.Int.{bit_at};
ghost use Rattle.net_design.specs.declared.design.Net.{Net};
ghost use Rattle.net_design.specs.declared.design.Direction.TheVariants.{Input, Output};
ghost use Rattle.net_design.specs.declared.design.Register.{Register};
ghost use Rattle.net_design.specs.vidi_bits.Number.{has};
ghost use Rattle.net_design.specs.Sized.{IsSizedBlock};
ghost use Rattle.net_design.specs.Updates.{apply, block_updates, run};
ghost use Rattle.net_design.specs.Settled.{IsSized, IsSettled, Keeps, FitNets, net_width, same_direction, pins_of};
ghost use Rattle.net_design.specs.Settled.{held, next, initial, word_count};

use crate::statement::{acts_updates, apply, copy};
use net_design::vidi_bits::{Items, Memory, Numbers};
use net_design::{
    Act, Design, Direction, Net, Port, Register, Timing, Values, count_words, initial_numbers,
    number_at, zeros,
};
use std::alloc::Global;

/// The width of net `m`, 0 past the last one.
fn net_width(nets: &Items<Net>, m: usize) -> u32
    ensures { result ≡ slice_index (map (λ (n : Net). n.width) nets.now) m }
{
    let nets = nets.as_slice();
    if m < nets.len() { nets[m].width } else { 0 }
}

/// Whether a number has at most `width` bits.
#[tactic(auto, using(crate::proofs::NumberLemmas::below_power))]
fn fits(number: u128, width: u32) -> bool
    requires { width ≤ 128 }
    ensures { IsTrue result ↔ (number < 2 ^ width) }
{
    width == 128 || number >> width == 0
}

/// Whether number `m` of a list fits net `m`.
#[tactic(auto, using(net_design::proofs::LawfulCode::net_width_small))]
fn fits_net(design: &Design, numbers: &Numbers, m: usize) -> bool
    requires { IsSized design.now }
    ensures { IsTrue result ↔ (slice_index numbers.now m < 2 ^ net_width design.now m) }
{
    fits(number_at(numbers, m), net_width(&design.nets, m))
}

/// Whether there is one number for each net, which fits it.
fn fit_nets(design: &Design, numbers: &Numbers) -> bool
    requires { IsSized design.now }
    ensures { IsTrue result ↔ FitNets design.now numbers.now }
{
    let count = design.nets.len();
    if numbers.len() != count {
        return false;
    }
    for m in 0..count {
        if !fits_net(design, numbers, m) {
            return false;
        }
    }
    true
}

/// Adds the number of a port where it has this direction.
fn push_pin(
    out: &mut Numbers,
    direction: Direction,
    port: &Port,
    number: u128,
) -> Result<(), Memory>
    ensures { OnOk result (out.new ≡ out.old ++ (if same_direction direction port.now.direction then number ∷ [] else [])) }
{
    if port.direction == direction {
        out.push(number)?;
    }
    Ok(())
}

/// The numbers of the ports of one direction, in port order.
#[tactic(auto, using(crate::proofs::PinLemmas::pins_step, crate::proofs::PinLemmas::pins_past))]
fn pins(
    alloc: Global,
    direction: Direction,
    ports: &[Port],
    nets: &[u128],
) -> Result<Numbers, Memory>
    ensures { IfOk result (λ xs. xs ≡ pins_of direction ports.now nets.now) }
{
    let mut out = Items::new(alloc);
    for (k, port) in ports.iter().enumerate() {
        if k >= nets.len() {
            return Ok(out);
        }
        push_pin(&mut out, direction, port, nets[k])?;
    }
    Ok(out)
}

/// Whether two states have the same bits of a register.
#[tactic(auto, using(crate::proofs::NumberLemmas::mask_same))]
fn same_bits(register: Register, a: &Values, b: &Values) -> bool
    ensures { IsTrue result ↔ ((k : ℕ) → has register.held k ≡ true
        → bit_at (slice_index a.now.nets register.net) k ≡ bit_at (slice_index b.now.nets register.net) k) }
{
    let in_a = number_at(&a.nets, register.net) & register.held;
    let in_b = number_at(&b.nets, register.net) & register.held;
    in_a == in_b
}

/// Whether two lists of values are the same.
fn same_values(a: &Values, b: &Values) -> bool
    ensures { IsTrue result ↔ (a.now ≡ b.now) }
{
    a.nets.as_slice() == b.nets.as_slice() && a.words.as_slice() == b.words.as_slice()
}

/// The numbers after a block that reads `values` (IEEE 1364-2005, 9.2).
pub fn after_block(
    alloc: Global,
    timing: Timing,
    acts: &Items<Act>,
    values: &Values,
) -> Result<Values, Memory>
    requires { IsSizedBlock acts.now }
    ensures { IfOk result (λ v. v ≡ apply (block_updates timing acts.now values.now) values.now) }
{
    let made = acts_updates(alloc, timing, acts, values)?;
    let mut now = copy(alloc, values)?;
    apply(made.as_slice(), &mut now);
    Ok(now)
}

/// Whether a driver's code changes nothing.
fn is_fixed(alloc: Global, acts: &Items<Act>, values: &Values) -> Result<bool, Memory>
    requires { IsSizedBlock acts.now }
    ensures { IfOk result (λ b. IsTrue b ↔ (run acts.now values.now ≡ values.now)) }
{
    let now = after_block(alloc, Timing::Blocking, acts, values)?;
    Ok(same_values(&now, values))
}

/// The state after `state`, where `values` are settled for it (IEEE 1364-2005, 9.2.2): every clocked block reads the
/// settled values alone.
#[tactic(auto, using(net_design::proofs::LawfulCode::clocked_sized))]
pub fn next_state(
    alloc: Global,
    design: &Design,
    state: &Values,
    values: &Values,
) -> Result<Values, Memory>
    requires { IsSized design.now }
    ensures { IfOk result (λ s. s ≡ next design.now values.now state.now) }
{
    let mut after = copy(alloc, state)?;
    for block in design.blocks.as_slice() {
        let made = acts_updates(alloc, Timing::Nonblocking, &block.acts, values)?;
        apply(made.as_slice(), &mut after);
    }
    Ok(after)
}

/// The initial state (IEEE 1364-2005, 6.2.1): registers have their initialisers, all else is 0.
pub fn initial_state(alloc: Global, design: &Design) -> Result<Values, Memory>
    requires { IsSized design.now }
    ensures { IfOk result (λ s. s ≡ initial design.now) }
{
    let nets = initial_numbers(alloc, design)?;
    let words = zeros(alloc, count_words(design))?;
    Ok(Values { nets, words })
}

/// Whether the clock, where there is one, is 0.
fn clock_is_low(design: &Design, nets: &Numbers) -> bool
    ensures { IsTrue result ↔ ((k : ℕ) → design.now.clock ≡ Some k → slice_index nets.now k ≡ 0) }
{
    match design.clock {
        None => true,
        Some(k) => number_at(nets, k) == 0,
    }
}

/// Whether the two have the same bits of these registers.
fn same_registers(registers: &Items<Register>, a: &Values, b: &Values) -> bool
    ensures { IsTrue result ↔ All (λ r. (k : ℕ) → has r.held k ≡ true
        → bit_at (slice_index a.now.nets r.net) k ≡ bit_at (slice_index b.now.nets r.net) k) registers.now }
{
    registers.as_slice().iter().all(|r| same_bits(*r, a, b))
}

/// Whether the two have the same bits of the state.
fn same_state(design: &Design, a: &Values, b: &Values) -> bool
    ensures { IsTrue result ↔ ((m k : ℕ) → held design.now m k ≡ true
        → bit_at (slice_index a.now.nets m) k ≡ bit_at (slice_index b.now.nets m) k) }
{
    same_registers(&design.registers, a, b)
}

/// Whether no driver changes anything.
#[tactic(auto, using(net_design::proofs::LawfulCode::driver_sized))]
fn all_fixed(alloc: Global, design: &Design, values: &Values) -> Result<bool, Memory>
    requires { IsSized design.now }
    ensures { IfOk result (λ b. IsTrue b ↔ All (λ driver. run driver.code.acts values.now ≡ values.now) design.now.drivers) }
{
    for driver in design.drivers.as_slice() {
        if !is_fixed(alloc, &driver.code.acts, values)? {
            return Ok(false);
        }
    }
    Ok(true)
}

/// Whether two lists have the same numbers.
fn same_numbers(a: &Numbers, b: &[u128]) -> bool
    ensures { IsTrue result ↔ (a.now ≡ b.now) }
{
    a.as_slice() == b
}

/// Whether `values` are settled for a state and the numbers of the input pins, in port order.
pub fn is_settled(
    alloc: Global,
    design: &Design,
    state: &Values,
    pins: &[u128],
    values: &Values,
) -> Result<bool, Memory>
    requires { IsSized design.now }
    ensures { IfOk result (λ b. IsTrue b ↔ IsSettled design.now state.now pins.now values.now) }
{
    let inputs = input_pins(alloc, design, values)?;
    let fixed = all_fixed(alloc, design, values)?;
    let entered = same_numbers(&inputs, pins);
    Ok(fixed && entered && keeps(design, state, values))
}

/// Whether `values` fit the nets, have what the state holds, and the clock is 0.
fn keeps(design: &Design, state: &Values, values: &Values) -> bool
    requires { IsSized design.now }
    ensures { IsTrue result ↔ Keeps design.now state.now values.now }
{
    fit_nets(design, &values.nets)
        && clock_is_low(design, &values.nets)
        && same_state(design, values, state)
        && same_numbers(&values.words, state.words.as_slice())
}

/// The numbers of the input pins, in port order.
fn input_pins(alloc: Global, design: &Design, values: &Values) -> Result<Numbers, Memory>
    ensures { IfOk result (λ xs. xs ≡ pins_of Input design.now.ports values.now.nets) }
{
    pins(
        alloc,
        Direction::Input,
        design.ports.as_slice(),
        values.nets.as_slice(),
    )
}

/// The numbers of the output pins, in port order.
pub fn output_pins(alloc: Global, design: &Design, values: &Values) -> Result<Numbers, Memory>
    ensures { IfOk result (λ xs. xs ≡ pins_of Output design.now.ports values.now.nets) }
{
    pins(
        alloc,
        Direction::Output,
        design.ports.as_slice(),
        values.nets.as_slice(),
    )
}
