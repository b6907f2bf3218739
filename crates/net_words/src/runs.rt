//! The word on runs: nets by name while the simulator runs a design, beside what the definitions give.

ghost use Rattle.std.specs.Prelude.{IfOk, IsTrue};
ghost use Rattle.net_design.specs.Lawful.{IsLawful};
ghost use Rattle.net_design.specs.Pins.{FitPins};

use crate::cycles::{Cycle, cycle_in, order_of, settled_by_order};
use crate::designs::{path_at, paths};
use net_design::{Block, Design, Values, lawful_is_sized, number_at};
use net_sim::Sim;
use net_sim::vidi_bits::{Items, Memory, Name};
use std::alloc::Global;
use vlog_words::Ended;
use vlog_words::net_reference::{initial_state, is_settled, next_state};
use vlog_words::report_text::{Draft, Page, print_number};
use vlog_words::vidi_io::{Shelf, Text};

/// The most cycles of a run.
const MOST_CYCLES: u32 = 1000;

/// `run FILE TOP CYCLES PINS NAME..`: the number of each of these nets, by full name, in the last of so many cycles with the same inputs,
/// from the initial state.
pub(crate) fn print_run<S: Shelf>(
    alloc: Global,
    design: Design,
    shelf: &mut S,
    words: &[Text],
    page: &mut Draft,
) -> Result<(), Ended>
    requires { IsLawful design }
{
    let [cycles, file, names @ ..] = words else {
        return Err(Ended::Usage);
    };
    let (cycles, cycle) = given_in(alloc, shelf, cycles, file)?;
    print_simulated(alloc, design, cycles, cycle.pins.as_slice(), names, page)
}

/// How many cycles are run, and with which inputs.
fn given_in<S: Shelf>(
    alloc: Global,
    shelf: &mut S,
    cycles: &Text,
    file: &Text,
) -> Result<(u32, Cycle), Ended> {
    let cycles = cycles_of(cycles)?;
    let cycle = cycle_in(alloc, shelf, file.as_str())?;
    Ok((cycles, cycle))
}

fn cycles_of(word: &Text) -> Result<u32, Ended> {
    match word.as_str().parse::<u32>() {
        Ok(n) if 1 <= n && n <= MOST_CYCLES => Ok(n),
        _ => Err(Ended::Usage),
    }
}

fn print_simulated(
    alloc: Global,
    design: Design,
    cycles: u32,
    pins: &[u128],
    names: &[Text],
    page: &mut Draft,
) -> Result<(), Ended>
    requires { IsLawful design }
{
    let defined = fit_numbers(alloc, &design, cycles, pins, names)?;
    let sim = ran(alloc, design, cycles, pins)?;
    print_found(&sim, names, defined.as_slice(), page);
    Ok(())
}

/// The simulator of a design, after so many cycles with the same inputs.
fn ran(alloc: Global, design: Design, cycles: u32, pins: &[u128]) -> Result<Sim, Ended>
    requires lawful { IsLawful design }
    requires pins { FitPins design pins.now }
{
    let order = order_of(alloc, &design)?;
    let mut sim = Sim::new(alloc, design, order)?;
    run_cycles(&mut sim, pins, cycles);
    Ok(sim)
}

/// Runs so many cycles with the same inputs, and settles in the last one.
fn run_cycles(sim: &mut Sim, pins: &[u128], cycles: u32)
    requires { FitPins sim.old.design pins.now }
{
    sim.settle(pins);
    for _ in 1..cycles {
        sim.clock();
        sim.settle(pins);
    }
}

/// Whether a map is settled; where one is, the inputs fit.
fn fits(
    alloc: Global,
    design: &Design,
    state: &Values,
    pins: &[u128],
    settled: &Values,
) -> Result<bool, Memory>
    requires { IsLawful design.now }
    ensures { IfOk result (λ b. IsTrue b → FitPins design.now pins.now) }
{
    lawful_is_sized();
    let is_one = is_settled(alloc, design, state, pins, settled)?;
    Ok(is_one)
}

/// Whether what the initial state settles to is settled; where it is, the inputs fit.
fn inputs_fit(alloc: Global, design: &Design, pins: &[u128]) -> Result<bool, Ended>
    requires { IsLawful design.now }
    ensures { IfOk result (λ b. IsTrue b → FitPins design.now pins.now) }
{
    let state = initial_state_of(alloc, design)?;
    let settled = settled_by_order(alloc, design, &state, pins)?;
    let fit = fits(alloc, design, &state, pins, &settled)?;
    Ok(fit)
}

fn initial_state_of(alloc: Global, design: &Design) -> Result<Values, Memory>
    requires { IsLawful design.now }
{
    lawful_is_sized();
    initial_state(alloc, design)
}

/// What the state of the last cycle settles to, by the definitions.
fn last_map(alloc: Global, design: &Design, cycles: u32, pins: &[u128]) -> Result<Values, Ended>
    requires { IsLawful design.now }
{
    lawful_is_sized();
    let mut state = initial_state(alloc, design)?;
    let mut settled = settled_by_order(alloc, design, &state, pins)?;
    for _ in 1..cycles {
        state = next_state(alloc, design, &state, &settled)?;
        settled = settled_by_order(alloc, design, &state, pins)?;
    }
    Ok(settled)
}

/// The numbers of nets in the last cycle, by the definitions; None where no net has the name.
fn defined_numbers(
    alloc: Global,
    design: &Design,
    cycles: u32,
    pins: &[u128],
    names: &[Text],
) -> Result<Items<Option<u128>>, Ended>
    requires { IsLawful design.now }
{
    let map = last_map(alloc, design, cycles, pins)?;
    let paths = paths(alloc, design)?;
    let mut numbers = Items::new(alloc);
    for name in names {
        numbers.push(number_of(design, &paths, &map, name.as_str().as_bytes()))?;
    }
    Ok(numbers)
}

/// The same, where the inputs fit the design.
fn fit_numbers(
    alloc: Global,
    design: &Design,
    cycles: u32,
    pins: &[u128],
    names: &[Text],
) -> Result<Items<Option<u128>>, Ended>
    requires { IsLawful design.now }
    ensures { IfOk result (λ numbers. FitPins design.now pins.now) }
{
    if !inputs_fit(alloc, design, pins)? {
        return Err(Ended::Usage);
    }
    defined_numbers(alloc, design, cycles, pins, names)
}

/// The number of the first net of this full name.
fn number_of(design: &Design, paths: &Items<Name>, map: &Values, name: &[u8]) -> Option<u128> {
    for (place, net) in design.nets.as_slice().iter().enumerate() {
        if name.strip_prefix(path_at(paths, net.instance)) == Some(net.name.as_slice()) {
            return Some(number_at(&map.nets, place));
        }
    }
    None
}

/// `NAME NUMBER` for each net, `NAME none` where no net has the name; ` by definition` and a number behind it where that is another.
fn print_found(sim: &Sim, names: &[Text], defined: &[Option<u128>], page: &mut Draft) {
    for (name, number) in names.iter().zip(defined) {
        let found = sim.net(name.as_str().as_bytes());
        page.print(name.as_str().as_bytes());
        print_number_or_none(found, page);
        if found != *number {
            page.print(b" by definition");
            print_number_or_none(*number, page);
        }
        page.print(b"\n");
    }
}

fn print_number_or_none(number: Option<u128>, page: &mut Draft) {
    page.print(b" ");
    match number {
        Some(number) => print_number(page, number),
        None => page.print(b"none"),
    }
}
