//! The words on cycles: the order of a design's drivers, its initial state, and what a state settles to.

ghost use Rattle.std.specs.Prelude.{IfOk};
ghost use Rattle.net_design.specs.Lawful.{IsLawful};
ghost use Rattle.net_design.specs.Settled.{IsSized};
ghost use Rattle.net_sim.specs.net_order.Order.{IsOrder};

use crate::designs::print_net;
use net_design::{Design, Direction, Timing, Values, lawful_is_sized, zeros};
use net_sim::net_order::{Order, OrderError, order};
use net_sim::vidi_bits::{Items, Name, Numbers};
use std::alloc::Global;
use vlog_words::net_reference::{after_block, initial_state, is_settled, next_state};
use vlog_words::report_text::{Draft, Page, print_number, print_numbers};
use vlog_words::vidi_io::Shelf;
use vlog_words::vidi_lines::Line;
use vlog_words::{Ended, entry_of, lines_in, number_in};

/// A state, and what is entered at the inputs: the file of a case.
#[derive(Drop)]
pub(crate) struct Cycle {
    /// The numbers of the registers, in their order.
    registers: Numbers,
    words: Numbers,
    /// The numbers at the inputs of the top, in port order.
    pub pins: Numbers,
}

/// The cycle that a file gives.
pub(crate) fn cycle_in<S: Shelf>(alloc: Global, shelf: &mut S, name: &str) -> Result<Cycle, Ended> {
    let lines = lines_in(alloc, shelf, name)?;
    let mut cycle = Cycle {
        registers: Items::new(alloc),
        words: Items::new(alloc),
        pins: Items::new(alloc),
    };
    for line in lines.as_slice() {
        add_line(&mut cycle, line)?;
    }
    Ok(cycle)
}

/// What a line of the file gives.
#[derive(Clone, Copy)]
enum Kind {
    Registers,
    Words,
    Pins,
}

const KINDS: [(&str, Kind); 3] = [
    ("registers", Kind::Registers),
    ("words", Kind::Words),
    ("pins", Kind::Pins),
];

fn add_line(cycle: &mut Cycle, line: &Line) -> Result<(), Ended> {
    let [kind, words @ ..] = line.words.as_slice() else {
        return Ok(());
    };
    match entry_of(&KINDS, kind.as_slice()) {
        Some(Kind::Registers) => add_numbers(&mut cycle.registers, words),
        Some(Kind::Words) => add_numbers(&mut cycle.words, words),
        Some(Kind::Pins) => add_numbers(&mut cycle.pins, words),
        None => Err(Ended::Usage),
    }
}

fn add_numbers(numbers: &mut Numbers, words: &[Name]) -> Result<(), Ended> {
    for word in words {
        numbers.push(number_in(word)?)?;
    }
    Ok(())
}

/// The state of a cycle, in which the nets that are no registers are 0.
fn state_of(alloc: Global, design: &Design, cycle: &Cycle) -> Result<Values, Ended>
    requires { IsLawful design.now }
{
    lawful_is_sized();
    let first = initial_state(alloc, design)?;
    let registers = design.registers.as_slice();
    if registers.len() != cycle.registers.len() || first.words.len() != cycle.words.len() {
        return Err(Ended::Usage);
    }
    let mut nets = zeros(alloc, design.nets.len())?;
    for (register, number) in registers.iter().zip(cycle.registers.as_slice()) {
        if register.net < nets.len() {
            nets.set(register.net, *number);
        }
    }
    let words = Items::from_vec(Vec::from_slice(alloc, cycle.words.as_slice())?);
    Ok(Values { nets, words })
}

/// Gives the inputs of the top these numbers.
fn enter(design: &Design, pins: &[u128], values: &mut Values) {
    let mut rest = pins.iter();
    for (k, port) in design.ports.as_slice().iter().enumerate() {
        if port.direction == Direction::Input {
            if let Some(pin) = rest.next() {
                if k < values.nets.len() {
                    values.nets.set(k, *pin);
                }
            }
        }
    }
}

/// The order of a design's drivers.
pub(crate) fn order_of(alloc: Global, design: &Design) -> Result<Order, Ended>
    requires { IsLawful design.now }
    ensures { IfOk result (λ order. IsOrder design.now order.drivers) }
{
    match order(alloc, design) {
        Ok(order) => Ok(order),
        Err(OrderError::Loop { drivers: _ }) => Err(Ended::NoDesign),
        Err(OrderError::Memory) => Err(Ended::Memory),
    }
}

#[tactic(auto, using(crate::proofs::Passed::driver_sized))]
fn run_driver(
    alloc: Global,
    design: &Design,
    number: u128,
    values: &Values,
) -> Result<Values, Ended>
    requires { IsSized design.now }
{
    for (k, driver) in design.drivers.as_slice().iter().enumerate() {
        if k as u128 == number {
            return Ok(after_block(alloc, Timing::Blocking, &driver.code.acts, values)?);
        }
    }
    Err(Ended::NoDesign)
}

/// The drivers run once each, in their order.
pub(crate) fn settled_by_order(
    alloc: Global,
    design: &Design,
    state: &Values,
    pins: &[u128],
) -> Result<Values, Ended>
    requires { IsLawful design.now }
{
    lawful_is_sized();
    let order = order_of(alloc, design)?;
    let mut now = copy_of(alloc, state)?;
    enter(design, pins, &mut now);
    for number in order.drivers.as_slice() {
        now = run_driver(alloc, design, *number, &now)?;
    }
    Ok(now)
}

fn copy_of(alloc: Global, values: &Values) -> Result<Values, Ended> {
    let nets = Items::from_vec(Vec::from_slice(alloc, values.nets.as_slice())?);
    let words = Items::from_vec(Vec::from_slice(alloc, values.words.as_slice())?);
    Ok(Values { nets, words })
}

/// `settle FILE TOP STATE`: what a state settles to with its inputs, and the next state.
pub(crate) fn print_settled<S: Shelf>(
    alloc: Global,
    design: &Design,
    paths: &Items<Name>,
    name: &str,
    shelf: &mut S,
    page: &mut Draft,
) -> Result<(), Ended>
    requires { IsLawful design.now }
{
    let cycle = cycle_in(alloc, shelf, name)?;
    let state = state_of(alloc, design, &cycle)?;
    let pins = cycle.pins.as_slice();
    let settled = settled_by_order(alloc, design, &state, pins)?;
    print_maps(alloc, design, paths, &state, pins, &settled, page)
}

/// The lines of `settle`. By its definition a map is settled or not, whatever order the drivers were run in.
fn print_maps(
    alloc: Global,
    design: &Design,
    paths: &Items<Name>,
    state: &Values,
    pins: &[u128],
    settled: &Values,
    page: &mut Draft,
) -> Result<(), Ended>
    requires { IsLawful design.now }
{
    lawful_is_sized();
    let is_one = is_settled(alloc, design, state, pins, settled)?;
    let next = next_state(alloc, design, state, settled)?;
    page.print(if is_one { b"settled" } else { b"not settled" });
    print_all(design, paths, settled, page);
    print_state(design, paths, &next, page);
    Ok(())
}

/// ` NAME=NUMBER` for each net
fn print_all(design: &Design, paths: &Items<Name>, values: &Values, page: &mut Draft) {
    for (net, number) in values.nets.as_slice().iter().enumerate() {
        print_net_number(design, paths, net, *number, page);
    }
    page.print(b"\n");
}

/// ` NAME=NUMBER`
fn print_net_number(
    design: &Design,
    paths: &Items<Name>,
    net: usize,
    number: u128,
    page: &mut Draft,
) {
    page.print(b" ");
    print_net(design, paths, net, page);
    page.print(b"=");
    print_number(page, number);
}

/// A line of the registers, and of other nets that aren't 0, and one of the words where there are some.
fn print_state(design: &Design, paths: &Items<Name>, state: &Values, page: &mut Draft) {
    page.print(b"state");
    print_registers(design, paths, state, page);
    if !state.words.is_empty() {
        page.print(b"words");
        print_line(state.words.as_slice(), page);
    }
}

fn print_registers(design: &Design, paths: &Items<Name>, state: &Values, page: &mut Draft) {
    for (net, number) in state.nets.as_slice().iter().enumerate() {
        if *number != 0 || is_register(design, net) {
            print_net_number(design, paths, net, *number, page);
        }
    }
    page.print(b"\n");
}

fn is_register(design: &Design, net: usize) -> bool {
    design.registers.as_slice().iter().any(|r| r.net == net)
}

/// Prints each number after a space, and the end of the line.
fn print_line(numbers: &[u128], page: &mut Draft) {
    print_numbers(page, numbers);
    page.print(b"\n");
}

/// `start FILE TOP`: the initial state.
pub(crate) fn print_start(
    alloc: Global,
    design: &Design,
    paths: &Items<Name>,
    page: &mut Draft,
) -> Result<(), Ended>
    requires { IsLawful design.now }
{
    lawful_is_sized();
    let state = initial_state(alloc, design)?;
    print_state(design, paths, &state, page);
    Ok(())
}

/// `order FILE TOP`: the order of the drivers, or those of a loop, counted from 0.
pub(crate) fn print_order(alloc: Global, design: &Design, page: &mut Draft) -> Result<(), Ended>
    requires { IsLawful design.now }
{
    match order(alloc, design) {
        Ok(order) => {
            page.print(b"order");
            print_line(order.drivers.as_slice(), page);
            Ok(())
        }
        Err(OrderError::Loop { drivers }) => {
            page.print(b"loop");
            print_line(drivers.as_slice(), page);
            Ok(())
        }
        Err(OrderError::Memory) => Err(Ended::Memory),
    }
}
