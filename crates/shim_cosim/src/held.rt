//! The inputs of a top that are held: its clock, its reset and its ties.

ghost use Rattle.std.specs.Prelude.{◌≡◌, ◌++◌, [], not, if◌then◌else◌, IfOk, OnOk, map};
ghost use Rattle.std.specs.List.{flat_map};
ghost use Rattle.std.specs.Option.{option_to_list};
ghost use Rattle.vlog_tree.specs.Plain.{plain, plain_port};
ghost use Rattle.shim_gen.specs.shim_trees.Wrapped.{ports_in, module_named};
ghost use Rattle.shim_gen.specs.Tables.{with_entries};
ghost use Rattle.shim_cosim.specs.Held as spec;

use net_sim::vidi_bits::{Items, Memory, Numbers, copied};
use replay_run::chan_map::{Map, Reset};
use replay_run::chan_monitor::reset_value;
use shim_gen::ports_of;
use std::alloc::Global;
use vlog_design::vlog_size::Table;
use vlog_tree::{File, Port};

/// Adds the number of the reset, where there is one.
fn add_reset(
    alloc: Global,
    numbers: &mut Table<u128>,
    reset: &Option<Reset>,
    resets: bool,
) -> Result<(), Memory>
    ensures { OnOk result (numbers.new ≡ with_entries numbers.old (map (spec.reset_number resets) (option_to_list reset.now))) }
{
    match reset {
        None => Ok(()),
        Some(reset) => {
            let pin = copied(alloc, reset.pin.name.as_slice())?;
            numbers.push(pin, u128::from(reset_value(reset.active, resets)))
        }
    }
}

/// The numbers of the reset and the ties of a map, by name.
#[tactic(auto, using(shim_gen::proofs::Tables::entries_append))]
fn held_numbers(alloc: Global, map: &Map, resets: bool) -> Result<Table<u128>, Memory>
    ensures { IfOk result (λ numbers. numbers ≡ with_entries [] (spec.held_numbers map.now resets)) }
{
    let mut numbers = Table::new(alloc);
    add_reset(alloc, &mut numbers, &map.reset, resets)?;
    for tie in map.ties.as_slice() {
        let pin = copied(alloc, tie.pin.name.as_slice())?;
        numbers.push(pin, tie.number)?;
    }
    Ok(numbers)
}

/// Adds the number of a port of the design, where it is held.
fn push_held(pins: &mut Numbers, numbers: &Table<u128>, port: &Port) -> Result<(), Memory>
    ensures { OnOk result (pins.new ≡ pins.old ++ spec.held_number numbers.now (plain_port port.now)) }
{
    match numbers.get(port.id.name.as_slice()) {
        None => Ok(()),
        Some(number) => pins.push(*number),
    }
}

/// Adds the numbers of all ports of the design that are held, in port order.
fn push_all_held(pins: &mut Numbers, numbers: &Table<u128>, ports: &[Port]) -> Result<(), Memory>
    ensures { OnOk result (pins.new ≡ pins.old ++ flat_map (spec.held_number numbers.now) (map plain_port ports.now)) }
{
    for port in ports {
        push_held(pins, numbers, port)?;
    }
    Ok(())
}

/// The numbers at the inputs that are held, of a top round the design of a wrapped file, in a reset cycle or in another one.
pub(crate) fn held_pins(
    alloc: Global,
    file: &File,
    map: &Map,
    resets: bool,
) -> Result<Numbers, Memory>
    ensures { IfOk result (λ pins. pins ≡ spec.held_inputs map.now resets (ports_in (module_named (plain file.now).modules map.now.top))) }
{
    let numbers = held_numbers(alloc, map, resets)?;
    let ports = ports_of(file.modules.as_slice(), map.top.as_slice());
    let mut pins = Items::new(alloc);
    pins.push(0)?;
    push_all_held(&mut pins, &numbers, ports)?;
    Ok(pins)
}
