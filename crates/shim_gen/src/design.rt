//! The design in a top: its instance, and the inputs for its reset and its ties.

ghost use Rattle.std.specs.Prelude.{◌≡◌, ◌++◌, [], ◌∷◌, OnOk, map};
ghost use Rattle.std.specs.List.{flat_map};
ghost use Rattle.vlog_tree.specs.Plain.{plain_port, plain_conn, plain_item};
ghost use Rattle.shim_trees.specs.Links as spec;

use crate::conns::add_conn;
use crate::items::add_instance;
use crate::links::{add_held_widths, nets_of};
use crate::names::{Label, name_of};
use crate::ports::{INPUT, add_port};
use shim_trees::chan_map::Map;
use shim_trees::vlog_size::Table;
use std::alloc::Global;
use vlog_copy::vidi_bits::{Items, Memory, Name, copied};
use vlog_tree::{Conns, Item, Port, Ports};

/// Adds the input for a port of the design, where it is the reset or a tie.
fn add_tied_port(
    alloc: Global,
    ports: &mut Ports,
    widths: &Table<u32>,
    port: &Port,
) -> Result<(), Memory>
    ensures { OnOk result (map plain_port ports.new ≡ map plain_port ports.old ++ spec.tied_port widths.now (plain_port port.now)) }
{
    let name = port.id.name.as_slice();
    match widths.get(name) {
        None => Ok(()),
        Some(width) => add_port(alloc, ports, INPUT, Label::Tied(name), *width),
    }
}

/// Adds the inputs for the ports of the design that have these widths.
fn add_ports_of(
    alloc: Global,
    ports: &mut Ports,
    widths: &Table<u32>,
    design: &[Port],
) -> Result<(), Memory>
    ensures { OnOk result (map plain_port ports.new ≡ map plain_port ports.old
        ++ flat_map (spec.tied_port widths.now) (map plain_port design.now)) }
{
    for port in design {
        add_tied_port(alloc, ports, widths, port)?;
    }
    Ok(())
}

/// Adds the inputs for the reset and the ties, in the order of the design's ports.
#[tactic(auto, using(crate::proofs::Tables::tied_by_table))]
pub fn add_tied_ports(
    alloc: Global,
    ports: &mut Ports,
    pins: &Map,
    design: &[Port],
) -> Result<(), Memory>
    ensures { OnOk result (map plain_port ports.new ≡ map plain_port ports.old ++ spec.tied_ports pins.now (map plain_port design.now)) }
{
    let mut widths = Table::new(alloc);
    add_held_widths(alloc, &mut widths, pins)?;
    add_ports_of(alloc, ports, &widths, design)
}

/// Adds the connection of a port of the design.
fn add_design_conn(
    alloc: Global,
    conns: &mut Conns,
    nets: &Table<Name>,
    port: &Port,
) -> Result<(), Memory>
    ensures { OnOk result (map plain_conn conns.new ≡ map plain_conn conns.old ++ spec.dut_conn nets.now (plain_port port.now) ∷ []) }
{
    let name = port.id.name.as_slice();
    match nets.get(name) {
        None => add_conn(alloc, conns, Label::Given(name), None),
        Some(net) => {
            let net = Label::Given(net.as_slice());
            add_conn(alloc, conns, Label::Given(name), Some(net))
        }
    }
}

/// Adds the connections of the design's ports.
fn add_design_conns(
    alloc: Global,
    conns: &mut Conns,
    nets: &Table<Name>,
    ports: &[Port],
) -> Result<(), Memory>
    ensures { OnOk result (map plain_conn conns.new
        ≡ map plain_conn conns.old ++ map (spec.dut_conn nets.now) (map plain_port ports.now)) }
{
    for port in ports {
        add_design_conn(alloc, conns, nets, port)?;
    }
    Ok(())
}

/// Adds the instance `dut` of the design of this name, whose ports are joined to these nets.
fn add_dut(
    alloc: Global,
    items: &mut Items<Item>,
    nets: &Table<Name>,
    kind: &[u8],
    ports: &[Port],
) -> Result<(), Memory>
    ensures { OnOk result (map plain_item items.new ≡ map plain_item items.old
        ++ spec.dut nets.now kind.now (map plain_port ports.now) ∷ []) }
{
    let kind = copied(alloc, kind)?;
    let name = name_of(alloc, Label::Plain("dut"))?;
    let mut conns = Items::new(alloc);
    add_design_conns(alloc, &mut conns, nets, ports)?;
    add_instance(alloc, items, kind, name, conns)
}

/// Adds the instance `dut` of the design, whose top has these ports.
pub fn add_design(
    alloc: Global,
    items: &mut Items<Item>,
    valid: &str,
    ready: &str,
    pins: &Map,
    ports: &[Port],
) -> Result<(), Memory>
    ensures { OnOk result (map plain_item items.new ≡ map plain_item items.old
        ++ spec.dut (spec.links valid.now ready.now pins.now) pins.now.top (map plain_port ports.now) ∷ []) }
{
    let nets = nets_of(alloc, valid, ready, pins)?;
    add_dut(alloc, items, &nets, pins.top.as_slice(), ports)
}
