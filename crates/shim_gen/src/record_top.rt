//! The top that records.

ghost use Rattle.std.specs.Prelude.{◌≡◌, ◌++◌, [], ◌∷◌, IfOk, OnOk, map};
ghost use Rattle.vlog_tree.specs.Plain.{plain_port, plain_conn, plain_item, plain_module};
ghost use Rattle.shim_trees.specs.Pieces as pieces;
ghost use Rattle.shim_trees.specs.RecordTop as spec;

use crate::conns::{self, ConnRow};
use crate::design::{add_design, add_tied_ports};
use crate::items::{self, ItemRow, add_instance};
use crate::names::{Label, name_of};
use crate::ports::{self, INPUT, OUTPUT, PortRow, sink_side, source_side};
use shim_trees::chan_map::Map;
use shim_trees::trace_model::{Channel, Dir};
use std::alloc::Global;
use vlog_copy::vidi_bits::{Items, Memory};
use vlog_tree::{Conns, Item, Module, Port, Ports};

/// Adds the ports of channel n.
fn add_channel_ports(
    alloc: Global,
    ports: &mut Ports,
    n: usize,
    channel: &Channel,
) -> Result<(), Memory>
    ensures { OnOk result (map plain_port ports.new ≡ map plain_port ports.old ++ spec.record_ports n channel.now) }
{
    let source = source_side(channel.dir);
    let sink = sink_side(channel.dir);
    let rows = [
        PortRow::One(INPUT, Label::Numbered("g_", n)),
        PortRow::One(source, Label::Numbered("v_", n)),
        PortRow::One(sink, Label::Numbered("r_", n)),
        PortRow::Each(source, Label::Numbered("d_", n), channel.widths.as_slice()),
        PortRow::One(OUTPUT, Label::Numbered("start_", n)),
        PortRow::One(OUTPUT, Label::Numbered("stop_", n)),
    ];
    ports::add_rows(alloc, ports, &rows)
}

/// Adds the ports of all channels.
fn add_all_channel_ports(
    alloc: Global,
    ports: &mut Ports,
    channels: &[Channel],
) -> Result<(), Memory>
    ensures { OnOk result (map plain_port ports.new
        ≡ map plain_port ports.old ++ pieces.each_some spec.record_ports 0 channels.now) }
{
    for (n, channel) in channels.iter().enumerate() {
        add_channel_ports(alloc, ports, n, channel)?;
    }
    Ok(())
}

/// Adds the wires of channel n.
fn add_channel_wires(
    alloc: Global,
    items: &mut Items<Item>,
    n: usize,
    channel: &Channel,
) -> Result<(), Memory>
    ensures { OnOk result (map plain_item items.new ≡ map plain_item items.old ++ spec.record_wires n channel.now) }
{
    let gated = ItemRow::Wire(Label::Numbered("w_", n));
    let contents = ItemRow::Wires(Label::Numbered("k_", n), channel.widths.as_slice());
    match channel.dir {
        Dir::Inward => items::add_rows(alloc, items, &[gated, contents]),
        Dir::Outward => items::add_rows(alloc, items, &[gated]),
    }
}

/// Adds the wires of all channels.
fn add_all_channel_wires(
    alloc: Global,
    items: &mut Items<Item>,
    channels: &[Channel],
) -> Result<(), Memory>
    ensures { OnOk result (map plain_item items.new
        ≡ map plain_item items.old ++ pieces.each_some spec.record_wires 0 channels.now) }
{
    for (n, channel) in channels.iter().enumerate() {
        add_channel_wires(alloc, items, n, channel)?;
    }
    Ok(())
}

/// Adds the connections of the clock, the gate and the source's side.
fn add_source_conns(
    alloc: Global,
    conns: &mut Conns,
    n: usize,
    dir: Dir,
    widths: &[u8],
) -> Result<(), Memory>
    ensures { OnOk result (map plain_conn conns.new ≡ map plain_conn conns.old ++ spec.source_conns n dir widths.now) }
{
    let clock = ConnRow::One(Label::Plain("clk"), Some(Label::Plain("clk")));
    let gate = ConnRow::One(Label::Plain("g"), Some(Label::Numbered("g_", n)));
    let valid = ConnRow::One(Label::Plain("sv"), Some(Label::Numbered("v_", n)));
    let given = ConnRow::Each(Label::Plain("s"), Some(Label::Numbered("d_", n)), widths);
    match dir {
        Dir::Inward => {
            let ready = ConnRow::One(Label::Plain("sr"), None);
            conns::add_rows(alloc, conns, &[clock, gate, valid, ready, given])
        }
        Dir::Outward => {
            let ready = ConnRow::One(Label::Plain("sr"), Some(Label::Numbered("w_", n)));
            conns::add_rows(alloc, conns, &[clock, gate, valid, ready, given])
        }
    }
}

/// Adds the connections of the sink's side, and of start and completion.
fn add_sink_conns(
    alloc: Global,
    conns: &mut Conns,
    n: usize,
    dir: Dir,
    widths: &[u8],
) -> Result<(), Memory>
    ensures { OnOk result (map plain_conn conns.new ≡ map plain_conn conns.old ++ spec.sink_conns n dir widths.now) }
{
    let ready = ConnRow::One(Label::Plain("kr"), Some(Label::Numbered("r_", n)));
    let start = ConnRow::One(Label::Plain("start"), Some(Label::Numbered("start_", n)));
    let stop = ConnRow::One(Label::Plain("stop"), Some(Label::Numbered("stop_", n)));
    match dir {
        Dir::Inward => {
            let valid = ConnRow::One(Label::Plain("kv"), Some(Label::Numbered("w_", n)));
            let shown = ConnRow::Each(Label::Plain("k"), Some(Label::Numbered("k_", n)), widths);
            let rows = [valid, ready, shown, start, stop];
            conns::add_rows(alloc, conns, &rows)
        }
        Dir::Outward => {
            let valid = ConnRow::One(Label::Plain("kv"), None);
            let shown = ConnRow::Each(Label::Plain("k"), None, widths);
            let rows = [valid, ready, shown, start, stop];
            conns::add_rows(alloc, conns, &rows)
        }
    }
}

/// Adds the monitor of channel n.
fn add_monitor(
    alloc: Global,
    items: &mut Items<Item>,
    n: usize,
    channel: &Channel,
) -> Result<(), Memory>
    ensures { OnOk result (map plain_item items.new ≡ map plain_item items.old ++ spec.monitor_item n channel.now ∷ []) }
{
    let kind = name_of(alloc, Label::Numbered("vidi_m_", n))?;
    let name = name_of(alloc, Label::Numbered("m_", n))?;
    let widths = channel.widths.as_slice();
    let mut conns = Items::new(alloc);
    add_source_conns(alloc, &mut conns, n, channel.dir, widths)?;
    add_sink_conns(alloc, &mut conns, n, channel.dir, widths)?;
    add_instance(alloc, items, kind, name, conns)
}

/// Adds the monitors of all channels.
fn add_monitors(alloc: Global, items: &mut Items<Item>, channels: &[Channel]) -> Result<(), Memory>
    ensures { OnOk result (map plain_item items.new ≡ map plain_item items.old ++ pieces.each spec.monitor_item 0 channels.now) }
{
    for (n, channel) in channels.iter().enumerate() {
        add_monitor(alloc, items, n, channel)?;
    }
    Ok(())
}

/// Adds the ports of the top.
fn add_top_ports(
    alloc: Global,
    ports: &mut Ports,
    pins: &Map,
    design: &[Port],
) -> Result<(), Memory>
    ensures { OnOk result (map plain_port ports.new
        ≡ map plain_port ports.old ++ (spec.record_top pins.now (map plain_port design.now)).ports) }
{
    ports::add_rows(alloc, ports, &[PortRow::One(INPUT, Label::Plain("clk"))])?;
    add_tied_ports(alloc, ports, pins, design)?;
    add_all_channel_ports(alloc, ports, pins.channels.as_slice())
}

/// Adds the items of the top.
fn add_top_items(
    alloc: Global,
    items: &mut Items<Item>,
    pins: &Map,
    design: &[Port],
) -> Result<(), Memory>
    ensures { OnOk result (map plain_item items.new
        ≡ map plain_item items.old ++ (spec.record_top pins.now (map plain_port design.now)).items) }
{
    add_all_channel_wires(alloc, items, pins.channels.as_slice())?;
    add_design(alloc, items, "w_", "w_", pins, design)?;
    add_monitors(alloc, items, pins.channels.as_slice())
}

/// The top that records, round a design whose top has the ports `design`: the module `vidi_record_top`.
pub fn record_top(alloc: Global, pins: &Map, design: &[Port]) -> Result<Module, Memory>
    ensures { IfOk result (λ top. plain_module top ≡ spec.record_top pins.now (map plain_port design.now)) }
{
    let name = name_of(alloc, Label::Plain("vidi_record_top"))?;
    let mut ports = Items::new(alloc);
    add_top_ports(alloc, &mut ports, pins, design)?;
    let mut items = Items::new(alloc);
    add_top_items(alloc, &mut items, pins, design)?;
    Ok(Module {
        name,
        parameters: Items::new(alloc),
        ports,
        items,
    })
}
