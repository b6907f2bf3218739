//! The top that replays.

ghost use Rattle.std.specs.Prelude.{◌≡◌, ◌++◌, [], ◌∷◌, IfOk, OnOk, map, length};
ghost use Rattle.vlog_tree.specs.Plain.{plain_port, plain_conn, plain_item, plain_module};
ghost use Rattle.shim_trees.specs.Pieces as pieces;
ghost use Rattle.shim_trees.specs.ReplayTop as spec;

use crate::conns::{self, ConnRow};
use crate::design::{add_design, add_tied_ports};
use crate::items::{self, ItemRow, add_instance};
use crate::names::{Label, name_of};
use crate::ports::{self, INPUT, OUTPUT, PortRow};
use crate::replayer::COUNTER_WIDTH;
use shim_trees::chan_map::Map;
use shim_trees::trace_model::{Channel, Dir};
use std::alloc::Global;
use vlog_copy::vidi_bits::{Items, Memory};
use vlog_tree::{Conns, Item, Module, Port, Ports};

/// Adds the ports of channel n of `count`.
fn add_channel_ports(
    alloc: Global,
    ports: &mut Ports,
    count: usize,
    n: usize,
    channel: &Channel,
) -> Result<(), Memory>
    ensures { OnOk result (map plain_port ports.new ≡ map plain_port ports.old ++ spec.replay_ports count n channel.now) }
{
    let widths = channel.widths.as_slice();
    let more = PortRow::One(INPUT, Label::Numbered("more_", n));
    let needs = PortRow::Upto(INPUT, Label::Numbered("n_", n), count, COUNTER_WIDTH);
    let valid = PortRow::One(OUTPUT, Label::Numbered("v_", n));
    let ready = PortRow::One(OUTPUT, Label::Numbered("r_", n));
    let pop = PortRow::One(OUTPUT, Label::Numbered("pop_", n));
    match channel.dir {
        Dir::Inward => {
            let fed = PortRow::Each(INPUT, Label::Numbered("s_", n), widths);
            ports::add_rows(alloc, ports, &[more, needs, fed, valid, ready, pop])
        }
        Dir::Outward => {
            let shown = PortRow::Each(OUTPUT, Label::Numbered("d_", n), widths);
            ports::add_rows(alloc, ports, &[more, needs, valid, ready, pop, shown])
        }
    }
}

/// Adds the ports of all channels.
fn add_all_channel_ports(
    alloc: Global,
    ports: &mut Ports,
    channels: &[Channel],
) -> Result<(), Memory>
    ensures { OnOk result (map plain_port ports.new
        ≡ map plain_port ports.old ++ pieces.each_some (spec.replay_ports (length channels.now)) 0 channels.now) }
{
    let count = channels.len();
    for (n, channel) in channels.iter().enumerate() {
        add_channel_ports(alloc, ports, count, n, channel)?;
    }
    Ok(())
}

/// Adds the wires of channel n.
fn add_channel_wires(
    alloc: Global,
    items: &mut Items<Item>,
    n: usize,
    channel: &Channel,
) -> Result<(), Memory>
    ensures { OnOk result (map plain_item items.new ≡ map plain_item items.old ++ spec.replay_wires n channel.now) }
{
    match channel.dir {
        Dir::Inward => {
            let contents = ItemRow::Wires(Label::Numbered("k_", n), channel.widths.as_slice());
            items::add_rows(alloc, items, &[contents])
        }
        Dir::Outward => Ok(()),
    }
}

/// Adds the wires of all channels.
fn add_all_channel_wires(
    alloc: Global,
    items: &mut Items<Item>,
    channels: &[Channel],
) -> Result<(), Memory>
    ensures { OnOk result (map plain_item items.new
        ≡ map plain_item items.old ++ pieces.each_some spec.replay_wires 0 channels.now) }
{
    for (n, channel) in channels.iter().enumerate() {
        add_channel_wires(alloc, items, n, channel)?;
    }
    Ok(())
}

/// Adds the connections of the sides of a replayer.
fn add_side_conns(
    alloc: Global,
    conns: &mut Conns,
    n: usize,
    dir: Dir,
    widths: &[u8],
) -> Result<(), Memory>
    ensures { OnOk result (map plain_conn conns.new ≡ map plain_conn conns.old ++ spec.side_conns n dir widths.now) }
{
    let valid = Some(Label::Numbered("v_", n));
    let ready = Some(Label::Numbered("r_", n));
    match dir {
        Dir::Inward => {
            let rows = [
                ConnRow::Each(Label::Plain("s"), Some(Label::Numbered("s_", n)), widths),
                ConnRow::One(Label::Plain("kv"), valid),
                ConnRow::One(Label::Plain("kr"), ready),
                ConnRow::Each(Label::Plain("k"), Some(Label::Numbered("k_", n)), widths),
            ];
            conns::add_rows(alloc, conns, &rows)
        }
        Dir::Outward => {
            let rows = [
                ConnRow::One(Label::Plain("sv"), valid),
                ConnRow::One(Label::Plain("sr"), ready),
            ];
            conns::add_rows(alloc, conns, &rows)
        }
    }
}

/// Adds the connections of the replayer of channel n of `count`.
fn add_replayer_conns(
    alloc: Global,
    conns: &mut Conns,
    count: usize,
    n: usize,
    dir: Dir,
    widths: &[u8],
) -> Result<(), Memory>
    ensures { OnOk result (map plain_conn conns.new ≡ map plain_conn conns.old ++ spec.replayer_conns count n dir widths.now) }
{
    let rows = [
        ConnRow::One(Label::Plain("clk"), Some(Label::Plain("clk"))),
        ConnRow::One(Label::Plain("more"), Some(Label::Numbered("more_", n))),
        ConnRow::Upto(Label::Plain("n"), Some(Label::Numbered("n_", n)), count),
        ConnRow::Upto(Label::Plain("d"), Some(Label::Plain("pop_")), count),
    ];
    conns::add_rows(alloc, conns, &rows)?;
    add_side_conns(alloc, conns, n, dir, widths)?;
    let pop = ConnRow::One(Label::Plain("pop"), Some(Label::Numbered("pop_", n)));
    conns::add_rows(alloc, conns, &[pop])
}

/// Adds the replayer of channel n of `count`.
fn add_replayer(
    alloc: Global,
    items: &mut Items<Item>,
    count: usize,
    n: usize,
    channel: &Channel,
) -> Result<(), Memory>
    ensures { OnOk result (map plain_item items.new ≡ map plain_item items.old ++ spec.replayer_item count n channel.now ∷ []) }
{
    let kind = name_of(alloc, Label::Numbered("vidi_q_", n))?;
    let name = name_of(alloc, Label::Numbered("q_", n))?;
    let mut conns = Items::new(alloc);
    add_replayer_conns(
        alloc,
        &mut conns,
        count,
        n,
        channel.dir,
        channel.widths.as_slice(),
    )?;
    add_instance(alloc, items, kind, name, conns)
}

/// Adds the replayers of all channels.
fn add_replayers(alloc: Global, items: &mut Items<Item>, channels: &[Channel]) -> Result<(), Memory>
    ensures { OnOk result (map plain_item items.new
        ≡ map plain_item items.old ++ pieces.each (spec.replayer_item (length channels.now)) 0 channels.now) }
{
    let count = channels.len();
    for (n, channel) in channels.iter().enumerate() {
        add_replayer(alloc, items, count, n, channel)?;
    }
    Ok(())
}

/// Adds the ports of the top.
fn add_top_ports(
    alloc: Global,
    ports: &mut Ports,
    pins: &Map,
    design: &[Port],
) -> Result<(), Memory>
    ensures { OnOk result (map plain_port ports.new
        ≡ map plain_port ports.old ++ (spec.replay_top pins.now (map plain_port design.now)).ports) }
{
    ports::add_rows(alloc, ports, &[PortRow::One(INPUT, Label::Plain("clk"))])?;
    add_tied_ports(alloc, ports, pins, design)?;
    add_all_channel_ports(alloc, ports, pins.channels.as_slice())
}

/// Adds the items of the top.
fn add_top_items(
    alloc: Global,
    items: &mut Items<Item>,
    pins: &Map,
    design: &[Port],
) -> Result<(), Memory>
    ensures { OnOk result (map plain_item items.new
        ≡ map plain_item items.old ++ (spec.replay_top pins.now (map plain_port design.now)).items) }
{
    add_all_channel_wires(alloc, items, pins.channels.as_slice())?;
    add_design(alloc, items, "v_", "r_", pins, design)?;
    add_replayers(alloc, items, pins.channels.as_slice())
}

/// The top that replays, round a design whose top has the ports `design`: the module `vidi_replay_top`.
pub fn replay_top(alloc: Global, pins: &Map, design: &[Port]) -> Result<Module, Memory>
    ensures { IfOk result (λ top. plain_module top ≡ spec.replay_top pins.now (map plain_port design.now)) }
{
    let name = name_of(alloc, Label::Plain("vidi_replay_top"))?;
    let mut ports = Items::new(alloc);
    add_top_ports(alloc, &mut ports, pins, design)?;
    let mut items = Items::new(alloc);
    add_top_items(alloc, &mut items, pins, design)?;
    Ok(Module {
        name,
        parameters: Items::new(alloc),
        ports,
        items,
    })
}
