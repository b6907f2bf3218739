//! The monitor of a channel.

ghost use Rattle.std.specs.Prelude.{◌≡◌, ◌++◌, IfOk, OnOk, map};
ghost use Rattle.vlog_tree.specs.Plain.{plain_port, plain_item, plain_module};
ghost use Rattle.shim_trees.specs.Monitor as spec;

use crate::items::{self, ItemRow};
use crate::names::{Label, name_of};
use crate::ports::{self, INPUT, OUTPUT, PortRow};
use shim_trees::trace_model::Channel;
use std::alloc::Global;
use vlog_copy::vidi_bits::{Items, Memory};
use vlog_tree::{Item, Module, Ports};

/// Adds the ports.
fn add_ports(alloc: Global, ports: &mut Ports, widths: &[u8]) -> Result<(), Memory>
    ensures { OnOk result (map plain_port ports.new ≡ map plain_port ports.old ++ spec.monitor_ports widths.now) }
{
    let rows = [
        PortRow::One(INPUT, Label::Plain("clk")),
        PortRow::One(INPUT, Label::Plain("g")),
        PortRow::One(INPUT, Label::Plain("sv")),
        PortRow::One(OUTPUT, Label::Plain("sr")),
        PortRow::Each(INPUT, Label::Plain("s"), widths),
        PortRow::One(OUTPUT, Label::Plain("kv")),
        PortRow::One(INPUT, Label::Plain("kr")),
        PortRow::Each(OUTPUT, Label::Plain("k"), widths),
        PortRow::One(OUTPUT, Label::Plain("start")),
        PortRow::One(OUTPUT, Label::Plain("stop")),
    ];
    ports::add_rows(alloc, ports, &rows)
}

/// Adds the items: what the gate holds back, and what tells starts and completions.
fn add_items(alloc: Global, items: &mut Items<Item>, widths: &[u8]) -> Result<(), Memory>
    ensures { OnOk result (map plain_item items.new ≡ map plain_item items.old ++ spec.monitor_items widths.now) }
{
    let rows = [
        ItemRow::Reg("fly"),
        ItemRow::Both("kv", "sv", "g"),
        ItemRow::Both("sr", "kr", "g"),
        ItemRow::Gated(widths),
        ItemRow::Without("start", "kv", "fly"),
        ItemRow::Both("stop", "kv", "kr"),
        ItemRow::Next("fly", "kv", "kr"),
    ];
    items::add_rows(alloc, items, &rows)
}

/// The monitor of channel n (from 0): the module `vidi_m_n`, which holds valid and ready back while the gate `g` is shut, shows content 0
/// behind it, and tells starts and completions.
pub fn monitor_tree(alloc: Global, channel: &Channel, n: usize) -> Result<Module, Memory>
    ensures { IfOk result (λ tree. plain_module tree ≡ spec.monitor n channel.now.widths) }
{
    let widths = channel.widths.as_slice();
    let name = name_of(alloc, Label::Numbered("vidi_m_", n))?;
    let mut ports = Items::new(alloc);
    add_ports(alloc, &mut ports, widths)?;
    let mut items = Items::new(alloc);
    add_items(alloc, &mut items, widths)?;
    Ok(Module {
        name,
        parameters: Items::new(alloc),
        ports,
        items,
    })
}
