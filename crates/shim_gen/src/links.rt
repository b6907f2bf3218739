//! What the pins of a map are joined to.

ghost use Rattle.std.specs.Prelude.{◌≡◌, [], ◌∷◌, IfOk, OnOk, map, slice_get};
ghost use Rattle.std.specs.Option.{option_copied, option_to_list};
ghost use Rattle.shim_trees.specs.chan_map.declared.pins.Tie.{Tie as TieRecord};
ghost use Rattle.shim_trees.specs.chan_map.declared.pins.Reset.{Reset as ResetRecord};
ghost use Rattle.shim_trees.specs.trace_model.declared.channel.Channel.{Channel as ChannelRecord};
ghost use Rattle.shim_trees.specs.Pieces as pieces;
ghost use Rattle.shim_trees.specs.Links as spec;
ghost use Rattle.shim_gen.specs.Labels.{text, text_at};
ghost use Rattle.shim_gen.specs.Tables.{with_entries};

use crate::names::{Label, name_of};
use shim_trees::chan_map::{Map, Pin, Plug, Plugs, Reset, Tie};
use shim_trees::trace_model::{Channel, Dir};
use shim_trees::vlog_size::Table;
use std::alloc::Global;
use vlog_copy::vidi_bits::{Memory, Name, copied};

/// Adds the net that a pin is joined to, by the pin's name.
fn add_link(alloc: Global, nets: &mut Table<Name>, pin: &Pin, label: Label) -> Result<(), Memory>
    ensures { OnOk result (nets.new ≡ with_entries nets.old (spec.link pin.now (text label.entry) ∷ [])) }
{
    let pin = copied(alloc, pin.name.as_slice())?;
    let net = name_of(alloc, label)?;
    nets.push(pin, net)
}

/// Adds the nets of a channel's contents, numbered from 0.
fn add_content_links(
    alloc: Global,
    nets: &mut Table<Name>,
    pins: &[Pin],
    label: Label,
) -> Result<(), Memory>
    ensures { OnOk result (nets.new ≡ with_entries nets.old
        (pieces.each (λ i pin. spec.link pin (text_at label.entry i)) 0 pins.now)) }
{
    for (i, pin) in pins.iter().enumerate() {
        add_link(alloc, nets, pin, label.at(i))?;
    }
    Ok(())
}

/// Adds the net of the reset or a tie.
fn add_tied_link(alloc: Global, nets: &mut Table<Name>, pin: &Pin) -> Result<(), Memory>
    ensures { OnOk result (nets.new ≡ with_entries nets.old (spec.tied_link pin.now ∷ [])) }
{
    add_link(alloc, nets, pin, Label::Tied(pin.name.as_slice()))
}

/// Adds the net of the reset, where there is one.
fn add_reset_link(
    alloc: Global,
    nets: &mut Table<Name>,
    reset: &Option<Reset>,
) -> Result<(), Memory>
    ensures { OnOk result (nets.new ≡ with_entries nets.old (map (λ (r : ResetRecord). spec.tied_link r.pin) (option_to_list reset.now))) }
{
    match reset {
        None => Ok(()),
        Some(reset) => add_tied_link(alloc, nets, &reset.pin),
    }
}

/// Adds the nets of the ties.
fn add_tie_links(alloc: Global, nets: &mut Table<Name>, ties: &[Tie]) -> Result<(), Memory>
    ensures { OnOk result (nets.new ≡ with_entries nets.old (map (λ (t : TieRecord). spec.tied_link t.pin) ties.now)) }
{
    for tie in ties {
        add_tied_link(alloc, nets, &tie.pin)?;
    }
    Ok(())
}

/// Adds the nets of channel n, whose pins are this plug.
fn add_plug_links(
    alloc: Global,
    nets: &mut Table<Name>,
    valid: &str,
    ready: &str,
    n: usize,
    dir: Dir,
    plug: &Plug,
) -> Result<(), Memory>
    ensures { OnOk result (nets.new ≡ with_entries nets.old (spec.plug_links valid.now ready.now n dir plug.now)) }
{
    let contents = plug.contents.as_slice();
    match dir {
        Dir::Inward => {
            add_link(alloc, nets, &plug.valid, Label::Numbered(valid, n))?;
            add_link(alloc, nets, &plug.ready, Label::Numbered("r_", n))?;
            add_content_links(alloc, nets, contents, Label::Numbered("k_", n))
        }
        Dir::Outward => {
            add_link(alloc, nets, &plug.valid, Label::Numbered("v_", n))?;
            add_link(alloc, nets, &plug.ready, Label::Numbered(ready, n))?;
            add_content_links(alloc, nets, contents, Label::Numbered("d_", n))
        }
    }
}

/// Adds the nets of channel n, where it has a plug.
fn add_channel_links(
    alloc: Global,
    nets: &mut Table<Name>,
    valid: &str,
    ready: &str,
    n: usize,
    dir: Dir,
    plug: Option<&Plug>,
) -> Result<(), Memory>
    ensures { OnOk result (nets.new ≡ with_entries nets.old (spec.channel_links valid.now ready.now n dir (option_copied plug.entry))) }
{
    match plug {
        None => Ok(()),
        Some(plug) => add_plug_links(alloc, nets, valid, ready, n, dir, plug),
    }
}

/// Adds the nets of all channels.
fn add_all_channel_links(
    alloc: Global,
    nets: &mut Table<Name>,
    valid: &str,
    ready: &str,
    channels: &[Channel],
    plugs: &Plugs,
) -> Result<(), Memory>
    ensures { OnOk result (nets.new ≡ with_entries nets.old
        (pieces.each_some (λ n (c : ChannelRecord). spec.channel_links valid.now ready.now n c.dir (slice_get plugs.now n)) 0
        channels.now)) }
{
    for (n, channel) in channels.iter().enumerate() {
        add_channel_links(alloc, nets, valid, ready, n, channel.dir, plugs.get(n))?;
    }
    Ok(())
}

/// Adds the nets of all pins of a map.
#[tactic(auto, using(crate::proofs::Tables::entries_append))]
fn add_links(
    alloc: Global,
    nets: &mut Table<Name>,
    valid: &str,
    ready: &str,
    pins: &Map,
) -> Result<(), Memory>
    ensures { OnOk result (nets.new ≡ with_entries nets.old (spec.links valid.now ready.now pins.now)) }
{
    let channels = pins.channels.as_slice();
    add_link(alloc, nets, &pins.clock, Label::Plain("clk"))?;
    add_reset_link(alloc, nets, &pins.reset)?;
    add_tie_links(alloc, nets, pins.ties.as_slice())?;
    add_all_channel_links(alloc, nets, valid, ready, channels, &pins.plugs)
}

/// The net that each pin of a map is joined to, by the pin's name; of nets of one pin the first.
pub fn nets_of(alloc: Global, valid: &str, ready: &str, pins: &Map) -> Result<Table<Name>, Memory>
    ensures { IfOk result (λ nets. nets ≡ with_entries [] (spec.links valid.now ready.now pins.now)) }
{
    let mut nets = Table::new(alloc);
    add_links(alloc, &mut nets, valid, ready, pins)?;
    Ok(nets)
}

/// Adds the width of the reset, where there is one.
fn add_reset_width(
    alloc: Global,
    widths: &mut Table<u32>,
    reset: &Option<Reset>,
) -> Result<(), Memory>
    ensures { OnOk result (widths.new ≡ with_entries widths.old (map spec.reset_width (option_to_list reset.now))) }
{
    match reset {
        None => Ok(()),
        Some(reset) => {
            let pin = copied(alloc, reset.pin.name.as_slice())?;
            widths.push(pin, 1)
        }
    }
}

/// Adds the widths of the ties.
fn add_tie_widths(alloc: Global, widths: &mut Table<u32>, ties: &[Tie]) -> Result<(), Memory>
    ensures { OnOk result (widths.new ≡ with_entries widths.old (map spec.tie_width ties.now)) }
{
    for tie in ties {
        let pin = copied(alloc, tie.pin.name.as_slice())?;
        widths.push(pin, tie.width)?;
    }
    Ok(())
}

/// Adds the widths of the reset and the ties of a map, by name.
#[tactic(auto, using(crate::proofs::Tables::entries_append))]
pub fn add_held_widths(alloc: Global, widths: &mut Table<u32>, pins: &Map) -> Result<(), Memory>
    ensures { OnOk result (widths.new ≡ with_entries widths.old (spec.held pins.now)) }
{
    add_reset_width(alloc, widths, &pins.reset)?;
    add_tie_widths(alloc, widths, pins.ties.as_slice())
}
