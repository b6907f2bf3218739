//! The numbers at the input pins in a cycle.

ghost use Rattle.std.specs.Prelude.{◌≡◌, ◌<◌, ◌≤◌, ◌++◌, ◌∷◌, [], ℕ, List, map, take, drop, length, slice_get, slice_index, IfOk, OnOk};
ghost use Rattle.std.specs.List.{enumerate_from, range_with_len};
ghost use Rattle.std.specs.Option.{option_to_list};
ghost use Rattle.run_model.specs.vidi_bits.Number.{truth};
ghost use Rattle.run_model.specs.trace_model.Channel.{IsTable};
ghost use Rattle.run_model.specs.trace_model.Packet.{widths_of};
ghost use Rattle.run_model.specs.trace_model.Row.{all_widths, content_at, sink_valid};
ghost use Rattle.net_design.specs.declared.design.Design.{Design};
ghost use Rattle.run_model.specs.chan_map.declared.pins.Pin.{Pin};
ghost use Rattle.run_model.specs.Building.{number_for, AreSmall};
ghost use Rattle.run_model.specs.MapOf.{IsMapOf};
ghost use Rattle.run_model.specs.Pins.{pin_number, shown_number, plug_inputs, inputs_from, reset_input, tie_input, entered, ArePins};

use run_model::chan_map::{Map, Plug, Reset, Tie};
use run_model::trace_model::{Channel, Dir, Row, names};
use run_model::vidi_bits::{Memory, Numbers};
use run_model::{PinNumber, PinNumbers};
use std::alloc::Global;

/// How many ports channel `c` has, 0 where there is none.
pub fn port_count(channels: &[Channel], c: usize) -> usize
    ensures { result ≡ length (widths_of (slice_get channels.now c)) }
{
    match channels.get(c) {
        Some(channel) => channel.widths.len(),
        None => 0,
    }
}

/// Where the numbers of channel `c` begin among those of all channels.
pub fn first_place(channels: &[Channel], c: usize) -> usize
    requires table { IsTable channels.now }
    requires within { c ≤ length channels.now }
    ensures { result ≡ length (all_widths (take c channels.now)) }
{
    let mut first = 0;
    for i in 0..c {
        first += port_count(channels, i);
    }
    first
}

/// Number `i` of the `len` numbers from place `first` on, 0 past the end.
pub fn number_in(contents: &[u128], first: usize, len: usize, i: usize) -> u128
    ensures { result ≡ slice_index (take len (drop first contents.now)) i }
{
    if i < len && first < contents.len() && i < contents.len() - first {
        contents[first + i]
    } else {
        0
    }
}

fn truth(up: bool) -> u128
    ensures { result ≡ truth up }
{
    if up { 1 } else { 0 }
}

fn shown_number(valid: bool, contents: &[u128], first: usize, len: usize, i: usize) -> u128
    ensures { result ≡ shown_number valid (take len (drop first contents.now)) i }
{
    if valid {
        number_in(contents, first, len, i)
    } else {
        0
    }
}

/// Whether a sink sees the valid of channel `c`.
pub fn sink_valid(row: &Row, c: usize) -> bool
    ensures { result ≡ sink_valid row.now c }
{
    names(row.valids, c) && names(row.gates, c)
}

/// Adds what is entered at the content pins of an inward channel, whose numbers begin at `first`.
fn push_contents(
    out: &mut PinNumbers,
    plug: &Plug,
    valid: bool,
    contents: &[u128],
    first: usize,
    len: usize,
) -> Result<(), Memory>
    ensures { OnOk result (out.new ≡ out.old
        ++ map (λ (p : ℕ × Pin). pin_number p.1.place (shown_number valid (take len (drop first contents.now)) p.0))
        (enumerate_from 0 plug.now.contents)) }
{
    for (i, pin) in plug.contents.as_slice().iter().enumerate() {
        let number = shown_number(valid, contents, first, len, i);
        out.push(PinNumber {
            place: pin.place,
            number,
        })?;
    }
    Ok(())
}

/// Adds what is entered at the pins of channel `c`.
fn push_plug(
    out: &mut PinNumbers,
    channels: &[Channel],
    row: &Row,
    c: usize,
    dir: Dir,
    plug: &Plug,
) -> Result<(), Memory>
    requires table { IsTable channels.now }
    requires within { c < length channels.now }
    ensures { OnOk result (out.new ≡ out.old ++ plug_inputs channels.now row.now c dir plug.now) }
{
    match dir {
        Dir::Inward => {
            let valid = sink_valid(row, c);
            out.push(PinNumber {
                place: plug.valid.place,
                number: truth(valid),
            })?;
            let first = first_place(channels, c);
            let len = port_count(channels, c);
            push_contents(out, plug, valid, row.contents.as_slice(), first, len)
        }
        Dir::Outward => {
            let ready = names(row.readies, c) && names(row.gates, c);
            out.push(PinNumber {
                place: plug.ready.place,
                number: truth(ready),
            })?;
            Ok(())
        }
    }
}

/// Adds what is entered at the pins of the channels.
fn push_channels(
    out: &mut PinNumbers,
    channels: &[Channel],
    plugs: &[Plug],
    row: &Row,
) -> Result<(), Memory>
    requires table { IsTable channels.now }
    requires plugs { length plugs.now ≡ length channels.now }
    ensures { OnOk result (out.new ≡ out.old ++ inputs_from channels.now row.now 0 channels.now plugs.now) }
{
    for (c, channel) in channels.iter().enumerate() {
        push_plug(out, channels, row, c, channel.dir, &plugs[c])?;
    }
    Ok(())
}

fn push_reset(out: &mut PinNumbers, reset: &Option<Reset>, resets: bool) -> Result<(), Memory>
    ensures { OnOk result (out.new ≡ out.old ++ map (reset_input resets) (option_to_list reset.now)) }
{
    match reset {
        Some(reset) => {
            let up = if resets { reset.active } else { !reset.active };
            out.push(PinNumber {
                place: reset.pin.place,
                number: truth(up),
            })?;
            Ok(())
        }
        None => Ok(()),
    }
}

fn push_ties(out: &mut PinNumbers, ties: &[Tie]) -> Result<(), Memory>
    ensures { OnOk result (out.new ≡ out.old ++ map tie_input ties.now) }
{
    for tie in ties {
        out.push(PinNumber {
            place: tie.pin.place,
            number: tie.number,
        })?;
    }
    Ok(())
}

/// Each input pin with its number: the clock, the reset, the ties and the channels, by the row that the channels show. In a reset
/// cycle the reset pin has its active value.
pub(crate) fn entered(
    alloc: Global,
    map: &Map,
    resets: bool,
    row: &Row,
) -> Result<PinNumbers, Memory>
    requires table { IsTable map.now.channels }
    requires plugs { length map.now.plugs ≡ length map.now.channels }
    ensures { IfOk result (λ es. es ≡ entered map.now resets row.now) }
{
    let mut out = PinNumbers::new(alloc);
    out.push(PinNumber {
        place: map.clock.place,
        number: 0,
    })?;
    push_reset(&mut out, &map.reset, resets)?;
    push_ties(&mut out, map.ties.as_slice())?;
    push_channels(&mut out, map.channels.as_slice(), map.plugs.as_slice(), row)?;
    Ok(out)
}

/// The first number that is entered at a place, 0 where none is.
fn number_for(entries: &[PinNumber], place: usize) -> u128
    ensures { result ≡ number_for entries.now place }
{
    for entry in entries {
        if entry.place == place {
            return entry.number;
        }
    }
    0
}

/// The numbers of the places from 0 on, as many as are entered.
fn by_place(alloc: Global, entries: &[PinNumber]) -> Result<Numbers, Memory>
    ensures { IfOk result (λ xs. xs ≡ map (number_for entries.now) (range_with_len 0 (length entries.now))) }
{
    let mut numbers = Numbers::new(alloc);
    for place in 0..entries.len() {
        numbers.push(number_for(entries, place))?;
    }
    Ok(numbers)
}

/// The numbers of the input ports of the top, in port order, in a cycle with this row, or in a reset cycle.
pub(crate) fn input_pins(
    alloc: Global,
    map: &Map,
    resets: bool,
    row: &Row,
) -> Result<Numbers, Memory>
    requires table { IsTable map.now.channels }
    requires plugs { length map.now.plugs ≡ length map.now.channels }
    requires small { AreSmall map.now.channels row.now }
    ensures { IfOk result (λ pins. (d : Design) → IsMapOf d map.now → ArePins d map.now resets row.now pins) }
{
    let entries = entered(alloc, map, resets, row)?;
    by_place(alloc, entries.as_slice())
}
