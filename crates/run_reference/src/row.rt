//! The row that a block shows.

ghost use Rattle.std.specs.Prelude.{◌≡◌, ◌<◌, ◌+◌, ◌*◌, ◌≤◌, ◌&&◌, ◌++◌, map, take, drop, length};
ghost use Rattle.std.specs.Prelude.{false, slice_index, IfOk, OnOk};
ghost use Rattle.std.specs.List.{AllZip};
ghost use Rattle.run_model.specs.trace_model.Channel.{IsTable};
ghost use Rattle.run_model.specs.trace_model.Row.{row_before};
ghost use Rattle.net_design.specs.Pins.{outputs};
ghost use Rattle.run_model.specs.chan_map.declared.pins.Pin.{Pin};
ghost use Rattle.run_model.specs.chan_map.Bound.{IsPin, IsPlug};
ghost use Rattle.net_design.specs.declared.design.Direction.TheVariants.{Output};
ghost use Rattle.run_model.specs.Building.{mask_of, valid_on, ready_on, valid_at, ready_at};
ghost use Rattle.run_model.specs.Building.{content_here, joined, starts_of, ends_of, row_of};
ghost use Rattle.run_model.specs.Held.{flies};
ghost use Rattle.run_model.specs.MapOf.{IsMapOf};
ghost use Rattle.run_model.specs.Offers.{offered_content};

use crate::pins::{first_place, port_count};
use net_design::Block;
use run_model::chan_map::{Map, Pin, Plug};
use run_model::trace_model::{
    Channel, Dir, Offers, Row, is_in_flight, names, push_zeros, with_bit,
};
use run_model::vidi_bits::{Memory, Numbers};
use std::alloc::Global;

fn all_three(a: bool, b: bool, c: bool) -> bool
    ensures { result ≡ ((a && b) && c) }
{
    a && b && c
}

/// Whether channel `c` is in flight after these rows.
pub fn flies(rows: &[Row], c: usize) -> bool
    ensures { result ≡ flies rows.now c }
{
    let count = rows.len();
    if count == 0 {
        return false;
    }
    is_in_flight(&rows[count - 1], c)
}

fn valid_on<B: Block>(block: &B, offers: &Offers, c: usize, channel: &Channel, plug: &Plug) -> bool
    requires { IsPlug (B.design block.now) channel.now plug.now }
    ensures { result ≡ valid_on offers.now (outputs (B.design block.now) (B.shown block.now)) c channel.now.dir plug.now }
{
    match channel.dir {
        Dir::Inward => names(offers.valids, c),
        Dir::Outward => block.pin(plug.valid.place) == 1,
    }
}

fn ready_on<B: Block>(block: &B, offers: &Offers, c: usize, channel: &Channel, plug: &Plug) -> bool
    requires { IsPlug (B.design block.now) channel.now plug.now }
    ensures { result ≡ ready_on offers.now (outputs (B.design block.now) (B.shown block.now)) c channel.now.dir plug.now }
{
    match channel.dir {
        Dir::Inward => block.pin(plug.ready.place) == 1,
        Dir::Outward => names(offers.readies, c),
    }
}

/// The valid of channel `c`'s source: what is offered, or what the block shows.
fn valid_at<B: Block>(block: &B, map: &Map, offers: &Offers, c: usize) -> bool
    requires { IsMapOf (B.design block.now) map.now }
    ensures { result ≡ valid_at map.now offers.now (outputs (B.design block.now) (B.shown block.now)) c }
{
    let Some(channel) = map.channels.get(c) else {
        return false;
    };
    let Some(plug) = map.plugs.get(c) else {
        return false;
    };
    valid_on(block, offers, c, channel, plug)
}

/// The ready of channel `c`'s sink.
fn ready_at<B: Block>(block: &B, map: &Map, offers: &Offers, c: usize) -> bool
    requires { IsMapOf (B.design block.now) map.now }
    ensures { result ≡ ready_at map.now offers.now (outputs (B.design block.now) (B.shown block.now)) c }
{
    let Some(channel) = map.channels.get(c) else {
        return false;
    };
    let Some(plug) = map.plugs.get(c) else {
        return false;
    };
    ready_on(block, offers, c, channel, plug)
}

fn valids<B: Block>(block: &B, map: &Map, offers: &Offers) -> u128
    requires { IsMapOf (B.design block.now) map.now }
    ensures { result ≡ mask_of (valid_at map.now offers.now (outputs (B.design block.now) (B.shown block.now))) (length map.now.channels) }
{
    let mut mask = 0;
    for c in 0..map.channels.len() {
        mask = with_bit(mask, c, valid_at(block, map, offers, c));
    }
    mask
}

fn readies<B: Block>(block: &B, map: &Map, offers: &Offers) -> u128
    requires { IsMapOf (B.design block.now) map.now }
    ensures { result ≡ mask_of (ready_at map.now offers.now (outputs (B.design block.now) (B.shown block.now))) (length map.now.channels) }
{
    let mut mask = 0;
    for c in 0..map.channels.len() {
        mask = with_bit(mask, c, ready_at(block, map, offers, c));
    }
    mask
}

/// The channels of `count` that start, after these rows.
fn starts(before: &[Row], count: usize, valids: u128, gates: u128) -> u128
    requires { count ≤ 128 }
    ensures { result ≡ starts_of count (row_before before.now (length before.now)) valids gates }
{
    let mut mask = 0;
    for c in 0..count {
        let up = all_three(names(valids, c), names(gates, c), !flies(before, c));
        mask = with_bit(mask, c, up);
    }
    mask
}

/// The channels of `count` that complete.
fn ends(count: usize, valids: u128, gates: u128, readies: u128) -> u128
    requires { count ≤ 128 }
    ensures { result ≡ ends_of count valids gates readies }
{
    let mut mask = 0;
    for c in 0..count {
        let up = all_three(names(valids, c), names(gates, c), names(readies, c));
        mask = with_bit(mask, c, up);
    }
    mask
}

/// At most `len` numbers from place `first` on.
pub fn part(numbers: &[u128], first: usize, len: usize) -> &[u128]
    ensures { result.now ≡ take len (drop first numbers.now) }
{
    let first = first.min(numbers.len());
    let rest = &numbers[first..];
    let len = len.min(rest.len());
    &rest[..len]
}

/// Adds numbers.
pub fn push_all(out: &mut Numbers, numbers: &[u128]) -> Result<(), Memory>
    ensures { OnOk result (out.new ≡ out.old ++ numbers.now) }
{
    for number in numbers {
        out.push(*number)?;
    }
    Ok(())
}

/// Adds the content that is offered on channel `c`, 0 for each port while its valid is down.
fn push_offered(
    out: &mut Numbers,
    channels: &[Channel],
    offers: &Offers,
    c: usize,
) -> Result<(), Memory>
    requires table { IsTable channels.now }
    requires within { c < length channels.now }
    ensures { OnOk result (out.new ≡ out.old ++ offered_content channels.now offers.now c) }
{
    let len = port_count(channels, c);
    if names(offers.valids, c) {
        let first = first_place(channels, c);
        push_all(out, part(offers.contents.as_slice(), first, len))
    } else {
        push_zeros(out, len)
    }
}

/// Adds the numbers of output pins.
fn push_outputs<B: Block>(
    out: &mut Numbers,
    block: &B,
    pins: &[Pin],
    widths: &[u8],
) -> Result<(), Memory>
    requires { AllZip (λ width pin. IsPin (B.design block.now) Output width pin) widths.now pins.now }
    ensures { OnOk result (out.new ≡ out.old
        ++ map (λ (p : Pin). slice_index (outputs (B.design block.now) (B.shown block.now)) p.place) pins.now) }
{
    for pin in pins {
        out.push(block.pin(pin.place))?;
    }
    Ok(())
}

/// Adds the content of channel `c`.
fn push_content<B: Block>(
    out: &mut Numbers,
    block: &B,
    map: &Map,
    offers: &Offers,
    c: usize,
) -> Result<(), Memory>
    requires mapped { IsMapOf (B.design block.now) map.now }
    requires within { c < length map.now.channels }
    ensures { OnOk result (out.new ≡ out.old ++ content_here map.now offers.now (outputs (B.design block.now) (B.shown block.now)) c) }
{
    let Some(channel) = map.channels.get(c) else {
        return Ok(());
    };
    let Some(plug) = map.plugs.get(c) else {
        return Ok(());
    };
    match channel.dir {
        Dir::Inward => push_offered(out, map.channels.as_slice(), offers, c),
        Dir::Outward => push_outputs(
            out,
            block,
            plug.contents.as_slice(),
            channel.widths.as_slice(),
        ),
    }
}

/// The contents of all channels.
fn contents<B: Block>(
    alloc: Global,
    block: &B,
    map: &Map,
    offers: &Offers,
) -> Result<Numbers, Memory>
    requires { IsMapOf (B.design block.now) map.now }
    ensures { IfOk result (λ xs. xs ≡ joined (content_here map.now offers.now (outputs (B.design block.now) (B.shown block.now))) 0
        map.now.channels) }
{
    let mut out = Numbers::new(alloc);
    for c in 0..map.channels.len() {
        push_content(&mut out, block, map, offers, c)?;
    }
    Ok(out)
}

/// The row after these rows, of these offers, these gates and what the block shows.
pub(crate) fn shown_row<B: Block>(
    alloc: Global,
    block: &B,
    map: &Map,
    before: &[Row],
    offers: &Offers,
    gates: u128,
) -> Result<Row, Memory>
    requires { IsMapOf (B.design block.now) map.now }
    ensures { IfOk result (λ row. row ≡ row_of map.now false (row_before before.now (length before.now)) offers.now gates
        (outputs (B.design block.now) (B.shown block.now))) }
{
    let contents = contents(alloc, block, map, offers)?;
    let count = map.channels.len();
    let valids = valids(block, map, offers);
    let readies = readies(block, map, offers);
    Ok(Row {
        fresh: false,
        gates,
        valids,
        readies,
        contents,
        starts: starts(before, count, valids, gates),
        ends: ends(count, valids, gates, readies),
    })
}
