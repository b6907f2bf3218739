//! The inputs and the outputs of `vidi_record_top`, in port order, channel by channel.

ghost use Rattle.std.specs.Prelude.{◌≡◌, ◌+◌, ◌≤◌, ◌<◌, ◌^◌, ◌++◌, OnOk, length, take, replicate, slice_index};
ghost use Rattle.replay_run.specs.trace_model.Packet.{Fit};
ghost use Rattle.replay_run.specs.trace_model.Row.{all_widths, replaced};
ghost use Rattle.net_design.specs.Pins as design;
ghost use Rattle.net_design.specs.Pins.{outputs};
ghost use Rattle.replay_run.specs.run_model.Building.{joined, mask_of};
ghost use Rattle.replay_run.specs.chan_monitor.Entering.{offered};
ghost use Rattle.replay_run.specs.chan_monitor.Shell.{HasPlaces};
ghost use Rattle.shim_gen.specs.shim_trees.Pieces.{upto};
ghost use Rattle.shim_cosim.specs.Recorded as spec;
ghost use Rattle.shim_cosim.specs.Recorded.{made_content, is_raised, is_chosen, inputs_count, outputs_count, row_inputs, IsMadeRow};

use net_design::Block;
use net_sim::vidi_bits::{Memory, Numbers};
use replay_run::trace_model::{Channel, Dir, Offers, Row, names, push_zeros, with_bit};

/// An output of one bit of a channel.
#[derive(Clone, Copy, PartialEq, Eq)]
pub(crate) enum Spot {
    /// The ready of an inward channel, the valid of an outward one.
    Side,
    Start,
    Stop,
}

/// Adds a zero for each input of a channel.
fn push_channel(pins: &mut Numbers, channel: &Channel) -> Result<(), Memory>
    ensures { OnOk result (pins.new ≡ pins.old ++ replicate (spec.input_count channel.now) 0) }
{
    push_zeros(pins, 2)?;
    match channel.dir {
        Dir::Inward => push_zeros(pins, channel.widths.len()),
        Dir::Outward => Ok(()),
    }
}

/// Adds a zero for each input of the channels.
pub(crate) fn push_channels(pins: &mut Numbers, channels: &[Channel]) -> Result<(), Memory>
    ensures { OnOk result (pins.new ≡ pins.old ++ replicate (inputs_count channels.now) 0) }
{
    for channel in channels {
        push_channel(pins, channel)?;
    }
    Ok(())
}

/// The place behind a channel's inputs, which begin at place `at`: its gate, then its valid and its contents, or its ready.
fn behind(at: usize, channel: &Channel) -> usize
    requires { at + spec.input_count channel.now < 2 ^ 64 }
    ensures { result ≡ at + spec.input_count channel.now }
{
    match channel.dir {
        Dir::Inward => at + 2 + channel.widths.len(),
        Dir::Outward => at + 2,
    }
}

/// Enters the numbers of channel `c` at the inputs from place `at` on.
fn enter_channel(
    pins: &mut [u128],
    at: usize,
    channel: &Channel,
    c: usize,
    gates: u128,
    offers: &Offers,
    content: &[u128],
)
    requires room { at + spec.input_count channel.now ≤ length pins.old }
    requires content { length content.now ≡ length channel.now.widths }
    ensures { pins.new ≡ replaced pins.old at (spec.entered_inputs (offered gates offers.now) c content.now channel.now.dir) }
{
    pins[at] = u128::from(names(gates, c));
    match channel.dir {
        Dir::Inward => {
            pins[at + 1] = u128::from(names(offers.valids, c));
            pins[at + 2..at + 2 + content.len()].copy_from_slice(content);
        }
        Dir::Outward => pins[at + 1] = u128::from(names(offers.readies, c)),
    }
}

/// Enters the gates and the offers of all channels at the inputs behind the first ones, which are held.
pub(crate) fn enter(
    pins: &mut [u128],
    first: usize,
    channels: &[Channel],
    offers: &Offers,
    gates: u128,
)
    requires long { length pins.old ≡ first + inputs_count channels.now }
    requires offers { Fit (all_widths channels.now) offers.now.contents }
    ensures { pins.new ≡ take first pins.old ++ row_inputs channels.now (offered gates offers.now) }
{
    let mut at = first;
    let mut rest = offers.contents.as_slice();
    for (c, channel) in channels.iter().enumerate() {
        let (content, after) = rest.split_at(channel.widths.len());
        enter_channel(pins, at, channel, c, gates, offers, content);
        at = behind(at, channel);
        rest = after;
    }
}

/// How many contents a channel's outputs have.
fn content_count(channel: &Channel) -> usize
    ensures { result ≡ spec.content_count channel.now channel.now.dir }
{
    match channel.dir {
        Dir::Inward => 0,
        Dir::Outward => channel.widths.len(),
    }
}

/// Which of a channel's outputs this is.
fn spot_place(spot: Spot, channel: &Channel) -> usize
    requires { spec.output_count channel.now < 2 ^ 32 }
    ensures { result ≡ spec.spot_place spot channel.now }
{
    match spot {
        Spot::Side => 0,
        Spot::Start => 1 + content_count(channel),
        Spot::Stop => 2 + content_count(channel),
    }
}

/// The channels of which this output is 1.
fn raised<B: Block>(block: &B, channels: &[Channel], spot: Spot) -> u128
    requires few { length channels.now ≤ 128 }
    requires small { outputs_count channels.now < 2 ^ 32 }
    requires places { outputs_count channels.now ≤ design.output_count (B.design block.now) }
    ensures { result ≡ mask_of (is_raised channels.now (outputs (B.design block.now) (B.shown block.now)) spot) (length channels.now) }
{
    let mut mask = 0;
    let mut seat = 0;
    for (c, channel) in channels.iter().enumerate() {
        let place = seat + spot_place(spot, channel);
        let up = block.pin(place) == 1;
        mask = with_bit(mask, c, up);
        seat += 3 + content_count(channel);
    }
    mask
}

/// Whether a mask names channel `c`: one mask where it is inward, another where it is outward.
fn chosen_on(dir: Dir, inward: u128, outward: u128, c: usize) -> bool
    ensures { result ≡ spec.chosen_on inward outward c dir }
{
    match dir {
        Dir::Inward => names(inward, c),
        Dir::Outward => names(outward, c),
    }
}

/// The inward channels of one mask, and the outward ones of another.
fn chosen(channels: &[Channel], inward: u128, outward: u128) -> u128
    requires { length channels.now ≤ 128 }
    ensures { result ≡ mask_of (is_chosen channels.now inward outward) (length channels.now) }
{
    let mut mask = 0;
    for (c, channel) in channels.iter().enumerate() {
        let up = chosen_on(channel.dir, inward, outward, c);
        mask = with_bit(mask, c, up);
    }
    mask
}

/// Reads the outputs from place `port` on into a content that begins at place `at`.
fn read_content<B: Block>(block: &B, port: usize, count: usize, contents: &mut [u128], at: usize)
    requires places { port + count ≤ design.output_count (B.design block.now) }
    requires small { port + count < 2 ^ 32 }
    requires room { at + count ≤ length contents.old }
    ensures { contents.new ≡ replaced contents.old at (upto (slice_index (outputs (B.design block.now) (B.shown block.now))) port count) }
{
    for i in 0..count {
        contents[at + i] = block.pin(port + i);
    }
}

/// Makes the contents those of a row: the offered ones on inward channels, and what the outputs show on outward ones.
fn fill<B: Block>(block: &B, channels: &[Channel], offers: &Offers, contents: &mut [u128])
    requires small { outputs_count channels.now < 2 ^ 32 }
    requires places { outputs_count channels.now ≤ design.output_count (B.design block.now) }
    requires offers { Fit (all_widths channels.now) offers.now.contents }
    requires contents { length contents.old ≡ length (all_widths channels.now) }
    ensures { contents.new ≡ joined (made_content channels.now offers.now (outputs (B.design block.now) (B.shown block.now))) 0 channels.now }
{
    contents.copy_from_slice(offers.contents.as_slice());
    let mut at = 0;
    let mut seat = 0;
    for channel in channels {
        let count = content_count(channel);
        read_content(block, seat + 1, count, contents, at);
        at += channel.widths.len();
        seat += 3 + count;
    }
}

/// Fills the row of these offers and gates from the outputs.
pub(crate) fn show<B: Block>(
    block: &B,
    channels: &[Channel],
    offers: &Offers,
    gates: u128,
    row: &mut Row,
)
    requires few { length channels.now ≤ 128 }
    requires small { outputs_count channels.now < 2 ^ 32 }
    requires places { outputs_count channels.now ≤ design.output_count (B.design block.now) }
    requires offers { Fit (all_widths channels.now) offers.now.contents }
    requires contents { HasPlaces channels.now row.old }
    ensures made { IsMadeRow channels.now offers.now gates (outputs (B.design block.now) (B.shown block.now)) row.new }
    ensures fresh { row.new.fresh ≡ row.old.fresh }
{
    let side = raised(block, channels, Spot::Side);
    fill(block, channels, offers, row.contents.as_mut_slice());
    row.gates = gates;
    row.valids = chosen(channels, offers.valids, side);
    row.readies = chosen(channels, side, offers.readies);
    row.starts = raised(block, channels, Spot::Start);
    row.ends = raised(block, channels, Spot::Stop);
}
