//! The row that stands on the outputs of the top that replays.

ghost use Rattle.std.specs.Prelude.{◌≡◌, ℕ, ◌<◌, ◌≤◌, ◌+◌, ◌^◌, ◌&&◌, ◌++◌, not, if◌then◌else◌, IfOk, OnOk, length, replicate};
ghost use Rattle.net_sim.specs.vidi_bits.Number.{has};
ghost use Rattle.replay_run.specs.trace_model.Packet.{Fit};
ghost use Rattle.replay_run.specs.trace_model.Row.{all_widths, replaced};
ghost use Rattle.net_design.specs.Pins.{output_count, outputs};
ghost use Rattle.replay_run.specs.run_model.Building.{mask_of};
ghost use Rattle.replay_run.specs.chan_monitor.Shell.{HasPlaces};
ghost use Rattle.replay_run.specs.chan_replayer.Feed.{IsFeedOver};
ghost use Rattle.shim_cosim.specs.Rewrapped as spec;

use net_design::Block;
use net_sim::vidi_bits::{Items, Memory, Numbers};
use replay_run::chan_replayer::{Feed, clear_content};
use replay_run::trace_model::{Channel, Dir, Row, all_up, names, push_zeros, with_bit};
use std::alloc::Global;

/// An output of one bit that each channel has.
#[derive(Clone, Copy)]
pub(crate) enum Signal {
    Valid,
    Ready,
    /// A transaction completes.
    Pop,
}

/// Reads all outputs of a block, in port order.
pub(crate) fn read_outputs<B: Block>(block: &B, numbers: &mut [u128])
    requires many { length numbers.old ≡ output_count (B.design block.now) }
    requires shown { length (outputs (B.design block.now) (B.shown block.now)) ≡ output_count (B.design block.now) }
    ensures { numbers.new ≡ outputs (B.design block.now) (B.shown block.now) }
{
    for port in 0..numbers.len() {
        numbers[port] = block.pin(port);
    }
}

/// How many outputs a channel has.
pub(crate) fn output_count(channel: &Channel) -> usize
    requires { spec.output_count channel.now < 2 ^ 64 }
    ensures { result ≡ spec.output_count channel.now }
{
    match channel.dir {
        Dir::Inward => 3,
        Dir::Outward => 3 + channel.widths.len(),
    }
}

/// Adds a zero for each output of a channel.
fn push_channel(numbers: &mut Numbers, channel: &Channel) -> Result<(), Memory>
    ensures { OnOk result (numbers.new ≡ numbers.old ++ replicate (spec.output_count channel.now) 0) }
{
    push_zeros(numbers, 3)?;
    match channel.dir {
        Dir::Inward => Ok(()),
        Dir::Outward => push_zeros(numbers, channel.widths.len()),
    }
}

/// A zero for each output of the channels.
pub(crate) fn zero_outputs(alloc: Global, channels: &[Channel]) -> Result<Numbers, Memory>
    ensures { IfOk result (λ numbers. numbers ≡ replicate (spec.outputs_count channels.now) 0) }
{
    let mut numbers = Items::new(alloc);
    for channel in channels {
        push_channel(&mut numbers, channel)?;
    }
    Ok(numbers)
}

/// The place of a signal among the outputs of its channel.
fn place_of(signal: Signal) -> usize
    ensures place { result ≡ spec.place_of signal }
    ensures few { result < 3 }
{
    match signal {
        Signal::Valid => 0,
        Signal::Ready => 1,
        Signal::Pop => 2,
    }
}

/// The channels whose signal is 1.
fn raised(channels: &[Channel], outputs: &[u128], signal: Signal) -> u128
    requires few { length channels.now ≤ 128 }
    requires long { length outputs.now ≡ spec.outputs_count channels.now }
    ensures { result ≡ mask_of (spec.is_raised channels.now outputs.now signal) (length channels.now) }
{
    let mut mask = 0;
    let mut rest = outputs;
    for (c, channel) in channels.iter().enumerate() {
        let (own, after) = rest.split_at(output_count(channel));
        mask = with_bit(mask, c, own[place_of(signal)] == 1);
        rest = after;
    }
    mask
}

/// Makes the content that begins at place `at` what is shown.
fn show_content(shown: &[u128], contents: &mut [u128], at: usize)
    requires { at + length shown.now ≤ length contents.old }
    ensures { contents.new ≡ replaced contents.old at shown.now }
{
    contents[at..at + shown.len()].copy_from_slice(shown);
}

/// Makes the content of a channel that begins at place `at`, which is what is fed, that of its row; `own` are its outputs.
fn fill_content(channel: &Channel, valid: bool, own: &[u128], contents: &mut [u128], at: usize)
    requires own { length own.now ≡ spec.output_count channel.now }
    requires room { at + length channel.now.widths ≤ length contents.old }
    ensures { contents.new ≡ spec.filled channel.now.dir valid own.now at (length channel.now.widths) contents.old }
{
    let ports = channel.widths.len();
    match channel.dir {
        Dir::Inward => clear_content(valid, ports, contents, at),
        Dir::Outward => show_content(&own[3..], contents, at),
    }
}

/// Makes the contents those of the row.
fn fill_contents(
    channels: &[Channel],
    valids: u128,
    fed: &[u128],
    outputs: &[u128],
    contents: &mut [u128],
)
    requires fed { Fit (all_widths channels.now) fed.now }
    requires long { length outputs.now ≡ spec.outputs_count channels.now }
    requires places { length contents.old ≡ length (all_widths channels.now) }
    ensures { contents.new ≡ spec.contents_of channels.now valids fed.now outputs.now }
{
    contents.copy_from_slice(fed);
    let mut rest = outputs;
    let mut at = 0;
    for (c, channel) in channels.iter().enumerate() {
        let (own, after) = rest.split_at(output_count(channel));
        fill_content(channel, names(valids, c), own, contents, at);
        at += channel.widths.len();
        rest = after;
    }
}

/// The channels of the first mask that the second doesn't name.
pub(crate) fn without(mask: u128, others: u128) -> u128
    ensures { (c : ℕ) → has result c ≡ (has mask c && not (has others c)) }
{
    mask & !others
}

/// Fills the row that stands on the outputs under a feed, where these channels were in flight before.
pub(crate) fn fill_row(
    channels: &[Channel],
    feed: &Feed,
    flight: u128,
    outputs: &[u128],
    row: &mut Row,
)
    requires few { length channels.now ≤ 128 }
    requires feed { IsFeedOver channels.now feed.now }
    requires long { length outputs.now ≡ spec.outputs_count channels.now }
    requires places { HasPlaces channels.now row.old }
    ensures { row.new ≡ spec.replay_row channels.now row.old.fresh flight feed.now outputs.now }
{
    let valids = raised(channels, outputs, Signal::Valid);
    let fed = feed.contents.as_slice();
    fill_contents(channels, valids, fed, outputs, row.contents.as_mut_slice());
    row.gates = all_up(channels.len());
    row.valids = valids;
    row.readies = raised(channels, outputs, Signal::Ready);
    row.starts = without(valids, flight);
    row.ends = raised(channels, outputs, Signal::Pop);
}
