//! The numbers of a feed at the inputs of the top that replays.

ghost use Rattle.std.specs.Prelude.{◌≡◌, ℕ, ◌<◌, ◌≤◌, ◌+◌, ◌*◌, ◌^◌, ◌++◌, ◌∷◌, OnOk, length, replicate, slice_index, take, drop};
ghost use Rattle.net_sim.specs.vidi_bits.Number.{truth, has};
ghost use Rattle.replay_run.specs.trace_model.Row.{replaced};
ghost use Rattle.replay_run.specs.chan_replayer.Feed.{IsFeedOver};
ghost use Rattle.shim_cosim.specs.Rewrapped as spec;
ghost use Rattle.shim_cosim.specs.Rewrapped.{AreSmallNeeds};

use net_sim::vidi_bits::{Memory, Numbers};
use replay_run::chan_replayer::Feed;
use replay_run::trace_model::{Channel, Dir, names, push_zeros, split_content};

/// Adds a zero for each input of a channel of `channels`.
fn push_channel(pins: &mut Numbers, channels: usize, channel: &Channel) -> Result<(), Memory>
    ensures { OnOk result (pins.new ≡ pins.old ++ replicate (spec.input_count channels channel.now) 0) }
{
    push_zeros(pins, 1)?;
    push_zeros(pins, channels)?;
    match channel.dir {
        Dir::Inward => push_zeros(pins, channel.widths.len()),
        Dir::Outward => Ok(()),
    }
}

/// Adds a zero for each input of the channels.
pub(crate) fn push_channels(pins: &mut Numbers, channels: &[Channel]) -> Result<(), Memory>
    ensures { OnOk result (pins.new ≡ pins.old ++ replicate (spec.inputs_count channels.now) 0) }
{
    for channel in channels {
        push_channel(pins, channels.len(), channel)?;
    }
    Ok(())
}

/// How many inputs a channel of `channels` has.
pub(crate) fn input_count(channels: usize, channel: &Channel) -> usize
    requires { spec.input_count channels channel.now < 2 ^ 64 }
    ensures { result ≡ spec.input_count channels channel.now }
{
    match channel.dir {
        Dir::Inward => 1 + channels + channel.widths.len(),
        Dir::Outward => 1 + channels,
    }
}

/// Enters a clock from place `at` on.
fn enter_needs(pins: &mut [u128], at: usize, needs: &[u32])
    requires { at + length needs.now ≤ length pins.old }
    ensures entered { pins.new ≡ replaced pins.old at needs.now }
    ensures small { (j : ℕ) → j < length needs.now → slice_index needs.now j < 2 ^ 32 }
{
    for (j, need) in needs.iter().enumerate() {
        pins[at + j] = u128::from(*need);
    }
}

/// Enters the contents of an inward channel from place `at` on.
fn enter_content(pins: &mut [u128], at: usize, dir: Dir, content: &[u128])
    requires { at + length (spec.if_inward content.now dir) ≤ length pins.old }
    ensures { pins.new ≡ replaced pins.old at (spec.if_inward content.now dir) }
{
    match dir {
        Dir::Inward => pins[at..at + content.len()].copy_from_slice(content),
        Dir::Outward => {}
    }
}

/// Enters what is fed to channel `c` from place `at` on.
fn enter_channel(
    pins: &mut [u128],
    at: usize,
    channels: usize,
    c: usize,
    dir: Dir,
    feed: &Feed,
    content: &[u128],
)
    requires channel { c < channels }
    requires few { channels ≤ 128 }
    requires needs { length feed.now.needs ≡ channels * channels }
    requires room { at + (1 + channels + length (spec.if_inward content.now dir)) ≤ length pins.old }
    ensures entered { pins.new ≡ replaced pins.old at (truth (has feed.now.more c) ∷ (take channels (drop (channels * c) feed.now.needs)
        ++ spec.if_inward content.now dir)) }
    ensures small { (j : ℕ) → j < channels → slice_index (take channels (drop (channels * c) feed.now.needs)) j < 2 ^ 32 }
{
    pins[at] = u128::from(names(feed.more, c));
    enter_needs(pins, at + 1, feed.needs.clock(c));
    enter_content(pins, at + 1 + channels, dir, content);
}

/// Enters a feed behind the first `first` inputs.
pub(crate) fn enter_feed(pins: &mut [u128], first: usize, channels: &[Channel], feed: &Feed)
    requires few { length channels.now ≤ 128 }
    requires feed { IsFeedOver channels.now feed.now }
    requires long { length pins.old ≡ first + spec.inputs_count channels.now }
    ensures entered { pins.new ≡ take first pins.old ++ spec.feed_inputs channels.now feed.now }
    ensures small { AreSmallNeeds channels.now feed.now }
{
    let mut rest = feed.contents.as_slice();
    let mut at = first;
    for (c, channel) in channels.iter().enumerate() {
        let (content, after) = split_content(channel, rest);
        enter_channel(pins, at, channels.len(), c, channel.dir, feed, content);
        at += input_count(channels.len(), channel);
        rest = after;
    }
}
