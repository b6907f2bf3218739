//! Rows, from what the environment offers and what a settled block shows.

ghost use Rattle.std.specs.Prelude.{◌≡◌, ◌<◌, ℕ, ◌+◌, ◌≤◌, ◌&&◌, [], All, false, not};
ghost use Rattle.std.specs.Prelude.{length, slice_get, slice_index_or};
ghost use Rattle.run_model.specs.Offers.{AreZeroWhileDown};
ghost use Rattle.run_model.specs.vidi_bits.Number.{has};
ghost use Rattle.run_model.specs.trace_model.Row.{all_widths, AreOffers, replaced};
ghost use Rattle.net_design.specs.Pins.{output_count, outputs};
ghost use Rattle.run_model.specs.chan_map.declared.pins.Pin.{Pin as OnePin};
ghost use Rattle.run_model.specs.Building.{at_plug, content_on, ends_of, joined, mask_of, ready_on, valid_on};
ghost use Rattle.chan_monitor.specs.Passing.{stays};
ghost use Rattle.chan_monitor.specs.Showing.{filled, read, IsPlugShown, ArePlugsShown};

use crate::monitor::Monitor;
use net_design::Block;
use run_model::chan_map::{Pin, Plug};
use run_model::trace_model::{Channel, Dir, Offers, names, with_bit};

/// The masks of a row: the gates, and valid and ready on their own sides of them.
#[derive(Clone, Copy)]
pub(crate) struct Handshakes {
    pub gates: u128,
    pub valids: u128,
    pub readies: u128,
}

/// The channels that start and that end in a row.
#[derive(Clone, Copy)]
pub(crate) struct Marks {
    pub starts: u128,
    pub ends: u128,
}

/// Whether the source of channel `c` has valid up.
fn valid_on<B: Block>(block: &B, dir: Dir, plug: &Plug, offers: &Offers, c: usize) -> bool
    requires { IsPlugShown (output_count (B.design block.now)) dir plug.now }
    ensures { result ≡ valid_on offers.now (outputs (B.design block.now) (B.shown block.now)) c dir plug.now }
{
    match dir {
        Dir::Inward => names(offers.valids, c),
        Dir::Outward => block.pin(plug.valid.place) == 1,
    }
}

/// Whether the sink of channel `c` has ready up.
fn ready_on<B: Block>(block: &B, dir: Dir, plug: &Plug, offers: &Offers, c: usize) -> bool
    requires { IsPlugShown (output_count (B.design block.now)) dir plug.now }
    ensures { result ≡ ready_on offers.now (outputs (B.design block.now) (B.shown block.now)) c dir plug.now }
{
    match dir {
        Dir::Inward => block.pin(plug.ready.place) == 1,
        Dir::Outward => names(offers.readies, c),
    }
}

/// The channels whose source has valid up.
pub(crate) fn valids<B: Block>(
    block: &B,
    channels: &[Channel],
    plugs: &[Plug],
    offers: &Offers,
) -> u128
    requires few { length channels.now ≤ 128 }
    requires plugs { ArePlugsShown (output_count (B.design block.now)) channels.now plugs.now }
    ensures { result ≡ mask_of (λ c. at_plug false (valid_on offers.now (outputs (B.design block.now) (B.shown block.now)) c)
        (slice_get channels.now c) (slice_get plugs.now c)) (length channels.now) }
{
    let mut mask = 0;
    for (c, channel) in channels.iter().enumerate() {
        let up = valid_on(block, channel.dir, &plugs[c], offers, c);
        mask = with_bit(mask, c, up);
    }
    mask
}

/// The channels whose sink has ready up.
pub(crate) fn readies<B: Block>(
    block: &B,
    channels: &[Channel],
    plugs: &[Plug],
    offers: &Offers,
) -> u128
    requires few { length channels.now ≤ 128 }
    requires plugs { ArePlugsShown (output_count (B.design block.now)) channels.now plugs.now }
    ensures { result ≡ mask_of (λ c. at_plug false (ready_on offers.now (outputs (B.design block.now) (B.shown block.now)) c)
        (slice_get channels.now c) (slice_get plugs.now c)) (length channels.now) }
{
    let mut mask = 0;
    for (c, channel) in channels.iter().enumerate() {
        let up = ready_on(block, channel.dir, &plugs[c], offers, c);
        mask = with_bit(mask, c, up);
    }
    mask
}

/// What the monitors make of a row: the channels that start and that end.
pub(crate) fn marks_of(monitors: &[Monitor], shown: Handshakes) -> Marks
    requires few { length monitors.now ≤ 128 }
    ensures starts { result.starts ≡ mask_of (λ c. (has shown.valids c && has shown.gates c)
        && not (slice_index_or monitors.now c false)) (length monitors.now) }
    ensures ends { result.ends ≡ ends_of (length monitors.now) shown.valids shown.gates shown.readies }
{
    let mut marks = Marks { starts: 0, ends: 0 };
    for (c, monitor) in monitors.iter().enumerate() {
        let up = names(shown.gates, c);
        let passed = monitor.pass(up, names(shown.valids, c), names(shown.readies, c));
        marks.starts = with_bit(marks.starts, c, passed.starts);
        marks.ends = with_bit(marks.ends, c, passed.ends);
    }
    marks
}

/// Ends the cycle of a row in each monitor.
pub(crate) fn commit(monitors: &mut [Monitor], shown: Handshakes)
    ensures { (c : ℕ) → c < length monitors.new → slice_index_or monitors.new c false
        ≡ stays (has shown.gates c) (has shown.valids c) (has shown.readies c) }
{
    for c in 0..monitors.len() {
        let up = names(shown.gates, c);
        let valid = names(shown.valids, c);
        monitors[c].commit(up, valid, names(shown.readies, c));
    }
}

/// Reads output pins into a content that begins at place `at`.
fn read_pins<B: Block>(block: &B, pins: &[Pin], contents: &mut [u128], at: usize)
    requires places { All (λ (p : OnePin). p.place < output_count (B.design block.now)) pins.now }
    requires room { at + length pins.now ≤ length contents.old }
    ensures { contents.new ≡ replaced contents.old at (read (outputs (B.design block.now) (B.shown block.now)) pins.now) }
{
    for (i, pin) in pins.iter().enumerate() {
        contents[at + i] = block.pin(pin.place);
    }
}

/// Fills the content of an outward channel, which begins at place `at`, with what the block shows.
fn fill_content<B: Block>(block: &B, dir: Dir, plug: &Plug, contents: &mut [u128], at: usize)
    requires places { IsPlugShown (output_count (B.design block.now)) dir plug.now }
    requires room { at + length plug.now.contents ≤ length contents.old }
    ensures { contents.new ≡ filled dir plug.now at contents.old (outputs (B.design block.now) (B.shown block.now)) }
{
    match dir {
        Dir::Inward => {}
        Dir::Outward => read_pins(block, plug.contents.as_slice(), contents, at),
    }
}

/// Makes the contents those of a row: the offered ones on inward channels, and what the block shows on outward ones.
pub(crate) fn fill<B: Block>(
    block: &B,
    channels: &[Channel],
    plugs: &[Plug],
    offers: &Offers,
    contents: &mut [u128],
)
    requires plugs { ArePlugsShown (output_count (B.design block.now)) channels.now plugs.now }
    requires offers { AreOffers channels.now offers.now }
    requires zeros { AreZeroWhileDown channels.now offers.now }
    requires places { length contents.old ≡ length (all_widths channels.now) }
    ensures { contents.new ≡ joined (λ c. at_plug [] (content_on channels.now offers.now
        (outputs (B.design block.now) (B.shown block.now)) c) (slice_get channels.now c) (slice_get plugs.now c)) 0 channels.now }
{
    contents.copy_from_slice(offers.contents.as_slice());
    let mut at = 0;
    for (c, channel) in channels.iter().enumerate() {
        fill_content(block, channel.dir, &plugs[c], contents, at);
        at += channel.widths.len();
    }
}
