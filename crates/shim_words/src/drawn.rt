//! Offers with gates, and feeds, that look random, and are the same each time.

ghost use Rattle.std.specs.Prelude.{◌≡◌, ◌≤◌, ◌<◌, ◌*◌, ◌^◌, List, IfOk, length};
ghost use Rattle.shim_runs.specs.trace_model.declared.channel.Channel.{Channel as OneChannel};
ghost use Rattle.shim_runs.specs.trace_model.declared.packet.TheConstants.{MOST_CHANNELS};
ghost use Rattle.shim_runs.specs.trace_model.Packet.{Fit};
ghost use Rattle.shim_runs.specs.trace_model.Row.{all_widths, AreOffers};
ghost use Rattle.shim_runs.specs.run_model.Offers.{AreZeroWhileDown};

use shim_runs::chan_replayer::{Feed, Needs, clear_contents};
use shim_runs::env_script::offers_over;
use shim_runs::run_stage::{Gated, Given};
use shim_runs::trace_model::{Channel, Channels, Offers, names};
use shim_runs::vidi_bits::{Bytes, Items, Memory, trim};
use std::alloc::Global;

/// A sequence of numbers, another for each seed (splitmix64).
#[derive(Drop)]
struct Sequence {
    state: u64,
}

/// A number, cut to so many bits.
fn cut(number: u128, bits: u32) -> u128
    ensures { result < 2 ^ bits }
{
    match bits {
        1..=128 => trim(number, bits),
        _ => 0,
    }
}

impl Sequence {
    /// The sequence that a seed begins.
    fn new(seed: u64) -> Sequence {
        Sequence { state: seed }
    }

    /// The next number.
    fn draw(&mut self) -> u64 {
        self.state = self.state.wrapping_add(0x9e37_79b9_7f4a_7c15);
        let first = (self.state ^ (self.state >> 30)).wrapping_mul(0xbf58_476d_1ce4_e5b9);
        let second = (first ^ (first >> 27)).wrapping_mul(0x94d0_49bb_1331_11eb);
        second ^ (second >> 31)
    }

    /// A number of at most so many bits: one in eight is 0, and one in eight the largest.
    fn number(&mut self, bits: u32) -> u128
        ensures { result < 2 ^ bits }
    {
        let high = u128::from(self.draw());
        let low = u128::from(self.draw());
        match self.draw() % 8 {
            0 => 0,
            1 => cut(u128::MAX, bits),
            _ => cut((high << 64) | low, bits),
        }
    }

    /// A mask of so many channels.
    fn mask(&mut self, channels: usize) -> u128
        requires { channels ≤ 128 }
        ensures { result < 2 ^ channels }
    {
        self.number(channels as u32)
    }
}

/// The widths of all channels' ports.
fn widths_over(alloc: Global, channels: &[Channel]) -> Result<Bytes, Memory>
    ensures { IfOk result (λ widths. widths ≡ all_widths channels.now) }
{
    let mut widths = Vec::new(alloc);
    for channel in channels {
        widths.extend_from_slice(channel.widths.as_slice())?;
    }
    Ok(Items::from_vec(widths))
}

/// Draws a number for each width.
fn draw_contents(sequence: &mut Sequence, widths: &[u8], contents: &mut [u128])
    requires { length contents.old ≡ length widths.now }
    ensures { Fit widths.now contents.new }
{
    for (k, width) in widths.iter().enumerate() {
        contents[k] = sequence.number(u32::from(*width));
    }
}

/// Draws what is offered in a cycle.
fn draw_offers(sequence: &mut Sequence, channels: &Channels, widths: &Bytes, offers: &mut Offers)
    requires few { length channels.now ≤ MOST_CHANNELS }
    requires widths { widths.now ≡ all_widths channels.now }
    requires places { length offers.old.contents ≡ length (all_widths channels.now) }
    ensures offers { AreOffers channels.now offers.new }
    ensures zeros { AreZeroWhileDown channels.now offers.new }
    ensures places { length offers.new.contents ≡ length (all_widths channels.now) }
{
    offers.valids = sequence.mask(channels.len());
    offers.readies = sequence.mask(channels.len());
    let contents = offers.contents.as_mut_slice();
    draw_contents(sequence, widths.as_slice(), contents);
    clear_contents(offers.valids, channels.as_slice(), contents);
}

/// A number near a count: seven in eight are at most it.
fn near(sequence: &mut Sequence, count: u32) -> u32 {
    match sequence.draw() % 16 {
        0 => count.saturating_add(1),
        1 => u32::MAX,
        2 => 0,
        _ => count.saturating_sub((sequence.draw() % 3) as u32),
    }
}

/// Draws a clock, near these counts of completions.
fn draw_clock(sequence: &mut Sequence, counts: &[u32], clock: &mut [u32])
    requires { length clock.old ≡ length counts.now }
{
    for d in 0..counts.len() {
        clock[d] = near(sequence, counts[d]);
    }
}

/// Draws the clocks of all channels' next events, near these counts of completions; `clock` is a place for one of them.
fn draw_needs(sequence: &mut Sequence, counts: &[u32], clock: &mut [u32], needs: &mut Needs)
    requires clock { length clock.old ≡ length counts.now }
    requires needs { length needs.old ≡ length counts.now * length counts.now }
    ensures { length needs.new ≡ length needs.old }
{
    for c in 0..counts.len() {
        draw_clock(sequence, counts, clock);
        let drawn: &[u32] = clock;
        needs.write(
            c,
            |d|
                requires { d < length drawn.now }
            { drawn[d] },
        );
    }
}

/// Counts the completions of a row.
fn count(counts: &mut [u32], ends: u128) {
    for c in 0..counts.len() {
        counts[c] = counts[c].wrapping_add(u32::from(names(ends, c)));
    }
}

/// What is given to stages of these channels is drawn from it. Only `new` takes memory.
#[derive(Drop)]
pub(crate) struct Urn<'a> {
    channels: &'a Channels,
    /// The widths of all channels' ports.
    widths: Bytes,
    sequence: Sequence,
    /// The completions of each channel since the last reset.
    counts: Items<u32>,
    /// A place for a clock.
    clock: Items<u32>,
    ghost few: { length channels.now ≤ MOST_CHANNELS },
    ghost widths_are: { widths ≡ all_widths channels.now },
    ghost counts_are: { length counts ≡ length channels.now },
    ghost clock_is: { length clock ≡ length channels.now },
}

impl<'a> Urn<'a> {
    /// Before the first draw of those that a seed begins.
    pub(crate) fn new(alloc: Global, channels: &'a Channels, seed: u64) -> Result<Urn<'a>, Memory>
        requires few { length channels.now ≤ MOST_CHANNELS }
        ensures channels { IfOk result (λ urn. urn.channels.now ≡ channels.now) }
    {
        let widths = widths_over(alloc, channels.as_slice())?;
        let counts = vec![in alloc; 0u32; channels.len()]?;
        let clock = vec![in alloc; 0u32; channels.len()]?;
        Ok(Urn {
            channels,
            widths,
            sequence: Sequence::new(seed),
            counts: Items::from_vec(counts),
            clock: Items::from_vec(clock),
        })
    }

    /// Forgets the completions.
    pub(crate) fn reset(&mut self)
        ensures channels { self.new.channels.now ≡ self.old.channels.now }
    {
        self.counts.as_mut_slice().fill(0);
    }

    /// Counts the completions of a row.
    pub(crate) fn count(&mut self, ends: u128)
        ensures channels { self.new.channels.now ≡ self.old.channels.now }
    {
        count(self.counts.as_mut_slice(), ends);
    }
}

/// What can be drawn for a cycle.
pub(crate) trait Draw: Given + Drop {
    /// It has a place for each number over these channels.
    ghost has_places: { List OneChannel → Self → Type 0 };

    /// With a place for each number over these channels. Only this call takes memory.
    fn blank(alloc: Global, channels: &Channels) -> Result<Self, Memory>
        requires few { length channels.now ≤ MOST_CHANNELS }
        ensures { IfOk result (has_places channels.now) };

    /// Draws what is given in the next cycle.
    fn draw(&mut self, urn: &mut Urn)
        requires places { has_places urn.old.channels.now self.old }
        ensures fits { Self.fits urn.old.channels.now self.new }
        ensures places { has_places urn.old.channels.now self.new }
        ensures channels { urn.new.channels.now ≡ urn.old.channels.now };
}

impl Draw for Gated {
    ghost has_places = { λ channels gated. length gated.offers.contents ≡ length (all_widths channels) };

    fn blank(alloc: Global, channels: &Channels) -> Result<Gated, Memory> {
        let offers = offers_over(alloc, channels)?;
        Ok(Gated { offers, gates: 0 })
    }

    fn draw(&mut self, urn: &mut Urn) {
        let channels = urn.channels;
        draw_offers(&mut urn.sequence, channels, &urn.widths, &mut self.offers);
        self.gates = urn.sequence.mask(channels.len());
    }
}

impl Draw for Feed {
    ghost has_places = { λ channels feed. (length feed.needs ≡ length channels * length channels)
        × (length feed.contents ≡ length (all_widths channels)) };

    fn blank(alloc: Global, channels: &Channels) -> Result<Feed, Memory> {
        let widths = widths_over(alloc, channels.as_slice())?;
        let contents = vec![in alloc; 0u128; widths.len()]?;
        Ok(Feed {
            more: 0,
            needs: Needs::new(alloc, channels.len())?,
            contents: Items::from_vec(contents),
        })
    }

    fn draw(&mut self, urn: &mut Urn) {
        self.more = urn.sequence.mask(urn.channels.len());
        let counts = urn.counts.as_slice();
        draw_needs(
            &mut urn.sequence,
            counts,
            urn.clock.as_mut_slice(),
            &mut self.needs,
        );
        draw_contents(
            &mut urn.sequence,
            urn.widths.as_slice(),
            self.contents.as_mut_slice(),
        );
    }
}
