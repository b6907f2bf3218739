//! The offers that replayers make of a feed.

ghost use Rattle.std.specs.Prelude.{◌≡◌, ◌<◌, ◌≤◌, ◌+◌, ◌*◌, ◌^◌, ◌↔◌, ℕ, true, IsTrue, if◌then◌else◌, length, replicate, slice_index};
ghost use Rattle.vec_clock.specs.vidi_bits.Number.{has};
ghost use Rattle.vec_clock.specs.trace_model.Clock.{Covers};
ghost use Rattle.vec_clock.specs.trace_model.Packet.{Fit};
ghost use Rattle.vec_clock.specs.trace_model.Row.{all_widths, replaced};
ghost use Rattle.chan_monitor.specs.run_model.Building.{joined};
ghost use Rattle.chan_replayer.specs.Feed.{IsFeedOver};
ghost use Rattle.chan_replayer.specs.Fed.{fed_content, AreFed, AreOffered};
ghost use Rattle.chan_replayer.specs.Needs.{clock_at};

use crate::feed::Feed;
use crate::needs::Needs;
use crate::replayer::Replayer;
use vec_clock::trace_model::{Channel, Channels, Dir, Offers, lowest, names, with_bit};

/// The channels of `which` whose clock is covered: bit c is channel c. A clock that several channels have is compared once.
fn covered(have: &Replayer, needs: &Needs, which: u128) -> u128
    requires needs { length needs.now ≡ length have.now * length have.now }
    requires which { which < 2 ^ length have.now }
    ensures { (c : ℕ) → (has result c ≡ true) ↔ ((has which c ≡ true)
        × Covers (length have.now) (slice_index have.now) (slice_index (clock_at (length have.now) needs.now c))) }
{
    let mut covered = 0;
    let mut left = which;
    'left: while let Some((c, _others)) = lowest(left) {
        let together = needs.together(c);
        if have.offers(true, needs.clock(c)) {
            covered |= left & together;
        }
        left &= !together;
    }
    covered
}

/// Whether a direction is this one.
fn is_of(dir: Dir, of: Dir) -> bool
    ensures { IsTrue result ↔ (dir ≡ of) }
{
    dir == of
}

/// What is offered: the inward channels whose valid is up, and the outward ones whose ready is. Bit c is channel c.
#[derive(Clone, Copy)]
struct Raised {
    valids: u128,
    readies: u128,
}

/// The channels of each direction whose next event is there and covered.
fn offered(have: &Replayer, channels: &[Channel], feed: &Feed) -> Raised
    requires few { length channels.now ≤ 128 }
    requires have { length have.now ≡ length channels.now }
    requires more { feed.now.more < 2 ^ length channels.now }
    requires needs { length feed.now.needs ≡ length channels.now * length channels.now }
    ensures valids { AreOffered channels.now Dir.Inward feed.now (slice_index have.now) result.valids }
    ensures readies { AreOffered channels.now Dir.Outward feed.now (slice_index have.now) result.readies }
{
    let mut valids = 0;
    let mut readies = 0;
    let mut left = covered(have, &feed.needs, feed.more);
    'up: while let Some((c, others)) = lowest(left) {
        let dir = channels[c].dir;
        valids = with_bit(valids, c, is_of(dir, Dir::Inward));
        readies = with_bit(readies, c, is_of(dir, Dir::Outward));
        left = others;
    }
    Raised { valids, readies }
}

/// Makes the content that begins at place `at` 0 for each port, unless the channel's valid is up.
pub fn clear_content(up: bool, ports: usize, contents: &mut [u128], at: usize)
    requires { at + ports ≤ length contents.old }
    ensures { contents.new ≡ (if up then contents.old else replaced contents.old at (replicate ports 0)) }
{
    if !up {
        contents[at..at + ports].fill(0);
    }
}

/// Makes the contents of the channels whose valid is down 0. The contents are the numbers of all channels' ports, in channel order and then
/// in port order; bit c of `valids` is channel c.
pub fn clear_contents(valids: u128, channels: &[Channel], contents: &mut [u128])
    requires { Fit (all_widths channels.now) contents.old }
    ensures { contents.new ≡ joined (fed_content channels.now valids contents.old) 0 channels.now }
{
    let mut at = 0;
    for (c, channel) in channels.iter().enumerate() {
        let ports = channel.widths.len();
        clear_content(names(valids, c), ports, contents, at);
        at += ports;
    }
}

/// Makes the contents those that are fed on the channels whose valid is up, else 0.
fn fill_contents(valids: u128, channels: &[Channel], fed: &[u128], contents: &mut [u128])
    requires fit { Fit (all_widths channels.now) fed.now }
    requires places { length contents.old ≡ length (all_widths channels.now) }
    ensures { contents.new ≡ joined (fed_content channels.now valids fed.now) 0 channels.now }
{
    contents.copy_from_slice(fed);
    clear_contents(valids, channels, contents);
}

/// Makes the offers those of replayers with these completions under a feed.
pub(crate) fn fill_offers(have: &Replayer, channels: &Channels, feed: &Feed, offers: &mut Offers)
    requires few { length channels.now ≤ 128 }
    requires have { length have.now ≡ length channels.now }
    requires feed { IsFeedOver channels.now feed.now }
    requires places { length offers.old.contents ≡ length (all_widths channels.now) }
    ensures { AreFed channels.now (slice_index have.now) feed.now offers.new }
{
    let channels = channels.as_slice();
    let Raised { valids, readies } = offered(have, channels, feed);
    let fed = feed.contents.as_slice();
    fill_contents(valids, channels, fed, offers.contents.as_mut_slice());
    offers.valids = valids;
    offers.readies = readies;
}
