//! The feed that cursors give.

ghost use Rattle.std.specs.Prelude.{◌≡◌, ◌≢◌, ◌+◌, ◌*◌, ◌^◌, ◌<◌, ◌≤◌, ◌⊎◌, ℕ, true, false, IfOk, IfSome, length, slice_get, slice_index, take};
ghost use Rattle.std.specs.Int.{bit_at};
ghost use Rattle.trace_code.specs.vidi_bits.Number.{has};
ghost use Rattle.trace_code.specs.trace_model.declared.packet.Packet.{Packet};
ghost use Rattle.trace_code.specs.trace_model.declared.trace.Trace.{Trace};
ghost use Rattle.trace_code.specs.trace_model.Channel.{IsTable};
ghost use Rattle.trace_code.specs.trace_model.Counting.{IsNth};
ghost use Rattle.trace_code.specs.trace_model.Packet.{content_of, count, does, widths_of};
ghost use Rattle.trace_code.specs.trace_model.Row.{all_widths, replaced};
ghost use Rattle.trace_code.specs.Stands.{Stands};
ghost use Rattle.run_stage.specs.chan_replayer.Feed.{need_of, IsFeed, IsFeedAt, IsFeedOver};
ghost use Rattle.trace_code.specs.trace_model.Epoch.{epoch as packets_in, resets};
ghost use Rattle.replay_run.specs.Behind.{epoch_at, epoch_clock, none_yet, AreBehind, IsNext};
ghost use Rattle.replay_run.specs.Feeding.{IsBeside, IsClockAt, IsChannelFed, IsFeedBut, IsSameAt};

use crate::bits::{with_bit_as, without};
use crate::cursors::{Cursors, cursor_of, has_next};
use run_stage::chan_replayer::{Feed, Needs, kind_of};
use std::alloc::Global;
use trace_code::Cursor;
use trace_code::trace_model::{Channel, Channels, Dir, Kind, lowest, names, row_over};
use trace_code::vidi_bits::{Memory, Numbers};

/// Writes the content of the start at which a cursor stands, a number for each port, from place `at` on.
fn copy_content(cursor: &Cursor, ports: usize, contents: &mut [u128], at: usize)
    requires start { cursor.now.kind ≡ Kind.Start }
    requires stands { (t : Trace) × (j : ℕ) × Stands cursor.now t j × (j < count cursor.now.kind cursor.now.channel t.packets)
        × (ports ≡ length (widths_of (slice_get t.channels cursor.now.channel))) }
    requires room { at + ports ≤ length contents.old }
    ensures { (t : Trace) (j p : ℕ) (packet : Packet) → Stands cursor.now t j
        → ports ≡ length (widths_of (slice_get t.channels cursor.now.channel))
        → IsNth (does Kind.Start cursor.now.channel) t.packets j p packet
        → contents.new ≡ replaced contents.old at (content_of t.channels packet cursor.now.channel) }
{
    for port in 0..ports {
        contents[at + port] = cursor.content(port);
    }
}

/// Makes the clock of channel `c` that of the event at which a cursor stands. Where channel `beside` is given, it has this clock.
fn feed_clock(cursor: &Cursor, beside: Option<usize>, channels: usize, c: usize, needs: &mut Needs)
    requires stands { (t : Trace) × (j : ℕ) × Stands cursor.now t j × (channels ≡ length t.channels) }
    requires beside { IfSome beside (λ b. b < channels) }
    requires channel { c < channels }
    requires places { length needs.old ≡ channels * channels }
    ensures here { (t : Trace) (j p : ℕ) (packet : Packet) → IfSome beside (IsClockAt t cursor.now channels needs.old)
        → Stands cursor.now t j → channels ≡ length t.channels → IsNth (does cursor.now.kind cursor.now.channel) t.packets j p packet
        → (d : ℕ) → d < channels → slice_index needs.new (channels * c + d) ≡ epoch_clock t.packets p d }
    ensures others { (d e : ℕ) → d ≢ c → e < channels
        → slice_index needs.new (channels * d + e) ≡ slice_index needs.old (channels * d + e) }
    ensures places { length needs.new ≡ channels * channels }
{
    match beside {
        Some(b) => needs.share(c, b),
        None => {
            let need = |d: usize| -> u32
                requires { (t : Trace) × (j : ℕ) × Stands cursor.now t j × (d < length t.channels) }
                ensures { (t : Trace) (j p : ℕ) (packet : Packet) → Stands cursor.entry.now t j → d < length t.channels
                    → IsNth (does cursor.entry.now.kind cursor.entry.now.channel) t.packets j p packet → result ≡ epoch_clock t.packets p d }
            { cursor.need(d) };
            needs.write(c, need);
        }
    }
}

/// Writes the content of the start at which a cursor stands, a number for each port, from place `at` on.
fn write_content(cursor: &Cursor, ports: usize, contents: &mut Numbers, at: usize)
    requires start { cursor.now.kind ≡ Kind.Start }
    requires stands { (t : Trace) × (j : ℕ) × Stands cursor.now t j × (j < count cursor.now.kind cursor.now.channel t.packets)
        × (ports ≡ length (widths_of (slice_get t.channels cursor.now.channel))) }
    requires room { at + ports ≤ length contents.old }
    ensures { (t : Trace) (j p : ℕ) (packet : Packet) → Stands cursor.now t j
        → ports ≡ length (widths_of (slice_get t.channels cursor.now.channel))
        → IsNth (does Kind.Start cursor.now.channel) t.packets j p packet
        → contents.new ≡ replaced contents.old at (content_of t.channels packet cursor.now.channel) }
{
    copy_content(cursor, ports, contents.as_mut_slice(), at);
}

/// Feeds the event at which a cursor stands as that of channel `c`: that there is one, and its clock, which channel `beside` has where one is
/// given.
fn feed_event(cursor: &Cursor, beside: Option<usize>, channels: usize, c: usize, feed: &mut Feed)
    requires stands { (t : Trace) × (j : ℕ) × Stands cursor.now t j × (channels ≡ length t.channels) }
    requires beside { IfSome beside (λ b. b < channels) }
    requires channel { c < channels }
    requires few { channels ≤ 128 }
    requires needs { length feed.old.needs ≡ channels * channels }
    ensures more { has feed.new.more c ≡ true }
    ensures need { (t : Trace) (j p : ℕ) (packet : Packet) → IfSome beside (IsClockAt t cursor.now channels feed.old.needs)
        → Stands cursor.now t j → channels ≡ length t.channels
        → IsNth (does cursor.now.kind cursor.now.channel) t.packets j p packet
        → (d : ℕ) → d < channels → need_of channels feed.new c d ≡ epoch_clock t.packets p d }
    ensures other_more { (d : ℕ) → d ≢ c → has feed.new.more d ≡ has feed.old.more d }
    ensures other_needs { (d e : ℕ) → d ≢ c → e < channels → need_of channels feed.new d e ≡ need_of channels feed.old d e }
    ensures needs { length feed.new.needs ≡ channels * channels }
    ensures contents { feed.new.contents ≡ feed.old.contents }
{
    feed.more = with_bit_as(feed.more, c, true);
    feed_clock(cursor, beside, channels, c, &mut feed.needs);
}

/// Feeds the start at which a cursor stands as that of channel `c`, whose contents begin at place `at`. Where channel `beside` is given, it has the
/// start's clock.
fn feed_start(
    cursor: &Cursor,
    beside: Option<usize>,
    channels: &[Channel],
    c: usize,
    at: usize,
    feed: &mut Feed,
)
    requires beside { IfSome beside (λ b. b < length channels.now) }
    requires channel { c < length channels.now }
    requires few { length channels.now ≤ 128 }
    requires stands { (t : Trace) × (e : ℕ) × (n : ℕ) × IsNext t e Kind.Start c n cursor.now × (t.channels ≡ channels.now) }
    requires over { IsFeedOver channels.now feed.old }
    requires place { at ≡ length (all_widths (take c channels.now)) }
    ensures over { IsFeedOver channels.now feed.new }
    ensures here { (t : Trace) (e n : ℕ) → IfSome beside (IsClockAt t cursor.now (length channels.now) feed.old.needs)
        → IsNext t e Kind.Start c n cursor.now → t.channels ≡ channels.now
        → IsFeedAt channels.now (packets_in e t.packets) Kind.Start c n feed.new }
    ensures others { (d : ℕ) → d ≢ c → IsSameAt channels.now d feed.old feed.new }
{
    feed_event(cursor, beside, channels.len(), c, feed);
    let ports = channels[c].widths.len();
    write_content(cursor, ports, &mut feed.contents, at);
}

/// Feeds the completion at which a cursor stands as that of channel `c`. Where channel `beside` is given, it has the completion's clock.
fn feed_end(cursor: &Cursor, beside: Option<usize>, channels: &[Channel], c: usize, feed: &mut Feed)
    requires beside { IfSome beside (λ b. b < length channels.now) }
    requires channel { c < length channels.now }
    requires few { length channels.now ≤ 128 }
    requires stands { (t : Trace) × (e : ℕ) × (n : ℕ) × IsNext t e Kind.End c n cursor.now × (t.channels ≡ channels.now) }
    requires over { IsFeedOver channels.now feed.old }
    ensures over { IsFeedOver channels.now feed.new }
    ensures here { (t : Trace) (e n : ℕ) → IfSome beside (IsClockAt t cursor.now (length channels.now) feed.old.needs)
        → IsNext t e Kind.End c n cursor.now → t.channels ≡ channels.now
        → IsFeedAt channels.now (packets_in e t.packets) Kind.End c n feed.new }
    ensures others { (d : ℕ) → d ≢ c → IsSameAt channels.now d feed.old feed.new }
{
    feed_event(cursor, beside, channels.len(), c, feed);
}

/// A channel of `fed` whose next event is in the packet of the one at which a cursor stands, where there is one. Of channels whose clocks stand
/// together the lowest is asked.
fn beside(
    cursors: &Cursors,
    channels: &[Channel],
    needs: &Needs,
    fed: u128,
    cursor: &Cursor,
) -> Option<usize>
    requires fed { fed < 2 ^ length channels.now }
    requires needs { length needs.now ≡ length channels.now * length channels.now }
    requires stands { (t : Trace) × (have : ℕ → ℕ) × AreBehind t have cursors.now × (t.channels ≡ channels.now) }
    ensures fed { IfSome result (λ b. has fed b ≡ true) }
    ensures packet { IfSome result (λ b. (t : Trace) (have : ℕ → ℕ) → AreBehind t have cursors.now → t.channels ≡ channels.now
        → IsBeside t cursors.now.epoch have cursor.now b) }
{
    let mut left = fed;
    'left: while let Some((b, _others)) = lowest(left) {
        let kind = kind_of(channels[b].dir);
        if cursor.is_beside(cursor_of(cursors, kind, b)) {
            return Some(b);
        }
        left = without(left, needs.together(b));
    }
    None
}

/// Feeds the next event of channel `c`, whose contents begin at place `at`. The channels that `left` names aren't fed yet.
fn feed_channel(
    cursors: &Cursors,
    channels: &[Channel],
    left: u128,
    c: usize,
    at: usize,
    feed: &mut Feed,
)
    requires channel { c < length channels.now }
    requires few { length channels.now ≤ 128 }
    requires stands { (t : Trace) × (have : ℕ → ℕ) × AreBehind t have cursors.now × (t.channels ≡ channels.now) }
    requires over { IsFeedOver channels.now feed.old }
    requires place { at ≡ length (all_widths (take c channels.now)) }
    ensures over { IsFeedOver channels.now feed.new }
    ensures here { (t : Trace) (have : ℕ → ℕ) → AreBehind t have cursors.now → t.channels ≡ channels.now
        → IsFeedBut left channels.now (epoch_at t cursors.now) have feed.old → IsChannelFed channels.now (epoch_at t cursors.now) have c feed.new }
    ensures others { (d : ℕ) → d ≢ c → IsSameAt channels.now d feed.old feed.new }
{
    let dir = channels[c].dir;
    let kind = kind_of(dir);
    if !has_next(cursors, kind, c) {
        feed.more = with_bit_as(feed.more, c, false);
        return;
    }
    let cursor = cursor_of(cursors, kind, c);
    let fed = without(feed.more, left);
    let beside = beside(cursors, channels, &feed.needs, fed, cursor);
    match dir {
        Dir::Inward => feed_start(cursor, beside, channels, c, at, feed),
        Dir::Outward => feed_end(cursor, beside, channels, c, feed),
    }
}

/// Feeds the next event of channel `c` where it isn't fed yet. `left` names the channels that aren't.
fn feed_named(
    cursors: &Cursors,
    channels: &[Channel],
    left: u128,
    c: usize,
    at: usize,
    feed: &mut Feed,
)
    requires channel { c < length channels.now }
    requires few { length channels.now ≤ 128 }
    requires stands { (t : Trace) × (have : ℕ → ℕ) × AreBehind t have cursors.now × (t.channels ≡ channels.now) }
    requires over { IsFeedOver channels.now feed.old }
    requires place { at ≡ length (all_widths (take c channels.now)) }
    ensures over { IsFeedOver channels.now feed.new }
    ensures here { (t : Trace) (have : ℕ → ℕ) → AreBehind t have cursors.now → t.channels ≡ channels.now
        → IsFeedBut left channels.now (epoch_at t cursors.now) have feed.old → has left c ≡ true
        → IsChannelFed channels.now (epoch_at t cursors.now) have c feed.new }
    ensures others { (d : ℕ) → (d ≢ c) ⊎ (has left d ≡ false) → IsSameAt channels.now d feed.old feed.new }
{
    if names(left, c) {
        feed_channel(cursors, channels, left, c, at, feed);
    }
}

/// Feeds the next event of each channel that `which` names: bit c is channel c. Those that it doesn't name are fed.
fn fill(cursors: &Cursors, channels: &[Channel], which: u128, feed: &mut Feed)
    requires table { IsTable channels.now }
    requires stands { (t : Trace) × (have : ℕ → ℕ) × AreBehind t have cursors.now × (t.channels ≡ channels.now) }
    requires over { IsFeedOver channels.now feed.old }
    ensures over { IsFeedOver channels.now feed.new }
    ensures feed { (t : Trace) (have : ℕ → ℕ) → AreBehind t have cursors.now → t.channels ≡ channels.now
        → IsFeedBut which channels.now (epoch_at t cursors.now) have feed.old → IsFeed channels.now (epoch_at t cursors.now) have feed.new }
{
    let mut left = which;
    let mut at = 0;
    for (c, channel) in channels.iter().enumerate() {
        let ports = channel.widths.len();
        feed_named(cursors, channels, left, c, at, feed);
        left = with_bit_as(left, c, false);
        at += ports;
    }
}

/// A feed with a place for each number, in which no event comes.
fn feed_over(alloc: Global, channels: &Channels) -> Result<Feed, Memory>
    requires { IsTable channels.now }
    ensures { IfOk result (λ feed. IsFeedOver channels.now feed) }
{
    let row = row_over(alloc, channels)?;
    let needs = Needs::new(alloc, channels.len())?;
    Ok(Feed {
        more: 0,
        needs,
        contents: row.contents,
    })
}

/// Feeds the next event of each channel anew.
pub(crate) fn refill(cursors: &Cursors, channels: &Channels, feed: &mut Feed)
    requires table { IsTable channels.now }
    requires stands { (t : Trace) × (have : ℕ → ℕ) × AreBehind t have cursors.now × (t.channels ≡ channels.now) }
    requires over { IsFeedOver channels.now feed.old }
    ensures over { IsFeedOver channels.now feed.new }
    ensures feed { (t : Trace) (have : ℕ → ℕ) → AreBehind t have cursors.now → t.channels ≡ channels.now
        → IsFeed channels.now (epoch_at t cursors.now) have feed.new }
{
    fill(cursors, channels.as_slice(), u128::MAX, feed);
}

/// The feed of cursors before anything has completed.
pub(crate) fn first_feed(
    alloc: Global,
    cursors: &Cursors,
    channels: &Channels,
) -> Result<Feed, Memory>
    requires table { IsTable channels.now }
    requires stands { (t : Trace) × AreBehind t none_yet cursors.now × (t.channels ≡ channels.now) }
    ensures over { IfOk result (λ feed. IsFeedOver channels.now feed) }
    ensures feed { IfOk result (λ feed. (t : Trace) → AreBehind t none_yet cursors.now → t.channels ≡ channels.now
        → IsFeed channels.now (epoch_at t cursors.now) none_yet feed) }
{
    let mut feed = feed_over(alloc, channels)?;
    refill(cursors, channels, &mut feed);
    Ok(feed)
}

/// Goes on behind one more completion of each channel that `ends` names, and feeds their next events: bit c is channel c.
pub(crate) fn follow(cursors: &mut Cursors, channels: &Channels, ends: u128, feed: &mut Feed)
    requires table { IsTable channels.now }
    requires stands { (t : Trace) × (have : ℕ → ℕ) × AreBehind t have cursors.old × (t.channels ≡ channels.now) }
    requires over { IsFeedOver channels.now feed.old }
    ensures over { IsFeedOver channels.now feed.new }
    ensures behind { (t : Trace) (have : ℕ → ℕ) → AreBehind t have cursors.old → AreBehind t (λ c. have c + bit_at ends c) cursors.new }
    ensures epoch { cursors.new.epoch ≡ cursors.old.epoch }
    ensures feed { (t : Trace) (have : ℕ → ℕ) → AreBehind t have cursors.old → t.channels ≡ channels.now
        → IsFeed channels.now (epoch_at t cursors.old) have feed.old
        → IsFeed channels.now (epoch_at t cursors.new) (λ c. have c + bit_at ends c) feed.new }
{
    cursors.advance(ends);
    fill(cursors, channels.as_slice(), ends, feed);
}

/// Goes on to the next epoch, which there is, and feeds its first events; of this one at most a start is left on each channel.
pub(crate) fn follow_turn(cursors: &mut Cursors, channels: &Channels, feed: &mut Feed)
    requires table { IsTable channels.now }
    requires stands { (t : Trace) × (have : ℕ → ℕ) × AreBehind t have cursors.old × (t.channels ≡ channels.now)
        × (cursors.old.epoch < resets t.packets)
        × ((c : ℕ) → c < length t.channels → count Kind.End c (epoch_at t cursors.old) ≤ have c) }
    requires over { IsFeedOver channels.now feed.old }
    ensures over { IsFeedOver channels.now feed.new }
    ensures behind { (t : Trace) (have : ℕ → ℕ) → AreBehind t have cursors.old → cursors.old.epoch < resets t.packets
        → ((c : ℕ) → c < length t.channels → count Kind.End c (epoch_at t cursors.old) ≤ have c) → AreBehind t none_yet cursors.new }
    ensures epoch { cursors.new.epoch ≡ cursors.old.epoch + 1 }
    ensures feed { (t : Trace) → AreBehind t none_yet cursors.new → t.channels ≡ channels.now
        → IsFeed channels.now (epoch_at t cursors.new) none_yet feed.new }
{
    cursors.turn();
    refill(cursors, channels, feed);
}
