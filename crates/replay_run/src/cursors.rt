//! Cursors over the events of all channels of a trace, epoch by epoch.

ghost use Rattle.std.specs.Prelude.{◌≡◌, ◌≢◌, ◌+◌, ◌<◌, ◌≤◌, ◌↔◌, true, ℕ, IsTrue, IfOk, length};
ghost use Rattle.std.specs.Int.{bit_at};
ghost use Rattle.trace_code.specs.trace_model.declared.event.Kind.{Kind as OneKind};
ghost use Rattle.trace_code.specs.trace_model.declared.trace.Trace.{Trace};
ghost use Rattle.trace_code.specs.trace_model.Epoch.{epoch as packets_in, resets};
ghost use Rattle.trace_code.specs.trace_model.Packet.{count};
ghost use Rattle.trace_code.specs.trace_model.Row.{is_in_flight};
ghost use Rattle.trace_code.specs.vidi_bits.Number.{has};
ghost use Rattle.trace_code.specs.Encoding.{Encodes};
ghost use Rattle.replay_run.specs.Behind.{epoch_at, none_yet, AreAt, AreBehind, HasCursors, IsBehind, IsDone, IsShownOf, NamesMore};

use crate::bits::{with_bit_as, without};
use std::alloc::Global;
use trace_code::Cursor;
use trace_code::trace_model::{Kind, Row, names, with_bit};
use trace_code::vidi_bits::Memory;

/// For each channel of a trace a cursor over its events of one kind. Only `open` takes memory.
#[derive(Drop)]
pub(crate) struct Walk<'a> {
    pub(crate) cursors: Vec<Cursor<'a>>,
    /// The channels whose cursor stands at an event of the epoch: bit c is channel c.
    pub(crate) more: u128,
}

/// For each channel of a trace a cursor over its starts and one over its completions, both behind as many transactions of an epoch. Only
/// `open` takes memory.
#[derive(Drop)]
pub(crate) struct Cursors<'a> {
    pub(crate) starts: Walk<'a>,
    pub(crate) ends: Walk<'a>,
    /// At the reset behind the epoch, at the end where there is none.
    pub(crate) reset: Cursor<'a>,
    /// The epoch: how many resets the replay has passed.
    pub(crate) epoch: u32,
}

/// Whether a cursor that has passed the epochs before this one stands at an event of it.
fn is_in(cursor: &Cursor, epoch: u32) -> bool
    requires { (t : Trace) × (kind : OneKind) × (c : ℕ) × (n : ℕ) × IsBehind t epoch kind c n cursor.now }
    ensures { (t : Trace) (kind : OneKind) (c n : ℕ) → IsBehind t epoch kind c n cursor.now
        → IsTrue result ↔ (n < count kind c (packets_in epoch t.packets)) }
{
    !cursor.at_end() && cursor.epoch() == epoch
}

/// Goes on by an event of this epoch, where there is one. Gives whether there is a further one.
fn forward(cursor: &mut Cursor, epoch: u32) -> bool
    requires { (t : Trace) × (kind : OneKind) × (c : ℕ) × (n : ℕ) × IsBehind t epoch kind c n cursor.old }
    ensures behind { (t : Trace) (kind : OneKind) (c n : ℕ) → IsBehind t epoch kind c n cursor.old
        → IsBehind t epoch kind c (n + 1) cursor.new }
    ensures more { (t : Trace) (kind : OneKind) (c n : ℕ) → IsBehind t epoch kind c n cursor.old
        → IsTrue result ↔ (n + 1 < count kind c (packets_in epoch t.packets)) }
{
    if !is_in(cursor, epoch) {
        return false;
    }
    cursor.step();
    is_in(cursor, epoch)
}

/// Goes on by an event of this epoch on the channels that complete. `more` names the channels whose cursor stands at one, and so does what it
/// gives.
fn forward_all(cursors: &mut [Cursor], more: u128, ends: u128, epoch: u32) -> u128
    requires { (t : Trace) × (kind : OneKind) × (have : ℕ → ℕ) × AreAt t epoch kind have cursors.old more }
    ensures { (t : Trace) (kind : OneKind) (have : ℕ → ℕ) → AreAt t epoch kind have cursors.old more
        → AreAt t epoch kind (λ c. have c + bit_at ends c) cursors.new result }
{
    let mut left = more;
    for c in 0..cursors.len() {
        if names(ends, c) {
            left = with_bit_as(left, c, forward(&mut cursors[c], epoch));
        }
    }
    left
}

/// The channels whose cursor stands at an event of this epoch: bit c is channel c.
fn named(cursors: &[Cursor], epoch: u32) -> u128
    requires { (t : Trace) × (kind : OneKind) × (have : ℕ → ℕ) × HasCursors t epoch kind have cursors.now }
    ensures { (t : Trace) (kind : OneKind) (have : ℕ → ℕ) → HasCursors t epoch kind have cursors.now → NamesMore t epoch kind have result }
{
    let mut more = 0;
    for (c, cursor) in cursors.iter().enumerate() {
        more = with_bit(more, c, is_in(cursor, epoch));
    }
    more
}

/// For each of so many channels of a trace, whose encoding the bytes are, a cursor at its first event of this kind.
fn first_cursors<'a>(
    alloc: Global,
    bytes: &'a [u8],
    channels: usize,
    kind: Kind,
) -> Result<Vec<Cursor<'a>>, Memory>
    requires event { kind ≢ Kind.Reset }
    requires trace { (t : Trace) × Encodes t bytes.now × (channels ≡ length t.channels) }
    ensures { IfOk result (λ cursors. (t : Trace) → Encodes t bytes.now → channels ≡ length t.channels
        → HasCursors t 0 kind none_yet cursors.items) }
{
    let mut cursors = Vec::with_capacity(alloc, channels)?;
    for c in 0..channels {
        cursors.push(Cursor::new(alloc, bytes, c, kind)?)?;
    }
    Ok(cursors)
}

impl<'a> Walk<'a> {
    /// For each of so many channels of a trace, whose encoding the bytes are, a cursor at its first event of this kind.
    fn open(alloc: Global, bytes: &'a [u8], channels: usize, kind: Kind) -> Result<Walk<'a>, Memory>
        requires event { kind ≢ Kind.Reset }
        requires trace { (t : Trace) × Encodes t bytes.now × (channels ≡ length t.channels) }
        ensures { IfOk result (λ walk. (t : Trace) → Encodes t bytes.now → channels ≡ length t.channels
            → AreAt t 0 kind none_yet walk.cursors.items walk.more) }
    {
        let cursors = first_cursors(alloc, bytes, channels, kind)?;
        let more = named(cursors.as_slice(), 0);
        Ok(Walk { cursors, more })
    }

    /// Goes on by an event of this epoch on the channels that complete: bit c of `ends` is channel c.
    fn advance(&mut self, ends: u128, epoch: u32)
        requires { (t : Trace) × (kind : OneKind) × (have : ℕ → ℕ) × AreAt t epoch kind have self.old.cursors.items self.old.more }
        ensures { (t : Trace) (kind : OneKind) (have : ℕ → ℕ) → AreAt t epoch kind have self.old.cursors.items self.old.more
            → AreAt t epoch kind (λ c. have c + bit_at ends c) self.new.cursors.items self.new.more }
    {
        self.more = forward_all(self.cursors.as_mut_slice(), self.more, ends, epoch);
    }

    /// Turns to this epoch, before whose first event on each channel a cursor stands.
    fn turn(&mut self, epoch: u32)
        requires { (t : Trace) × (kind : OneKind) × HasCursors t epoch kind none_yet self.old.cursors.items }
        ensures { (t : Trace) (kind : OneKind) → HasCursors t epoch kind none_yet self.old.cursors.items
            → AreAt t epoch kind none_yet self.new.cursors.items self.new.more }
    {
        self.more = named(self.cursors.as_slice(), epoch);
    }
}

/// The channels in flight after a row: bit c is channel c.
fn in_flight(row: &Row) -> u128
    ensures { (c : ℕ) → has result c ≡ is_in_flight row.now c }
{
    without(row.valids & row.gates, row.readies)
}

/// The cursor over the starts, or over the completions, of a channel.
pub(crate) fn cursor_of<'a, 'b>(cursors: &'a Cursors<'b>, kind: Kind, c: usize) -> &'a Cursor<'b>
    requires kind { kind ≢ Kind.Reset }
    requires stands { (t : Trace) × (have : ℕ → ℕ) × AreBehind t have cursors.now × (c < length t.channels) }
    ensures { (t : Trace) (have : ℕ → ℕ) → AreBehind t have cursors.now → c < length t.channels
        → IsBehind t cursors.now.epoch kind c (have c) result.now }
{
    match kind {
        Kind::Start => &cursors.starts.cursors[c],
        Kind::End => &cursors.ends.cursors[c],
        Kind::Reset => unreachable!(),
    }
}

/// Whether the epoch has a further start, or a further completion, on a channel.
pub(crate) fn has_next(cursors: &Cursors, kind: Kind, c: usize) -> bool
    requires { kind ≢ Kind.Reset }
    ensures { (t : Trace) (have : ℕ → ℕ) → AreBehind t have cursors.now → c < length t.channels
        → IsTrue result ↔ (have c < count kind c (epoch_at t cursors.now)) }
{
    match kind {
        Kind::Start => names(cursors.starts.more, c),
        Kind::End => names(cursors.ends.more, c),
        Kind::Reset => unreachable!(),
    }
}

impl<'a> Cursors<'a> {
    /// The cursors of a trace of so many channels, of which there is one, whose encoding the bytes are, before anything has completed.
    pub(crate) fn open(
        alloc: Global,
        bytes: &'a [u8],
        channels: usize,
    ) -> Result<Cursors<'a>, Memory>
        requires { (t : Trace) × Encodes t bytes.now × (channels ≡ length t.channels) }
        ensures behind { IfOk result (λ cursors. (t : Trace) → Encodes t bytes.now → channels ≡ length t.channels
            → AreBehind t none_yet cursors) }
        ensures first { IfOk result (λ cursors. cursors.epoch ≡ 0) }
    {
        let starts = Walk::open(alloc, bytes, channels, Kind::Start)?;
        let ends = Walk::open(alloc, bytes, channels, Kind::End)?;
        let reset = Cursor::new(alloc, bytes, 0, Kind::Reset)?;
        Ok(Cursors {
            starts,
            ends,
            reset,
            epoch: 0,
        })
    }

    /// Goes on behind one more completion of each channel that `ends` names: bit c is channel c.
    pub(crate) fn advance(&mut self, ends: u128)
        requires { (t : Trace) × (have : ℕ → ℕ) × AreBehind t have self.old }
        ensures behind { (t : Trace) (have : ℕ → ℕ) → AreBehind t have self.old → AreBehind t (λ c. have c + bit_at ends c) self.new }
        ensures epoch { self.new.epoch ≡ self.old.epoch }
    {
        self.starts.advance(ends, self.epoch);
        self.ends.advance(ends, self.epoch);
    }

    /// Whether no completion is left in the epoch, and each of these starts is of a channel in flight after the last row: bit c is channel c.
    fn are_shown(&self, starts: u128, last: &Row) -> bool
        ensures { IsTrue result ↔ ((self.now.ends.more ≡ 0) × ((c : ℕ) → has starts c ≡ true → is_in_flight last.now c ≡ true)) }
    {
        self.ends.more == 0 && without(starts, in_flight(last)) == 0
    }

    /// Whether the epoch is the last one and has no further event on any channel; which are in flight the last row says.
    pub(crate) fn has_ended(&self, last: &Row) -> bool
        requires { (t : Trace) × (have : ℕ → ℕ) × AreBehind t have self.now }
        ensures { (t : Trace) (have : ℕ → ℕ) → AreBehind t have self.now
            → IsTrue result ↔ ((self.now.epoch ≡ resets t.packets)
            × ((c : ℕ) → c < length t.channels → IsDone (epoch_at t self.now) have last.now c)) }
    {
        self.are_shown(self.starts.more, last) && self.reset.at_end()
    }

    /// Whether there is a next epoch and this one has no further event on any channel but starts of those that `inward` doesn't name; which are
    /// in flight the last row says.
    pub(crate) fn may_turn(&self, last: &Row, inward: u128) -> bool
        requires { (t : Trace) × (have : ℕ → ℕ) × AreBehind t have self.now }
        ensures { (t : Trace) (have : ℕ → ℕ) → AreBehind t have self.now
            → IsTrue result ↔ ((self.now.epoch < resets t.packets)
            × ((c : ℕ) → c < length t.channels → IsShownOf inward (epoch_at t self.now) have last.now c)) }
    {
        self.are_shown(self.starts.more & inward, last) && !self.reset.at_end()
    }

    /// Goes on to the next epoch, which there is, before anything has completed in it: each cursor past the events that are left of this one, of
    /// which there is at most a start on each channel.
    pub(crate) fn turn(&mut self)
        requires { (t : Trace) × (have : ℕ → ℕ) × AreBehind t have self.old × (self.old.epoch < resets t.packets)
            × ((c : ℕ) → c < length t.channels → count Kind.End c (epoch_at t self.old) ≤ have c) }
        ensures behind { (t : Trace) (have : ℕ → ℕ) → AreBehind t have self.old → self.old.epoch < resets t.packets
            → ((c : ℕ) → c < length t.channels → count Kind.End c (epoch_at t self.old) ≤ have c) → AreBehind t none_yet self.new }
        ensures epoch { self.new.epoch ≡ self.old.epoch + 1 }
    {
        let left = self.starts.more;
        self.starts.advance(left, self.epoch);
        self.epoch += 1;
        self.reset.step();
        self.starts.turn(self.epoch);
        self.ends.turn(self.epoch);
    }
}
