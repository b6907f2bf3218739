//! The player of a replay.

ghost use Rattle.std.specs.Prelude.{◌≡◌, ◌↔◌, ◌+◌, ◌<◌, ◌≤◌, [], ℕ, true, IfOk, IsTrue, Some, length, replicate, slice_get};
ghost use Rattle.trace_code.specs.vidi_bits.Number.{has};
ghost use Rattle.trace_code.specs.trace_model.declared.channel.Channel.{Channel as OneChannel};
ghost use Rattle.trace_code.specs.trace_model.declared.packet.TheConstants.{MOST_CYCLES};
ghost use Rattle.trace_code.specs.trace_model.declared.trace.Trace.{Trace};
ghost use Rattle.trace_code.specs.trace_model.Channel.{IsTable};
ghost use Rattle.trace_code.specs.Encoding.{Encodes};
ghost use Rattle.replay_run.specs.Standing.{StandsBehind};

use crate::cursors::Cursors;
use crate::feeding::{first_feed, follow, follow_turn};
use crate::output::Output;
use run_stage::StretchPlayer;
use run_stage::chan_map::Map;
use run_stage::chan_replayer::Feed;
use std::alloc::Global;
use std::convert::Infallible;
use trace_code::trace_model::{Channel, Dir, Row, with_bit};
use trace_code::vec_clock::Clock;
use trace_code::vidi_bits::Memory;

/// What feeds replayers the events of a trace, epoch by epoch, and keeps the rows that come. Only `new` takes memory.
#[derive(Drop)]
pub(crate) struct Feeder<'a> {
    pub(crate) map: &'a Map,
    /// The encoding of the trace.
    pub(crate) bytes: &'a [u8],
    /// The inward channels: bit c is channel c.
    pub(crate) inward: u128,
    pub(crate) cursors: Cursors<'a>,
    /// The next events.
    pub(crate) feed: Feed,
    /// The completions of each channel since the last reset.
    pub(crate) have: Clock,
    /// The trace of the rows.
    pub(crate) output: Output,
    /// The most rows, for which there is room.
    pub(crate) cycles: u32,
}

/// Whether a channel of this direction goes into the design.
fn is_inward(dir: Dir) -> bool
    ensures { IsTrue result ↔ (dir ≡ Dir.Inward) }
{
    match dir {
        Dir::Inward => true,
        Dir::Outward => false,
    }
}

/// The inward ones of so few channels: bit c is channel c.
fn inward_of(channels: &[Channel]) -> u128
    requires few { length channels.now ≤ 128 }
    ensures { (c : ℕ) (x : OneChannel) → slice_get channels.now c ≡ Some x → (has result c ≡ true) ↔ (x.dir ≡ Dir.Inward) }
{
    let mut inward = 0;
    for (c, channel) in channels.iter().enumerate() {
        inward = with_bit(inward, c, is_inward(channel.dir));
    }
    inward
}

impl<'a> Feeder<'a> {
    /// Before the first row of at most so many, with a trace of the map's channels, whose encoding the bytes are.
    pub(crate) fn new(
        alloc: Global,
        map: &'a Map,
        bytes: &'a [u8],
        cycles: u32,
    ) -> Result<Feeder<'a>, Memory>
        requires trace { (t : Trace) × Encodes t bytes.now × (t.channels ≡ map.now.channels) }
        requires few { cycles ≤ MOST_CYCLES }
        ensures map { IfOk result (λ feeder. feeder.map.now ≡ map.now) }
        ensures bytes { IfOk result (λ feeder. feeder.bytes.now ≡ bytes.now) }
        ensures most { IfOk result (λ feeder. feeder.cycles ≡ cycles) }
        ensures stands { IfOk result (λ feeder. StandsBehind feeder feeder [] []) }
    {
        let channels = &map.channels;
        let inward = inward_of(channels.as_slice());
        let cursors = Cursors::open(alloc, bytes, channels.len())?;
        let feed = first_feed(alloc, &cursors, channels)?;
        let have = Clock::new(alloc, channels.len())?;
        let output = Output::new(alloc, channels, cycles)?;
        Ok(Feeder {
            map,
            bytes,
            inward,
            cursors,
            feed,
            have,
            output,
            cycles,
        })
    }
}

impl<'a> StretchPlayer<Feed> for Feeder<'a> {
    ghost use Rattle.replay_run.specs.Standing.{IsNextRow, IsTurn, SaysEnded, StandsBehind};

    type Fault = Infallible;

    ghost map = { λ feeder. feeder.map.now };

    ghost most = { λ feeder. feeder.cycles };

    ghost rule = { IsNextRow };

    ghost turns = { IsTurn };

    ghost stands = { StandsBehind };

    ghost ends = { SaysEnded };

    ghost broke = { λ _ _ _ _ _. ⊥ };

    fn is_done(&self, last: &Row) -> bool {
        self.cursors.has_ended(last)
    }

    fn turns(&mut self, last: &Row) -> bool {
        if !self.cursors.may_turn(last, self.inward) {
            return false;
        }
        follow_turn(&mut self.cursors, &self.map.channels, &mut self.feed);
        self.have.clear();
        true
    }

    fn given(&self) -> &Feed {
        &self.feed
    }

    fn keep(&mut self, cycle: u32, last: &Row) -> Result<(), Infallible> {
        let channels = &self.map.channels;
        follow(&mut self.cursors, channels, last.ends, &mut self.feed);
        self.have.add(last.ends);
        self.output.push(cycle, last, channels);
        Ok(())
    }
}
