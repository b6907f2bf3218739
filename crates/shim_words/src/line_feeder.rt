//! Who feeds replayers the lines of a file.

ghost use Rattle.std.specs.Prelude.{◌≡◌, ◌≤◌, IfOk, OnOk, length};
ghost use Rattle.shim_runs.specs.trace_model.declared.packet.TheConstants.{MOST_CHANNELS, MOST_CYCLES};
ghost use Rattle.shim_runs.specs.chan_replayer.Feed.{IsFeedOver};
ghost use Rattle.shim_runs.specs.run_stage.Playing.{AreOver};

use crate::feeds::feed_of;
use shim_runs::Ended;
use shim_runs::chan_map::Map;
use shim_runs::chan_replayer::{Feed, ReplayShell};
use shim_runs::run_stage::{Ending, Player, TwoRows, play};
use shim_runs::trace_model::{MOST_CYCLES, Row};
use shim_runs::vidi_lines::Line;
use std::alloc::Global;

/// Feeds the lines of a file, one a cycle. It stands at a line, from the first one on.
#[derive(Drop)]
pub(crate) struct LineFeeder<'a> {
    alloc: Global,
    map: &'a Map,
    /// The feed of the line at which it stands.
    pub(crate) feed: Feed,
    /// The lines behind that.
    behind: &'a [Line],
    ghost few: { length map.now.channels ≤ MOST_CHANNELS },
    ghost short: { length behind.now ≤ MOST_CYCLES },
}

impl<'a> LineFeeder<'a> {
    /// At the first line, of which there are at most one more than cycles.
    pub(crate) fn new(
        alloc: Global,
        map: &'a Map,
        lines: &'a [Line],
    ) -> Result<LineFeeder<'a>, Ended>
        requires few { length map.now.channels ≤ MOST_CHANNELS }
        ensures map { IfOk result (λ feeder. feeder.map.now ≡ map.now) }
        ensures fits { IfOk result (λ feeder. IsFeedOver map.now.channels feeder.feed) }
    {
        let Some((first, behind)) = lines.split_first() else {
            return Err(Ended::Usage);
        };
        if behind.len() > MOST_CYCLES as usize {
            return Err(Ended::Usage);
        }
        let feed = feed_of(alloc, first, &map.channels)?;
        Ok(LineFeeder {
            alloc,
            map,
            feed,
            behind,
        })
    }
}

impl Player<Feed> for LineFeeder<'_> {
    ghost use Rattle.std.specs.Prelude.{false};

    type Fault = Ended;

    ghost map = { λ feeder. feeder.map.now };

    ghost most = { λ _. MOST_CYCLES };

    ghost rule = { λ _ _ _. Unit {0} };

    ghost stands = { λ first now _. (now.map.now ≡ first.map.now) × IsFeedOver first.map.now.channels now.feed };

    ghost ends = { λ _ _ over. over ≡ false };

    ghost broke = { λ _ _ _ _. Unit {0} };

    fn is_done(&self, _last: &Row) -> bool {
        false
    }

    fn given(&self) -> &Feed {
        &self.feed
    }

    fn keep(&mut self, _cycle: u32, _last: &Row) -> Result<(), Ended> {
        let Some((next, behind)) = self.behind.split_first() else {
            return Ok(());
        };
        self.feed = feed_of(self.alloc, next, &self.map.channels)?;
        self.behind = behind;
        Ok(())
    }
}

/// Plays the cycle of each line but the last on a shell, from a reset on, so the feeder stands at the last line.
pub(crate) fn go_through<S: ReplayShell>(
    shell: &mut S,
    map: &Map,
    feeder: &mut LineFeeder,
    rows: &mut TwoRows,
) -> Result<(), Ended>
    requires mapped { S.map shell.old ≡ map.now }
    requires same { feeder.old.map.now ≡ map.now }
    requires fits { IsFeedOver map.now.channels feeder.old.feed }
    requires rows { AreOver map.now.channels rows.old }
    requires silent { rows.old.last.valids ≡ 0 }
    ensures mapped { S.map shell.new ≡ S.map shell.old }
    ensures fits { OnOk result (IsFeedOver map.now.channels feeder.new.feed) }
    ensures rows { AreOver map.now.channels rows.new }
{
    let cycles = feeder.behind.len() as u32;
    shell.reset();
    match play(shell, feeder, map, cycles, rows)? {
        Ending::Whole => Ok(()),
        Ending::Done { .. } | Ending::Unstable { .. } => Err(Ended::Usage),
    }
}
