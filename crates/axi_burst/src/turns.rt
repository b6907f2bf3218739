//! Rule 4: read beats, each by the next turn of its ID.

ghost use Rattle.std.specs.Prelude.{◌≡◌, ◌<◌, ◌^◌, IfOk, length};
ghost use Rattle.trace_model.specs.vidi_bits.Findings.{Judged};
ghost use Rattle.axi_burst.specs.Bursts.{is_turn, read_faults};
ghost use Rattle.axi_burst.specs.HeadTable.{none_taken};
ghost use Rattle.axi_burst.specs.Passes.{burst_told};
ghost use Rattle.axi_burst.specs.TurnTable.{AreTurns, TakesTurn};

use crate::counts::Counts;
use crate::error::BurstError;
use crate::heads::Heads;
use crate::reading::same;
use crate::transfers::{Address, Beat};
use std::alloc::Global;
use trace_model::vidi_bits::Memory;

/// The next beat of each ID: the burst that goes on or comes, and how many beats of it were before.
#[derive(Drop)]
pub(crate) struct Turns {
    heads: Heads,
    used: Counts,
}

impl Turns {
    /// The first beat of each ID.
    pub(crate) fn of(alloc: Global, asks: &[Address]) -> Result<Turns, Memory>
        ensures { IfOk result (AreTurns asks.now none_taken) }
    {
        let heads = Heads::of(alloc, asks)?;
        Ok(Turns {
            heads,
            used: Counts::new(alloc),
        })
    }

    /// Takes the next beat of an ID, where there is one: when its address came, and whether it is its burst's last.
    pub(crate) fn take(
        &mut self,
        asks: &[Address],
        id: u128,
    ) -> Result<Option<(usize, bool)>, Memory>
        ensures { IfOk result (λ turn. TakesTurn asks.now self.old id self.new turn) }
    {
        let Some(m) = self.heads.head(id) else {
            return Ok(None);
        };
        let Some(a) = asks.get(m) else {
            return Ok(None);
        };
        let used = self.used.get(id);
        if used < u64::from(a.beats.saturating_sub(1)) {
            self.used.set(id, used + 1)?;
            return Ok(Some((a.at, false)));
        }
        let _taken = self.heads.take(id)?;
        self.used.set(id, 0)?;
        Ok(Some((a.at, true)))
    }
}

fn is_turn(at: usize, last: bool, turn: Option<(usize, bool)>) -> bool
    ensures { result ≡ is_turn at last turn }
{
    match turn {
        Some((came, is_last)) => came <= at && same(last, is_last),
        None => false,
    }
}

/// `Broken` with the first read beat that breaks rule 4.
pub(crate) fn check_reads(
    alloc: Global,
    channel: usize,
    asks: &[Address],
    got: &[Beat],
) -> Result<(), BurstError>
    requires few { length got.now < 2 ^ 32 }
    ensures { Judged burst_told result (read_faults channel asks.now got.now) }
{
    let mut turns = Turns::of(alloc, asks)?;
    for (i, x) in got.iter().enumerate() {
        let turn = turns.take(asks, x.id)?;
        if !is_turn(x.at, x.last, turn) {
            return Err(BurstError::Broken {
                rule: 4,
                channel,
                index: i as u32,
            });
        }
    }
    Ok(())
}
