//! Rule 3: responses, each by the next address of its ID.

ghost use Rattle.std.specs.Prelude.{◌≡◌, ◌<◌, ◌^◌, All, IfOk, length};
ghost use Rattle.trace_model.specs.vidi_bits.Findings.{Judged};
ghost use Rattle.axi_burst.specs.Bursts.{answers_burst, response_faults};
ghost use Rattle.axi_burst.specs.Passes.{AreLast, IsAddress, burst_told};

use crate::error::BurstError;
use crate::heads::Heads;
use crate::transfers::{Address, Beat};
use std::alloc::Global;
use trace_model::vidi_bits::Memory;

/// The number of the last beat of each burst.
fn last_beats(alloc: Global, asks: &[Address]) -> Result<Vec<usize>, Memory>
    requires few { length asks.now < 2 ^ 32 }
    requires each { All IsAddress asks.now }
    ensures { IfOk result (λ lasts. AreLast asks.now (length asks.now) lasts.items) }
{
    let mut lasts = Vec::with_capacity(alloc, asks.len())?;
    let mut sum: usize = 0;
    for a in asks {
        sum += a.beats as usize;
        lasts.push(sum.saturating_sub(1))?;
    }
    Ok(lasts)
}

/// Whether address `head` and the last beat of its burst are there, in no later packet.
fn answers_burst(
    asks: &[Address],
    sent: &[Beat],
    lasts: &[usize],
    at: usize,
    head: Option<usize>,
) -> bool
    requires { AreLast asks.now (length asks.now) lasts.now }
    ensures { result ≡ answers_burst asks.now sent.now at head }
{
    let Some(m) = head else {
        return false;
    };
    let (Some(a), Some(last)) = (asks.get(m), lasts.get(m)) else {
        return false;
    };
    match sent.get(*last) {
        Some(x) => a.at <= at && x.at <= at,
        None => false,
    }
}

/// `Broken` with the first response that breaks rule 3.
pub(crate) fn check_responses(
    alloc: Global,
    channel: usize,
    asks: &[Address],
    sent: &[Beat],
    answers: &[Beat],
) -> Result<(), BurstError>
    requires few_asks { length asks.now < 2 ^ 32 }
    requires few { length answers.now < 2 ^ 32 }
    requires each { All IsAddress asks.now }
    ensures { Judged burst_told result (response_faults channel asks.now sent.now answers.now) }
{
    let lasts = last_beats(alloc, asks)?;
    let mut heads = Heads::of(alloc, asks)?;
    for (i, x) in answers.iter().enumerate() {
        let head = heads.take(x.id)?;
        if !answers_burst(asks, sent, lasts.as_slice(), x.at, head) {
            return Err(BurstError::Broken {
                rule: 3,
                channel,
                index: i as u32,
            });
        }
    }
    Ok(())
}
