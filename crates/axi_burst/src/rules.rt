//! Rules 1 and 2: addresses, and the LASTs of written beats.

ghost use Rattle.std.specs.Prelude.{◌≡◌, ◌<◌, ◌^◌, ◌++◌, ◌∷◌, [], length, All, MatchOption, Some};
ghost use Rattle.trace_model.specs.vidi_bits.Findings.{Judged};
ghost use Rattle.axi_burst.specs.Bursts.{is_in_block, is_lawful, address_faults, all_lasts, last_faults};
ghost use Rattle.axi_burst.specs.Passes.{IsAddress, burst_told, lasts_left};

use crate::error::BurstError;
use crate::reading::same;
use crate::transfers::{Address, Beat};

/// The bytes of a block that no burst may leave (AMBA AXI4, A3.4.1).
const BLOCK: u128 = 4_096;

/// Whether the beats of an incrementing burst lie in one block.
fn is_in_block(a: &Address) -> bool
    requires { IsAddress a.now }
    ensures { result ≡ is_in_block a.now }
{
    let size = u128::from(a.size);
    let first = a.addr - a.addr % size;
    first / BLOCK == (first + u128::from(a.beats) * size - 1) / BLOCK
}

/// Rule 1.
fn is_lawful(beat: u32, a: &Address) -> bool
    requires { IsAddress a.now }
    ensures { result ≡ is_lawful beat a.now }
{
    let is_multiple = a.addr % u128::from(a.size) == 0;
    let is_wrapping = matches!(a.beats, 2 | 4 | 8 | 16) && is_multiple;
    a.burst != 3
        && a.size <= beat
        && (a.burst != 0 || a.beats <= 16)
        && (a.burst != 2 || is_wrapping)
        && (a.burst != 1 || is_in_block(a))
}

/// `Broken` with the first address that breaks rule 1.
pub(crate) fn check_addresses(channel: usize, beat: u32, asks: &[Address]) -> Result<(), BurstError>
    requires few { length asks.now < 2 ^ 32 }
    requires each { All IsAddress asks.now }
    ensures { Judged burst_told result (address_faults channel beat asks.now) }
{
    for (i, a) in asks.iter().enumerate() {
        if !is_lawful(beat, a) {
            return Err(BurstError::Broken {
                rule: 1,
                channel,
                index: i as u32,
            });
        }
    }
    Ok(())
}

/// Whether the next beat is its burst's last, and how many beats before the last one are behind it.
fn next_last(behind: u32) -> (bool, Option<u32>)
    ensures { lasts_left (Some behind) ≡ result.0 ∷ lasts_left result.1 }
{
    if behind == 0 {
        (true, None)
    } else {
        (false, Some(behind - 1))
    }
}

/// The beats before the last one of the burst that goes on, or else of the next one, and the addresses behind it.
fn burst_on(left: Option<u32>, asks: &[Address]) -> Option<(u32, &[Address])>
    ensures { MatchOption result (lasts_left left ++ all_lasts asks.now ≡ [])
        (λ p. lasts_left left ++ all_lasts asks.now ≡ lasts_left (Some p.0) ++ all_lasts p.1.now) }
{
    if let Some(behind) = left {
        return Some((behind, asks));
    }
    let (first, rest) = asks.split_first()?;
    Some((first.beats.saturating_sub(1), rest))
}

/// `Broken` with the first beat that breaks rule 2.
pub(crate) fn check_lasts(channel: usize, asks: &[Address], sent: &[Beat]) -> Result<(), BurstError>
    requires few { length sent.now < 2 ^ 32 }
    ensures { Judged burst_told result (last_faults channel asks.now sent.now) }
{
    let mut rest = asks;
    let mut left = None;
    for (i, x) in sent.iter().enumerate() {
        let Some((behind, others)) = burst_on(left, rest) else {
            return Ok(());
        };
        let (is_last, after) = next_last(behind);
        if !same(x.last, is_last) {
            return Err(BurstError::Broken {
                rule: 2,
                channel,
                index: i as u32,
            });
        }
        rest = others;
        left = after;
    }
    Ok(())
}
