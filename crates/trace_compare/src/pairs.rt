//! The events that two traces both have, side by side.

ghost use Rattle.std.specs.Prelude.{◌≡◌, ◌^◌, ◌<◌, All, length};
ghost use Rattle.trace_compare.specs.Tally.{IsTally};
ghost use Rattle.trace_compare.specs.Walking.{differing_at, early_at};

use crate::content::content;
use crate::tally::Tally;
use vec_clock::trace_model::{Channel, Packet};

/// The starts of the channel at these places, of which those with unequal contents are marked.
pub(crate) fn different_starts(
    channels: &[Channel],
    channel: usize,
    a: &[Packet],
    b: &[Packet],
    in_a: &[usize],
    in_b: &[usize],
) -> Tally
    requires within { channel < length channels.now }
    requires few { length in_a.now < 2 ^ 32 }
    requires in_a { All (λ p. p < length a.now) in_a.now }
    requires in_b { All (λ q. q < length b.now) in_b.now }
    ensures { IsTally (differing_at channels.now channel a.now b.now in_a.now in_b.now) result }
{
    let mut tally = Tally::new();
    for i in 0..in_a.len().min(in_b.len()) {
        let one = content(channels, &a[in_a[i]], channel);
        let other = content(channels, &b[in_b[i]], channel);
        tally.add(one != other);
    }
    tally
}

/// The events at these places, of which those are marked that stand in `b` before each packet whose clock covers
/// the clock in `a`.
pub(crate) fn early_events(covering: &[usize], in_a: &[usize], in_b: &[usize]) -> Tally
    requires few { length in_a.now < 2 ^ 32 }
    requires in_a { All (λ p. p < length covering.now) in_a.now }
    ensures { IsTally (early_at covering.now in_a.now in_b.now) result }
{
    let mut tally = Tally::new();
    for i in 0..in_a.len().min(in_b.len()) {
        tally.add(in_b[i] < covering[in_a[i]]);
    }
    tally
}
