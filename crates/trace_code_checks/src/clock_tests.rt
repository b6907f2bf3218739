//! Clocks of three channels, by hand.

ghost use Rattle.std.specs.Prelude.{◌≡◌, length, replicate};

use std::alloc::Global;
use trace_v2::trace_code::vec_clock::Clock;

/// Whether two clocks count and compare: two completions of channel 0 and one of channel 2; then one of channel 1 too.
fn are_compared(first: &Clock, second: &Clock) -> bool
    requires first { length first.now ≡ 3 }
    requires second { length second.now ≡ 3 }
{
    let counted = first.get(0) == 2 && first.get(1) == 0 && first.get(2) == 1;
    let short = first.first_short(second) == Some(1) && second.first_short(first) == Some(0);
    let covers = first.covers(first) && !first.covers(second);
    let needs = second.covers_needs(&[1, 1, 1])
        && !first.covers_needs(&[1, 1, 1])
        && first.first_short_of(&[2, 0, 2]) == Some(2);
    counted && short && covers && needs
}

/// Whether two clocks compare where the first is cleared.
fn is_cleared(first: &Clock, second: &Clock) -> bool
    requires first { length first.now ≡ 3 }
    requires second { length second.now ≡ 3 }
{
    first.get(0) == 0 && second.covers(first) && !first.covers(second)
}

fn are_counted(first: &mut Clock, second: &mut Clock) -> bool
    requires first { first.old ≡ replicate 3 0 }
    requires second { second.old ≡ replicate 3 0 }
{
    first.bump(0);
    first.add(5);
    second.add(7);
    let compared = are_compared(first, second);
    first.clear();
    compared && is_cleared(first, second)
}

fn are_clocks_right(alloc: Global) -> bool {
    match (Clock::new(alloc, 3), Clock::new(alloc, 3)) {
        (Ok(mut first), Ok(mut second)) => are_counted(&mut first, &mut second),
        _ => false,
    }
}

#[test]
fn clocks_count_and_compare(rt: HostRuntime) {
    assert!(rt; are_clocks_right(rt.alloc()));
}
