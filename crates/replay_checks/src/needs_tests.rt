//! The clocks of 128 channels: shared by all, and written apart again.

ghost use Rattle.std.specs.Prelude.{◌≡◌, ◌*◌, ◌<◌, ◌≤◌, IfOk, length};

use replay_run::chan_replayer::Needs;
use run_reference::trace_model::names;
use run_reference::vidi_bits::Memory;
use std::alloc::Global;

/// The most channels.
const MOST: usize = 128;

/// Makes the clock of channel `c` the numbers from `first` on.
fn count_from(needs: &mut Needs, channels: usize, c: usize, first: u32)
    requires few { channels ≤ 128 }
    requires channel { c < channels }
    requires needs { length needs.old ≡ channels * channels }
    ensures { length needs.new ≡ length needs.old }
{
    let number = |d: usize| -> u32
        requires { d < 128 }
    { first.wrapping_add(d as u32) };
    needs.write(c, number);
}

/// The clocks of so many channels, which all have that of channel 5: the numbers from 700 on.
fn shared_by_all(alloc: Global, channels: usize) -> Result<Needs, Memory>
    requires five { 5 < channels }
    requires few { channels ≤ 128 }
    ensures { IfOk result (λ needs. length needs ≡ channels * channels) }
{
    let mut needs = Needs::new(alloc, channels)?;
    count_from(&mut needs, channels, 5, 700);
    for c in 0..channels {
        needs.share(c, 5);
    }
    Ok(needs)
}

/// Makes the clock of each channel `c` the numbers from `1000 * c` on.
fn count_apart(needs: &mut Needs, channels: usize)
    requires few { channels ≤ 128 }
    requires needs { length needs.old ≡ channels * channels }
    ensures { length needs.new ≡ length needs.old }
{
    for c in 0..channels {
        count_from(needs, channels, c, 1000 * (c as u32));
    }
}

/// Whether a clock of 128 numbers has those from `first` on.
fn counts_from(clock: &[u32], first: u32) -> bool {
    let mut right = clock.len() == MOST;
    let mut next = first;
    for number in clock {
        right &= *number == next;
        next = next.wrapping_add(1);
    }
    right
}

/// Whether the channels that `mask` names, and no others, have one clock together, the numbers from `first` on.
fn have(needs: &Needs, channels: usize, mask: u128, first: u32) -> bool
    requires { length needs.now ≡ channels * channels }
{
    let mut right = true;
    for c in 0..channels {
        if names(mask, c) {
            right &= counts_from(needs.clock(c), first) && needs.together(c) == mask;
        }
    }
    right
}

/// Whether each channel `c` has a clock of its own, the numbers from `1000 * c` on.
fn are_apart(needs: &Needs, channels: usize) -> bool
    requires few { channels ≤ 128 }
    requires needs { length needs.now ≡ channels * channels }
{
    let mut right = true;
    for c in 0..channels {
        right &= have(needs, channels, 1 << c, 1000 * (c as u32));
    }
    right
}

/// The channels but the first one and the last one.
const INNER: u128 = u128::MAX - 1 - (1 << 127);

/// Whether 128 channels that have one clock keep it while the last one is written, the first one is given the last one's clock, and the last one
/// is written again.
fn part_one_by_one(alloc: Global, channels: usize) -> Option<bool>
    requires { channels ≡ 128 }
{
    let mut needs = shared_by_all(alloc, channels).ok()?;
    let all = have(&needs, channels, u128::MAX, 700);
    count_from(&mut needs, channels, 127, 40);
    let last = have(&needs, channels, 1 + INNER, 700) && have(&needs, channels, 1 << 127, 40);
    needs.share(0, 127);
    let both = have(&needs, channels, INNER, 700) && have(&needs, channels, 1 + (1 << 127), 40);
    count_from(&mut needs, channels, 127, 90);
    let again = have(&needs, channels, 1, 40) && have(&needs, channels, 1 << 127, 90);
    Some(all && last && both && again && have(&needs, channels, INNER, 700))
}

#[test]
fn a_written_clock_leaves_the_others(rt: HostRuntime) {
    assert!(rt; part_one_by_one(rt.alloc(), MOST) == Some(true));
}

/// Whether 128 channels that have one clock are written apart, and then share one again.
fn part_and_join(alloc: Global, channels: usize) -> Option<bool>
    requires { channels ≡ 128 }
{
    let mut needs = shared_by_all(alloc, channels).ok()?;
    count_apart(&mut needs, channels);
    let apart = are_apart(&needs, channels);
    for c in 0..channels {
        needs.share(c, 127);
    }
    Some(apart && have(&needs, channels, u128::MAX, 127_000))
}

#[test]
fn all_clocks_part_and_join(rt: HostRuntime) {
    assert!(rt; part_and_join(rt.alloc(), MOST) == Some(true));
}
