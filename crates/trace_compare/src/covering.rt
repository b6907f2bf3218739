//! Which packets' clocks cover which, with two clocks that are carried along.

ghost use Rattle.std.specs.Prelude.{◌≡◌, ℕ, ◌^◌, ◌<◌, ◌≤◌, IfOk, length, slice_index};
ghost use Rattle.vec_clock.specs.trace_model.Clock.{clock, Covers};
ghost use Rattle.vec_clock.specs.Counts.{clock_counts};
ghost use Rattle.trace_compare.specs.Walking.{AreCovering};

use std::alloc::Global;
use vec_clock::Clock;
use vec_clock::trace_model::Packet;
use vec_clock::vidi_bits::Memory;

/// The place, from `from` on, of the first packet whose clock covers `other`, the number of packets where there
/// is none. The clock of the packet at `from` is carried on to it.
fn first_covering(packets: &[Packet], from: usize, carried: &mut Clock, other: &Clock) -> usize
    requires at { carried.old ≡ clock_counts (length other.now) packets.now from }
    requires few { length packets.now < 2 ^ 32 }
    requires order { from ≤ length packets.now }
    ensures new { carried.new ≡ clock_counts (length other.now) packets.now result }
    ensures later { from ≤ result }
    ensures within { result ≤ length packets.now }
    ensures before { (q : ℕ) → from ≤ q → q < result → ¬ Covers (length other.now) (clock packets.now q) (slice_index other.now) }
    ensures covers { result < length packets.now → Covers (length other.now) (clock packets.now result) (slice_index other.now) }
{
    for at in from..packets.len() {
        if carried.covers(other) {
            return at;
        }
        carried.add(packets[at].ends);
    }
    packets.len()
}

/// For each packet of `a`, the place of the first packet of `b` whose clock covers its clock, the number of
/// packets of `b` where there is none. Each trace is walked once.
pub(crate) fn covering(
    alloc: Global,
    channels: usize,
    a: &[Packet],
    b: &[Packet],
) -> Result<Vec<usize>, Memory>
    requires some { 1 ≤ channels }
    requires few { channels ≤ 128 }
    requires few_a { length a.now < 2 ^ 32 }
    requires few_b { length b.now < 2 ^ 32 }
    ensures { IfOk result (λ places. AreCovering channels a.now b.now places.items) }
{
    let mut clock_a = Clock::new(alloc, channels)?;
    let mut clock_b = Clock::new(alloc, channels)?;
    let mut places = Vec::with_capacity(alloc, a.len())?;
    let mut place = 0;
    for packet in a {
        place = first_covering(b, place, &mut clock_b, &clock_a);
        places.push(place)?;
        clock_a.add(packet.ends);
    }
    Ok(places)
}
