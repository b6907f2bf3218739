//! Counts that are taken together while the same channels complete.

ghost use Rattle.std.specs.Prelude.{◌≡◌, ◌+◌, ◌-◌, ◌*◌, ◌<◌, ◌≤◌, ◌^◌, ℕ, true, false, if◌then◌else◌, IfOk, length, replicate, slice_index};
ghost use Rattle.std.specs.Int.{bit_at};
ghost use Rattle.vec_clock.specs.vidi_bits.Number.{has};
ghost use Rattle.trace_code.specs.Tallied.{tallied};

use std::alloc::Global;
use vec_clock::Clock;
use vec_clock::trace_model::names;
use vec_clock::vidi_bits::Memory;

/// How many transactions of each channel have completed since the last reset, and how many resets there were. Packets that complete
/// the same channels, one behind the other, are counted as one number. Only `new` takes memory.
#[derive(Drop)]
pub(crate) struct Tally {
    /// The completions before the last packets.
    clock: Clock,
    /// The channels that complete in each of the last packets.
    ends: u128,
    /// The number of these packets.
    times: u32,
    /// The resets.
    epoch: u32,
    ghost fits: { (c : ℕ) → c < length clock → slice_index clock c + times * bit_at ends c < 2 ^ 32 },
}

impl Tally {
    /// The counts of `n` channels on which nothing has completed. There are 1 to 128 of them.
    pub(crate) fn new(alloc: Global, n: usize) -> Result<Tally, Memory>
        requires some { 1 ≤ n }
        requires few { n ≤ 128 }
        ensures clock { IfOk result (λ tally. tallied tally.clock tally.ends tally.times ≡ replicate n 0) }
        ensures epoch { IfOk result (λ tally. tally.epoch ≡ 0) }
    {
        let clock = Clock::new(alloc, n)?;
        Ok(Tally {
            clock,
            ends: 0,
            times: 0,
            epoch: 0,
        })
    }

    /// Counts one more completion of each channel that `ends` names: bit c is channel c.
    pub(crate) fn add(&mut self, ends: u128)
        requires below { ends < 2 ^ length self.old.clock }
        requires small { (c : ℕ) → c < length self.old.clock → has ends c ≡ true
            → slice_index (tallied self.old.clock self.old.ends self.old.times) c < 2 ^ 32 - 1 }
        ensures len { length self.new.clock ≡ length self.old.clock }
        ensures each { (c : ℕ) → c < length self.old.clock
            → slice_index (tallied self.new.clock self.new.ends self.new.times) c
            ≡ slice_index (tallied self.old.clock self.old.ends self.old.times) c + bit_at ends c }
        ensures epoch { self.new.epoch ≡ self.old.epoch }
    {
        if ends == 0 {
            return;
        }
        self.turn_to(ends);
        self.times += 1;
    }

    /// Makes the channels that complete in the last packets these; no count changes.
    fn turn_to(&mut self, ends: u128)
        ensures ends { self.new.ends ≡ ends }
        ensures len { length self.new.clock ≡ length self.old.clock }
        ensures each { (c : ℕ) → c < length self.old.clock
            → slice_index self.new.clock c + self.new.times * bit_at ends c
            ≡ slice_index (tallied self.old.clock self.old.ends self.old.times) c }
        ensures epoch { self.new.epoch ≡ self.old.epoch }
    {
        if ends != self.ends {
            self.clock.add_times(self.ends, self.times);
            self.ends = ends;
            self.times = 0;
        }
    }

    /// Counts a packet: a reset, or the completions of the channels that `ends` names.
    pub(crate) fn pass(&mut self, reset: bool, ends: u128)
        requires few { self.old.epoch < 2 ^ 32 - 1 }
        requires below { ends < 2 ^ length self.old.clock }
        requires small { (c : ℕ) → c < length self.old.clock → has ends c ≡ true
            → slice_index (tallied self.old.clock self.old.ends self.old.times) c < 2 ^ 32 - 1 }
        ensures len { length self.new.clock ≡ length self.old.clock }
        ensures zeros { reset ≡ true → tallied self.new.clock self.new.ends self.new.times ≡ replicate (length self.old.clock) 0 }
        ensures each { reset ≡ false → (c : ℕ) → c < length self.old.clock
            → slice_index (tallied self.new.clock self.new.ends self.new.times) c
            ≡ slice_index (tallied self.old.clock self.old.ends self.old.times) c + bit_at ends c }
        ensures epoch { self.new.epoch ≡ self.old.epoch + (if reset then 1 else 0) }
    {
        if reset {
            self.reset();
        } else {
            self.add(ends);
        }
    }

    /// Counts one more reset, since which nothing has completed.
    pub(crate) fn reset(&mut self)
        requires { self.old.epoch < 2 ^ 32 - 1 }
        ensures len { length self.new.clock ≡ length self.old.clock }
        ensures zeros { tallied self.new.clock self.new.ends self.new.times ≡ replicate (length self.old.clock) 0 }
        ensures epoch { self.new.epoch ≡ self.old.epoch + 1 }
    {
        self.clock.clear();
        self.ends = 0;
        self.times = 0;
        self.epoch += 1;
    }

    /// How many resets were counted.
    pub(crate) fn epoch(&self) -> u32
        ensures { result ≡ self.now.epoch }
    {
        self.epoch
    }

    /// The number of channel `c`.
    pub(crate) fn get(&self, c: usize) -> u32
        requires { c < length self.now.clock }
        ensures { result ≡ slice_index (tallied self.now.clock self.now.ends self.now.times) c }
    {
        self.clock.get(c) + if names(self.ends, c) { self.times } else { 0 }
    }
}
