//! A clock and its calls.

ghost use Rattle.std.specs.Prelude.{◌≡◌, ℕ, ◌+◌, ◌-◌, ◌*◌, ◌^◌, ◌<◌, ◌≤◌, ◌↔◌, true, IsTrue, IfOk, MatchOption, length, replicate};
ghost use Rattle.std.specs.Prelude.{slice_index, slice_set};
ghost use Rattle.std.specs.Int.{bit_at};
ghost use Rattle.trace_model.specs.vidi_bits.Number.{has};
ghost use Rattle.trace_model.specs.Clock.{Covers};

use std::alloc::Global;
use std::marker::Model;
use trace_model::lowest;
use trace_model::vidi_bits::Memory;

/// How many transactions of each channel have completed. A contract sees it as the list of these numbers,
/// one a channel. Only `new` takes memory.
#[derive(Drop)]
pub struct Clock {
    counts: Vec<u32>,
}

impl Model for Clock {
    ghost use Rattle.std.specs.Prelude.{ℕ, List};

    ghost Value = { List ℕ };

    ghost view = { λ c. c.counts.items };
}

impl Clock {
    /// The clock of `n` channels on which nothing has completed. There are 1 to 128 of them.
    pub fn new(alloc: Global, n: usize) -> Result<Clock, Memory>
        requires some { 1 ≤ n }
        requires few { n ≤ 128 }
        ensures { IfOk result (λ clock. clock ≡ replicate n 0) }
    {
        let counts = vec![in alloc; 0u32; n]?;
        Ok(Clock { counts })
    }

    /// Counts one more completion of channel `c`.
    pub fn bump(&mut self, c: usize)
        requires channel { c < length self.old }
        requires small { slice_index self.old c < 2 ^ 32 - 1 }
        ensures { self.new ≡ slice_set self.old c (slice_index self.old c + 1) }
    {
        self.counts[c] += 1;
    }

    /// Counts one more completion of each channel that `ends` names: bit c is channel c.
    pub fn add(&mut self, ends: u128)
        requires small { (c : ℕ) → c < length self.old → has ends c ≡ true → slice_index self.old c < 2 ^ 32 - 1 }
        ensures len { length self.new ≡ length self.old }
        ensures each { (c : ℕ) → c < length self.old → slice_index self.new c ≡ slice_index self.old c + bit_at ends c }
    {
        self.add_times(ends, 1);
    }

    /// Counts `times` more completions of each channel that `ends` names.
    pub fn add_times(&mut self, ends: u128, times: u32)
        requires small { (c : ℕ) → c < length self.old → has ends c ≡ true → slice_index self.old c + times < 2 ^ 32 }
        ensures len { length self.new ≡ length self.old }
        ensures each { (c : ℕ) → c < length self.old → slice_index self.new c ≡ slice_index self.old c + times * bit_at ends c }
    {
        add_ends(self.counts.as_mut_slice(), ends, times);
    }

    /// Sets all numbers to 0.
    pub fn clear(&mut self)
        ensures { self.new ≡ replicate (length self.old) 0 }
    {
        self.counts.as_mut_slice().fill(0);
    }

    /// The number of channel `c`.
    pub fn get(&self, c: usize) -> u32
        requires { c < length self.now }
        ensures { result ≡ slice_index self.now c }
    {
        self.counts[c]
    }

    /// Whether each number of `other`, which has as many, is at most this clock's (*Clock*).
    pub fn covers(&self, other: &Clock) -> bool
        requires { length self.now ≡ length other.now }
        ensures { IsTrue result ↔ Covers (length self.now) (slice_index self.now) (slice_index other.now) }
    {
        are_covered(self.counts.as_slice(), other.counts.as_slice())
    }

    /// Whether each of these numbers, one a channel, is at most this clock's (*Clock*).
    pub fn covers_needs(&self, needs: &[u32]) -> bool
        requires { length self.now ≡ length needs.now }
        ensures { IsTrue result ↔ Covers (length self.now) (slice_index self.now) (slice_index needs.now) }
    {
        are_covered(self.counts.as_slice(), needs)
    }

    /// The lowest channel whose number is smaller than that of `other`, which has as many channels; None
    /// where this clock covers `other`.
    pub fn first_short(&self, other: &Clock) -> Option<usize>
        requires { length self.now ≡ length other.now }
        ensures { MatchOption result (Covers (length self.now) (slice_index self.now) (slice_index other.now))
            (λ c. (c < length self.now) × (slice_index self.now c < slice_index other.now c)
            × Covers c (slice_index self.now) (slice_index other.now)) }
    {
        first_less(self.counts.as_slice(), other.counts.as_slice())
    }

    /// The lowest channel whose number is smaller than its one of `needs`, of which there is one a channel; None
    /// where this clock covers them.
    pub fn first_short_of(&self, needs: &[u32]) -> Option<usize>
        requires { length self.now ≡ length needs.now }
        ensures { MatchOption result (Covers (length self.now) (slice_index self.now) (slice_index needs.now))
            (λ c. (c < length self.now) × (slice_index self.now c < slice_index needs.now c)
            × Covers c (slice_index self.now) (slice_index needs.now)) }
    {
        first_less(self.counts.as_slice(), needs)
    }
}

/// Adds `times` to the number of each channel that `ends` names.
fn add_ends(counts: &mut [u32], ends: u128, times: u32)
    requires { (c : ℕ) → c < length counts.old → has ends c ≡ true → slice_index counts.old c + times < 2 ^ 32 }
    ensures { (c : ℕ) → c < length counts.old → slice_index counts.new c ≡ slice_index counts.old c + times * bit_at ends c }
{
    let mut left = ends;
    'ends: while let Some((channel, others)) = lowest(left) {
        if channel >= counts.len() {
            return;
        }
        counts[channel] += times;
        left = others;
    }
}

/// Whether each number is at least the one of `theirs`, which has as many. All are compared, several at once where the machine can.
fn are_covered(mine: &[u32], theirs: &[u32]) -> bool
    requires { length mine.now ≡ length theirs.now }
    ensures { IsTrue result ↔ Covers (length mine.now) (slice_index mine.now) (slice_index theirs.now) }
{
    let mut short = false;
    for c in 0..theirs.len() {
        if mine[c] < theirs[c] {
            short = true;
        }
    }
    !short
}

/// The lowest place at which a number is less than the one of `theirs`, which has as many.
fn first_less(mine: &[u32], theirs: &[u32]) -> Option<usize>
    requires { length mine.now ≡ length theirs.now }
    ensures { MatchOption result (Covers (length mine.now) (slice_index mine.now) (slice_index theirs.now))
        (λ c. (c < length mine.now) × (slice_index mine.now c < slice_index theirs.now c)
        × Covers c (slice_index mine.now) (slice_index theirs.now)) }
{
    for c in 0..mine.len() {
        if mine[c] < theirs[c] {
            return Some(c);
        }
    }
    None
}
