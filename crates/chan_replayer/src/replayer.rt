//! Replayers.

ghost use Rattle.std.specs.Prelude.{◌≡◌, ◌+◌, ◌-◌, ◌<◌, ◌≤◌, ◌^◌, ◌↔◌, ℕ, true, IsTrue, IfOk, length, replicate, slice_index};
ghost use Rattle.std.specs.Int.{bit_at};
ghost use Rattle.vec_clock.specs.vidi_bits.Number.{has};
ghost use Rattle.vec_clock.specs.trace_model.Clock.{Covers};

use std::alloc::Global;
use std::marker::Model;
use vec_clock::Clock;
use vec_clock::vidi_bits::Memory;

/// The replayers of all channels. They let an event come once everything that completed before it in the recording has
/// completed again. A contract sees them as the number of completions of each channel since the last reset. Only `new` takes
/// memory.
#[derive(Drop)]
pub struct Replayer {
    have: Clock,
}

impl Model for Replayer {
    ghost use Rattle.std.specs.Prelude.{ℕ, List};

    ghost Value = { List ℕ };

    ghost view = { λ r. r.have };
}

impl Replayer {
    /// The replayers of `channels` channels on which nothing has completed. There are 1 to 128 of them.
    pub fn new(alloc: Global, channels: usize) -> Result<Replayer, Memory>
        requires some { 1 ≤ channels }
        requires few { channels ≤ 128 }
        ensures { IfOk result (λ r. r ≡ replicate channels 0) }
    {
        let have = Clock::new(alloc, channels)?;
        Ok(Replayer { have })
    }

    /// Whether a channel's next event comes: there is one, and its clock, one number a channel, is covered.
    pub fn offers(&self, more: bool, needs: &[u32]) -> bool
        requires { length needs.now ≡ length self.now }
        ensures { IsTrue result ↔ (more ≡ true) × Covers (length self.now) (slice_index self.now) (slice_index needs.now) }
    {
        more && self.have.covers_needs(needs)
    }

    /// Counts the completions of a row: bit c of `ends` is channel c.
    pub fn commit(&mut self, ends: u128)
        requires small { (c : ℕ) → c < length self.old → has ends c ≡ true → slice_index self.old c < 2 ^ 32 - 1 }
        ensures len { length self.new ≡ length self.old }
        ensures each { (c : ℕ) → c < length self.old → slice_index self.new c ≡ slice_index self.old c + bit_at ends c }
    {
        self.have.add(ends);
    }

    /// Sets all counts to 0.
    pub fn reset(&mut self)
        ensures { self.new ≡ replicate (length self.old) 0 }
    {
        self.have.clear();
    }
}
