//! How many there are of each ID.

ghost use Rattle.std.specs.Prelude.{◌≡◌, ℕ, ◌-◌, ◌<◌, ◌==◌, ◌^◌, nat_le, length, IfOk, OnOk, if◌then◌else◌};
ghost use Rattle.axi_burst.specs.Bursts.{count_with};
ghost use Rattle.axi_burst.specs.Counted.{count_in};

use crate::transfers::Beat;
use indexmap::IndexMap;
use std::alloc::Global;
use trace_model::vidi_bits::Memory;

/// A number of each ID, 0 where none was set.
#[derive(Drop)]
pub(crate) struct Counts {
    numbers: IndexMap<u128, u64>,
}

impl Counts {
    /// 0 of each ID.
    pub(crate) fn new(alloc: Global) -> Counts
        ensures { (q : ℕ) → count_in result.numbers.entries q ≡ 0 }
    {
        Counts {
            numbers: IndexMap::new(alloc),
        }
    }

    /// The number of an ID.
    pub(crate) fn get(&self, id: u128) -> u64
        ensures { result ≡ count_in self.now.numbers.entries id }
    {
        match self.numbers.get(&id) {
            Some(number) => *number,
            None => 0,
        }
    }

    /// Sets the number of an ID.
    pub(crate) fn set(&mut self, id: u128, number: u64) -> Result<(), Memory>
        ensures { OnOk result ((q : ℕ) → count_in self.new.numbers.entries q
            ≡ (if q == id then number else count_in self.old.numbers.entries q)) }
    {
        self.numbers.insert(id, number)?;
        Ok(())
    }

    /// How many of these have each ID.
    pub(crate) fn of(alloc: Global, beats: &[Beat]) -> Result<Counts, Memory>
        requires { length beats.now < 2 ^ 32 }
        ensures { IfOk result (λ counts. (q : ℕ) → count_in counts.numbers.entries q ≡ count_with q beats.now) }
    {
        let mut counts = Counts::new(alloc);
        for x in beats {
            let before = counts.get(x.id);
            counts.set(x.id, before + 1)?;
        }
        Ok(counts)
    }

    /// Takes so many of an ID, or all where they are fewer: whether they were there.
    pub(crate) fn take(&mut self, id: u128, number: u64) -> Result<bool, Memory>
        ensures there { IfOk result (λ there. there ≡ nat_le number (count_in self.old.numbers.entries id)) }
        ensures left { OnOk result ((q : ℕ) → count_in self.new.numbers.entries q
            ≡ count_in self.old.numbers.entries q - (if q == id then number else 0)) }
    {
        let before = self.get(id);
        self.set(id, before.saturating_sub(number))?;
        Ok(number <= before)
    }
}
