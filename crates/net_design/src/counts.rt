//! How much a design has.

ghost use Rattle.std.specs.Prelude.{◌≡◌, ◌<◌, ◌≤◌, ◌↔◌, ◌^◌, IsTrue};
ghost use Rattle.net_design.specs.Settled.{word_count};
ghost use Rattle.net_design.specs.Lawful.{AreSmall, counts};

use crate::design::{Counts, Design};

/// The number of words of all memories.
pub fn count_words(design: &Design) -> usize
    requires { word_count design.now < 2 ^ 64 }
    ensures { result ≡ word_count design.now }
{
    let mut count = 0;
    for memory in design.memories.as_slice() {
        count += memory.room.length;
    }
    count
}

/// Whether all memories have fewer than `limit` words.
pub fn few_words(design: &Design, limit: u128) -> bool
    requires some { 1 ≤ limit }
    requires small { limit ≤ 2 ^ 64 }
    ensures { IsTrue result ↔ (word_count design.now < limit) }
{
    let mut total: u128 = 0;
    for memory in design.memories.as_slice() {
        total += memory.room.length as u128;
        if total >= limit {
            return false;
        }
    }
    true
}

fn is_small(count: usize) -> bool
    ensures { IsTrue result ↔ (count < 2 ^ 32) }
{
    (count as u64) < 1 << 32
}

impl Design {
    /// Whether each of the five numbers of `counts` is below 2^32, which is so of every lawful design.
    pub fn is_small(&self) -> bool
        ensures { IsTrue result ↔ AreSmall (counts self.now) }
    {
        is_small(self.instances.len())
            && is_small(self.nets.len())
            && is_small(self.drivers.len())
            && is_small(self.blocks.len())
            && few_words(self, 1 << 32)
    }

    /// The numbers of instances, nets, drivers, clocked blocks and memory words.
    pub fn counts(&self) -> Counts
        requires { AreSmall (counts self.now) }
        ensures { result ≡ counts self.now }
    {
        Counts {
            instances: self.instances.len() as u32,
            nets: self.nets.len() as u32,
            drivers: self.drivers.len() as u32,
            blocks: self.blocks.len() as u32,
            words: count_words(self) as u32,
        }
    }
}
