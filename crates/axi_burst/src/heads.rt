//! The addresses of each ID, one after the other.

ghost use Rattle.std.specs.Prelude.{◌≡◌, ℕ, ◌==◌, IfOk, OnOk, if◌then◌else◌};
ghost use Rattle.axi_burst.specs.HeadTable.{head_in, next_at, AreHeads, Takes, none_taken};

use crate::transfers::Address;
use indexmap::IndexMap;
use std::alloc::Global;
use trace_model::vidi_bits::Memory;

/// The number of the next address of each ID.
#[derive(Drop)]
pub(crate) struct Heads {
    heads: IndexMap<u128, Option<usize>>,
    /// Of the last address, then of the one before it, and so on: the number of the next one with its ID.
    next: Vec<Option<usize>>,
}

impl Heads {
    /// The number of the next address with an ID, where there is one.
    pub(crate) fn head(&self, id: u128) -> Option<usize>
        ensures { result ≡ head_in self.now.heads.entries id }
    {
        match self.heads.get(&id) {
            Some(head) => *head,
            None => None,
        }
    }

    /// Sets the next address of an ID.
    fn set(&mut self, id: u128, head: Option<usize>) -> Result<(), Memory>
        ensures heads { OnOk result ((q : ℕ) → head_in self.new.heads.entries q ≡ (if q == id then head else head_in self.old.heads.entries q)) }
        ensures next { self.new.next.items ≡ self.old.next.items }
    {
        self.heads.insert(id, head)?;
        Ok(())
    }

    /// The number of the address with the same ID behind address `m`.
    fn behind(&self, m: usize) -> Option<usize>
        ensures { result ≡ next_at self.now.next.items m }
    {
        match self
            .next
            .get(self.next.len().saturating_sub(1).saturating_sub(m))
        {
            Some(next) => *next,
            None => None,
        }
    }

    /// The first address of each ID, in one walk over the addresses.
    pub(crate) fn of(alloc: Global, asks: &[Address]) -> Result<Heads, Memory>
        ensures { IfOk result (AreHeads asks.now none_taken) }
    {
        let mut heads = Heads {
            heads: IndexMap::new(alloc),
            next: Vec::with_capacity(alloc, asks.len())?,
        };
        for j in 0..asks.len() {
            let k = asks.len() - 1 - j;
            let id = asks[k].id;
            let next = heads.head(id);
            heads.next.push(next)?;
            heads.set(id, Some(k))?;
        }
        Ok(heads)
    }

    /// Takes the next address with an ID, where there is one.
    pub(crate) fn take(&mut self, id: u128) -> Result<Option<usize>, Memory>
        ensures { IfOk result (λ head. Takes self.old id self.new head) }
    {
        let Some(m) = self.head(id) else {
            return Ok(None);
        };
        let next = self.behind(m);
        self.set(id, next)?;
        Ok(Some(m))
    }
}
