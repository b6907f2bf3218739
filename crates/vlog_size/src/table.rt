//! Tables of values by name.

ghost use Rattle.std.specs.Prelude.{◌≡◌, [], map, take, length, slice_get, OnOk, OnErr};
ghost use Rattle.std.specs.Option.{option_copied};
ghost use Rattle.vlog_size.specs.Table.{Named, value_of, place_of, added};

use indexmap::IndexMap;
use std::alloc::Global;
use std::marker::Model;
use vlog_tree::vidi_bits::{Memory, Name};

/// Values by name, which contracts see as the list of the names and values in the order in which
/// they were added.
#[derive(Drop)]
pub struct Table<V> {
    entries: IndexMap<Vec<u8>, V>,
}

impl<V> Model for Table<V> {
    ghost use Rattle.std.specs.Prelude.{List};
    ghost use Rattle.vlog_size.specs.Table.{Named, named};

    ghost Value = { List (Named V) };

    ghost view = { λ t. named t.entries.entries };
}

impl<V> Table<V> {
    /// The table without names, which grows by this allocator.
    pub fn new(alloc: Global) -> Table<V>
        ensures { result ≡ [] }
    {
        Table {
            entries: IndexMap::new(alloc),
        }
    }

    /// The number of names.
    pub fn len(&self) -> usize
        ensures { result ≡ length self.now }
    {
        self.entries.len()
    }

    /// The value of this name, where it is among the first `count` ones.
    pub fn get_among(&self, count: usize, name: &[u8]) -> Option<&V>
        ensures { option_copied result ≡ value_of (take count self.now) name.now }
    {
        let (place, _name, value) = self.entries.get_full(name)?;
        if place < count { Some(value) } else { None }
    }

    /// The place of this name, counted from 0 in the order in which names were added.
    pub fn place(&self, name: &[u8]) -> Option<usize>
        ensures { result ≡ place_of self.now name.now }
    {
        self.entries.get_index_of(name)
    }

    /// The value at this place, counted from 0 in the order in which names were added.
    pub fn value_at(&self, place: usize) -> Option<&V>
        ensures { option_copied result ≡ slice_get (map (λ x. x.value) self.now) place }
    {
        let (_name, value) = self.entries.get_index(place)?;
        Some(value)
    }

    /// The name at this place, counted from 0 in the order in which names were added.
    pub fn name_at(&self, place: usize) -> Option<&[u8]>
        ensures { option_copied result ≡ slice_get (map (λ x. x.name) self.now) place }
    {
        let (name, _value) = self.entries.get_index(place)?;
        Some(name.as_slice())
    }

    /// The value of this name.
    pub fn get(&self, name: &[u8]) -> Option<&V>
        ensures { option_copied result ≡ value_of self.now name.now }
    {
        self.entries.get(name)
    }
}

impl<V: Drop> Table<V> {
    /// Adds a name and its value at the end; a name that is there keeps its value. Without memory
    /// the table stays.
    pub fn push(&mut self, name: Name, value: V) -> Result<(), Memory>
        ensures ok { OnOk result (self.new ≡ added self.old name value) }
        ensures err { OnErr result (self.new ≡ self.old) }
    {
        if self.entries.contains_key(name.as_slice()) {
            return Ok(());
        }
        self.entries.insert(name.into_vec(), value)?;
        Ok(())
    }
}
