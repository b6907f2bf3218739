//! What is kept of the lines before, to look at the next one.

ghost use Rattle.std.specs.Prelude.{◌≡◌, ◌++◌, [], ◌∷◌, List, map, true, false, OnOk};
ghost use Rattle.std.specs.List.{list_any};
ghost use Rattle.std.specs.Str.{bytes_eq};
ghost use Rattle.chan_map.specs.declared.map_text.Entry.{Entry};
ghost use Rattle.chan_map.specs.Follow.{may_follow};
ghost use Rattle.chan_map.specs.Seen.{IsSeen};

use crate::map_text::Entry;
use indexmap::IndexSet;
use std::alloc::Global;
use vidi_lines::vidi_bits::{Memory, Name, copied};

/// What is kept of the lines before.
#[derive(Drop)]
pub struct Seen {
    pub names: IndexSet<Vec<u8>>,
    /// The name of the top module.
    pub top: Option<Name>,
    /// Whether there was any line.
    pub some: bool,
    /// The name of the clock's port.
    pub clock: Option<Name>,
    pub reset: bool,
}

/// Whether a name is among the keys.
fn is_there(names: &IndexSet<Vec<u8>>, name: &[u8]) -> bool
    ensures { result ≡ list_any (bytes_eq name.now) (map (λ v. v.items) names.now.keys) }
{
    names.get_index_of(name).is_some()
}

/// Adds a copy of a name, where it isn't there.
fn insert_name(alloc: Global, names: &mut IndexSet<Vec<u8>>, name: &[u8]) -> Result<(), Memory>
    ensures { list_any (bytes_eq name.now) (map (λ v. v.items) names.old.keys) ≡ false
        → OnOk result (map (λ v. v.items) names.new.keys ≡ map (λ v. v.items) names.old.keys ++ name.now ∷ []) }
{
    let copy = Vec::from_slice(alloc, name)?;
    names.insert(copy)?;
    Ok(())
}

impl Seen {
    /// Nothing was seen.
    pub fn new(alloc: Global) -> Seen
        ensures { IsSeen result [] }
    {
        Seen {
            names: IndexSet::new(alloc),
            top: None,
            some: false,
            clock: None,
            reset: false,
        }
    }

    /// Whether a line that says this may follow.
    pub fn allows(&self, entry: &Entry) -> bool
        ensures { (before : List Entry) → IsSeen self.now before → result ≡ may_follow before entry.now }
    {
        if let Entry::Top { .. } = entry {
            return !self.some;
        }
        if !self.some {
            return false;
        }
        match entry {
            Entry::Clock { .. } => self.clock.is_none(),
            Entry::Reset { .. } => !self.reset,
            Entry::Channel { channel } => !is_there(&self.names, channel.name.as_slice()),
            _ => true,
        }
    }

    /// Keeps what a line says that may follow.
    pub fn note(&mut self, alloc: Global, entry: &Entry) -> Result<(), Memory>
        ensures { OnOk result ((before : List Entry) → IsSeen self.old before → may_follow before entry.now ≡ true
            → IsSeen self.new (before ++ entry.now ∷ [])) }
    {
        self.some = true;
        match entry {
            Entry::Top { name } => self.top = Some(copied(alloc, name.as_slice())?),
            Entry::Clock { port } => self.clock = Some(copied(alloc, port.as_slice())?),
            Entry::Reset { .. } => self.reset = true,
            Entry::Channel { channel } => insert_name(
                alloc,
                &mut self.names,
                channel.name.as_slice(),
            )?,
            _ => {}
        }
        Ok(())
    }
}
