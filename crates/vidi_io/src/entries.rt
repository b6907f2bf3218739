//! The files of a shelf in memory, by name.

ghost use Rattle.std.specs.Prelude.{◌≡◌, ◌+◌, ◌<◌, ◌≤◌, ◌++◌, [], Some, None, IsSome, IsTrue, MatchBool, length, IfOk, OnOk, OnErr};
ghost use Rattle.std.specs.Prelude.{IsSomeAnd, unwrap_or, vec_capacity};
ghost use Rattle.std.specs.Option.{option_copied};
ghost use Rattle.std.specs.List.{position};
ghost use Rattle.std.specs.Str.{bytes_eq};
ghost use Rattle.std.specs.FinMap.{get, insert};
ghost use Rattle.vidi_io.specs.Shelf.{bytes_of};
ghost use Rattle.vidi_io.specs.Cause.{Rose};
ghost use Rattle.vidi_io.specs.Entries.{files_of, file_in, room_of, Became, LacksRoom, ReadFailed};

use std::alloc::AllocError;
use vidi_bits::Name;

/// What a memory shelf keeps of one name: its file, or only the room for it.
#[derive(Debug, Drop)]
pub struct Entry {
    pub name: Name,
    pub bytes: Vec<u8>,
    pub there: bool,
    pub faults: u64,
}

impl Entry {
    /// Makes room for a file of `n` bytes.
    fn reserve(&mut self, n: usize) -> Result<(), AllocError>
        ensures name { self.new.name ≡ self.old.name }
        ensures file { file_in self.new ≡ file_in self.old }
        ensures faults { self.new.faults ≡ self.old.faults }
        ensures more { vec_capacity self.old.bytes ≤ vec_capacity self.new.bytes }
        ensures room { OnOk result (n ≤ vec_capacity self.new.bytes) }
    {
        self.bytes.reserve(n.saturating_sub(self.bytes.len()))
    }

    /// Makes the file empty.
    fn start(&mut self)
        ensures name { self.new.name ≡ self.old.name }
        ensures file { file_in self.new ≡ Some [] }
        ensures faults { self.new.faults ≡ self.old.faults }
        ensures room { vec_capacity self.new.bytes ≡ vec_capacity self.old.bytes }
    {
        self.bytes.clear();
        self.there = true;
    }

    /// Adds a piece to the file, which is empty where it isn't there.
    fn grow(&mut self, piece: &[u8]) -> Result<(), AllocError>
        ensures name { self.new.name ≡ self.old.name }
        ensures faults { self.new.faults ≡ self.old.faults }
        ensures more { vec_capacity self.old.bytes ≤ vec_capacity self.new.bytes }
        ensures ok { OnOk result (file_in self.new ≡ Some (unwrap_or (file_in self.old) [] ++ piece.now)) }
        ensures err { OnErr result (file_in self.new ≡ file_in self.old) }
        ensures full { OnErr result (vec_capacity self.old.bytes < length (unwrap_or (file_in self.old) []) + length piece.now) }
    {
        if !self.there {
            self.bytes.clear();
        }
        self.bytes.extend_from_slice(piece)?;
        self.there = true;
        Ok(())
    }

    /// Makes these bytes the file.
    fn hold(&mut self, bytes: &[u8]) -> Result<(), AllocError>
        ensures name { self.new.name ≡ self.old.name }
        ensures faults { self.new.faults ≡ self.old.faults }
        ensures more { vec_capacity self.old.bytes ≤ vec_capacity self.new.bytes }
        ensures ok { OnOk result (file_in self.new ≡ Some bytes.now) }
        ensures err { OnErr result (file_in self.new ≡ file_in self.old) }
    {
        self.reserve(bytes.len())?;
        self.start();
        self.grow(bytes)
    }

    /// Counts a failed read of the file, and says whether the file is there.
    fn count_fault(&mut self) -> bool
        ensures name { self.new.name ≡ self.old.name }
        ensures file { file_in self.new ≡ file_in self.old }
        ensures room { vec_capacity self.new.bytes ≡ vec_capacity self.old.bytes }
        ensures there { MatchBool result (IsSome (file_in self.old)) ((file_in self.old ≡ None) × (self.new.faults ≡ self.old.faults)) }
        ensures later { self.old.faults ≤ self.new.faults }
        ensures rose { IsTrue result → Rose self.old.faults self.new.faults }
    {
        if self.there {
            self.faults = self.faults.saturating_add(1);
        }
        self.there
    }
}

/// The place of the first entry of this name.
fn place(entries: &[Entry], name: &str) -> Option<usize>
    ensures { result ≡ position (λ e. bytes_eq name.now e.name) entries.now }
{
    entries
        .iter()
        .position(|entry| name.as_bytes() == entry.name.as_slice())
}

/// The place of the entry of this name, which is added where there was none.
fn place_for(entries: &mut Vec<Entry>, name: &str) -> Result<usize, AllocError>
    ensures ok { IfOk result (λ i. Some i ≡ position (λ e. bytes_eq name.now e.name) entries.new.items) }
    ensures same { Became entries.old.items entries.new.items (files_of entries.old.items) }
    ensures full { OnErr result (room_of entries.old.items name.now ≡ None) }
{
    match place(entries.as_slice(), name) {
        Some(i) => Ok(i),
        None => add(entries, name),
    }
}

/// Adds an entry of a new name, with no file, and gives its place.
fn add(entries: &mut Vec<Entry>, name: &str) -> Result<usize, AllocError>
    requires { position (λ e. bytes_eq name.now e.name) entries.old.items ≡ None }
    ensures ok { IfOk result (λ i. Some i ≡ position (λ e. bytes_eq name.now e.name) entries.new.items) }
    ensures same { Became entries.old.items entries.new.items (files_of entries.old.items) }
{
    let i = entries.len();
    let alloc = *entries.allocator();
    let entry = Entry {
        name: Name::from_vec(Vec::from_slice(alloc, name.as_bytes())?),
        bytes: Vec::new(alloc),
        there: false,
        faults: 0,
    };
    entries.push(entry)?;
    Ok(i)
}

/// The bytes of the file of this name, where it is there.
pub fn file_of<'a>(entries: &'a [Entry], name: &str) -> Option<&'a [u8]>
    ensures { option_copied result ≡ get (files_of entries.now) name.now }
{
    let i = place(entries, name)?;
    let entry = &entries[i];
    if entry.there {
        Some(entry.bytes.as_slice())
    } else {
        None
    }
}

/// Makes room for a file of `n` bytes.
pub fn reserve_file(entries: &mut Vec<Entry>, name: &str, n: usize) -> Result<(), AllocError>
    ensures same { Became entries.old.items entries.new.items (files_of entries.old.items) }
    ensures room { OnOk result (IsSomeAnd (room_of entries.new.items name.now) (λ room. n ≤ room)) }
{
    let i = place_for(entries, name)?;
    entries[i].reserve(n)
}

/// Makes the file empty.
pub fn start_file(entries: &mut Vec<Entry>, name: &str) -> Result<(), AllocError>
    ensures ok { OnOk result (Became entries.old.items entries.new.items (insert (files_of entries.old.items) name.now [])) }
    ensures err { OnErr result (Became entries.old.items entries.new.items (files_of entries.old.items)) }
    ensures full { OnErr result (room_of entries.old.items name.now ≡ None) }
{
    let i = place_for(entries, name)?;
    entries[i].start();
    Ok(())
}

/// Adds a piece to the file, which is empty where it isn't there.
pub fn append_file(entries: &mut Vec<Entry>, name: &str, piece: &[u8]) -> Result<(), AllocError>
    ensures ok { OnOk result (Became entries.old.items entries.new.items
        (insert (files_of entries.old.items) name.now (bytes_of (files_of entries.old.items) name.now ++ piece.now))) }
    ensures err { OnErr result (Became entries.old.items entries.new.items (files_of entries.old.items)) }
    ensures full { OnErr result (LacksRoom entries.old.items name.now (length piece.now)) }
{
    let i = place_for(entries, name)?;
    entries[i].grow(piece)
}

/// Makes these bytes the file.
pub fn hold_file(entries: &mut Vec<Entry>, name: &str, bytes: &[u8]) -> Result<(), AllocError>
    ensures ok { OnOk result (Became entries.old.items entries.new.items (insert (files_of entries.old.items) name.now bytes.now)) }
    ensures err { OnErr result (Became entries.old.items entries.new.items (files_of entries.old.items)) }
{
    let i = place_for(entries, name)?;
    entries[i].hold(bytes)
}

/// Counts a failed read of the file of this name, and says whether it is there.
pub fn count_fault(entries: &mut Vec<Entry>, name: &str) -> bool
    ensures { MatchBool result (ReadFailed entries.old.items entries.new.items name.now)
        (Became entries.old.items entries.new.items (files_of entries.old.items) × (get (files_of entries.old.items) name.now ≡ None)) }
{
    match place(entries.as_slice(), name) {
        Some(i) => entries[i].count_fault(),
        None => false,
    }
}
