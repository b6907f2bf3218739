//! A shelf in memory.

ghost use Rattle.std.specs.Prelude.{◌≡◌, ◌≢◌, ℕ, ◌≤◌, ◌⊎◌, true, List, None, Some, Err, IsErr, length, take, IfOk, OnOk, OnErr, OnSome, IfNone};
ghost use Rattle.std.specs.Prelude.{IfSome, IsSomeAnd, IsErrOf, MatchOption};
ghost use Rattle.std.specs.Option.{option_copied};
ghost use Rattle.std.specs.FinMap.{get, empty, insert};
ghost use Rattle.vidi_io.specs.Cause.{Rose};
ghost use Rattle.vidi_io.specs.Entries.{files_of, faults_of, room_of, Became, LacksRoom, ReadFailed, RoomsStay};
ghost use Rattle.vidi_io.specs.Fails.{next_listed, counted};
ghost use Rattle.vidi_io.specs.MemShelf.{entries, planned, failed_writes, starts_of};
ghost use Rattle.vidi_io.specs.Listed.{FetchAnswer, KeptFront};
ghost use Rattle.vidi_io.specs.Shelf.{Gives, GrewBySome, HasStarted, Later, SameCounts, appended, emptied};

use crate::entries::{
    Entry, append_file, count_fault, file_of, hold_file, reserve_file, start_file,
};
use crate::fails::{FailCall, Fails, Plan};
use crate::shelf::{FetchError, Shelf};
use crate::sink::Failed;
use std::alloc::Global;
use vidi_bits::Memory;

/// Files in memory, which it tells. A start or append that isn't listed to fail fails only for want of
/// memory.
#[derive(Debug, Drop)]
pub struct MemShelf {
    entries: Vec<Entry>,
    plan: Plan,
    write_faults: u64,
    starts: u64,
}

impl MemShelf {
    /// A shelf of no files, whose counts are 0 and whose listed calls fail.
    pub fn new(alloc: Global, fails: Fails) -> MemShelf
        ensures files { files_of (entries result) ≡ empty }
        ensures reads { (name : List ℕ) → faults_of (entries result) name ≡ 0 }
        ensures writes { failed_writes result ≡ 0 }
        ensures starts { starts_of result ≡ 0 }
        ensures plan { planned result ≡ record { fails = fails; fetches = 0; starts = 0; appends = 0 } }
    {
        MemShelf {
            entries: Vec::new(alloc),
            plan: Plan {
                fails,
                fetches: 0,
                starts: 0,
                appends: 0,
            },
            write_faults: 0,
            starts: 0,
        }
    }

    /// Makes these bytes the file of this name. Without memory for it the files stay.
    pub fn put_file(&mut self, name: &str, bytes: &[u8]) -> Result<(), Memory>
        ensures ok { OnOk result (Became (entries self.old) (entries self.new) (insert (files_of (entries self.old)) name.now bytes.now)) }
        ensures err { OnErr result (Became (entries self.old) (entries self.new) (files_of (entries self.old))) }
        ensures plan { planned self.new ≡ planned self.old }
        ensures writes { failed_writes self.new ≡ failed_writes self.old }
        ensures starts { starts_of self.new ≡ starts_of self.old }
    {
        hold_file(&mut self.entries, name, bytes)?;
        Ok(())
    }

    /// The bytes of the file of this name, where there is one.
    pub fn file(&self, name: &str) -> Option<&[u8]>
        ensures { option_copied result ≡ get (files_of (entries self.now)) name.now }
    {
        file_of(self.entries.as_slice(), name)
    }

    /// Takes room for a file of this name: no start or append of it that isn't listed fails
    /// while it has at most `n` bytes.
    pub fn room_for(&mut self, name: &str, n: usize) -> Result<(), Memory>
        ensures same { Became (entries self.old) (entries self.new) (files_of (entries self.old)) }
        ensures room { OnOk result (IsSomeAnd (room_of (entries self.new) name.now) (λ room. n ≤ room)) }
        ensures plan { planned self.new ≡ planned self.old }
        ensures writes { failed_writes self.new ≡ failed_writes self.old }
        ensures starts { starts_of self.new ≡ starts_of self.old }
    {
        reserve_file(&mut self.entries, name, n)?;
        Ok(())
    }

    /// Answers a fetch that is listed, and counts it where the file is there.
    fn failed_fetch(&mut self, name: &str) -> Result<usize, FetchError>
        ensures answer { MatchOption (get (files_of (entries self.old)) name.now)
            ((result ≡ Err FetchError.Missing) × Became (entries self.old) (entries self.new) (files_of (entries self.old)))
            (λ _. (result ≡ Err FetchError.Failed) × ReadFailed (entries self.old) (entries self.new) name.now) }
        ensures plan { planned self.new ≡ planned self.old }
        ensures writes { failed_writes self.new ≡ failed_writes self.old }
        ensures starts { starts_of self.new ≡ starts_of self.old }
    {
        if count_fault(&mut self.entries, name) {
            return Err(FetchError::Failed);
        }
        Err(FetchError::Missing)
    }

    /// Adds the first `kept` bytes of a piece, as far as there is memory, and counts a failed write.
    fn keep_front(&mut self, name: &str, piece: &[u8], kept: usize) -> Failed
        ensures kept { KeptFront (entries self.old) (entries self.new) name.now (take kept piece.now) }
        ensures plan { planned self.new ≡ planned self.old }
        ensures starts { starts_of self.new ≡ starts_of self.old }
        ensures later { failed_writes self.old ≤ failed_writes self.new }
        ensures rose { Rose (failed_writes self.old) (failed_writes self.new) }
    {
        let front = &piece[..kept.min(piece.len())];
        let _ = append_file(&mut self.entries, name, front);
        self.fault()
    }

    /// Counts a failed write.
    fn fault(&mut self) -> Failed
        ensures entries { self.new.entries ≡ self.old.entries }
        ensures plan { planned self.new ≡ planned self.old }
        ensures starts { starts_of self.new ≡ starts_of self.old }
        ensures later { failed_writes self.old ≤ failed_writes self.new }
        ensures rose { Rose (failed_writes self.old) (failed_writes self.new) }
    {
        self.write_faults = self.write_faults.saturating_add(1);
        Failed
    }
}

impl Shelf for MemShelf {
    ghost files = { λ s. Some (files_of s.entries.items) };

    ghost read_faults = { λ s name. faults_of s.entries.items name };

    ghost write_faults = { λ s. s.write_faults };

    ghost starts = { λ s. s.starts };

    fn fetch(&mut self, name: &str, at: u64, buf: &mut [u8]) -> Result<usize, FetchError>
        ensures within { IfOk result (λ n. n ≤ length buf.new) }
        ensures bytes { IfOk result (λ n. IsSomeAnd (get (files_of (entries self.old)) name.now) (λ file. Gives file at n buf.new)) }
        ensures missing { IsErrOf result FetchError.Missing → get (files_of (entries self.old)) name.now ≡ None }
        ensures absent { get (files_of (entries self.old)) name.now ≡ None → result ≡ Err FetchError.Missing }
        ensures quiet { IsErrOf result FetchError.Missing → SameCounts (faults_of (entries self.old)) (faults_of (entries self.new))
            (failed_writes self.old) (failed_writes self.new) }
        ensures failed { IsErrOf result FetchError.Failed → Rose (faults_of (entries self.old) name.now)
            (faults_of (entries self.new) name.now) }
        ensures files { Some (files_of (entries self.new)) ≡ Some (files_of (entries self.old)) }
        ensures starts { starts_of self.new ≡ starts_of self.old }
        ensures counts { Later (faults_of (entries self.old)) (faults_of (entries self.new)) (failed_writes self.old)
            (failed_writes self.new) }
        ensures sound { IfOk result (λ _. SameCounts (faults_of (entries self.old)) (faults_of (entries self.new)) (failed_writes self.old)
            (failed_writes self.new)) }
        ensures alone { IsErrOf result FetchError.Failed → ((q : List ℕ) → q ≢ name.now → faults_of (entries self.new) q
            ≡ faults_of (entries self.old) q) × (failed_writes self.new ≡ failed_writes self.old) }
        ensures answer { FetchAnswer (get (files_of (entries self.old)) name.now) (next_listed (planned self.old) FailCall.Fetch) result }
        ensures plan { planned self.new ≡ counted (planned self.old) FailCall.Fetch }
        ensures rooms { RoomsStay (entries self.old) (entries self.new) }
    {
        match self.plan.next(FailCall::Fetch) {
            Some(_) => self.failed_fetch(name),
            None => match self.file(name) {
                Some(file) => Ok(copy_at(file, at, buf)),
                None => Err(FetchError::Missing),
            },
        }
    }

    fn start(&mut self, name: &str) -> Result<(), Failed>
        ensures ok { OnOk result (Some (files_of (entries self.new)) ≡ emptied (Some (files_of (entries self.old))) name.now) }
        ensures started { OnOk result (HasStarted (starts_of self.old) (starts_of self.new) true) }
        ensures err { OnErr result ((Some (files_of (entries self.new)) ≡ Some (files_of (entries self.old)))
            ⊎ (Some (files_of (entries self.new)) ≡ emptied (Some (files_of (entries self.old))) name.now)) }
        ensures unstarted { OnErr result (starts_of self.new ≡ starts_of self.old) }
        ensures failed { OnErr result (Rose (failed_writes self.old) (failed_writes self.new)) }
        ensures counts { Later (faults_of (entries self.old)) (faults_of (entries self.new)) (failed_writes self.old)
            (failed_writes self.new) }
        ensures sound { OnOk result (SameCounts (faults_of (entries self.old)) (faults_of (entries self.new)) (failed_writes self.old)
            (failed_writes self.new)) }
        ensures reads { OnErr result ((q : List ℕ) → faults_of (entries self.new) q ≡ faults_of (entries self.old) q) }
        ensures left { OnErr result (Became (entries self.old) (entries self.new) (files_of (entries self.old))) }
        ensures listed { OnSome (next_listed (planned self.old) FailCall.Start) (IsErr result) }
        ensures unlisted { IfNone (next_listed (planned self.old) FailCall.Start)
            (OnErr result (room_of (entries self.old) name.now ≡ None)) }
        ensures plan { planned self.new ≡ counted (planned self.old) FailCall.Start }
        ensures rooms { RoomsStay (entries self.old) (entries self.new) }
    {
        if self.plan.next(FailCall::Start).is_some() {
            return Err(self.fault());
        }
        match start_file(&mut self.entries, name) {
            Ok(()) => {
                self.starts = self.starts.saturating_add(1);
                Ok(())
            }
            Err(_) => Err(self.fault()),
        }
    }

    fn append(&mut self, name: &str, piece: &[u8]) -> Result<(), Failed>
        ensures ok { OnOk result (Some (files_of (entries self.new)) ≡ appended (Some (files_of (entries self.old))) name.now piece.now) }
        ensures err { OnErr result
            (GrewBySome (Some (files_of (entries self.old))) (Some (files_of (entries self.new))) name.now piece.now) }
        ensures starts { starts_of self.new ≡ starts_of self.old }
        ensures failed { OnErr result (Rose (failed_writes self.old) (failed_writes self.new)) }
        ensures counts { Later (faults_of (entries self.old)) (faults_of (entries self.new)) (failed_writes self.old)
            (failed_writes self.new) }
        ensures sound { OnOk result (SameCounts (faults_of (entries self.old)) (faults_of (entries self.new)) (failed_writes self.old)
            (failed_writes self.new)) }
        ensures reads { OnErr result ((q : List ℕ) → faults_of (entries self.new) q ≡ faults_of (entries self.old) q) }
        ensures listed { IfSome (next_listed (planned self.old) FailCall.Append)
            (λ fail. IsErr result × KeptFront (entries self.old) (entries self.new) name.now (take fail.kept piece.now)) }
        ensures unlisted { IfNone (next_listed (planned self.old) FailCall.Append)
            (OnErr result (Became (entries self.old) (entries self.new) (files_of (entries self.old))
            × LacksRoom (entries self.old) name.now (length piece.now))) }
        ensures plan { planned self.new ≡ counted (planned self.old) FailCall.Append }
        ensures rooms { RoomsStay (entries self.old) (entries self.new) }
    {
        match self.plan.next(FailCall::Append) {
            Some(kept) => Err(self.keep_front(name, piece, kept)),
            None => match append_file(&mut self.entries, name, piece) {
                Ok(()) => Ok(()),
                Err(_) => Err(self.fault()),
            },
        }
    }
}

/// Copies the bytes of `file` from place `at` on to the front of `buf`, and gives their number.
fn copy_at(file: &[u8], at: u64, buf: &mut [u8]) -> usize
    ensures within { result ≤ length buf.new }
    ensures gives { Gives file.now at result buf.new }
{
    if at >= file.len() as u64 {
        return 0;
    }
    let rest = &file[at as usize..];
    let n = rest.len().min(buf.len());
    buf[..n].copy_from_slice(&rest[..n]);
    n
}
