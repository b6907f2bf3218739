//! The shelf and the sink of the machine that the program runs on.

ghost use Rattle.std.specs.Prelude.{◌≡◌, ◌≤◌, ◌↔◌, true, length, IfOk, IfSome, IsSomeAnd, IsTrue, OnOk, OnErr};
ghost use Rattle.std.specs.Io.KnownBytes.{Appends};
ghost use Rattle.vidi_io.specs.Cause.{Rose};
ghost use Rattle.vidi_io.specs.Shelf.{HasStarted};

use crate::shelf::{FetchError, Shelf};
use crate::sink::{Failed, Sink};
use std::alloc::Global;
use std::fs::OpenOptions;
use std::io::{ErrorKind, Read, Seek, SeekFrom, Write};
use std::rt::Files;
use std::{fs, io};
use vidi_bits::Name;

/// A file that is open at its end, and the name that it was opened by, where there was memory for that.
#[derive(Drop)]
struct Kept<F: Drop> {
    name: Option<Name>,
    file: F,
}

impl<F: Drop> Kept<F> {
    /// Whether the file was opened by this name.
    fn is_of(&self, name: &str) -> bool
        ensures { IsTrue result ↔ (self.now.name ≡ Some name.now) }
    {
        match &self.name {
            Some(own) => own.as_slice() == name.as_bytes(),
            None => false,
        }
    }
}

/// The host's files by their paths. It doesn't tell them.
///
/// The file that it last added to stays open, and is added to as it is until another name is added to, any is started, or a write
/// fails. So a file that others remove meanwhile isn't made again. Nothing is kept back: a piece is written before `append` answers.
#[derive(Drop)]
pub struct HostShelf<'a, R: Files + AllocGlobal> {
    host: &'a R,
    kept: Option<Kept<R::File>>,
    read_faults: u64,
    write_faults: u64,
    starts: u64,
}

impl<'a, R: Files + AllocGlobal> HostShelf<'a, R> {
    /// The files of this host, with counts of 0.
    pub fn new(host: &'a R) -> HostShelf<'a, R>
        ensures reads { result.read_faults ≡ 0 }
        ensures writes { result.write_faults ≡ 0 }
        ensures starts { result.starts ≡ 0 }
    {
        HostShelf {
            host,
            kept: None,
            read_faults: 0,
            write_faults: 0,
            starts: 0,
        }
    }

    /// Counts a failed read, of whichever name.
    fn read_fault(&mut self) -> FetchError
        ensures failed { result ≡ FetchError.Failed }
        ensures later { self.old.read_faults ≤ self.new.read_faults }
        ensures rose { Rose self.old.read_faults self.new.read_faults }
        ensures writes { self.new.write_faults ≡ self.old.write_faults }
        ensures starts { self.new.starts ≡ self.old.starts }
    {
        self.read_faults = self.read_faults.saturating_add(1);
        FetchError::Failed
    }

    /// Counts a failed write.
    fn write_fault(&mut self) -> Failed
        ensures reads { self.new.read_faults ≡ self.old.read_faults }
        ensures later { self.old.write_faults ≤ self.new.write_faults }
        ensures rose { Rose self.old.write_faults self.new.write_faults }
        ensures starts { self.new.starts ≡ self.old.starts }
    {
        self.write_faults = self.write_faults.saturating_add(1);
        Failed
    }

    /// Makes the file empty, and lets go of the one that is kept.
    fn begin(&mut self, name: &str) -> io::Result<()>
        ensures let_go { self.new.kept ≡ None }
        ensures reads { self.new.read_faults ≡ self.old.read_faults }
        ensures writes { self.new.write_faults ≡ self.old.write_faults }
        ensures started { OnOk result (HasStarted self.old.starts self.new.starts true) }
        ensures unstarted { OnErr result (self.new.starts ≡ self.old.starts) }
    {
        self.kept = None;
        fs::create(self.host, name)?;
        self.starts = self.starts.saturating_add(1);
        Ok(())
    }

    /// The file of this name, open at its end: the one that is kept where it has this name, else one that is opened, and made where
    /// it isn't there.
    fn at_end(&mut self, name: &str) -> io::Result<Kept<R::File>>
        ensures name { IfOk result (λ at_end. IfSome at_end.name (λ own. own ≡ name.now)) }
        ensures same { IfSome self.old.kept (λ kept. kept.name ≡ Some name.now → result ≡ Ok kept) }
        ensures let_go { self.new.kept ≡ None }
        ensures reads { self.new.read_faults ≡ self.old.read_faults }
        ensures writes { self.new.write_faults ≡ self.old.write_faults }
        ensures starts { self.new.starts ≡ self.old.starts }
    {
        match self.kept.take() {
            Some(kept) if kept.is_of(name) => Ok(kept),
            _ => opened(self.host, name),
        }
    }

    /// Adds a piece to the file, which is kept then. After an error none is kept.
    fn extend(&mut self, name: &str, piece: &[u8]) -> io::Result<()>
        ensures kept { OnOk result (IsSomeAnd self.new.kept (λ kept. IfSome kept.name (λ own. own ≡ name.now))) }
        ensures grown { OnOk result (IfSome self.old.kept (λ old. old.name ≡ Some name.now → IfSome self.new.kept (λ new.
            Appends (R.File.contents old.file) (R.File.contents new.file) piece.now))) }
        ensures let_go { OnErr result (self.new.kept ≡ None) }
        ensures reads { self.new.read_faults ≡ self.old.read_faults }
        ensures writes { self.new.write_faults ≡ self.old.write_faults }
        ensures starts { self.new.starts ≡ self.old.starts }
    {
        let mut kept = self.at_end(name)?;
        write_whole(&mut kept.file, piece)?;
        self.kept = Some(kept);
        Ok(())
    }
}

impl<'a, R: Files + AllocGlobal> Shelf for HostShelf<'a, R> {
    ghost use Rattle.std.specs.Prelude.{None};

    ghost files = { λ _. None };

    ghost read_faults = { λ s _. s.read_faults };

    ghost write_faults = { λ s. s.write_faults };

    ghost starts = { λ s. s.starts };

    fn fetch(&mut self, name: &str, at: u64, buf: &mut [u8]) -> Result<usize, FetchError> {
        let opened = fs::open(self.host, name);
        match opened {
            Ok(mut file) => match read_at(&mut file, at, buf) {
                Ok(n) => Ok(n),
                Err(_) => Err(self.read_fault()),
            },
            Err(error) => {
                if error.kind() == ErrorKind::NotFound {
                    return Err(FetchError::Missing);
                }
                Err(self.read_fault())
            }
        }
    }

    fn start(&mut self, name: &str) -> Result<(), Failed> {
        match self.begin(name) {
            Ok(()) => Ok(()),
            Err(_) => Err(self.write_fault()),
        }
    }

    fn append(&mut self, name: &str, piece: &[u8]) -> Result<(), Failed> {
        match self.extend(name, piece) {
            Ok(()) => Ok(()),
            Err(_) => Err(self.write_fault()),
        }
    }
}

/// The host's standard output. It doesn't tell what was written.
#[derive(Drop)]
pub struct HostSink<'a, P: Print> {
    host: &'a P,
    faults: u64,
}

impl<'a, P: Print> HostSink<'a, P> {
    /// The standard output of this host, with a count of 0.
    pub fn new(host: &'a P) -> HostSink<'a, P>
        ensures { result.faults ≡ 0 }
    {
        HostSink { host, faults: 0 }
    }
}

impl<'a, P: Print> Sink for HostSink<'a, P> {
    ghost use Rattle.std.specs.Prelude.{None};

    ghost told = { λ _. None };

    ghost faults = { λ s. s.faults };

    ghost place = { λ _. None };

    ghost has_frame = { λ _ _. Unit {0} };

    fn push(&mut self, piece: &[u8]) -> Result<(), Failed> {
        if write_whole(&mut io::writer(self.host), piece).is_err() {
            self.faults = self.faults.saturating_add(1);
            return Err(Failed);
        }
        Ok(())
    }
}

/// Reads from place `at` on until the buffer is full or the file ends.
fn read_at<F: Read + Seek>(file: &mut F, at: u64, buf: &mut [u8]) -> io::Result<usize>
    ensures { IfOk result (λ n. n ≤ length buf.new) }
{
    file.seek(SeekFrom::Start(at))?;
    let mut filled = 0;
    while filled < buf.len() {
        let n = file.read(&mut buf[filled..])?;
        if n == 0 {
            break;
        }
        filled += n;
    }
    Ok(filled)
}

/// Opens the file of this name at its end, and makes it where it isn't there.
fn opened<R: Files + AllocGlobal>(host: &R, name: &str) -> io::Result<Kept<R::File>>
    ensures { IfOk result (λ kept. IfSome kept.name (λ own. own ≡ name.now)) }
{
    let file = OpenOptions::new()
        .append(true)
        .create(true)
        .open(host, name)?;
    let name = copied_name(host.alloc(), name);
    Ok(Kept { name, file })
}

/// A copy of a name, where there is memory for it.
fn copied_name(alloc: Global, name: &str) -> Option<Name>
    ensures { IfSome result (λ own. own ≡ name.now) }
{
    let bytes = Vec::from_slice(alloc, name.as_bytes()).ok()?;
    Some(Name::from_vec(bytes))
}

/// Writes the whole piece. A write that takes nothing of it is an error.
fn write_whole<W: Write>(to: &mut W, piece: &[u8]) -> io::Result<()>
    ensures { OnOk result (Appends (W.contents to.old) (W.contents to.new) piece.now) }
{
    let mut rest = piece;
    while !rest.is_empty() {
        let n = to.write(rest)?;
        if n == 0 {
            return Err(ErrorKind::WriteZero.into());
        }
        rest = &rest[n..];
    }
    Ok(())
}
