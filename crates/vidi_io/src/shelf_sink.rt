//! A sink that writes one file of a shelf.

ghost use Rattle.std.specs.Prelude.{◌≡◌, true, false, OnOk, Some};
ghost use Rattle.vidi_io.specs.Cause.{HasCause};
ghost use Rattle.vidi_io.specs.ShelfSink.{bytes_written, IsOver};
ghost use Rattle.vidi_io.specs.Sink.{Frame};

use crate::shelf::Shelf;
use crate::sink::{Failed, Sink};

/// A sink over the file of this name of a shelf. Its faults are the shelf's failed writes. It starts the
/// file at its first push that isn't empty, and then adds to it: a file of nothing isn't started.
#[derive(Drop)]
pub struct ShelfSink<'a, S: Shelf> {
    shelf: &'a mut S,
    name: &'a str,
    started: bool,
}

impl<'a, S: Shelf> ShelfSink<'a, S> {
    /// A sink that has written nothing. Its frame is the name, the files and the counts of failed reads and
    /// of starts that the shelf has here.
    pub fn new(shelf: &'a mut S, name: &'a str) -> ShelfSink<'a, S>
        ensures same { result.shelf.ghost_name ≡ shelf.entry.ghost_name }
        ensures shelf { result.shelf.now ≡ shelf.old }
        ensures name { result.name.now ≡ name.now }
        ensures fresh { result.started ≡ false }
    {
        ShelfSink {
            shelf,
            name,
            started: false,
        }
    }

    /// Starts the file, unless that was done.
    fn begin(&mut self) -> Result<(), Failed>
        ensures started { OnOk result (self.new.started ≡ true) }
        ensures written { bytes_written self.new.started (S.files self.new.shelf.now) self.new.name.now
            ≡ bytes_written self.old.started (S.files self.old.shelf.now) self.old.name.now }
        ensures frame { (f : Frame) → IsOver self.old.started (S.files self.old.shelf.now) self.old.name.now
            (S.read_faults self.old.shelf.now) (S.starts self.old.shelf.now) f
            → IsOver self.new.started (S.files self.new.shelf.now) self.new.name.now (S.read_faults self.new.shelf.now)
            (S.starts self.new.shelf.now) f }
        ensures cause { HasCause (S.write_faults self.old.shelf.now) (S.write_faults self.new.shelf.now) result }
        ensures same { self.new.shelf.ghost_name ≡ self.old.shelf.ghost_name }
        ensures name { self.new.name.now ≡ self.old.name.now }
    {
        if self.started {
            return Ok(());
        }
        self.shelf.start(self.name)?;
        self.started = true;
        Ok(())
    }
}

impl<'a, S: Shelf> Sink for ShelfSink<'a, S> {
    ghost told = { λ s. bytes_written s.started (S.files s.shelf.now) s.name.now };

    ghost faults = { λ s. S.write_faults s.shelf.now };

    ghost place = { λ s. Some s.shelf.ghost_name };

    ghost has_frame = { λ s f. IsOver s.started (S.files s.shelf.now) s.name.now (S.read_faults s.shelf.now)
        (S.starts s.shelf.now) f };

    fn push(&mut self, piece: &[u8]) -> Result<(), Failed> {
        if piece.is_empty() {
            return Ok(());
        }
        self.begin()?;
        self.shelf.append(self.name, piece)
    }
}
