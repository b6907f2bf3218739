//! What takes bytes in order.

ghost use Rattle.std.specs.Prelude.{◌≡◌, ℕ, List, Option, OnOk, OnErr};
ghost use Rattle.std.specs.Borrow.{GName};
ghost use Rattle.std.specs.Io.KnownBytes.{append_known};
ghost use Rattle.vidi_io.specs.Cause.{HasCause};
ghost use Rattle.vidi_io.specs.Sink.{Frame, AppendsSome};

use thiserror::Error;

/// A write failed, and the count of faults rose.
#[derive(Clone, Copy, Debug, PartialEq, Eq, Error)]
#[error("write failed")]
pub struct Failed;

/// Where bytes are written, piece by piece.
pub trait Sink {
    /// The bytes written, where the sink tells them.
    ghost told: { Self → Option (List ℕ) };

    /// How many pushes have failed, which never falls.
    ghost faults: { Self → ℕ };

    /// The borrow that the sink writes through, where there is one.
    ghost place: { Self → Option GName };

    /// What the sink writes to, apart from the bytes written: no push changes it.
    ghost has_frame: { Self → Frame → Type 0 };

    /// Writes a piece. After `Failed` some prefix of it was written.
    fn push(&mut self, piece: &[u8]) -> Result<(), Failed>
        ensures ok { OnOk result (told self.new ≡ append_known (told self.old) piece.now) }
        ensures err { OnErr result (AppendsSome (told self.old) (told self.new) piece.now) }
        ensures place { place self.new ≡ place self.old }
        ensures frame { (f : Frame) → has_frame self.old f → has_frame self.new f }
        ensures cause { HasCause (faults self.old) (faults self.new) result };
}
