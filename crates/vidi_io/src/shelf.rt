//! What holds files by name.

ghost use Rattle.std.specs.Prelude.{◌≡◌, ℕ, ◌≤◌, ◌⊎◌, true, List, Option, None, Err, length, IfOk, OnOk, OnErr, IfSome, IsSomeAnd, IsErrOf};
ghost use Rattle.std.specs.FinMap.{get};
ghost use Rattle.vidi_io.specs.Cause.{Rose};
ghost use Rattle.vidi_io.specs.Shelf.{Files, Gives, HasStarted, Later, SameCounts, appended, emptied, GrewBySome};

use crate::sink::Failed;
use thiserror::Error;

/// Why a fetch gave no bytes.
#[derive(Clone, Copy, Debug, PartialEq, Eq, Error)]
pub enum FetchError {
    /// The shelf has no file of this name. No count rises.
    #[error("no such file")]
    Missing,
    /// The read failed, and the count of read faults of this name rose.
    #[error("read failed")]
    Failed,
}

/// Named files of bytes.
pub trait Shelf {
    /// The files by name, where the shelf tells them.
    ghost files: { Self → Option Files };

    /// How many reads of a name have failed, which never falls.
    ghost read_faults: { Self → List ℕ → ℕ };

    /// How many writes have failed, which never falls.
    ghost write_faults: { Self → ℕ };

    /// How many starts have succeeded, of whatever name.
    ghost starts: { Self → ℕ };

    /// Copies bytes of the file from place `at` on to the front of `buf` and gives their number. Into
    /// a buffer that isn't empty it gives 0 only where the file ends at `at` or before.
    fn fetch(&mut self, name: &str, at: u64, buf: &mut [u8]) -> Result<usize, FetchError>
        ensures within { IfOk result (λ n. n ≤ length buf.new) }
        ensures bytes { IfOk result (λ n. IfSome (files self.old) (λ m. IsSomeAnd (get m name.now) (λ file. Gives file at n buf.new))) }

        // A name that isn't there is missing, which is no fault; no other name is.
        ensures missing { IsErrOf result FetchError.Missing → IfSome (files self.old) (λ m. get m name.now ≡ None) }
        ensures absent { IfSome (files self.old) (λ m. get m name.now ≡ None → result ≡ Err FetchError.Missing) }
        ensures quiet { IsErrOf result FetchError.Missing → SameCounts (read_faults self.old) (read_faults self.new) (write_faults self.old)
            (write_faults self.new) }
        ensures failed { IsErrOf result FetchError.Failed → Rose (read_faults self.old name.now) (read_faults self.new name.now) }

        ensures files { files self.new ≡ files self.old }
        ensures starts { starts self.new ≡ starts self.old }
        ensures counts { Later (read_faults self.old) (read_faults self.new) (write_faults self.old) (write_faults self.new) };

    /// Makes the file empty, whether it is new or old, and counts exactly one start. After `Failed` it is as before or empty, and no start
    /// is counted.
    fn start(&mut self, name: &str) -> Result<(), Failed>
        ensures ok { OnOk result (files self.new ≡ emptied (files self.old) name.now) }
        ensures started { OnOk result (HasStarted (starts self.old) (starts self.new) true) }
        ensures err { OnErr result ((files self.new ≡ files self.old) ⊎ (files self.new ≡ emptied (files self.old) name.now)) }
        ensures unstarted { OnErr result (starts self.new ≡ starts self.old) }
        ensures failed { OnErr result (Rose (write_faults self.old) (write_faults self.new)) }
        ensures counts { Later (read_faults self.old) (read_faults self.new) (write_faults self.old) (write_faults self.new) };

    /// Adds a piece to the file, which is empty where it isn't there. After `Failed` it has grown by
    /// some prefix of the piece.
    fn append(&mut self, name: &str, piece: &[u8]) -> Result<(), Failed>
        ensures ok { OnOk result (files self.new ≡ appended (files self.old) name.now piece.now) }
        ensures err { OnErr result (GrewBySome (files self.old) (files self.new) name.now piece.now) }
        ensures starts { starts self.new ≡ starts self.old }
        ensures failed { OnErr result (Rose (write_faults self.old) (write_faults self.new)) }
        ensures counts { Later (read_faults self.old) (read_faults self.new) (write_faults self.old) (write_faults self.new) };
}
