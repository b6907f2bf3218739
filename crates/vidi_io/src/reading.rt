//! A file read whole.

ghost use Rattle.std.specs.Prelude.{◌≡◌, ◌<◌, ◌≤◌, ◌⊎◌, Some, Err, length, IfOk, IfErr, IfSome};
ghost use Rattle.std.specs.FinMap.{get};
ghost use Rattle.vidi_io.specs.Shelf.{Later};
ghost use Rattle.vidi_io.specs.Cause.{Rose};
ghost use Rattle.vidi_io.specs.Reading.{ReadCause, Whole};

use crate::shelf::{FetchError, Shelf};
use std::alloc::{AllocError, Global};
use thiserror::Error;
use vidi_bits::{Bytes, Items};

/// The bytes that one fetch asks for.
const FETCHED: usize = 65536;

/// Why a file couldn't be read.
#[derive(Clone, Copy, Debug, PartialEq, Eq, Error)]
pub enum ReadError {
    /// The shelf has no file of this name.
    #[error("no such file")]
    Missing,
    /// A read of it failed.
    #[error("read failed")]
    Failed,
    /// It has more than `limit` bytes.
    #[error("longer than {limit} bytes")]
    TooLong { limit: u64 },
    /// No memory was found.
    #[error("out of memory")]
    Memory,
}

impl From<AllocError> for ReadError {
    ghost use Rattle.std.specs.Prelude.{◌≡◌};
    ghost use Rattle.vidi_io.specs.declared.reading.ReadError.TheVariants as Variants;

    ghost from_gives = { λ _ e. e ≡ Variants.Memory };

    fn from(_error: AllocError) -> ReadError {
        ReadError::Memory
    }
}

/// The bytes of the file of this name, if they are at most `limit`. At most one fetch more is taken
/// of a longer file.
pub fn read_whole<S: Shelf>(
    alloc: Global,
    shelf: &mut S,
    name: &str,
    limit: u64,
) -> Result<Bytes, ReadError>
    ensures bytes { IfOk result (λ bytes. IfSome (S.files shelf.old) (λ m. get m name.now ≡ Some bytes)) }
    ensures within { IfOk result (λ bytes. length bytes ≤ limit) }
    ensures cause { IfErr result (λ e. ReadCause e (S.files shelf.old) name.now limit (S.read_faults shelf.old name.now)
        (S.read_faults shelf.new name.now)) }
    ensures whole { IfSome (S.files shelf.old) (λ m. ¬ (Rose (S.read_faults shelf.old name.now) (S.read_faults shelf.new name.now))
        → (result ≡ Err ReadError.Memory) ⊎ Whole (get m name.now) limit result) }
    ensures files { S.files shelf.new ≡ S.files shelf.old }
    ensures starts { S.starts shelf.new ≡ S.starts shelf.old }
    ensures counts { Later (S.read_faults shelf.old) (S.read_faults shelf.new) (S.write_faults shelf.old) (S.write_faults shelf.new) }
{
    let mut buf = vec![in alloc; 0u8; FETCHED]?;
    read_by(alloc, shelf, name, limit, buf.as_mut_slice())
}

/// `read_whole` by fetches into `buf`.
fn read_by<S: Shelf>(
    alloc: Global,
    shelf: &mut S,
    name: &str,
    limit: u64,
    buf: &mut [u8],
) -> Result<Bytes, ReadError>
    requires { 0 < length buf.old }
    ensures bytes { IfOk result (λ bytes. IfSome (S.files shelf.old) (λ m. get m name.now ≡ Some bytes)) }
    ensures within { IfOk result (λ bytes. length bytes ≤ limit) }
    ensures cause { IfErr result (λ e. ReadCause e (S.files shelf.old) name.now limit (S.read_faults shelf.old name.now)
        (S.read_faults shelf.new name.now)) }
    ensures files { S.files shelf.new ≡ S.files shelf.old }
    ensures starts { S.starts shelf.new ≡ S.starts shelf.old }
    ensures counts { Later (S.read_faults shelf.old) (S.read_faults shelf.new) (S.write_faults shelf.old) (S.write_faults shelf.new) }
{
    let mut bytes = Vec::new(alloc);
    loop {
        let got = match shelf.fetch(name, bytes.len() as u64, buf) {
            Ok(got) => got,
            Err(FetchError::Missing) => return Err(ReadError::Missing),
            Err(FetchError::Failed) => return Err(ReadError::Failed),
        };
        if got == 0 {
            return Ok(Items::from_vec(bytes));
        }
        if limit - (bytes.len() as u64) < got as u64 {
            return Err(ReadError::TooLong { limit });
        }
        bytes.extend_from_slice(&buf[..got])?;
    }
}
