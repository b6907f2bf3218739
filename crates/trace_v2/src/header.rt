//! Reading the header of an old trace.

ghost use Rattle.std.specs.Prelude.{◌≡◌, ℕ, ◌⊎◌, List, ◌++◌, IfOk, IfErr, MatchResult};
ghost use Rattle.trace_code.specs.declared.error.CodeError.{CodeError};
ghost use Rattle.trace_code.specs.trace_model.declared.channel.Channel.{Channel};
ghost use Rattle.trace_v2.specs.Old as old;
ghost use Rattle.trace_v2.specs.Old.{IsOldTable, old_header_bytes};

use std::alloc::Global;
use trace_code::trace_model::{Channels, all_contents_len};
use trace_code::{CodeError, FAULT, names_differ, read_table};

/// The first bytes of a trace of version 1.
const OLD_MAGIC: [u8; 8] = *b"VIDITRC1";

/// The most channels of a table in version 1 (this project's profile).
pub const MOST_OLD_CHANNELS: usize = 32;

/// The most bytes of the contents of a table's channels together in version 1 (this project's profile).
pub const MOST_OLD_CONTENT_BYTES: usize = 1_024;

/// The longest file of a trace of version 1, in bytes (this project's profile).
pub const OLD_TRACE_LIMIT: u64 = 67_108_864;

/// Whether the bytes begin as a trace of version 1 does.
pub fn begins_old(bytes: &[u8]) -> bool
    ensures { result ≡ old.begins_old bytes.now }
{
    bytes.starts_with(&OLD_MAGIC)
}

/// The header of version 1 at the front of the bytes, and the bytes after it. `BadTrace { at: 0 }` where no lawful one stands there.
pub(crate) fn read_old_header(alloc: Global, bytes: &[u8]) -> Result<(Channels, &[u8]), CodeError>
    ensures found { IfOk result (λ x. IsOldTable x.0 × (bytes.now ≡ old_header_bytes x.0 ++ x.1.now)) }
    ensures only { (channels : List Channel) (rest : List ℕ) → IsOldTable channels → bytes.now ≡ old_header_bytes channels ++ rest
        → MatchResult result (λ x. (x.0 ≡ channels) × (x.1.now ≡ rest)) (λ e. e ≡ CodeError.Memory) }
    ensures fault { IfErr result (λ e. (e ≡ CodeError.Memory) ⊎ (e ≡ CodeError.BadTrace 0)) }
{
    let (channels, rest) = read_table(alloc, &OLD_MAGIC, MOST_OLD_CHANNELS, bytes)?;
    if !names_differ(channels.as_slice()) {
        return Err(FAULT);
    }
    if all_contents_len(channels.as_slice()) > MOST_OLD_CONTENT_BYTES {
        return Err(FAULT);
    }
    Ok((channels, rest))
}
