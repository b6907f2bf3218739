//! Old traces in today's bytes.

ghost use Rattle.std.specs.Prelude.{◌≡◌, ◌*◌, ◌≤◌, length, IfOk, MatchResult};
ghost use Rattle.trace_code.specs.declared.error.CodeError.{CodeError};
ghost use Rattle.trace_code.specs.trace_model.declared.trace.Trace.{Trace};
ghost use Rattle.trace_v2.specs.Old.{EncodesOld};
ghost use Rattle.trace_v2.specs.Migration.{Migrates};

use crate::decoding::decode_v1;
use std::alloc::Global;
use trace_code::vidi_bits::Bytes;
use trace_code::{CodeError, encode};

/// The encoding, version 2, of the trace that the bytes encode in version 1; at most twice as many bytes. `BadTrace` exactly where
/// `decode_v1` answers it, with the same place.
pub fn migrate(alloc: Global, bytes: &[u8]) -> Result<Bytes, CodeError>
    ensures migrates { Migrates bytes.now result }
    ensures short { IfOk result (λ new. length new ≤ 2 * length bytes.now) }
    // What is encoded is migrated, unless memory runs out.
    ensures only { (t : Trace) → EncodesOld t bytes.now → MatchResult result (λ _. Unit {0}) (λ e. e ≡ CodeError.Memory) }
{
    let trace = decode_v1(alloc, bytes)?;
    let new = encode(alloc, &trace)?;
    Ok(new)
}
