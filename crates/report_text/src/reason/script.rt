//! The reasons of a script and of a plan of stalls (S1 to S3, P1, a store that is too small).

ghost use Rattle.std.specs.Prelude.{◌≡◌, ◌++◌, OnOk};
ghost use Rattle.report_text.specs.ScriptReasons as said;

use crate::text::put_with;
use text_page::vidi_io::vidi_bits::Memory;

pub(super) fn put_small(text: &mut Vec<u8>, need: u64, given: u32) -> Result<(), Memory>
    ensures { OnOk result (text.new.items ≡ text.old.items ++ said.small_text need given) }
{
    put_with(text, b"too small need ", need)?;
    put_with(text, b" given ", given)
}

/// The wave of a script's run would be too long.
pub(super) fn put_wave_long(text: &mut Vec<u8>, nets: u32, cycles: u32) -> Result<(), Memory>
    ensures { OnOk result (text.new.items ≡ text.old.items ++ said.wave_long_text nets cycles) }
{
    put_with(text, b"wave too long nets ", nets)?;
    put_with(text, b" cycles ", cycles)
}
