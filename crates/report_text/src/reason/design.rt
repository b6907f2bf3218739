//! The reasons of a design's text (E1 to E14).

ghost use Rattle.std.specs.Prelude.{◌≡◌, ◌++◌, OnOk};
ghost use Rattle.report_text.specs.DesignReasons as said;

use crate::text::{put_listed, put_named, put_with};
use text_page::vidi_io::vidi_bits::Memory;
use vlog_elab::Big;

pub(super) fn big_text(what: Big) -> &'static [u8]
    ensures { result.now ≡ said.big_text what }
{
    match what {
        Big::Instances => b"instances",
        Big::Nets => b"nets",
        Big::Words => b"words",
    }
}

pub(super) fn put_width(text: &mut Vec<u8>, line: u32, got: u128) -> Result<(), Memory>
    ensures { OnOk result (text.new.items ≡ text.old.items ++ said.width_text line got) }
{
    put_with(text, b"E6 width line ", line)?;
    put_with(text, b" got ", got)
}

pub(super) fn put_drive(
    text: &mut Vec<u8>,
    name: &[u8],
    bit: u32,
    drivers: u32,
) -> Result<(), Memory>
    ensures { OnOk result (text.new.items ≡ text.old.items ++ said.drive_text name.now bit drivers) }
{
    put_named(text, b"E8 drive ", name)?;
    put_with(text, b" bit ", bit)?;
    put_with(text, b" drivers ", drivers)
}

pub(super) fn put_latch(text: &mut Vec<u8>, name: &[u8], line: u32) -> Result<(), Memory>
    ensures { OnOk result (text.new.items ≡ text.old.items ++ said.latch_text name.now line) }
{
    put_named(text, b"E9 latch ", name)?;
    put_with(text, b" line ", line)
}

pub(super) fn put_loop(text: &mut Vec<u8>, lines: &[u32]) -> Result<(), Memory>
    ensures { OnOk result (text.new.items ≡ text.old.items ++ said.loop_text lines.now) }
{
    put_listed(text, b"E10 loop lines", lines)
}
