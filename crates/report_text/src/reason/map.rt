//! The reasons of a map (M1 to M4).

ghost use Rattle.std.specs.Prelude.{◌≡◌, ◌++◌, OnOk};
ghost use Rattle.report_text.specs.MapReasons as said;

use crate::text::{put_named, put_with};
use run_model::chan_map::MapLimit;
use text_page::vidi_io::vidi_bits::Memory;

pub(super) fn put_cover(text: &mut Vec<u8>, port: &[u8], times: u32) -> Result<(), Memory>
    ensures { OnOk result (text.new.items ≡ text.old.items ++ said.cover_text port.now times) }
{
    put_named(text, b"M3 cover ", port)?;
    put_with(text, b" times ", times)
}

pub(super) fn put_limit(text: &mut Vec<u8>, what: MapLimit, got: u32) -> Result<(), Memory>
    ensures { OnOk result (text.new.items ≡ text.old.items ++ said.limit_text what got) }
{
    put_named(text, b"M4 limit ", limit_name(what))?;
    put_with(text, b" got ", got)
}

fn limit_name(what: MapLimit) -> &'static [u8]
    ensures { result.now ≡ said.limit_name what }
{
    match what {
        MapLimit::Channels => b"channels",
        MapLimit::Ports => b"ports",
        MapLimit::Bytes => b"bytes",
    }
}
