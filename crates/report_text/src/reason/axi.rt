//! The reasons of an AXI file, and of a trace that breaks a rule of bursts (AMBA AXI4, IHI 0022; this project's profile).

ghost use Rattle.std.specs.Prelude.{◌≡◌, ◌++◌, OnOk};
ghost use Rattle.report_text.specs.AxiReasons as said;

use crate::text::{put_named, put_with};
use text_page::vidi_io::vidi_bits::Memory;

/// What keeps a memory from being served by an AXI file.
#[derive(Clone, Copy, Debug, PartialEq, Eq)]
pub enum Lack {
    /// The line `memory` is missing.
    Words,
    /// The line `data` is missing.
    Places,
    /// A channel of the map isn't named.
    Channels,
    /// The design isn't the master: `aw` is inward.
    Side,
}

pub(super) fn lack_name(what: Lack) -> &'static [u8]
    ensures { result.now ≡ said.lack_name what }
{
    match what {
        Lack::Words => b"memory",
        Lack::Places => b"data",
        Lack::Channels => b"channels",
        Lack::Side => b"side",
    }
}

pub(super) fn put_broken(
    text: &mut Vec<u8>,
    rule: u32,
    channel: &[u8],
    index: u32,
) -> Result<(), Memory>
    ensures { OnOk result (text.new.items ≡ text.old.items ++ said.broken_text rule channel.now index) }
{
    put_with(text, b"broken rule ", rule)?;
    put_named(text, b" ", channel)?;
    put_with(text, b" ", index)
}
