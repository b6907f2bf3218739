//! What an AXI file says.

ghost use Rattle.std.specs.Prelude.{◌≡◌, true};
ghost use Rattle.axi_burst.specs.Forms.{is_beat};
ghost use Rattle.axi_burst.specs.Kinds.{is_whole};

use vidi_lines::vidi_bits::{Items, Name, Numbers};

/// One of the five channels of an AXI4 port (IHI 0022, A1.2).
#[derive(Clone, Copy, Debug, PartialEq, Eq)]
pub enum Role {
    /// `aw`, the write address.
    WriteAddress,
    /// `w`, the write data.
    WriteData,
    /// `b`, the write response.
    WriteResponse,
    /// `ar`, the read address.
    ReadAddress,
    /// `r`, the read data.
    ReadData,
}

/// Places of content ports from 0, `None` for each word `none`.
pub type Places = Items<Option<u128>>;

/// What a line of an AXI file says.
#[derive(Drop)]
pub enum Entry {
    /// The channel that has this role, and the places of its words: of an address ID, ADDR, LEN, SIZE and BURST, of `w` LAST,
    /// of `b` ID, of `r` ID and LAST.
    Channel {
        role: Role,
        channel: Name,
        places: Places,
    },
    /// How many words a memory has.
    Memory {
        words: u32,
    },
    /// The places of the data and the strobes of `w`, and of the data of `r`.
    Data {
        places: Numbers,
    },
}

/// What the line with this number, counted from 1, says.
#[derive(Drop)]
pub struct AxiLine {
    pub line: u32,
    pub entry: Entry,
}

/// A list of lines that have words, in the order of the text.
pub type AxiLines = Items<AxiLine>;

/// An AXI file that was read: the data bus's bytes, a power of two from 1 to 128, and what the lines behind the first one with words say. The
/// channels of writes are all there or all absent, those of reads likewise, and some are there.
#[derive(Drop)]
pub struct AxiText {
    pub beat: u32,
    pub lines: AxiLines,
    ghost power: { is_beat beat ≡ true },
    ghost whole: { is_whole lines ≡ true },
}
