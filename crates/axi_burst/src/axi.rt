//! The channels of an AXI4 port, bound to a table.

use vidi_lines::vidi_bits::Items;

/// A write or a read address channel: its channel, and the places of its words among the content ports.
#[derive(Clone, Copy)]
pub struct AddressPorts {
    pub channel: usize,
    pub id: Option<usize>,
    pub addr: usize,
    pub len: Option<usize>,
    pub size: Option<usize>,
    pub burst: Option<usize>,
}

/// The three channels of writes.
#[derive(Clone, Copy)]
pub struct Writes {
    pub aw: AddressPorts,
    pub w: usize,
    pub last: Option<usize>,
    pub b: usize,
    pub id: Option<usize>,
}

/// The two channels of reads.
#[derive(Clone, Copy)]
pub struct Reads {
    pub ar: AddressPorts,
    pub r: usize,
    pub id: Option<usize>,
    pub last: Option<usize>,
}

/// Where data stands: two places of `w`, one of `r`.
#[derive(Clone, Copy)]
pub struct DataPorts {
    pub wdata: usize,
    pub wstrb: usize,
    pub rdata: usize,
}

/// An AXI file, bound to channels.
#[derive(Clone, Copy)]
pub struct Axi {
    /// The data bus's bytes.
    pub beat: u32,
    pub writes: Option<Writes>,
    pub reads: Option<Reads>,
    pub memory: Option<u32>,
    pub places: Option<DataPorts>,
}

/// A burst.
#[derive(Clone, Copy, PartialEq, Eq)]
pub struct Burst {
    pub write: bool,
    pub id: u128,
    pub addr: u128,
    pub beats: u32,
    /// A write is done with its response, a read with its last beat.
    pub done: bool,
}

/// A list of bursts.
pub type Bursts = Items<Burst>;

/// The first rule that is broken, and the transaction that breaks it.
#[derive(Clone, Copy, PartialEq, Eq)]
pub struct Broken {
    pub rule: u32,
    pub channel: usize,
    pub index: u32,
}
