//! AXI files that are bound to channels.

use axi_burst::trace_model::vidi_bits::{Bytes, copied};
use axi_burst::trace_model::{Channel, Channels, Dir};
use axi_burst::{Axi, AxiError, bind_axi, read_axi};
use std::alloc::Global;

/// The channels of a subordinate, one beside them, and some of a manager: the direction, the name and the widths.
const TABLE: [(Dir, &str, &[u8]); 9] = [
    (Dir::Inward, "aw", &[32, 8, 3, 2, 4]),
    (Dir::Inward, "w", &[32, 1]),
    (Dir::Outward, "b", &[2, 4]),
    (Dir::Inward, "ar", &[64, 8, 3, 2, 32]),
    (Dir::Outward, "r", &[32, 1, 32]),
    (Dir::Inward, "wide", &[65, 33, 128]),
    (Dir::Outward, "ask", &[32]),
    (Dir::Inward, "data", &[8]),
    (Dir::Inward, "strobed", &[32, 4, 1]),
];

/// Files that fit.
const FITTING: [&str; 6] = [
    "beat 4\naw aw 4 0 1 2 3\nw w 1\nb b 1\nar ar 4 0 1 2 3\nr r 2 1",
    "beat 4\nr r none none\nar ar none 0 none none none",
    "beat 4\nb b none\nw w none\naw aw none 0x0 none none none",
    "beat 4\nar ask none 0 none none none\nr data none none",
    "beat 4\nr data none none\nar ask none 0 none none none",
    "beat 4\ndata 0 1 2\naw aw none 0 none none none\nw strobed 2\nb b none\nar ar none 0 none none none\nr r none 1\nmemory 16",
];

/// Files that don't, each with the first line at fault.
const FAULTY: [(&str, u32); 19] = [
    (
        "beat 4\naw aw none 0 none none none\nw w none\nb b none\nar ar none 0 none none none\nr r none none\ndata 0 1 0",
        7,
    ),
    (
        "beat 4\naw aw none 0 none none none\nw strobed 2\nb b none\nar ar none 0 none none none\nr r none 1\ndata 0 2 0",
        7,
    ),
    (
        "beat 4\ndata 0 1 1\naw aw none 0 none none none\nw strobed 2\nb b none\nar ar none 0 none none none\nr r none 1",
        2,
    ),
    ("beat 4\nar no none 0 none none none\nr r none none", 2),
    ("beat 4\nr r none none\n\nar no none 0 none none none", 4),
    ("beat 4\nar ar none 0 none none none\nr ar none none", 3),
    ("beat 4\nar ar none 5 none none none\nr no none none", 2),
    (
        "beat 4\nar ar none 18446744073709551616 none none none\nr r none none",
        2,
    ),
    (
        "beat 4\nar ar none 0 18446744073709551617 none none\nr r none none",
        2,
    ),
    ("beat 4\nar ar 0 0 none none none\nr r none none", 2),
    ("beat 4\nar ar none 0 none none none\nr r 1 1", 3),
    ("beat 4\nar wide none 0 none none none\nr r none none", 2),
    ("beat 4\nar ar 1 0 2 none none\nr r none none", 2),
    ("beat 4\nar ar none 0 none 1 none\nr r none none", 2),
    ("beat 4\nar ar none 0 none none 2\nr r none none", 2),
    ("beat 4\nar ar none 0 none none none\nr r none 0", 3),
    ("beat 4\nar ar none 0 none none none\nr data none none", 3),
    ("beat 4\nr r none none\nar ask none 0 none none none", 3),
    (
        "beat 4\naw ask none 0 none none none\nb b none\nw w none",
        3,
    ),
];

/// A channel of this direction, name and widths.
pub(crate) fn channel(alloc: Global, row: &(Dir, &str, &[u8])) -> Result<Channel, AxiError> {
    let name = copied(alloc, row.1.as_bytes())?;
    let widths: Bytes = copied(alloc, row.2)?;
    Ok(Channel {
        dir: row.0,
        name,
        widths,
    })
}

fn bound(alloc: Global, text: &str) -> Result<Axi, AxiError> {
    let bytes = text.as_bytes();
    if bytes.len() > 1_000 {
        return Err(AxiError::Memory);
    }
    let mut channels = Channels::new(alloc);
    for row in TABLE.iter() {
        channels.push(channel(alloc, row)?)?;
    }
    let read = read_axi(alloc, bytes)?;
    bind_axi(&read, &channels)
}

/// Whether a file is refused with this line.
fn is_refused(alloc: Global, text: &str, at: u32) -> bool {
    match bound(alloc, text) {
        Err(AxiError::Port { line }) => line == at,
        _ => false,
    }
}

/// Whether the first file names the channels and the places that it should.
fn says_ports(alloc: Global) -> bool {
    let Ok(axi) = bound(alloc, FITTING[0]) else {
        return false;
    };
    let (Some(writes), Some(reads)) = (axi.writes, axi.reads) else {
        return false;
    };
    axi.beat == 4
        && writes.aw.channel == 0
        && writes.aw.id == Some(4)
        && writes.aw.addr == 0
        && writes.aw.burst == Some(3)
        && writes.w == 1
        && writes.last == Some(1)
        && writes.b == 2
        && writes.id == Some(1)
        && reads.ar.channel == 3
        && reads.ar.size == Some(2)
        && reads.r == 4
        && reads.id == Some(2)
        && reads.last == Some(1)
}

#[test]
fn files_fit(rt: HostRuntime) {
    for text in FITTING.iter() {
        assert!(rt; bound(rt.alloc(), text).is_ok());
    }
    assert!(rt; says_ports(rt.alloc()));
}

#[test]
fn first_fault_counts(rt: HostRuntime) {
    for (text, line) in FAULTY.iter() {
        assert!(rt; is_refused(rt.alloc(), text, *line));
    }
}
