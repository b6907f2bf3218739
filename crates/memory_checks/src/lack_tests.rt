//! What AXI files lack for a memory, of files that are written by hand.

use axi_memory::axi_burst::{AxiError, bind_axi, read_axi};
use axi_memory::env_script::trace_model::vidi_bits::copied;
use axi_memory::env_script::trace_model::{Channel, Channels, Dir};
use axi_memory::{Lack, lack};
use std::alloc::Global;

/// A channel's direction, its name and the widths of its ports.
type Given<'a> = (Dir, &'a str, &'a [u8]);

/// A design that makes the requests.
const MASTER: [Given; 5] = [
    (Dir::Outward, "aw", &[32]),
    (Dir::Outward, "w", &[32, 4]),
    (Dir::Inward, "b", &[]),
    (Dir::Outward, "ar", &[32]),
    (Dir::Inward, "r", &[32]),
];

/// The same with a channel beside the port.
const BESIDE: [Given; 6] = [
    (Dir::Outward, "aw", &[32]),
    (Dir::Outward, "w", &[32, 4]),
    (Dir::Inward, "b", &[]),
    (Dir::Inward, "go", &[1]),
    (Dir::Outward, "ar", &[32]),
    (Dir::Inward, "r", &[32]),
];

/// A design that takes them.
const SUBORDINATE: [Given; 5] = [
    (Dir::Inward, "aw", &[32]),
    (Dir::Inward, "w", &[32, 4]),
    (Dir::Outward, "b", &[]),
    (Dir::Inward, "ar", &[32]),
    (Dir::Outward, "r", &[32]),
];

/// Reads alone.
const READER: [Given; 2] = [(Dir::Outward, "ar", &[32]), (Dir::Inward, "r", &[32])];

/// A port that nothing is lacking of.
const WHOLE: &str =
    "beat 4\naw aw none 0 none none none\nw w none\nb b none\nar ar none 0 none none none\nr r none none\nmemory 16\ndata 0 1 0";

/// The same without `memory`, without `data`, and without both.
const NO_WORDS: &str =
    "beat 4\naw aw none 0 none none none\nw w none\nb b none\nar ar none 0 none none none\nr r none none\ndata 0 1 0";

const NO_PLACES: &str =
    "beat 4\nmemory 1\naw aw none 0 none none none\nw w none\nb b none\nar ar none 0 none none none\nr r none none";

const NEITHER: &str =
    "beat 4\naw aw none 0 none none none\nw w none\nb b none\nar ar none 0 none none none\nr r none none";

const READS: &str = "beat 4\nar ar none 0 none none none\nr r none none\nmemory 16";

fn channel(alloc: Global, given: &Given) -> Result<Channel, AxiError> {
    Ok(Channel {
        dir: given.0,
        name: copied(alloc, given.1.as_bytes())?,
        widths: copied(alloc, given.2)?,
    })
}

/// What a file lacks over these channels, `None` inside where it lacks nothing.
fn lacking(alloc: Global, table: &[Given], text: &str) -> Result<Option<Lack>, AxiError> {
    let bytes = text.as_bytes();
    if bytes.len() > 1_000 {
        return Err(AxiError::Memory);
    }
    let mut channels = Channels::new(alloc);
    for given in table {
        channels.push(channel(alloc, given)?)?;
    }
    let read = read_axi(alloc, bytes)?;
    let axi = bind_axi(&read, &channels)?;
    Ok(lack(&axi, &channels))
}

/// Whether a file lacks this first.
fn lacks(alloc: Global, table: &[Given], text: &str, wanted: Option<Lack>) -> bool {
    match lacking(alloc, table, text) {
        Ok(found) => found == wanted,
        Err(_) => false,
    }
}

#[test]
fn whole_port_lacks_nothing(rt: HostRuntime) {
    assert!(rt; lacks(rt.alloc(), &MASTER, WHOLE, None));
}

#[test]
fn first_lack_counts(rt: HostRuntime) {
    assert!(rt; lacks(rt.alloc(), &MASTER, NO_WORDS, Some(Lack::Words)));
    assert!(rt; lacks(rt.alloc(), &MASTER, NO_PLACES, Some(Lack::Places)));
    assert!(rt; lacks(rt.alloc(), &SUBORDINATE, NEITHER, Some(Lack::Words)));
    assert!(rt; lacks(rt.alloc(), &READER, READS, Some(Lack::Places)));
    assert!(rt; lacks(rt.alloc(), &BESIDE, NO_PLACES, Some(Lack::Places)));
}

#[test]
fn channels_and_side_come_last(rt: HostRuntime) {
    assert!(rt; lacks(rt.alloc(), &BESIDE, WHOLE, Some(Lack::Channels)));
    assert!(rt; lacks(rt.alloc(), &SUBORDINATE, WHOLE, Some(Lack::Side)));
}
