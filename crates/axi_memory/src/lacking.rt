//! What an AXI file lacks for a memory.

ghost use Rattle.std.specs.Prelude.{◌≡◌, slice_get};
ghost use Rattle.std.specs.List.{list_all, range_with_len};
ghost use Rattle.env_script.specs.trace_model.vidi_bits.Findings.{first};
ghost use Rattle.axi_memory.specs.Lack.{comes_in, is_named, is_read, is_written, lacks, names_all, takes_writes};

use crate::reason::Lack;
use axi_burst::{Axi, Reads, Writes};
use env_script::trace_model::{Channel, Channels, Dir};

fn is_written(writes: Option<Writes>, channel: usize) -> bool
    ensures { result ≡ is_written writes channel }
{
    match writes {
        Some(ws) => ws.aw.channel == channel || ws.w == channel || ws.b == channel,
        None => false,
    }
}

fn is_read(reads: Option<Reads>, channel: usize) -> bool
    ensures { result ≡ is_read reads channel }
{
    match reads {
        Some(rs) => rs.ar.channel == channel || rs.r == channel,
        None => false,
    }
}

fn is_named(axi: &Axi, channel: usize) -> bool
    ensures { result ≡ is_named axi.now channel }
{
    is_written(axi.writes, channel) || is_read(axi.reads, channel)
}

/// Whether each of so many channels is named.
fn are_named(axi: &Axi, channels: usize) -> bool
    ensures { result ≡ list_all (is_named axi.now) (range_with_len 0 channels) }
{
    (0..channels).all(|c| is_named(axi, c))
}

fn names_all(axi: &Axi, channels: usize) -> bool
    ensures { result ≡ names_all axi.now channels }
{
    axi.writes.is_some() && axi.reads.is_some() && are_named(axi, channels)
}

/// Whether a channel is there and leads into the design.
fn comes_in(channels: &[Channel], channel: usize) -> bool
    ensures { result ≡ comes_in (slice_get channels.now channel) }
{
    match channels.get(channel) {
        Some(x) => matches!(x.dir, Dir::Inward),
        None => false,
    }
}

/// Whether the design takes the addresses of writes.
fn takes_writes(channels: &[Channel], writes: Option<Writes>) -> bool
    ensures { result ≡ takes_writes channels.now writes }
{
    match writes {
        Some(ws) => comes_in(channels, ws.aw.channel),
        None => false,
    }
}

/// What a file that was bound to these channels lacks first so that a memory serves them: the memory's size, the places of data, a channel of
/// the table, or the side that makes the requests. `None` exactly where it lacks nothing. It takes no memory.
pub fn lack(axi: &Axi, channels: &Channels) -> Option<Lack>
    ensures { result ≡ first (lacks axi.now channels.now) }
{
    if axi.memory.is_none() {
        return Some(Lack::Words);
    }
    if axi.places.is_none() {
        return Some(Lack::Places);
    }
    if !names_all(axi, channels.len()) {
        return Some(Lack::Channels);
    }
    if takes_writes(channels.as_slice(), axi.writes) {
        return Some(Lack::Side);
    }
    None
}
