//! How often ports are named (M3).

ghost use Rattle.std.specs.Prelude.{◌≡◌, ◌+◌, ◌<◌, ◌∷◌, [], ℕ, List, length, IfOk, slice_index, slice_set, replicate};
ghost use Rattle.chan_map.specs.Sockets.{IsTop};
ghost use Rattle.chan_map.specs.Ports.{names_of};
ghost use Rattle.chan_map.specs.Reasons.{capped, all_names, cover_faults};
ghost use Rattle.vidi_lines.specs.vidi_bits.Findings.{Judged};
ghost use Rattle.chan_map.specs.Told.{map_told};
ghost use Rattle.chan_map.specs.Times.{Adds, AreTimes};

use crate::error::MapError;
use crate::map_text::{ChannelLine, Entry, MapLine};
use crate::sockets::{Top, socket_named};
use std::alloc::Global;
use vidi_lines::vidi_bits::{Items, Memory, Name, copied};

/// A count for each port.
type Counts = Items<u32>;

/// One more at this place, up to the end of the type.
fn bump(counts: &mut Counts, k: usize)
    requires { k < length counts.old }
    ensures { counts.new ≡ slice_set counts.old k (capped (slice_index counts.old k + 1)) }
{
    let count = counts.as_slice()[k].saturating_add(1);
    counts.set(k, count);
}

/// Counts a name.
fn count_name(top: &Top, counts: &mut Counts, name: &[u8])
    requires top { IsTop top.now }
    requires long { length counts.old ≡ length top.now.design.now.ports }
    ensures { Adds top.now.design.now.ports (name.now ∷ []) counts.old counts.new }
{
    if let Some(s) = socket_named(top, name) {
        bump(counts, s.port);
    }
}

/// Counts names.
fn count_names(top: &Top, counts: &mut Counts, names: &[Name])
    requires top { IsTop top.now }
    requires long { length counts.old ≡ length top.now.design.now.ports }
    ensures { Adds top.now.design.now.ports names.now counts.old counts.new }
{
    for name in names {
        count_name(top, counts, name.as_slice());
    }
}

fn count_channel(top: &Top, counts: &mut Counts, c: &ChannelLine)
    requires top { IsTop top.now }
    requires long { length counts.old ≡ length top.now.design.now.ports }
    ensures { Adds top.now.design.now.ports (c.now.valid ∷ c.now.ready ∷ c.now.contents) counts.old counts.new }
{
    count_name(top, counts, c.valid.as_slice());
    count_name(top, counts, c.ready.as_slice());
    count_names(top, counts, c.contents.as_slice());
}

/// Counts the names of a line.
fn count_line(top: &Top, counts: &mut Counts, entry: &Entry)
    requires top { IsTop top.now }
    requires long { length counts.old ≡ length top.now.design.now.ports }
    ensures { Adds top.now.design.now.ports (names_of entry.now) counts.old counts.new }
{
    match entry {
        Entry::Top { .. } => {}
        Entry::Clock { port } => count_name(top, counts, port.as_slice()),
        Entry::Tie { port, .. } => count_name(top, counts, port.as_slice()),
        Entry::Reset { port, .. } => count_name(top, counts, port.as_slice()),
        Entry::Ignore { port } => count_name(top, counts, port.as_slice()),
        Entry::Channel { channel } => count_channel(top, counts, channel),
    }
}

/// As many zeros.
fn zeros(alloc: Global, n: usize) -> Result<Counts, Memory>
    ensures long { IfOk result (λ cs. length cs ≡ n) }
    ensures zero { IfOk result (λ cs. (k : ℕ) → slice_index cs k ≡ 0) }
{
    let mut counts = Counts::new(alloc);
    for _ in 0..n {
        counts.push(0)?;
    }
    Ok(counts)
}

/// How often the lines name each port.
fn times_of(alloc: Global, top: &Top, lines: &[MapLine]) -> Result<Counts, Memory>
    requires { IsTop top.now }
    ensures { IfOk result (AreTimes top.now.design.now.ports (all_names lines.now)) }
{
    let mut counts = zeros(alloc, top.design.ports.len())?;
    for l in lines {
        count_line(top, &mut counts, &l.entry);
    }
    Ok(counts)
}

/// `Cover`, with the first port that the lines don't name exactly once.
pub fn check_cover(alloc: Global, top: &Top, lines: &[MapLine]) -> Result<(), MapError>
    requires { IsTop top.now }
    ensures { Judged map_told result (cover_faults top.now.design.now lines.now) }
{
    let counts = times_of(alloc, top, lines)?;
    for (k, p) in top.design.ports.as_slice().iter().enumerate() {
        let times = counts.as_slice()[k];
        if times != 1 {
            let port = copied(alloc, p.name.as_slice())?;
            return Err(MapError::Cover { port, times });
        }
    }
    Ok(())
}
