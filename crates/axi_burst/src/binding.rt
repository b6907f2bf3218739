//! Binds an AXI file to channels.

ghost use Rattle.std.specs.Prelude.{◌≡◌, true, false, None, MatchOption, if◌then◌else◌};
ghost use Rattle.std.specs.Option.{option_copied};
ghost use Rattle.axi_burst.specs.Binding.{channel_named, channel_at, is_request, is_inward, side, side_of, is_channel, first_side, is_side};
ghost use Rattle.axi_burst.specs.Binding.{names_channel, is_named, is_free_under, data_fits};
ghost use Rattle.axi_burst.specs.Binding.{data_ports, row_with, line_of, entry_under, line_with, writes_from, reads_from, BindsEnds, BindsAxi};

use crate::axi::{AddressPorts, Axi, DataPorts, Reads, Writes};
use crate::axi_text::{AxiLine, AxiText, Entry, Role};
use crate::error::AxiError;
use crate::forms::is_word;
use crate::ports::{End, Ends, differ, port_at, stands_in};
use crate::reading::{is_of, same};
use trace_model::{Channel, Channels, Dir};

fn channel_named(channels: &[Channel], name: &[u8]) -> Option<usize>
    ensures { result ≡ channel_named channels.now name.now }
{
    channels
        .iter()
        .position(|c| is_word(name, c.name.as_slice()))
}

fn channel_at<'a>(channels: &'a [Channel], name: &[u8]) -> Option<&'a Channel>
    ensures { option_copied result ≡ channel_at channels.now name.now }
{
    let c = channel_named(channels, name)?;
    channels.get(c)
}

fn is_request(role: Role) -> bool
    ensures { result ≡ is_request role }
{
    !matches!(role, Role::WriteResponse | Role::ReadData)
}

fn is_inward(dir: Dir) -> bool
    ensures { result ≡ is_inward dir }
{
    match dir {
        Dir::Inward => true,
        Dir::Outward => false,
    }
}

/// Whether requests come in to the design, and responses go out.
fn side(role: Role, dir: Dir) -> bool
    ensures { result ≡ side role dir }
{
    same(is_request(role), is_inward(dir))
}

fn side_of(channels: &[Channel], entry: &Entry) -> Option<bool>
    ensures { result ≡ side_of channels.now entry.now }
{
    let Entry::Channel { role, channel, .. } = entry else {
        return None;
    };
    let found = channel_at(channels, channel.as_slice())?;
    Some(side(*role, found.dir))
}

fn is_channel(entry: &Entry) -> bool
    ensures { result ≡ is_channel entry.now }
{
    matches!(entry, Entry::Channel { .. })
}

/// The side of the port by the first line of a channel, where that is there.
fn first_side(channels: &[Channel], lines: &[AxiLine]) -> Option<bool>
    ensures { result ≡ first_side channels.now lines.now }
{
    for l in lines {
        if is_channel(&l.entry) {
            return side_of(channels, &l.entry);
        }
    }
    None
}

fn is_side(first: Option<bool>, own: bool) -> bool
    ensures { result ≡ is_side first own }
{
    match first {
        Some(first) => same(first, own),
        None => true,
    }
}

fn names_channel(name: &[u8], entry: &Entry) -> bool
    ensures { result ≡ names_channel name.now entry.now }
{
    match entry {
        Entry::Channel { channel, .. } => is_word(name, channel.as_slice()),
        _ => false,
    }
}

fn is_named(lines: &[AxiLine], name: &[u8]) -> bool
    ensures { result ≡ is_named lines.now name.now }
{
    for l in lines {
        if names_channel(name, &l.entry) {
            return true;
        }
    }
    false
}

/// A file's lines, and the channels that they may name.
#[derive(Clone, Copy)]
pub struct Table<'a> {
    pub beat: u32,
    pub channels: &'a [Channel],
    pub lines: &'a [AxiLine],
}

/// What is said with one channel more, where that is there and fits.
fn with_row(
    table: Table,
    ends: Ends,
    role: Role,
    name: &[u8],
    places: &[Option<u128>],
) -> Option<Ends>
    ensures { result ≡ row_with table.entry.channels.now table.entry.lines.now ends role name.now places.now }
{
    let c = channel_named(table.channels, name)?;
    let row = table.channels.get(c)?;
    let first = first_side(table.channels, table.lines);
    if !is_side(first, side(role, row.dir)) || !differ(places) {
        return None;
    }
    ends.with_channel(role, c, row.widths.as_slice(), places)
}

/// The line of the channel that has a role.
fn line_of(lines: &[AxiLine], role: Role) -> Option<&Entry>
    ensures { option_copied result ≡ entry_under (line_of lines.now role) }
{
    for l in lines {
        if is_of(role, &l.entry) {
            return Some(&l.entry);
        }
    }
    None
}

/// The place of a port of this width in the channel of the line of this role, where the line doesn't name it.
fn free_port(table: Table, role: Role, width: u64, place: u128) -> Option<usize>
    ensures { MatchOption result (is_free_under table.entry.channels.now width place (line_of table.entry.lines.now role) ≡ false)
        (λ p. (is_free_under table.entry.channels.now width place (line_of table.entry.lines.now role) ≡ true) × (p ≡ place)) }
{
    let Entry::Channel {
        channel,
        places,
        ..
    } = line_of(table.lines, role)?
    else {
        return None;
    };
    let found = channel_at(table.channels, channel.as_slice())?;
    let (at, own) = port_at(found.widths.as_slice(), place)?;
    if u64::from(own) != width || stands_in(Some(place), places.as_slice()) {
        return None;
    }
    Some(at)
}

/// The places of data, where they fit.
fn data_of(table: Table, places: &[u128]) -> Option<DataPorts>
    ensures { result ≡ (if data_fits table.entry.beat table.entry.channels.now table.entry.lines.now places.now then data_ports places.now else None) }
{
    let [wdata, wstrb, rdata] = places else {
        return None;
    };
    let bytes = u64::from(table.beat);
    let wdata = free_port(table, Role::WriteData, 8 * bytes, *wdata)?;
    let wstrb = free_port(table, Role::WriteData, bytes, *wstrb)?;
    let rdata = free_port(table, Role::ReadData, 8 * bytes, *rdata)?;
    Some(DataPorts {
        wdata,
        wstrb,
        rdata,
    })
}

/// What is said with one line more, where that fits.
fn with_line(table: Table, before: &[AxiLine], ends: Ends, entry: &Entry) -> Option<Ends>
    ensures { result ≡ line_with table.entry.beat table.entry.channels.now table.entry.lines.now before.now ends entry.now }
{
    let mut next = ends;
    match entry {
        Entry::Channel {
            role,
            channel,
            places,
        } => {
            let name = channel.as_slice();
            if is_named(before, name) {
                return None;
            }
            return with_row(table, ends, *role, name, places.as_slice());
        }
        Entry::Memory { words } => next.memory = Some(*words),
        Entry::Data { places } => next.places = Some(data_of(table, places.as_slice())?),
    }
    Some(next)
}

/// What all lines say, `Port` with the first that doesn't fit.
fn ends_of(table: Table) -> Result<Ends, AxiError>
    ensures { BindsEnds table.entry.beat table.entry.channels.now table.entry.lines.now result }
{
    let mut ends = Ends::new();
    for (i, l) in table.lines.iter().enumerate() {
        match with_line(table, &table.lines[..i], ends, &l.entry) {
            Some(next) => ends = next,
            None => return Err(AxiError::Port { line: l.line }),
        }
    }
    Ok(ends)
}

fn writes_from(aw: Option<AddressPorts>, w: Option<End>, b: Option<End>) -> Option<Writes>
    ensures { result ≡ writes_from aw w b }
{
    let aw = aw?;
    let w = w?;
    let b = b?;
    Some(Writes {
        aw,
        w: w.channel,
        last: w.last,
        b: b.channel,
        id: b.id,
    })
}

fn reads_from(ar: Option<AddressPorts>, r: Option<End>) -> Option<Reads>
    ensures { result ≡ reads_from ar r }
{
    let ar = ar?;
    let r = r?;
    Some(Reads {
        ar,
        r: r.channel,
        id: r.id,
        last: r.last,
    })
}

/// Binds an AXI file to a table of channels.
///
/// `Port` (A2) comes exactly where a line doesn't fit the channels, with the first such line: its channel isn't there, was named
/// before or is on the other side than the first line's, or a place stands twice or has no port of its word's width. No memory is
/// taken. The time is linear in the number of channels.
pub fn bind_axi(text: &AxiText, channels: &Channels) -> Result<Axi, AxiError>
    ensures { BindsAxi text.now channels.now result }
{
    let ends = ends_of(Table {
        beat: text.beat,
        channels: channels.as_slice(),
        lines: text.lines.as_slice(),
    })?;
    Ok(Axi {
        beat: text.beat,
        writes: writes_from(ends.aw, ends.w, ends.b),
        reads: reads_from(ends.ar, ends.r),
        memory: ends.memory,
        places: ends.places,
    })
}
