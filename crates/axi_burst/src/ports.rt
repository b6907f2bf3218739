//! The ports that the lines of an AXI file name.

ghost use Rattle.std.specs.Prelude.{◌≡◌, true, false, Some, None, MatchOption, slice_get, if◌then◌else◌};
ghost use Rattle.std.specs.List.{list_any};
ghost use Rattle.axi_burst.specs.Ports.{is_wide, place_fits, address_fits, address_ports, end_ports, same_place, differ, with_fitting};

use crate::axi::{AddressPorts, DataPorts};
use crate::axi_text::Role;

/// A word of a line that names a port.
#[derive(Clone, Copy)]
pub enum Word {
    Id,
    Addr,
    Len,
    Size,
    Burst,
    Last,
}

/// A channel of data or of responses: its channel, and the places of its words.
#[derive(Clone, Copy)]
pub struct End {
    pub channel: usize,
    pub id: Option<usize>,
    pub last: Option<usize>,
}

/// What some lines say.
#[derive(Clone, Copy)]
pub struct Ends {
    pub aw: Option<AddressPorts>,
    pub w: Option<End>,
    pub b: Option<End>,
    pub ar: Option<AddressPorts>,
    pub r: Option<End>,
    pub memory: Option<u32>,
    pub places: Option<DataPorts>,
}

/// Whether a port of this width has the width of a word (AMBA AXI4, A2.2 to A2.6).
fn is_wide(word: Word, width: u8) -> bool
    ensures { result ≡ is_wide word width }
{
    match word {
        Word::Id => width <= 32,
        Word::Addr => width <= 64,
        Word::Len => width == 8,
        Word::Size => width == 3,
        Word::Burst => width == 2,
        Word::Last => width == 1,
    }
}

/// The place, and the width of the port there, where there is one.
pub fn port_at(widths: &[u8], place: u128) -> Option<(usize, u8)>
    ensures { MatchOption result (slice_get widths.now place ≡ None) (λ p. (p.0 ≡ place) × (slice_get widths.now place ≡ Some p.1)) }
{
    if place >= widths.len() as u128 {
        return None;
    }
    let at = place as usize;
    Some((at, widths[at]))
}

/// The place of a word that a port has to fit.
fn port_of(widths: &[u8], word: Word, place: u128) -> Option<usize>
    ensures { MatchOption result (place_fits widths.now word (Some place) ≡ false)
        (λ p. (place_fits widths.now word (Some place) ≡ true) × (p ≡ place)) }
{
    let (at, width) = port_at(widths, place)?;
    is_wide(word, width).then_some(at)
}

/// The place of a word, or `none`, which fits any ports.
fn place_of(widths: &[u8], word: Word, place: Option<u128>) -> Option<Option<usize>>
    ensures { MatchOption result (place_fits widths.now word place ≡ false)
        (λ p. (place_fits widths.now word place ≡ true) × (p ≡ place)) }
{
    let Some(place) = place else {
        return Some(None);
    };
    let at = port_of(widths, word, place)?;
    Some(Some(at))
}

/// An address channel, where its words fit its ports.
fn address_of(channel: usize, widths: &[u8], places: &[Option<u128>]) -> Option<AddressPorts>
    ensures { result ≡ (if address_fits widths.now places.now then address_ports channel places.now else None) }
{
    let [id, Some(addr), len, size, burst] = places else {
        return None;
    };
    let id = place_of(widths, Word::Id, *id)?;
    let addr = port_of(widths, Word::Addr, *addr)?;
    let len = place_of(widths, Word::Len, *len)?;
    let size = place_of(widths, Word::Size, *size)?;
    let burst = place_of(widths, Word::Burst, *burst)?;
    Some(AddressPorts {
        channel,
        id,
        addr,
        len,
        size,
        burst,
    })
}

/// Whether a place is one of these.
pub fn stands_in(place: Option<u128>, places: &[Option<u128>]) -> bool
    ensures { result ≡ list_any (same_place place) places.now }
{
    for other in places {
        if same_place(place, *other) {
            return true;
        }
    }
    false
}

fn same_place(a: Option<u128>, b: Option<u128>) -> bool
    ensures { result ≡ same_place a b }
{
    match (a, b) {
        (Some(a), Some(b)) => a == b,
        _ => false,
    }
}

/// Whether no place stands twice.
pub fn differ(places: &[Option<u128>]) -> bool
    ensures { result ≡ differ places.now }
{
    let Some((first, rest)) = places.split_first() else {
        return true;
    };
    !stands_in(*first, rest) && differ(rest)
}

impl Ends {
    ghost use Rattle.axi_burst.specs.Ports.{no_ends};

    /// Nothing is said.
    pub fn new() -> Ends
        ensures { result ≡ no_ends }
    {
        Ends {
            aw: None,
            w: None,
            b: None,
            ar: None,
            r: None,
            memory: None,
            places: None,
        }
    }

    /// What is said with one channel more, where its words fit its ports.
    pub fn with_channel(
        self,
        role: Role,
        channel: usize,
        widths: &[u8],
        places: &[Option<u128>],
    ) -> Option<Ends>
        ensures { result ≡ with_fitting self role channel widths.now places.now }
    {
        let mut ends = self;
        match (role, places) {
            (Role::WriteAddress, _) => ends.aw = Some(address_of(channel, widths, places)?),
            (Role::ReadAddress, _) => ends.ar = Some(address_of(channel, widths, places)?),
            (Role::WriteData, [last]) => {
                let last = place_of(widths, Word::Last, *last)?;
                ends.w = Some(End {
                    channel,
                    id: None,
                    last,
                });
            }
            (Role::WriteResponse, [id]) => {
                let id = place_of(widths, Word::Id, *id)?;
                ends.b = Some(End {
                    channel,
                    id,
                    last: None,
                });
            }
            (Role::ReadData, [id, last]) => {
                let id = place_of(widths, Word::Id, *id)?;
                let last = place_of(widths, Word::Last, *last)?;
                ends.r = Some(End { channel, id, last });
            }
            _ => return None,
        }
        Some(ends)
    }
}
