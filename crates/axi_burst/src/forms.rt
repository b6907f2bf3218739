//! The forms of the lines of an AXI file.

ghost use Rattle.std.specs.Prelude.{◌≡◌, IfOk};
ghost use Rattle.std.specs.Str.{bytes_eq};
ghost use Rattle.vidi_lines.specs.Number.{number_of};
ghost use Rattle.axi_burst.specs.Forms.{keyword_of, place_of, places_of, numbers_of, fits_role, channel_of, memory_of, data_of, form_of, entry_of, is_beat, beat_of};

use crate::axi_text::{Entry, Places, Role};
use std::alloc::Global;
use vidi_lines::number;
use vidi_lines::vidi_bits::{Memory, Name, Numbers, copied};

/// The most words of a memory.
const MOST_WORDS: u128 = 65_536;

/// The first word of a line.
#[derive(Clone, Copy, PartialEq, Eq)]
pub enum Keyword {
    Channel { role: Role },
    Memory,
    Data,
}

/// Whether a word has these bytes.
pub(crate) fn is_word(word: &[u8], text: &[u8]) -> bool
    ensures { result ≡ bytes_eq word.now text.now }
{
    word == text
}

#[tactic(auto, unfolding(crate::specs::Forms::keyword_of))]
pub(crate) fn keyword_of(word: &[u8]) -> Option<Keyword>
    ensures { result ≡ keyword_of word.now }
{
    if is_word(word, b"aw") {
        Some(Keyword::Channel {
            role: Role::WriteAddress,
        })
    } else if is_word(word, b"w") {
        Some(Keyword::Channel {
            role: Role::WriteData,
        })
    } else if is_word(word, b"b") {
        Some(Keyword::Channel {
            role: Role::WriteResponse,
        })
    } else if is_word(word, b"ar") {
        Some(Keyword::Channel {
            role: Role::ReadAddress,
        })
    } else if is_word(word, b"r") {
        Some(Keyword::Channel {
            role: Role::ReadData,
        })
    } else if is_word(word, b"memory") {
        Some(Keyword::Memory)
    } else if is_word(word, b"data") {
        Some(Keyword::Data)
    } else {
        None
    }
}

/// The place that a word says, where it is a number or `none`.
fn place_of(word: &[u8]) -> Option<Option<u128>>
    ensures { result ≡ place_of word.now }
{
    if is_word(word, b"none") {
        return Some(None);
    }
    let place = number(word)?;
    Some(Some(place))
}

/// The places that words say, `None` where one of them is neither a number nor `none`.
fn places_of(alloc: Global, words: &[Name]) -> Result<Option<Places>, Memory>
    ensures { IfOk result (λ ps. ps ≡ places_of words.now) }
{
    let mut places = Places::new(alloc);
    for word in words {
        let Some(place) = place_of(word.as_slice()) else {
            return Ok(None);
        };
        places.push(place)?;
    }
    Ok(Some(places))
}

/// The numbers that words write, `None` where one of them is no number.
fn numbers_of(alloc: Global, words: &[Name]) -> Result<Option<Numbers>, Memory>
    ensures { IfOk result (λ ns. ns ≡ numbers_of words.now) }
{
    let mut numbers = Numbers::new(alloc);
    for word in words {
        let Some(n) = number(word.as_slice()) else {
            return Ok(None);
        };
        numbers.push(n)?;
    }
    Ok(Some(numbers))
}

/// Whether a role has so many places, of which an address says ADDR.
fn fits_role(role: Role, places: &[Option<u128>]) -> bool
    ensures { result ≡ fits_role role places.now }
{
    match (role, places) {
        (Role::WriteAddress | Role::ReadAddress, [_, Some(_), _, _, _]) => true,
        (Role::WriteData | Role::WriteResponse, [_]) => true,
        (Role::ReadData, [_, _]) => true,
        _ => false,
    }
}

fn channel_of(alloc: Global, role: Role, words: &[Name]) -> Result<Option<Entry>, Memory>
    ensures { IfOk result (λ e. e ≡ channel_of role words.now) }
{
    let Some((name, rest)) = words.split_first() else {
        return Ok(None);
    };
    let Some(places) = places_of(alloc, rest)? else {
        return Ok(None);
    };
    if !fits_role(role, places.as_slice()) {
        return Ok(None);
    }
    let channel = copied(alloc, name.as_slice())?;
    Ok(Some(Entry::Channel {
        role,
        channel,
        places,
    }))
}

fn memory_of(words: &[Name]) -> Option<Entry>
    ensures { result ≡ memory_of words.now }
{
    let [word] = words else {
        return None;
    };
    let words = number(word.as_slice())?;
    if words < 1 || words > MOST_WORDS {
        return None;
    }
    Some(Entry::Memory {
        words: words as u32,
    })
}

fn data_of(alloc: Global, words: &[Name]) -> Result<Option<Entry>, Memory>
    ensures { IfOk result (λ e. e ≡ data_of words.now) }
{
    let [_, _, _] = words else {
        return Ok(None);
    };
    match numbers_of(alloc, words)? {
        Some(places) => Ok(Some(Entry::Data { places })),
        None => Ok(None),
    }
}

/// What the words behind the first one say. `data` says something only in a file with all five channels.
fn form_of(
    alloc: Global,
    five: bool,
    keyword: Keyword,
    words: &[Name],
) -> Result<Option<Entry>, Memory>
    ensures { IfOk result (λ e. e ≡ form_of five keyword words.now) }
{
    match keyword {
        Keyword::Channel { role } => channel_of(alloc, role, words),
        Keyword::Memory => Ok(memory_of(words)),
        Keyword::Data if five => data_of(alloc, words),
        _ => Ok(None),
    }
}

/// What the words of a line behind `beat N` say, `None` where they have no listed form.
pub fn entry_of(alloc: Global, five: bool, words: &[Name]) -> Result<Option<Entry>, Memory>
    ensures { IfOk result (λ e. e ≡ entry_of five words.now) }
{
    let Some((first, rest)) = words.split_first() else {
        return Ok(None);
    };
    match keyword_of(first.as_slice()) {
        Some(keyword) => form_of(alloc, five, keyword, rest),
        None => Ok(None),
    }
}

/// Whether a data bus may have so many bytes.
fn is_beat(bytes: u128) -> bool
    ensures { result ≡ is_beat bytes }
{
    matches!(bytes, 1 | 2 | 4 | 8 | 16 | 32 | 64 | 128)
}

/// The data bus's bytes, which the words `beat N` say.
pub fn beat_of(words: &[Name]) -> Option<u32>
    ensures { result ≡ beat_of words.now }
{
    let [first, word] = words else {
        return None;
    };
    let bytes = number(word.as_slice())?;
    if is_word(first.as_slice(), b"beat") && is_beat(bytes) {
        return Some(bytes as u32);
    }
    None
}
