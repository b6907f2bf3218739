//! The forms of a map's lines.

ghost use Rattle.std.specs.Prelude.{◌≡◌, IfOk, IfSome, true};
ghost use Rattle.std.specs.Str.{bytes_eq};
ghost use Rattle.vidi_lines.specs.Number.{number_of};
ghost use Rattle.chan_map.specs.Follow.{is_named};
ghost use Rattle.chan_map.specs.Forms.{keyword_of, is_channel_name, tie_of, reset_of, form_of, channel_of, entry_of};

use crate::map_text::{ChannelLine, Entry};
use std::alloc::Global;
use trace_model::{Dir, are_letters_or_digits, is_letter};
use vidi_lines::vidi_bits::{Items, Memory, Name, copied};
use vidi_lines::{Names, number};

/// The first word of a line.
#[derive(Clone, Copy, PartialEq, Eq)]
pub enum Keyword {
    Top,
    Clock,
    Tie,
    Reset,
    Ignore,
    In,
    Out,
}

fn is_word(word: &[u8], text: &[u8]) -> bool
    ensures { result ≡ bytes_eq word.now text.now }
{
    word == text
}

#[tactic(auto, unfolding(crate::specs::Forms::keyword_of))]
fn keyword_of(word: &[u8]) -> Option<Keyword>
    ensures { result ≡ keyword_of word.now }
{
    if is_word(word, b"top") {
        Some(Keyword::Top)
    } else if is_word(word, b"clock") {
        Some(Keyword::Clock)
    } else if is_word(word, b"tie") {
        Some(Keyword::Tie)
    } else if is_word(word, b"reset") {
        Some(Keyword::Reset)
    } else if is_word(word, b"ignore") {
        Some(Keyword::Ignore)
    } else if is_word(word, b"in") {
        Some(Keyword::In)
    } else if is_word(word, b"out") {
        Some(Keyword::Out)
    } else {
        None
    }
}

fn is_channel_name(name: &[u8]) -> bool
    ensures { result ≡ is_channel_name name.now }
{
    match name {
        [] => false,
        [first, others @ ..] => {
            is_letter(*first) && are_letters_or_digits(others) && others.len() <= 63
        }
    }
}

/// Copies of names.
fn copy_all(alloc: Global, names: &[Name]) -> Result<Names, Memory>
    ensures { IfOk result (λ ns. ns ≡ names.now) }
{
    let mut copies = Names::new(alloc);
    for name in names {
        copies.push(copied(alloc, name.as_slice())?)?;
    }
    Ok(copies)
}

fn tie_of(alloc: Global, port: &[u8], word: &[u8]) -> Result<Option<Entry>, Memory>
    ensures said { IfOk result (λ e. e ≡ tie_of port.now (number_of word.now)) }
    ensures named { IfOk result (λ e. IfSome e (λ entry. is_named entry ≡ true)) }
{
    let Some(number) = number(word) else {
        return Ok(None);
    };
    let port = copied(alloc, port)?;
    Ok(Some(Entry::Tie { port, number }))
}

fn reset_of(
    alloc: Global,
    port: &[u8],
    active: &[u8],
    cycles: &[u8],
) -> Result<Option<Entry>, Memory>
    ensures said { IfOk result (λ e. e ≡ reset_of port.now (number_of active.now) (number_of cycles.now)) }
    ensures named { IfOk result (λ e. IfSome e (λ entry. is_named entry ≡ true)) }
{
    let (Some(active), Some(cycles)) = (number(active), number(cycles)) else {
        return Ok(None);
    };
    if active > 1 || cycles < 1 || cycles > 1000 {
        return Ok(None);
    }
    let port = copied(alloc, port)?;
    Ok(Some(Entry::Reset {
        port,
        active: active == 1,
        cycles: cycles as u32,
    }))
}

fn channel_of(alloc: Global, dir: Dir, words: &[Name]) -> Result<Option<Entry>, Memory>
    ensures said { IfOk result (λ e. e ≡ channel_of dir words.now) }
    ensures named { IfOk result (λ e. IfSome e (λ entry. is_named entry ≡ true)) }
{
    let [name, valid, ready, contents @ ..] = words else {
        return Ok(None);
    };
    if !is_channel_name(name.as_slice()) {
        return Ok(None);
    }
    let name = copied(alloc, name.as_slice())?;
    let valid = copied(alloc, valid.as_slice())?;
    let ready = copied(alloc, ready.as_slice())?;
    let contents = copy_all(alloc, contents)?;
    Ok(Some(Entry::Channel {
        channel: ChannelLine {
            dir,
            name,
            valid,
            ready,
            contents,
        },
    }))
}

/// What the words behind the first one say.
#[tactic(auto, unfolding(crate::specs::Forms::form_of))]
fn form_of(alloc: Global, keyword: Keyword, words: &[Name]) -> Result<Option<Entry>, Memory>
    ensures said { IfOk result (λ e. e ≡ form_of keyword words.now) }
    ensures named { IfOk result (λ e. IfSome e (λ entry. is_named entry ≡ true)) }
{
    match (keyword, words) {
        (Keyword::Top, [name]) => Ok(Some(Entry::Top {
            name: copied(alloc, name.as_slice())?,
        })),
        (Keyword::Clock, [port]) => Ok(Some(Entry::Clock {
            port: copied(alloc, port.as_slice())?,
        })),
        (Keyword::Tie, [port, number]) => tie_of(alloc, port.as_slice(), number.as_slice()),
        (Keyword::Reset, [port, active, cycles]) => {
            reset_of(alloc, port.as_slice(), active.as_slice(), cycles.as_slice())
        }
        (Keyword::Ignore, [port]) => Ok(Some(Entry::Ignore {
            port: copied(alloc, port.as_slice())?,
        })),
        (Keyword::In, _) => channel_of(alloc, Dir::Inward, words),
        (Keyword::Out, _) => channel_of(alloc, Dir::Outward, words),
        _ => Ok(None),
    }
}

/// What the words of a line say, `None` where they have no listed form.
pub fn entry_of(alloc: Global, words: &[Name]) -> Result<Option<Entry>, Memory>
    ensures said { IfOk result (λ e. e ≡ entry_of words.now) }
    ensures named { IfOk result (λ e. IfSome e (λ entry. is_named entry ≡ true)) }
{
    let Some((first, rest)) = words.split_first() else {
        return Ok(None);
    };
    match keyword_of(first.as_slice()) {
        Some(keyword) => form_of(alloc, keyword, rest),
        None => Ok(None),
    }
}
