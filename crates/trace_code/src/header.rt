//! Reading the header of a trace.

ghost use Rattle.std.specs.Prelude.{◌≡◌, ℕ, ◌≤◌, ◌⊎◌, ◌≢◌, ◌↔◌, IsTrue, List, ◌++◌, IfOk, IfErr, MatchResult, option_map};
ghost use Rattle.std.specs.List.{AllPairs, list_all, Any};
ghost use Rattle.vec_clock.specs.trace_model.declared.channel.Channel.{Channel};
ghost use Rattle.vec_clock.specs.trace_model.Channel.{IsTable};
ghost use Rattle.trace_code.specs.Encoding.{header_bytes, table_bytes};
ghost use Rattle.trace_code.specs.Reading.{Gives, magic_at, dir_at, counted_at, is_width, is_name, are_widths, name_at, widths_at};
ghost use Rattle.trace_code.specs.Reading.{channel_at, channels_at, count_at, header_at, AreChannels};

use crate::error::{CodeError, FAULT};
use std::alloc::Global;
use vec_clock::trace_model::{
    Channel, Channels, Dir, MOST_CHANNELS, MOST_CONTENT_BYTES, all_contents_len,
    are_letters_or_digits, is_letter,
};
use vec_clock::vidi_bits::{Bytes, Items, Name, copied};

/// The first bytes of a trace of version 2.
pub(crate) const MAGIC: [u8; 8] = *b"VIDITRC2";

/// The most bytes of a name.
const MAX_NAME: usize = 64;

/// The most content ports of a channel.
const MAX_PORTS: usize = 16;

/// The most bits of a port.
const MAX_WIDTH: u8 = 128;

/// The bytes after a magic.
#[tactic(auto, unfolding(crate::specs::Reading::magic_at))]
fn read_magic<'a>(magic: &[u8], bytes: &'a [u8]) -> Option<&'a [u8]>
    ensures { option_map (λ rest. rest.now) result ≡ magic_at magic.now bytes.now }
{
    bytes.strip_prefix(magic)
}

/// A direction, and the bytes after it.
#[tactic(auto, unfolding(crate::specs::Reading::dir_at))]
fn read_dir(bytes: &[u8]) -> Option<(Dir, &[u8])>
    ensures { option_map (λ x. (x.0, x.1.now)) result ≡ dir_at bytes.now }
{
    match bytes {
        [0, rest @ ..] => Some((Dir::Inward, rest)),
        [1, rest @ ..] => Some((Dir::Outward, rest)),
        _ => None,
    }
}

/// The bytes after a byte that counts them, and those that follow.
#[tactic(auto, unfolding(crate::specs::Reading::counted_at))]
fn read_counted(bytes: &[u8]) -> Option<(&[u8], &[u8])>
    ensures { option_map (λ x. (x.0.now, x.1.now)) result ≡ counted_at bytes.now }
{
    match bytes {
        [] => None,
        [count, rest @ ..] => {
            let count = usize::from(*count);
            if rest.len() < count {
                return None;
            }
            Some(rest.split_at(count))
        }
    }
}

/// Whether the bytes are a lawful name.
#[tactic(auto, unfolding(crate::specs::Reading::is_name))]
fn is_name(name: &[u8]) -> bool
    ensures { result ≡ is_name name.now }
{
    match name {
        [] => false,
        [first, others @ ..] => {
            is_letter(*first) && others.len() < MAX_NAME && are_letters_or_digits(others)
        }
    }
}

/// Whether each width is one of 1 to 128 bits.
fn each_is_width(widths: &[u8]) -> bool
    ensures { result ≡ list_all is_width widths.now }
{
    widths
        .iter()
        .all(|width| 1 <= *width && *width <= MAX_WIDTH)
}

/// Whether these are the widths of a lawful channel.
#[tactic(auto, unfolding(crate::specs::Reading::are_widths))]
fn are_widths(widths: &[u8]) -> bool
    ensures { result ≡ are_widths widths.now }
{
    widths.len() <= MAX_PORTS && each_is_width(widths)
}

/// A name, and the bytes after it.
#[tactic(auto, unfolding(crate::specs::Reading::name_at))]
fn read_name(alloc: Global, bytes: &[u8]) -> Result<(Name, &[u8]), CodeError>
    ensures { Gives (λ x. (x.0, x.1.now)) result (name_at bytes.now) }
{
    let (name, rest) = read_counted(bytes).ok_or(FAULT)?;
    if !is_name(name) {
        return Err(FAULT);
    }
    let name = copied(alloc, name)?;
    Ok((name, rest))
}

/// The widths of a channel, and the bytes after them.
#[tactic(auto, unfolding(crate::specs::Reading::widths_at))]
fn read_widths(alloc: Global, bytes: &[u8]) -> Result<(Bytes, &[u8]), CodeError>
    ensures { Gives (λ x. (x.0, x.1.now)) result (widths_at bytes.now) }
{
    let (widths, rest) = read_counted(bytes).ok_or(FAULT)?;
    if !are_widths(widths) {
        return Err(FAULT);
    }
    let widths = copied(alloc, widths)?;
    Ok((widths, rest))
}

/// A channel, and the bytes after it.
#[tactic(auto, unfolding(crate::specs::Reading::channel_at))]
fn read_channel(alloc: Global, bytes: &[u8]) -> Result<(Channel, &[u8]), CodeError>
    ensures { Gives (λ x. (x.0, x.1.now)) result (channel_at bytes.now) }
{
    let (dir, rest) = read_dir(bytes).ok_or(FAULT)?;
    let (name, rest) = read_name(alloc, rest)?;
    let (widths, rest) = read_widths(alloc, rest)?;
    Ok((Channel { dir, name, widths }, rest))
}

/// This many channels, and the bytes after them.
fn read_channels(alloc: Global, count: u8, bytes: &[u8]) -> Result<(Channels, &[u8]), CodeError>
    ensures { Gives (λ x. (x.0, x.1.now)) result (channels_at count bytes.now) }
{
    let mut channels = Items::new(alloc);
    let mut rest = bytes;
    for _ in 0..count {
        let (channel, after) = read_channel(alloc, rest)?;
        channels.push(channel)?;
        rest = after;
    }
    Ok((channels, rest))
}

/// The number of channels, of which there are so many at most, and the bytes after it.
#[tactic(auto, unfolding(crate::specs::Reading::count_at))]
fn read_count(most: usize, bytes: &[u8]) -> Option<(u8, &[u8])>
    ensures { option_map (λ x. (x.0, x.1.now)) result ≡ count_at most bytes.now }
{
    match bytes {
        [] => None,
        [count, rest @ ..] => {
            if *count == 0 || usize::from(*count) > most {
                return None;
            }
            Some((*count, rest))
        }
    }
}

/// The header of a version, field by field, and the bytes after it.
#[tactic(auto, unfolding(crate::specs::Reading::header_at))]
fn read_header_fields<'a>(
    alloc: Global,
    magic: &[u8],
    most: usize,
    bytes: &'a [u8],
) -> Result<(Channels, &'a [u8]), CodeError>
    ensures { Gives (λ x. (x.0, x.1.now)) result (header_at magic.now most bytes.now) }
{
    let rest = read_magic(magic, bytes).ok_or(FAULT)?;
    let (count, rest) = read_count(most, rest).ok_or(FAULT)?;
    read_channels(alloc, count, rest)
}

/// The channels of the header of the version with this magic and this most of channels, whatever their names and the sizes of their
/// contents, and the bytes after it. `BadTrace { at: 0 }` where no such header stands there.
pub fn read_table<'a>(
    alloc: Global,
    magic: &[u8],
    most: usize,
    bytes: &'a [u8],
) -> Result<(Channels, &'a [u8]), CodeError>
    ensures found { IfOk result (λ x. AreChannels most x.0 × (bytes.now ≡ table_bytes magic.now x.0 ++ x.1.now)) }
    ensures only { (channels : List Channel) (rest : List ℕ) → AreChannels most channels → bytes.now ≡ table_bytes magic.now channels ++ rest
        → MatchResult result (λ x. (x.0 ≡ channels) × (x.1.now ≡ rest)) (λ e. e ≡ CodeError.Memory) }
    ensures fault { IfErr result (λ e. (e ≡ CodeError.Memory) ⊎ (e ≡ CodeError.BadTrace 0)) }
{
    read_header_fields(alloc, magic, most, bytes)
}

/// Whether one of the channels has this name.
fn has_name(channels: &[Channel], name: &[u8]) -> bool
    ensures { IsTrue result ↔ Any (λ c. c.name ≡ name.now) channels.now }
{
    channels
        .iter()
        .any(|channel| channel.name.as_slice() == name)
}

/// Whether no two channels have the same name.
pub fn names_differ(channels: &[Channel]) -> bool
    ensures { IsTrue result ↔ AllPairs (λ (a b : Channel). a.name ≢ b.name) channels.now }
{
    for (i, channel) in channels.iter().enumerate() {
        if has_name(&channels[..i], channel.name.as_slice()) {
            return false;
        }
    }
    true
}

/// The header at the front of the bytes, and the bytes after it. `BadTrace { at: 0 }` where no lawful
/// header stands there.
pub(crate) fn read_header(alloc: Global, bytes: &[u8]) -> Result<(Channels, &[u8]), CodeError>
    ensures found { IfOk result (λ x. IsTable x.0 × (bytes.now ≡ header_bytes x.0 ++ x.1.now)) }
    ensures only { (channels : List Channel) (rest : List ℕ) → IsTable channels → bytes.now ≡ header_bytes channels ++ rest
        → MatchResult result (λ x. (x.0 ≡ channels) × (x.1.now ≡ rest)) (λ e. e ≡ CodeError.Memory) }
    ensures fault { IfErr result (λ e. (e ≡ CodeError.Memory) ⊎ (e ≡ CodeError.BadTrace 0)) }
{
    let (channels, rest) = read_table(alloc, &MAGIC, MOST_CHANNELS, bytes)?;
    if !names_differ(channels.as_slice()) {
        return Err(FAULT);
    }
    if all_contents_len(channels.as_slice()) > MOST_CONTENT_BYTES {
        return Err(FAULT);
    }
    Ok((channels, rest))
}
