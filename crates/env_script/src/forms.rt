//! The forms of a script's lines.

ghost use Rattle.std.specs.Prelude.{◌≡◌, IfOk};
ghost use Rattle.env_script.specs.Forms.{keyword_of, channel_named, numbers_of, send_of, take_of, wait_of, after_of, said_of, line_of};
ghost use Rattle.env_script.specs.Forms.{is_reset, reset_of, script_line};

use crate::said::{Said, ScriptLine, StepLine};
use crate::used::is_word;
use run_model::trace_model::Channel;
use run_model::vidi_bits::{Memory, Name, Numbers};
use run_model::vidi_lines::number;
use std::alloc::Global;

/// The word behind a channel's name.
#[derive(Clone, Copy, PartialEq, Eq)]
pub enum Keyword {
    Send,
    Take,
    Wait,
    After,
}

#[tactic(auto, unfolding(crate::specs::Forms::keyword_of))]
fn keyword_of(word: &[u8]) -> Option<Keyword>
    ensures { result ≡ keyword_of word.now }
{
    if is_word(word, b"send") {
        Some(Keyword::Send)
    } else if is_word(word, b"take") {
        Some(Keyword::Take)
    } else if is_word(word, b"wait") {
        Some(Keyword::Wait)
    } else if is_word(word, b"after") {
        Some(Keyword::After)
    } else {
        None
    }
}

/// The number of the channel with this name, where there is one.
fn channel_named(channels: &[Channel], name: &[u8]) -> Option<usize>
    ensures { result ≡ channel_named 0 channels.now name.now }
{
    for (c, channel) in channels.iter().enumerate() {
        if is_word(name, channel.name.as_slice()) {
            return Some(c);
        }
    }
    None
}

/// The numbers that words write, `None` where one of them is no number.
fn numbers_of(alloc: Global, words: &[Name]) -> Result<Option<Numbers>, Memory>
    ensures { IfOk result (λ ns. ns ≡ numbers_of words.now) }
{
    let mut numbers = Numbers::new(alloc);
    for word in words {
        let Some(n) = number(word.as_slice()) else {
            return Ok(None);
        };
        numbers.push(n)?;
    }
    Ok(Some(numbers))
}

fn send_of(alloc: Global, words: &[Name]) -> Result<Option<Said>, Memory>
    ensures { IfOk result (λ said. said ≡ send_of words.now) }
{
    match numbers_of(alloc, words)? {
        Some(content) => Ok(Some(Said::Send { content })),
        None => Ok(None),
    }
}

fn take_of(word: &[u8]) -> Option<Said>
    ensures { result ≡ take_of word.now }
{
    if is_word(word, b"all") {
        return Some(Said::TakeAll);
    }
    let count = number(word)?;
    Some(Said::Take { count })
}

fn wait_of(word: &[u8]) -> Option<Said>
    ensures { result ≡ wait_of word.now }
{
    let cycles = number(word)?;
    Some(Said::Wait { cycles })
}

fn after_of(channels: &[Channel], name: &[u8], word: &[u8]) -> Option<Said>
    ensures { result ≡ after_of channels.now name.now word.now }
{
    let channel = channel_named(channels, name);
    let count = number(word)?;
    Some(Said::After { channel, count })
}

/// What the words behind the keyword say, `None` where they have no form.
fn said_of(
    alloc: Global,
    channels: &[Channel],
    keyword: Keyword,
    words: &[Name],
) -> Result<Option<Said>, Memory>
    ensures { IfOk result (λ said. said ≡ said_of channels.now keyword words.now) }
{
    match (keyword, words) {
        (Keyword::Send, _) => send_of(alloc, words),
        (Keyword::Take, [n]) => Ok(take_of(n.as_slice())),
        (Keyword::Wait, [n]) => Ok(wait_of(n.as_slice())),
        (Keyword::After, [name, n]) => Ok(after_of(channels, name.as_slice(), n.as_slice())),
        _ => Ok(None),
    }
}

/// What the words of the line with this number say, `None` where they have no form of a step.
fn line_of(
    alloc: Global,
    channels: &[Channel],
    line: u32,
    words: &[Name],
) -> Result<Option<StepLine>, Memory>
    ensures { IfOk result (λ l. l ≡ line_of channels.now line words.now) }
{
    let [name, keyword, rest @ ..] = words else {
        return Ok(None);
    };
    let Some(keyword) = keyword_of(keyword.as_slice()) else {
        return Ok(None);
    };
    let channel = channel_named(channels, name.as_slice());
    match said_of(alloc, channels, keyword, rest)? {
        Some(said) => Ok(Some(StepLine {
            line,
            channel,
            said,
        })),
        None => Ok(None),
    }
}

/// Whether the words begin as those of a reset line do.
pub fn is_reset(words: &[Name]) -> bool
    ensures { result ≡ is_reset words.now }
{
    match words {
        [first, second, ..] => {
            is_word(first.as_slice(), b"reset") && is_word(second.as_slice(), b"at")
        }
        _ => false,
    }
}

fn reset_of(line: u32, words: &[Name]) -> Option<ScriptLine>
    ensures { result ≡ reset_of line words.now }
{
    let [_, _, time] = words else {
        return None;
    };
    let time = number(time.as_slice())?;
    Some(ScriptLine::Reset { line, time })
}

/// What the words of the line with this number say, `None` where they have no form of a line behind the first one with
/// words.
pub fn script_line(
    alloc: Global,
    channels: &[Channel],
    line: u32,
    words: &[Name],
) -> Result<Option<ScriptLine>, Memory>
    ensures { IfOk result (λ l. l ≡ script_line channels.now line words.now) }
{
    if is_reset(words) {
        return Ok(reset_of(line, words));
    }
    match line_of(alloc, channels, line, words)? {
        Some(step) => Ok(Some(ScriptLine::Step(step))),
        None => Ok(None),
    }
}
