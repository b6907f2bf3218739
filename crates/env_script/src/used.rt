//! Lines that have words, and the first of them.

ghost use Rattle.std.specs.Prelude.{◌≡◌, ◌≤◌, length};
ghost use Rattle.std.specs.List.{prefix_len};
ghost use Rattle.std.specs.Str.{bytes_eq};
ghost use Rattle.run_model.specs.vidi_bits.Findings.{is_nil};
ghost use Rattle.env_script.specs.Used.{is_blank, number_after, number_in};

use run_model::vidi_bits::Name;
use run_model::vidi_lines::{Line, Names, number};

fn has_none(words: &Names) -> bool
    ensures { result ≡ is_nil words.now }
{
    words.len() == 0
}

/// Whether a line has no words. A bad line has some.
pub fn is_blank(line: &Option<Line>) -> bool
    ensures { result ≡ is_blank line.now }
{
    match line {
        Some(line) => has_none(&line.words),
        None => false,
    }
}

/// How many lines stand before the first one with words.
pub fn blank_lines(lines: &[Option<Line>]) -> usize
    ensures value { result ≡ prefix_len is_blank lines.now }
    ensures fits { result ≤ length lines.now }
{
    lines.iter().take_while(|line| is_blank(*line)).count()
}

pub fn is_word(word: &[u8], text: &[u8]) -> bool
    ensures { result ≡ bytes_eq word.now text.now }
{
    word == text
}

/// The number of words that are this one and a number.
fn number_after(text: &[u8], words: &[Name]) -> Option<u128>
    ensures { result ≡ number_after text.now words.now }
{
    match words {
        [word, n] if is_word(word.as_slice(), text) => number(n.as_slice()),
        _ => None,
    }
}

/// The number of a line that is this word and a number.
pub fn number_in(text: &[u8], line: &Option<Line>) -> Option<u128>
    ensures { result ≡ number_in text.now line.now }
{
    match line {
        Some(line) => number_after(text, line.words.as_slice()),
        None => None,
    }
}
