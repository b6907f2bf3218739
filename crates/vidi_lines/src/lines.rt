//! The lines of a text and their words.

ghost use Rattle.std.specs.Prelude.{◌≡◌, ◌≤◌, ◌<◌, ◌^◌, ◌+◌, ◌++◌, [], ◌∷◌, not, IfOk, OnOk, length, drop, map};
ghost use Rattle.std.specs.List.{filter, position_or_len};
ghost use Rattle.vidi_bits.specs.Findings.{is_nil};
ghost use Rattle.vidi_lines.specs.Lines.{is_newline, is_hash, is_blank, may_stand, before_comment, is_bad, words_between, HasLines};
ghost use Rattle.vidi_lines.specs.Lines.{HasWords, file_lines, line_unless_bad};

use crate::error::LineError;
use std::alloc::Global;
use vidi_bits::{Items, Memory, Name, copied};

/// A list of names.
pub type Names = Items<Name>;

/// The words of a line; none where the line has none.
#[derive(Drop)]
pub struct Line {
    pub words: Names,
}

/// A list of lines: line i is at place i - 1.
pub type Lines = Items<Line>;

/// A list of lines of which some may be bad: line i is at place i - 1, and it is `None` where it is bad.
pub type ReadLines = Items<Option<Line>>;

fn is_blank(b: u8) -> bool
    ensures { result ≡ is_blank b }
{
    b == b' ' || b == b'\t' || b == b'\r'
}

/// Whether a byte may stand outside comments.
fn may_stand(b: u8) -> bool
    ensures { result ≡ may_stand b }
{
    is_blank(b) || (33 <= b && b <= 126)
}

/// The number of bytes up to the next newline, or to the end.
fn line_len(bytes: &[u8]) -> usize
    ensures value { result ≡ position_or_len is_newline bytes.now }
    ensures fits { result ≤ length bytes.now }
{
    bytes.iter().take_while(|b| **b != b'\n').count()
}

/// The number of bytes up to the next blank, or to the end.
fn word_len(text: &[u8]) -> usize
    ensures value { result ≡ position_or_len is_blank text.now }
    ensures fits { result ≤ length text.now }
{
    text.iter().take_while(|b| !is_blank(**b)).count()
}

/// The number of bytes up to the comment, or to the end.
fn comment_at(line: &[u8]) -> usize
    ensures value { result ≡ position_or_len is_hash line.now }
    ensures fits { result ≤ length line.now }
{
    line.iter().take_while(|b| **b != b'#').count()
}

/// The line up to its comment.
fn before_comment(line: &[u8]) -> &[u8]
    ensures { result.now ≡ before_comment line.now }
{
    &line[..comment_at(line)]
}

/// What stands behind the first `n` bytes and the one that ends them, where one does.
fn behind(bytes: &[u8], n: usize) -> &[u8]
    ensures { result.now ≡ drop (n + 1) bytes.now }
{
    if n < bytes.len() {
        &bytes[n + 1..]
    } else {
        &[]
    }
}

/// Whether a byte stands outside the comment that may not.
#[tactic(auto, unfolding(crate::specs::Lines::is_bad))]
fn is_bad(line: &[u8]) -> bool
    ensures { result ≡ is_bad line.now }
{
    before_comment(line).iter().any(|b| !may_stand(*b))
}

/// Adds a copy of a word that isn't empty.
fn push_word(alloc: Global, words: &mut Names, word: &[u8]) -> Result<(), Memory>
    ensures { OnOk result (words.new ≡ words.old ++ filter (λ part. not (is_nil part)) (word.now ∷ [])) }
{
    if word.is_empty() {
        return Ok(());
    }
    let name = copied(alloc, word)?;
    words.push(name)
}

/// The words of a text that stand between blanks.
fn words_between(alloc: Global, text: &[u8]) -> Result<Names, Memory>
    ensures { IfOk result (λ words. words ≡ words_between text.now) }
{
    let mut words = Names::new(alloc);
    let mut rest = text;
    while !rest.is_empty() {
        let len = word_len(rest);
        push_word(alloc, &mut words, &rest[..len])?;
        rest = behind(rest, len);
    }
    Ok(words)
}

/// The words of the line with this number.
fn line_of(alloc: Global, number: u32, line: &[u8]) -> Result<Line, LineError>
    ensures { HasWords number line.now result }
{
    if is_bad(line) {
        return Err(LineError::BadLine { line: number });
    }
    let words = words_between(alloc, before_comment(line))?;
    Ok(Line { words })
}

/// The words of each line of a file. A line ends at a newline or at the end of the file; `#` begins a comment to its
/// end; words stand between spaces, tabs and carriage returns.
///
/// `BadLine` comes exactly where outside comments another byte than these and printable ASCII stands, with the first
/// such line, counted from 1. `Memory` comes where no memory was found. Each byte is read a bounded number of times.
pub fn lines_of(alloc: Global, bytes: &[u8]) -> Result<Lines, LineError>
    requires { length bytes.now < 2 ^ 31 }
    ensures lines { HasLines bytes.now result }
    ensures few { IfOk result (λ lines. length lines ≤ length bytes.now) }
{
    let mut lines = Lines::new(alloc);
    let mut rest = bytes;
    while !rest.is_empty() {
        let len = line_len(rest);
        let number = lines.len() as u32 + 1;
        let line = line_of(alloc, number, &rest[..len])?;
        lines.push(line)?;
        rest = behind(rest, len);
    }
    Ok(lines)
}

/// The words of a line, `None` where it is bad.
fn read_line(alloc: Global, line: &[u8]) -> Result<Option<Line>, Memory>
    ensures { IfOk result (λ read. read ≡ line_unless_bad line.now) }
{
    if is_bad(line) {
        return Ok(None);
    }
    let words = words_between(alloc, before_comment(line))?;
    Ok(Some(Line { words }))
}

/// The words of each line of a file, as `lines_of` says, with `None` for each line in which outside comments a byte
/// stands that may not: for a reader that looks at the lines before a bad one too.
///
/// `Memory` comes where no memory was found. Each byte is read a bounded number of times.
pub fn each_line(alloc: Global, bytes: &[u8]) -> Result<ReadLines, Memory>
    ensures lines { IfOk result (λ lines. lines ≡ map line_unless_bad (file_lines bytes.now)) }
    ensures few { IfOk result (λ lines. length lines ≤ length bytes.now) }
{
    let mut lines = ReadLines::new(alloc);
    let mut rest = bytes;
    while !rest.is_empty() {
        let end = line_len(rest);
        let line = read_line(alloc, &rest[..end])?;
        lines.push(line)?;
        rest = behind(rest, end);
    }
    Ok(lines)
}
