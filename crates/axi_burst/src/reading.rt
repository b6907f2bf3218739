//! Reads an AXI file.

ghost use Rattle.std.specs.Prelude.{◌≡◌, ◌<◌, ◌+◌, ◌^◌, ◌++◌, ◌∷◌, [], length, IfOk, OnOk};
ghost use Rattle.std.specs.List.{list_any};
ghost use Rattle.axi_burst.specs.Kinds.{role_number, same_entry, is_of, is_said, has_role, same, is_whole};
ghost use Rattle.axi_burst.specs.Reading.{Takes, ReadsLines, ReadsAxi, read_lines, is_keyword, begins_as, is_line_of, has_line, has_five};

use crate::axi_text::{AxiLine, AxiLines, AxiText, Entry, Role};
use crate::error::AxiError;
use crate::forms::{Keyword, beat_of, entry_of, keyword_of};
use std::alloc::Global;
use vidi_lines::vidi_bits::Name;
use vidi_lines::{Line, each_line};

/// What is known behind some lines: the data bus's bytes, where a line had words, and what the lines behind that one say.
#[derive(Drop)]
pub struct Known {
    pub beat: Option<u32>,
    pub lines: AxiLines,
}

fn role_number(role: Role) -> u32
    ensures { result ≡ role_number role }
{
    match role {
        Role::WriteAddress => 0,
        Role::WriteData => 1,
        Role::WriteResponse => 2,
        Role::ReadAddress => 3,
        Role::ReadData => 4,
    }
}

/// Whether both are lines of one kind, of which a file has at most one.
fn same_entry(a: &Entry, b: &Entry) -> bool
    ensures { result ≡ same_entry a.now b.now }
{
    match (a, b) {
        (Entry::Channel { role, .. }, Entry::Channel { role: other, .. }) => {
            role_number(*role) == role_number(*other)
        }
        (Entry::Memory { .. }, Entry::Memory { .. }) => true,
        (Entry::Data { .. }, Entry::Data { .. }) => true,
        _ => false,
    }
}

fn is_said(lines: &[AxiLine], entry: &Entry) -> bool
    ensures { result ≡ is_said lines.now entry.now }
{
    for l in lines {
        if same_entry(&l.entry, entry) {
            return true;
        }
    }
    false
}

pub(crate) fn is_of(role: Role, entry: &Entry) -> bool
    ensures { result ≡ is_of role entry.now }
{
    match entry {
        Entry::Channel { role: own, .. } => role_number(role) == role_number(*own),
        _ => false,
    }
}

fn has_role(lines: &[AxiLine], role: Role) -> bool
    ensures { result ≡ has_role lines.now role }
{
    for l in lines {
        if is_of(role, &l.entry) {
            return true;
        }
    }
    false
}

pub(crate) fn same(a: bool, b: bool) -> bool
    ensures { result ≡ same a b }
{
    if a { b } else { !b }
}

/// Whether the channels of writes are all there or all absent, and those of reads likewise, and some are there.
fn is_whole(lines: &[AxiLine]) -> bool
    ensures { result ≡ is_whole lines.now }
{
    let writes = has_role(lines, Role::WriteAddress);
    let reads = has_role(lines, Role::ReadAddress);
    same(writes, has_role(lines, Role::WriteData))
        && same(writes, has_role(lines, Role::WriteResponse))
        && same(reads, has_role(lines, Role::ReadData))
        && (writes || reads)
}

/// Whether the first word of a line says the channel that has this role.
fn is_keyword(role: Role, keyword: Option<Keyword>) -> bool
    ensures { result ≡ is_keyword role keyword }
{
    match keyword {
        Some(Keyword::Channel { role: own }) => role_number(role) == role_number(own),
        _ => false,
    }
}

fn begins_as(role: Role, words: &[Name]) -> bool
    ensures { result ≡ begins_as role words.now }
{
    match words.first() {
        Some(word) => is_keyword(role, keyword_of(word.as_slice())),
        None => false,
    }
}

fn is_line_of(role: Role, line: &Option<Line>) -> bool
    ensures { result ≡ is_line_of role line.now }
{
    match line {
        Some(line) => begins_as(role, line.words.as_slice()),
        None => false,
    }
}

fn has_line(lines: &[Option<Line>], role: Role) -> bool
    ensures { result ≡ has_line lines.now role }
{
    for line in lines {
        if is_line_of(role, line) {
            return true;
        }
    }
    false
}

/// Whether lines name the channels of all five roles.
fn has_five(lines: &[Option<Line>]) -> bool
    ensures { result ≡ has_five lines.now }
{
    has_line(lines, Role::WriteAddress)
        && has_line(lines, Role::WriteData)
        && has_line(lines, Role::WriteResponse)
        && has_line(lines, Role::ReadAddress)
        && has_line(lines, Role::ReadData)
}

impl Known {
    ghost use Rattle.std.specs.Prelude.{None};

    /// Nothing was read.
    fn new(alloc: Global) -> Known
        ensures beat { result.beat ≡ None }
        ensures lines { result.lines ≡ [] }
    {
        Known {
            beat: None,
            lines: AxiLines::new(alloc),
        }
    }

    /// Takes in the words of the line with this number, in a file that has all five channels or not.
    fn take_words(
        &mut self,
        alloc: Global,
        five: bool,
        number: u32,
        words: &[Name],
    ) -> Result<(), AxiError>
        ensures { Takes five self.old number words.now self.new result }
    {
        if words.is_empty() {
            return Ok(());
        }
        if self.beat.is_none() {
            let Some(beat) = beat_of(words) else {
                return Err(AxiError::Line { line: number });
            };
            self.beat = Some(beat);
            return Ok(());
        }
        let Some(entry) = entry_of(alloc, five, words)? else {
            return Err(AxiError::Line { line: number });
        };
        if is_said(self.lines.as_slice(), &entry) {
            return Err(AxiError::Line { line: number });
        }
        self.lines.push(AxiLine {
            line: number,
            entry,
        })?;
        Ok(())
    }
}

/// Reads lines, the first having number 1.
fn read_each(alloc: Global, lines: &[Option<Line>]) -> Result<AxiText, AxiError>
    requires { length lines.now < 2 ^ 31 }
    ensures { ReadsLines lines.now result }
{
    let five = has_five(lines);
    let mut known = Known::new(alloc);
    let mut number: u32 = 1;
    for line in lines {
        let Some(line) = line else {
            return Err(AxiError::Line { line: number });
        };
        known.take_words(alloc, five, number, line.words.as_slice())?;
        number += 1;
    }
    let Known { beat, lines } = known;
    match beat {
        Some(beat) if is_whole(lines.as_slice()) => Ok(AxiText { beat, lines }),
        _ => Err(AxiError::Line { line: number }),
    }
}

/// Reads an AXI file.
///
/// `Line` comes exactly where A1 holds: with the first line that is bad by its bytes, of no form, said before, or `data` in a file
/// without all five channels; else, where
/// of the channels of writes or of reads some are missing, or all channels are, with the number behind the last line's.
/// `Memory` comes where no memory was found. The time is linear in the length.
pub fn read_axi(alloc: Global, bytes: &[u8]) -> Result<AxiText, AxiError>
    requires { length bytes.now < 2 ^ 31 }
    ensures { ReadsAxi bytes.now result }
{
    let lines = each_line(alloc, bytes)?;
    read_each(alloc, lines.as_slice())
}
