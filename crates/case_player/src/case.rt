//! The cases of a case file.

use crate::ending::FileMap;
use crate::failing::Failing;
use crate::file::add_file;
use crate::mark::Mark;
use crate::section::Section;
use std::alloc::Global;
use std::collections::BTreeMap;
use vidi_io::vidi_bits::Memory;
use vidi_io::{Text, Words};

/// Which files a case begins with.
#[derive(Clone, Copy)]
pub enum Start {
    /// Those of its group.
    Fresh,
    /// Those that the case before left.
    Sequel,
}

/// What has to come of a call, but for the files.
#[derive(Drop)]
pub struct Wanted {
    pub exit: u8,
    pub text: Vec<u8>,
}

/// A call, and what has to come of it.
#[derive(Drop)]
pub struct Case {
    /// The number of its first line, from 1.
    pub line: usize,
    pub start: Start,
    /// Whether it is wanted to fail.
    pub negative: bool,
    pub words: Words,
    pub files: FileMap,
    pub failing: Vec<Failing>,
    /// `None` where the case doesn't say.
    pub wanted: Option<Wanted>,
    /// The files after the call that aren't as before it.
    pub left: FileMap,
    /// The number of the first line that can't be read, where there is one.
    pub fault: Option<usize>,
}

impl Case {
    /// A case with these words alone.
    pub fn new(
        alloc: Global,
        section: &Section<'_>,
        start: Start,
        negative: bool,
    ) -> Result<Case, Memory> {
        let mut case = Case {
            line: section.line,
            start,
            negative,
            words: words_of(alloc, section.rest)?,
            files: BTreeMap::new(alloc),
            failing: Vec::new(alloc),
            wanted: None,
            left: BTreeMap::new(alloc),
            fault: None,
        };
        if !section.text.is_empty() {
            case.spoil(section.line);
        }
        Ok(case)
    }

    /// Says that the line of this number can't be read, unless one before it can't.
    pub fn spoil(&mut self, line: usize) {
        if self.fault.is_none() {
            self.fault = Some(line);
        }
    }

    /// Adds what a section says of the case.
    pub fn add(&mut self, alloc: Global, section: &Section<'_>) -> Result<(), Memory> {
        let is_read = match section.mark {
            Mark::File { form } => add_file(alloc, &mut self.files, section, form)?,
            Mark::Left { form } => add_file(alloc, &mut self.left, section, form)?,
            Mark::Failing => self.add_failing(alloc, section)?,
            Mark::Exit => self.add_wanted(alloc, section)?,
            _ => false,
        };
        if !is_read {
            self.spoil(section.line);
        }
        Ok(())
    }

    /// Adds a call that fails, and tells whether it can be read.
    fn add_failing(&mut self, alloc: Global, section: &Section<'_>) -> Result<bool, Memory> {
        let words: Vec<&str> = section.rest.split_whitespace().collect(alloc)?;
        match Failing::of(words.as_slice()) {
            Some(failing) => self.failing.push(failing)?,
            None => return Ok(false),
        }
        Ok(section.text.is_empty())
    }

    /// Adds the exit number and the text, and tells whether the number can be read and is the first.
    fn add_wanted(&mut self, alloc: Global, section: &Section<'_>) -> Result<bool, Memory> {
        if self.wanted.is_some() {
            return Ok(false);
        }
        let Ok(exit) = section.rest.parse::<u8>() else {
            return Ok(false);
        };
        let text = Vec::from_slice(alloc, section.text.as_bytes())?;
        self.wanted = Some(Wanted { exit, text });
        Ok(true)
    }
}

/// The words of a line, between white space.
fn words_of(alloc: Global, line: &str) -> Result<Words, Memory> {
    let mut words = Words::new(alloc);
    for word in line.split_whitespace() {
        words.push(Text::from_str(alloc, word)?)?;
    }
    Ok(words)
}
