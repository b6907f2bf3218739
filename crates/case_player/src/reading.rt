//! A case file read.

use crate::case::{Case, Start};
use crate::ending::FileMap;
use crate::error::FileError;
use crate::file::add_file;
use crate::mark::Mark;
use crate::section::{Section, sections_of};
use std::alloc::Global;
use std::collections::BTreeMap;

/// Cases that begin with the same files.
#[derive(Drop)]
pub struct Group {
    pub files: FileMap,
    pub cases: Vec<Case>,
}

/// The groups of cases of a case file's text, in order. `Line` comes at the first line outside cases that can't be
/// read; one in a case spoils the case alone.
pub fn read_cases(alloc: Global, text: &str) -> Result<Vec<Group>, FileError> {
    let sections = sections_of(alloc, text)?;
    let mut groups = Vec::new(alloc);
    groups.push(empty_group(alloc))?;
    for section in &sections {
        add_section(alloc, &mut groups, section)?;
    }
    Ok(groups)
}

/// A group without files and cases.
fn empty_group(alloc: Global) -> Group {
    Group {
        files: BTreeMap::new(alloc),
        cases: Vec::new(alloc),
    }
}

/// Adds a section to the last group, or as a group.
fn add_section(
    alloc: Global,
    groups: &mut Vec<Group>,
    section: &Section<'_>,
) -> Result<(), FileError> {
    let line = section.line;
    if matches!(section.mark, Mark::Title) && section.text.is_empty() {
        groups.push(empty_group(alloc))?;
        return Ok(());
    }
    match groups.last_mut() {
        Some(group) => group.add(alloc, section),
        None => Err(FileError::Line { line }),
    }
}

impl Group {
    /// Adds a section: as a case, to the last case, or as a file of the group.
    fn add(&mut self, alloc: Global, section: &Section<'_>) -> Result<(), FileError> {
        let line = section.line;
        match section.mark {
            Mark::Case => self.begin(alloc, section, Start::Fresh, false),
            Mark::Negative => self.begin(alloc, section, Start::Fresh, true),
            Mark::Sequel => self.begin(alloc, section, Start::Sequel, false),
            Mark::Title => Err(FileError::Line { line }),
            _ => match self.cases.last_mut() {
                Some(case) => Ok(case.add(alloc, section)?),
                None => self.add_common(alloc, section),
            },
        }
    }

    /// Begins a case. There is nothing that the first one could go on from.
    fn begin(
        &mut self,
        alloc: Global,
        section: &Section<'_>,
        start: Start,
        negative: bool,
    ) -> Result<(), FileError> {
        let mut case = Case::new(alloc, section, start, negative)?;
        if matches!(start, Start::Sequel) && self.cases.is_empty() {
            case.spoil(section.line);
        }
        self.cases.push(case)?;
        Ok(())
    }

    /// Adds a file of the group.
    fn add_common(&mut self, alloc: Global, section: &Section<'_>) -> Result<(), FileError> {
        let line = section.line;
        let is_read = match section.mark {
            Mark::File { form } => add_file(alloc, &mut self.files, section, form)?,
            _ => false,
        };
        if !is_read {
            return Err(FileError::Line { line });
        }
        Ok(())
    }
}
