//! The sections of a case file: each is a marked line and the lines that belong to it.

use crate::error::FileError;
use crate::mark::Mark;
use std::alloc::Global;

/// A marked line and the text below it.
#[derive(Drop)]
pub struct Section<'a> {
    /// The number of the marked line, from 1.
    pub line: usize,
    pub mark: Mark,
    /// What stands behind the mark and a space.
    pub rest: &'a str,
    /// The lines up to the next mark without the comments, each with its line feed.
    pub text: String,
}

/// The sections of a text, in order. `Line` comes where a line stands above the first mark or has no line feed.
pub fn sections_of(alloc: Global, text: &str) -> Result<Vec<Section<'_>>, FileError> {
    let mut sections = Vec::new(alloc);
    let mut number: usize = 0;
    for line in text.split_inclusive('\n') {
        number = number.saturating_add(1);
        add_line(alloc, &mut sections, number, line)?;
    }
    Ok(sections)
}

/// Adds the line of this number, a section of its own where it is marked.
fn add_line<'a>(
    alloc: Global,
    sections: &mut Vec<Section<'a>>,
    number: usize,
    line: &'a str,
) -> Result<(), FileError> {
    let Some(bare) = line.strip_suffix('\n') else {
        return Err(FileError::Line { line: number });
    };
    if is_comment(bare) {
        return Ok(());
    }
    if let Some((mark, rest)) = split_mark(bare) {
        let text = String::new(alloc);
        sections.push(Section {
            line: number,
            mark,
            rest,
            text,
        })?;
        return Ok(());
    }
    match sections.last_mut() {
        Some(section) => Ok(section.text.push_str(line)?),
        None => Err(FileError::Line { line: number }),
    }
}

/// Whether a line is a comment.
fn is_comment(line: &str) -> bool {
    line == "##" || line.starts_with("## ")
}

/// The mark of a line and what stands behind it, where the line has one.
fn split_mark(line: &str) -> Option<(Mark, &str)> {
    match line.split_once(' ') {
        Some((spelling, rest)) => Some((Mark::of(spelling)?, rest)),
        None => Some((Mark::of(line)?, "")),
    }
}
