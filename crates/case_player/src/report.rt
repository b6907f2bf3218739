//! The report of what was played.

use crate::case::Case;
use crate::ending::{Ending, FileMap};
use crate::error::{FileError, PlayError};
use crate::score::Score;
use std::alloc::Global;
use vidi_io::Sink;

/// How many bytes of a file are shown.
const SHOWN_BYTES: usize = 256;

/// Writes how many of how many cases were right.
pub fn report_score<O: Sink>(
    alloc: Global,
    name: &str,
    score: Score,
    report: &mut O,
) -> Result<(), PlayError> {
    let right = score.right;
    let all = score.all;
    let line = format!(in alloc; "{name}: {right} of {all}\n")?;
    report.push(line.as_bytes())?;
    Ok(())
}

/// Writes why the cases of a file can't be told.
pub fn report_file_error<O: Sink>(
    alloc: Global,
    name: &str,
    error: FileError,
    report: &mut O,
) -> Result<(), PlayError> {
    let line = format!(in alloc; "{name} {error}\n")?;
    report.push(line.as_bytes())?;
    Ok(())
}

/// Writes a case that wasn't right: where it stands, its words, what was wanted and what came.
pub fn report_case<O: Sink>(
    alloc: Global,
    name: &str,
    case: &Case,
    wanted: Option<&Ending>,
    came: &Ending,
    report: &mut O,
) -> Result<(), PlayError> {
    let line = case.line;
    let place = format!(in alloc; "{name} line {line}:")?;
    report.push(place.as_bytes())?;
    report_words(case, report)?;
    report_fault(alloc, case, report)?;
    if case.negative {
        report.push(b"  wanted to fail\n")?;
    }
    match wanted {
        Some(wanted) => {
            report_ending(alloc, "wanted", wanted, report)?;
            report_ending(alloc, "came", came, report)?;
            report_files(alloc, "wanted", &wanted.files, &came.files, report)?;
            report_files(alloc, "came", &came.files, &wanted.files, report)
        }
        None => report_ending(alloc, "came", came, report),
    }
}

/// Writes the words of a case and the line's end.
fn report_words<O: Sink>(case: &Case, report: &mut O) -> Result<(), PlayError> {
    for word in case.words.as_slice() {
        report.push(b" ")?;
        report.push(word.as_str().as_bytes())?;
    }
    report.push(b"\n")?;
    Ok(())
}

/// Writes what can't be read of a case, where that is so.
fn report_fault<O: Sink>(alloc: Global, case: &Case, report: &mut O) -> Result<(), PlayError> {
    if let Some(line) = case.fault {
        let text = format!(in alloc; "  line {line} can't be read\n")?;
        report.push(text.as_bytes())?;
    }
    if case.wanted.is_none() {
        report.push(b"  no exit number\n")?;
    }
    Ok(())
}

/// Writes an exit number and a text.
fn report_ending<O: Sink>(
    alloc: Global,
    word: &str,
    ending: &Ending,
    report: &mut O,
) -> Result<(), PlayError> {
    let exit = ending.exit;
    let line = format!(in alloc; "  {word} {exit}\n")?;
    report.push(line.as_bytes())?;
    report.push(ending.text.as_slice())?;
    Ok(())
}

/// Writes the files of an ending that are not the same in the other.
fn report_files<O: Sink>(
    alloc: Global,
    word: &str,
    files: &FileMap,
    others: &FileMap,
    report: &mut O,
) -> Result<(), PlayError> {
    for (name, bytes) in files.iter() {
        let is_same = match others.get(name.as_str()) {
            Some(other) => other.as_slice() == bytes.as_slice(),
            None => false,
        };
        if !is_same {
            report_file(alloc, word, name.as_str(), bytes.as_slice(), report)?;
        }
    }
    Ok(())
}

/// Writes a file's length and its first bytes, in hexadecimal.
fn report_file<O: Sink>(
    alloc: Global,
    word: &str,
    name: &str,
    bytes: &[u8],
    report: &mut O,
) -> Result<(), PlayError> {
    let count = bytes.len();
    let shown = &bytes[..count.min(SHOWN_BYTES)];
    let digits = hex::encode(alloc, shown)?;
    let line = format!(in alloc; "  {word} file {name} of {count} bytes {digits}\n")?;
    report.push(line.as_bytes())?;
    Ok(())
}
