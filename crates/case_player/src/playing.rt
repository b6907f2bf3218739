//! Cases played.

ghost use Rattle.std.specs.Prelude.{◌≡◌, ◌-◌, ◌^◌, ◌<◌, IfOk, IfSome, IsSome, IsSomeAnd, IsNone, min, vec_len};

use crate::caller::Caller;
use crate::case::{Case, Start};
use crate::ending::{Ending, FileMap, is_right};
use crate::error::{FileError, PlayError};
use crate::failing::{push_fails, shelf_fails};
use crate::reading::{Group, read_cases};
use crate::report::{report_case, report_file_error, report_score};
use crate::score::Score;
use std::alloc::Global;
use std::collections::BTreeMap;
use vidi_io::vidi_bits::Memory;
use vidi_io::{MemShelf, MemSink, ReadError, Shelf, Sink, Words, read_whole};

/// The most bytes that a case file may have.
const CASE_FILE_LIMIT: u64 = 67_108_864;

/// What plays the cases of a file, and the file's name.
#[derive(Drop)]
struct Stage<'a, C: Caller> {
    alloc: Global,
    caller: &'a C,
    name: &'a str,
}

/// Plays the case files of these names, one after the other, and reports how many of how many cases of each were
/// right, each that wasn't, and the sum. A file that can't be read, or has no case, counts as a case that wasn't right.
pub fn play_files<C: Caller, S: Shelf, O: Sink>(
    alloc: Global,
    caller: &C,
    names: &Words,
    shelf: &mut S,
    report: &mut O,
) -> Result<Score, PlayError> {
    let mut score = Score::none();
    for name in names.as_slice() {
        let played = play_file(alloc, caller, name.as_str(), shelf, report)?;
        score = score.with(played);
    }
    report_score(alloc, "all", score, report)?;
    Ok(score)
}

/// Plays one case file.
fn play_file<C: Caller, S: Shelf, O: Sink>(
    alloc: Global,
    caller: &C,
    name: &str,
    shelf: &mut S,
    report: &mut O,
) -> Result<Score, PlayError>
    ensures counted { IfOk result (λ score. 0 < score.all) }
{
    match read_whole(alloc, shelf, name, CASE_FILE_LIMIT) {
        Ok(bytes) => play_text(alloc, caller, name, bytes.as_slice(), report),
        Err(ReadError::Memory) => Err(PlayError::Memory),
        Err(_) => refuse_file(alloc, name, FileError::Unread, report),
    }
}

/// Plays the cases of a case file's text, and reports as `play_files` does of one file.
pub fn play_text<C: Caller, O: Sink>(
    alloc: Global,
    caller: &C,
    name: &str,
    text: &[u8],
    report: &mut O,
) -> Result<Score, PlayError>
    ensures counted { IfOk result (λ score. 0 < score.all) }
{
    let stage = Stage {
        alloc,
        caller,
        name,
    };
    match groups_of(alloc, text) {
        Ok(groups) => play_groups(&stage, groups.as_slice(), report),
        Err(error) => refuse_file(alloc, name, error, report),
    }
}

/// The groups of cases of a file's bytes.
fn groups_of(alloc: Global, text: &[u8]) -> Result<Vec<Group>, FileError> {
    match str::from_utf8(text) {
        Ok(text) => read_cases(alloc, text),
        Err(_) => Err(FileError::NoText),
    }
}

/// Reports that a file's cases can't be told. It counts as one case that wasn't right.
fn refuse_file<O: Sink>(
    alloc: Global,
    name: &str,
    error: FileError,
    report: &mut O,
) -> Result<Score, PlayError>
    ensures counted { IfOk result (λ score. score.all ≡ 1) }
    ensures wrong { IfOk result (λ score. score.right ≡ 0) }
{
    if matches!(error, FileError::Memory) {
        return Err(PlayError::Memory);
    }
    let score = Score::one(false);
    report_file_error(alloc, name, error, report)?;
    report_score(alloc, name, score, report)?;
    Ok(score)
}

/// Plays all groups, and reports their score.
fn play_groups<C: Caller, O: Sink>(
    stage: &Stage<'_, C>,
    groups: &[Group],
    report: &mut O,
) -> Result<Score, PlayError>
    ensures counted { IfOk result (λ score. 0 < score.all) }
{
    let mut score = Score::none();
    for group in groups {
        score = score.with(play_group(stage, group, report)?);
    }
    if score.all == 0 {
        return refuse_file(stage.alloc, stage.name, FileError::NoCase, report);
    }
    report_score(stage.alloc, stage.name, score, report)?;
    Ok(score)
}

/// Plays the cases of a group, each of which counts.
fn play_group<C: Caller, O: Sink>(
    stage: &Stage<'_, C>,
    group: &Group,
    report: &mut O,
) -> Result<Score, PlayError>
    ensures { IfOk result (λ score. score.all ≡ min (vec_len group.now.cases) (2 ^ 64 - 1)) }
{
    let mut score = Score::none();
    let mut left = group.files.clone()?;
    for case in &group.cases {
        let mut before = match case.start {
            Start::Fresh => group.files.clone()?,
            Start::Sequel => left,
        };
        put_all(&mut before, &case.files)?;
        let came = played(stage, case, &before)?;
        score = score.with(judge(stage, case, before, &came, report)?);
        left = came.files;
    }
    Ok(score)
}

/// Puts all of these files into a map.
fn put_all(files: &mut FileMap, more: &FileMap) -> Result<(), Memory> {
    for (name, bytes) in more.iter() {
        files.insert(name.clone()?, bytes.clone()?)?;
    }
    Ok(())
}

/// What comes of a case's call over these files.
fn played<C: Caller>(
    stage: &Stage<'_, C>,
    case: &Case,
    before: &FileMap,
) -> Result<Ending, Memory> {
    let alloc = stage.alloc;
    let mut shelf = shelf_of(alloc, case, before)?;
    let mut out = MemSink::new(alloc, push_fails(alloc, case.failing.as_slice())?);
    let exit = stage
        .caller
        .call(alloc, stage.name, &case.words, &mut shelf, &mut out);
    let text = Vec::from_slice(alloc, out.bytes())?;
    let mut files = BTreeMap::new(alloc);
    keep_files(alloc, &mut files, &shelf, before)?;
    keep_files(alloc, &mut files, &shelf, &case.left)?;
    keep_words(alloc, &mut files, &shelf, &case.words)?;
    Ok(Ending { exit, text, files })
}

/// A shelf of these files, whose calls fail as the case says.
fn shelf_of(alloc: Global, case: &Case, files: &FileMap) -> Result<MemShelf, Memory> {
    let mut shelf = MemShelf::new(alloc, shelf_fails(alloc, case.failing.as_slice())?);
    for (name, bytes) in files.iter() {
        shelf.put_file(name.as_str(), bytes.as_slice())?;
    }
    Ok(shelf)
}

/// Takes the shelf's files that are named in a map.
fn keep_files(
    alloc: Global,
    files: &mut FileMap,
    shelf: &MemShelf,
    names: &FileMap,
) -> Result<(), Memory> {
    for name in names.keys() {
        keep_file(alloc, files, shelf, name.as_str())?;
    }
    Ok(())
}

/// Takes the shelf's files that are named among these words.
fn keep_words(
    alloc: Global,
    files: &mut FileMap,
    shelf: &MemShelf,
    words: &Words,
) -> Result<(), Memory> {
    for word in words.as_slice() {
        keep_file(alloc, files, shelf, word.as_str())?;
    }
    Ok(())
}

/// Takes the shelf's file of this name, where there is one.
fn keep_file(
    alloc: Global,
    files: &mut FileMap,
    shelf: &MemShelf,
    name: &str,
) -> Result<(), Memory> {
    if let Some(bytes) = shelf.file(name) {
        let key = String::from_str(alloc, name)?;
        files.insert(key, Vec::from_slice(alloc, bytes)?)?;
    }
    Ok(())
}

/// Compares what came of a case with what it wants, and reports it where it wasn't right.
fn judge<C: Caller, O: Sink>(
    stage: &Stage<'_, C>,
    case: &Case,
    before: FileMap,
    came: &Ending,
    report: &mut O,
) -> Result<Score, PlayError>
    ensures { IfOk result (λ score. score.all ≡ 1) }
{
    let wanted = wanted_of(stage.alloc, case, before)?;
    let right = is_right(&wanted, came, case.negative);
    if !right {
        report_case(stage.alloc, stage.name, case, wanted.as_ref(), came, report)?;
    }
    Ok(Score::one(right))
}

/// What a case wants, where all of it can be read: the files are those before it but for the ones that it names.
fn wanted_of(alloc: Global, case: &Case, before: FileMap) -> Result<Option<Ending>, Memory>
    ensures spoiled { IsSome case.now.fault → IfOk result IsNone }
    ensures stated { IfOk result (λ found. IfSome found (λ ending. IsSomeAnd case.now.wanted (λ wanted. ending.exit ≡ wanted.exit))) }
    ensures whole { IfOk result (λ found. IfSome found (λ ending. IsSomeAnd case.now.wanted
        (λ wanted. ending.text.items ≡ wanted.text.items))) }
{
    let Some(wanted) = &case.wanted else {
        return Ok(None);
    };
    if case.fault.is_some() {
        return Ok(None);
    }
    let mut files = before;
    put_all(&mut files, &case.left)?;
    let text = Vec::from_slice(alloc, wanted.text.as_slice())?;
    Ok(Some(Ending {
        exit: wanted.exit,
        text,
        files,
    }))
}
