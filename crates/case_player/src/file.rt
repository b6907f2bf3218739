//! The files that a case file gives.

use crate::ending::FileMap;
use crate::mark::Form;
use crate::section::Section;
use hex::FromHexError;
use std::alloc::Global;
use vidi_io::vidi_bits::Memory;

/// Adds a section's file, and tells whether it has a name, is the first of this name, and can be read.
pub fn add_file(
    alloc: Global,
    files: &mut FileMap,
    section: &Section<'_>,
    form: Form,
) -> Result<bool, Memory> {
    let name = section.rest;
    if name.is_empty() || files.contains_key(name) {
        return Ok(false);
    }
    match bytes_of(alloc, section.text.as_str(), form)? {
        Some(bytes) => files.insert(String::from_str(alloc, name)?, bytes)?,
        None => return Ok(false),
    };
    Ok(true)
}

/// The bytes that a text gives in this form, where it gives some.
fn bytes_of(alloc: Global, text: &str, form: Form) -> Result<Option<Vec<u8>>, Memory> {
    match form {
        Form::Text => Ok(Some(Vec::from_slice(alloc, text.as_bytes())?)),
        Form::Hex => hex_bytes(alloc, text),
        Form::Pieces => pieces(alloc, text),
    }
}

/// The bytes of the hexadecimal digits of a text, where it has nothing else but white space.
fn hex_bytes(alloc: Global, text: &str) -> Result<Option<Vec<u8>>, Memory> {
    let mut digits = String::new(alloc);
    for part in text.split_ascii_whitespace() {
        digits.push_str(part)?;
    }
    match hex::decode(alloc, digits) {
        Ok(bytes) => Ok(Some(bytes)),
        Err(FromHexError::OutOfMemory) => Err(Memory),
        Err(_) => Ok(None),
    }
}

/// The bytes of a text whose lines are pieces, where all of them are.
fn pieces(alloc: Global, text: &str) -> Result<Option<Vec<u8>>, Memory> {
    let mut bytes = Vec::new(alloc);
    for line in text.lines() {
        let Some((times, piece)) = times_and_piece(line) else {
            return Ok(None);
        };
        match piece_bytes(alloc, piece)? {
            Some(piece) => add_times(&mut bytes, times, piece.as_slice())?,
            None => return Ok(None),
        }
    }
    Ok(Some(bytes))
}

/// A number and what stands behind it and a space.
fn times_and_piece(line: &str) -> Option<(u32, &str)> {
    let (times, piece) = line.split_once(' ')?;
    Some((times.parse().ok()?, piece))
}

/// The bytes of a piece: a text between quotes, in which `\n` is a line feed, or hexadecimal digits.
fn piece_bytes(alloc: Global, piece: &str) -> Result<Option<Vec<u8>>, Memory> {
    match quoted(piece) {
        Some(text) => {
            let text = text.replace(alloc, "\\n", "\n")?;
            Ok(Some(text.into_bytes()))
        }
        None => hex_bytes(alloc, piece),
    }
}

/// What stands between quotes.
fn quoted(piece: &str) -> Option<&str> {
    piece.strip_prefix('"')?.strip_suffix('"')
}

/// Adds a piece so many times.
fn add_times(bytes: &mut Vec<u8>, times: u32, piece: &[u8]) -> Result<(), Memory> {
    for _ in 0..times {
        bytes.extend_from_slice(piece)?;
    }
    Ok(())
}
