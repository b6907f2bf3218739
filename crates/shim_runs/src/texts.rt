//! The files of a case, and what is written of numbers, bytes and nets.

ghost use Rattle.std.specs.Prelude.{◌≤◌, IfOk, length};
ghost use Rattle.shim_cosim.specs.trace_model.declared.packet.TheConstants.{MOST_CYCLES};

use crate::ended::Ended;
use report_text::put;
use report_text::vidi_io::{Shelf, Text, read_whole};
use shim_cosim::trace_model::MOST_CYCLES;
use shim_cosim::vidi_lines::{Lines, lines_of};
use std::alloc::Global;
use vlog_parse::vidi_bits::{Bytes, Memory};

/// The longest file of a case, in bytes.
const TEXT_LIMIT: u64 = 4_194_304;

/// The bytes of a file.
pub(crate) fn bytes_in<S: Shelf>(alloc: Global, shelf: &mut S, name: &str) -> Result<Bytes, Ended>
    ensures { IfOk result (λ bytes. length bytes ≤ 4194304) }
{
    Ok(read_whole(alloc, shelf, name, TEXT_LIMIT)?)
}

/// The lines of a file, as words.
pub fn lines_in<S: Shelf>(alloc: Global, shelf: &mut S, name: &str) -> Result<Lines, Ended> {
    let bytes = bytes_in(alloc, shelf, name)?;
    Ok(lines_of(alloc, bytes.as_slice())?)
}

/// The number of at most `MOST_CYCLES` that a word writes.
pub fn cycles_of(word: &Text) -> Result<u32, Ended>
    ensures { IfOk result (λ n. n ≤ MOST_CYCLES) }
{
    match word.as_str().parse::<u32>() {
        Ok(n) if n <= MOST_CYCLES => Ok(n),
        _ => Err(Ended::Usage),
    }
}

/// Adds a number of at most 128 bits.
fn put_wide(alloc: Global, text: &mut Vec<u8>, n: u128) -> Result<(), Ended> {
    put(text, format!(in alloc; "{n}")?.as_bytes())?;
    Ok(())
}

/// Adds bytes in hexadecimal, and the end of the line.
pub(crate) fn put_bytes(alloc: Global, text: &mut Vec<u8>, bytes: &[u8]) -> Result<(), Ended> {
    let digits = hex::encode(alloc, bytes)?;
    put(text, digits.as_bytes())?;
    put(text, b"\n")?;
    Ok(())
}

/// `NAME NUMBER`, or `NAME none`
pub fn put_net(
    alloc: Global,
    text: &mut Vec<u8>,
    name: &Text,
    number: Option<u128>,
) -> Result<(), Ended> {
    put(text, name.as_str().as_bytes())?;
    put(text, b" ")?;
    match number {
        Some(number) => put_wide(alloc, text, number)?,
        None => put(text, b"none")?,
    }
    put(text, b"\n")?;
    Ok(())
}
