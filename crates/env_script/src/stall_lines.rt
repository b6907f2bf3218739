//! The lines of a stall plan.

ghost use Rattle.std.specs.Prelude.{◌≡◌, ◌+◌, ◌<◌, ◌≤◌, ◌^◌, length, IfOk, IfSome, OnOk};
ghost use Rattle.env_script.specs.Plan.{AreSome};
ghost use Rattle.env_script.specs.Stalls.{capacity_in, amount_of, cycles_of, drain_of, drain_in, TakesDrain, ReadsDrains};

use crate::error::StallError;
use crate::lawful::between;
use crate::stalls::{Drain, Drains};
use crate::used::{is_blank, is_word, number_in};
use run_model::trace_model::MOST_CYCLES;
use run_model::vidi_bits::Name;
use run_model::vidi_lines::{Line, number};
use std::alloc::Global;

/// The number of a line `capacity N`, where it is 1 to 16,777,216.
pub fn capacity_in(line: &Option<Line>) -> Option<u32>
    ensures { result ≡ capacity_in line.now }
{
    let n = number_in(b"capacity", line)?;
    if between(1, 16_777_216, n) {
        Some(n as u32)
    } else {
        None
    }
}

/// How many bytes a word allows, where it is `all` or a number of at most 16,777,216.
fn amount_of(word: &[u8]) -> Option<Option<u32>>
    ensures { result ≡ amount_of word.now }
{
    if is_word(word, b"all") {
        return Some(None);
    }
    let n = number(word)?;
    if n <= 16_777_216 {
        Some(Some(n as u32))
    } else {
        None
    }
}

/// How many cycles a word says, where it is 1 to `MOST_CYCLES`.
fn cycles_of(word: &[u8]) -> Option<u32>
    ensures said { result ≡ cycles_of word.now }
    ensures some { IfSome result (λ n. 1 ≤ n) }
{
    let n = number(word)?;
    if between(1, u128::from(MOST_CYCLES), n) {
        Some(n as u32)
    } else {
        None
    }
}

/// What the words of a line say, `None` where they have no form or a number out of range.
fn drain_of(words: &[Name]) -> Option<Drain>
    ensures said { result ≡ drain_of words.now }
    ensures some { IfSome result (λ d. 1 ≤ d.cycles) }
{
    match words {
        [word, amount, cycles] if is_word(word.as_slice(), b"drain") => {
            let allowance = amount_of(amount.as_slice())?;
            let cycles = cycles_of(cycles.as_slice())?;
            Some(Drain { allowance, cycles })
        }
        _ => None,
    }
}

/// What a line says; a bad line says nothing.
fn drain_in(line: &Option<Line>) -> Option<Drain>
    ensures said { result ≡ drain_in line.now }
    ensures some { IfSome result (λ d. 1 ≤ d.cycles) }
{
    match line {
        Some(line) => drain_of(line.words.as_slice()),
        None => None,
    }
}

/// Reads the line with this number.
fn read_drain(line: &Option<Line>, number: u32, drains: &mut Drains) -> Result<(), StallError>
    ensures taken { TakesDrain number line.now drains.old drains.new result }
    ensures some { OnOk result (AreSome drains.old → AreSome drains.new) }
    ensures few { OnOk result (length drains.new ≤ length drains.old + 1) }
{
    if is_blank(line) {
        return Ok(());
    }
    match drain_in(line) {
        Some(drain) => {
            drains.push(drain)?;
            Ok(())
        }
        None => Err(StallError::Line { line: number }),
    }
}

/// Reads lines, the first having this number.
pub fn read_drains(alloc: Global, first: u32, lines: &[Option<Line>]) -> Result<Drains, StallError>
    requires { first + length lines.now < 2 ^ 32 }
    ensures drains { ReadsDrains first lines.now result }
    ensures some { IfOk result AreSome }
    ensures few { IfOk result (λ drains. length drains ≤ length lines.now) }
{
    let mut drains = Drains::new(alloc);
    let mut number = first;
    for line in lines {
        read_drain(line, number, &mut drains)?;
        number += 1;
    }
    Ok(drains)
}
