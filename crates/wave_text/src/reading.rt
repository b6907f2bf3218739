//! A text, read into what may be its wave.

ghost use Rattle.std.specs.Prelude.{◌≡◌, ◌<◌, ◌*◌, [], ◌∷◌, ◌++◌, List, ℕ, OnOk, IfOk, length, replicate, slice_set, drop};
ghost use Rattle.std.specs.List.{join_with_byte};
ghost use Rattle.vidi_lines.specs.Lines.{file_lines};
ghost use Rattle.wave_text.specs.Reading.{net_in, path_after, nets_in, read_nets, noted, is_mark, read_rows, IsCandidate, ReadsWave};
ghost use Rattle.wave_text.specs.Steps.{ReadsLine, ReadsRows};

use crate::error::WaveError;
use crate::lawful::{MOST_NUMBERS, is_wave};
use crate::matching::is_text;
use crate::wave::{Grid, Wave, WaveNet, WaveNets};
use crate::words::{cut_line, cut_word, number_of_bits, place_of, width_of, word_at};
use std::alloc::Global;
use vidi_lines::Names;
use vlog_lex::vidi_bits::{Memory, Name, Numbers, copied};

/// The name of a net that is called `base` in the instance `path`.
fn full_name(alloc: Global, path: &[Name], base: &[u8]) -> Result<Name, Memory>
    ensures { IfOk result (λ name. name ≡ join_with_byte 46 (path.now ++ base.now ∷ [])) }
{
    let mut name = Vec::new(alloc);
    for instance in path {
        name.extend_from_slice(instance.as_slice())?;
        name.push(b'.')?;
    }
    name.extend_from_slice(base)?;
    Ok(Name::from_vec(name))
}

/// Takes an instance in or off, where a line says so.
fn follow(alloc: Global, path: &mut Names, line: &[u8]) -> Result<(), Memory>
    ensures { OnOk result (path.new ≡ path_after path.old line.now) }
{
    let key = word_at(line, 0);
    if key == b"$scope".as_slice() {
        let name = copied(alloc, word_at(line, 2))?;
        return path.push(name);
    }
    if key == b"$upscope".as_slice() {
        path.pop();
    }
    Ok(())
}

/// Adds the net that a line declares, if it does.
fn declare(alloc: Global, nets: &mut WaveNets, path: &[Name], line: &[u8]) -> Result<(), Memory>
    ensures { OnOk result (nets.new ≡ nets.old ++ nets_in path.now line.now) }
{
    if word_at(line, 0) != b"$var".as_slice() {
        return Ok(());
    }
    let width = width_of(word_at(line, 2));
    let name = full_name(alloc, path, word_at(line, 4))?;
    nets.push(WaveNet { name, width })
}

/// The nets that a text declares, and what stands behind them.
fn read_nets<'a>(alloc: Global, text: &'a [u8]) -> Result<(WaveNets, &'a [u8]), Memory>
    ensures { IfOk result (λ read. read_nets [] [] (file_lines text.now) ≡ (read.0, file_lines read.1.now)) }
{
    let mut path = Names::new(alloc);
    let mut nets = WaveNets::new(alloc);
    let mut rest = text;
    'lines: while !rest.is_empty() {
        let (line, behind) = cut_line(rest);
        if line == b"$enddefinitions $end".as_slice() {
            return Ok((nets, behind));
        }
        declare(alloc, &mut nets, path.as_slice(), line)?;
        follow(alloc, &mut path, line)?;
        rest = behind;
    }
    Ok((nets, rest))
}

/// Writes a number at a place, where that is one.
fn put(numbers: &mut [u128], place: usize, x: u128)
    ensures { numbers.new ≡ slice_set numbers.old place x }
{
    if place < numbers.len() {
        numbers[place] = x;
    }
}

/// Takes in what a line tells of a net.
fn note(now: &mut [u128], line: &[u8])
    ensures { now.new ≡ noted now.old line.now }
{
    match line {
        [] => {}
        [b'b', rest @ ..] => {
            let (digits, id) = cut_word(rest);
            put(now, place_of(id), number_of_bits(digits));
        }
        [b, id @ ..] => put(now, place_of(id), u128::from(b.saturating_sub(48))),
    }
}

fn is_mark(line: &[u8]) -> bool
    ensures { result ≡ is_mark line.now }
{
    !line.is_empty() && line[0] == b'#'
}

/// Reads a line: a mark ends the row that was read so far.
#[tactic(auto, using(crate::proofs::ReadLines::length_noted))]
fn read_line(
    alloc: Global,
    rows: &mut Grid,
    now: &mut Numbers,
    line: &[u8],
) -> Result<(), WaveError>
    requires { 0 < length now.old }
    ensures line { ReadsLine rows.old now.old line.now rows.new now.new result }
    ensures long { length now.new ≡ length now.old }
{
    if !is_mark(line) {
        note(now.as_mut_slice(), line);
        return Ok(());
    }
    if rows.len() >= MOST_NUMBERS / now.len() {
        return Err(WaveError::BadWave);
    }
    let row = Vec::from_slice(alloc, now.as_slice())?;
    rows.push(Numbers::from_vec(row))?;
    Ok(())
}

/// So many zeros.
fn zeros(alloc: Global, n: usize) -> Result<Numbers, Memory>
    ensures { IfOk result (λ numbers. numbers ≡ replicate n 0) }
{
    Ok(Numbers::from_vec(vec![in alloc; 0u128; n]?))
}

/// The rows that a text tells of so many nets.
fn read_rows(alloc: Global, nets: usize, text: &[u8]) -> Result<Grid, WaveError>
    requires { 0 < nets }
    ensures { ReadsRows nets text.now result }
{
    let mut rows = Grid::new(alloc);
    let mut now = zeros(alloc, nets)?;
    let (_, mut rest) = cut_line(text);
    'lines: while !rest.is_empty() {
        let (line, behind) = cut_line(rest);
        rest = behind;
        read_line(alloc, &mut rows, &mut now, line)?;
    }
    Ok(rows)
}

/// What may be the wave of a text.
fn candidate(alloc: Global, text: &[u8]) -> Result<Wave, WaveError>
    ensures { IsCandidate text.now result }
{
    let (_, behind_time) = cut_line(text);
    let (scope, body) = cut_line(behind_time);
    let top = copied(alloc, word_at(scope, 2))?;
    let (nets, changes) = read_nets(alloc, body)?;
    if nets.is_empty() {
        return Err(WaveError::BadWave);
    }
    let rows = read_rows(alloc, nets.len(), changes)?;
    Ok(Wave { top, nets, rows })
}

/// The wave whose text this is. `BadWave` comes exactly where it is the text of no wave, and `Memory` where no memory was
/// found. It takes time in the length of the text and of the nets' full names, and memory in what its nets and rows may have.
pub fn read_wave(alloc: Global, text: &[u8]) -> Result<Wave, WaveError>
    ensures { ReadsWave text.now result }
{
    let wave = candidate(alloc, text)?;
    let lawful = is_wave(alloc, &wave)?;
    if !lawful {
        return Err(WaveError::BadWave);
    }
    if !is_text(text, &wave) {
        return Err(WaveError::BadWave);
    }
    Ok(wave)
}
