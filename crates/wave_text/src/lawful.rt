//! Whether what was read is a wave.

ghost use Rattle.std.specs.Prelude.{◌≡◌, ◌≢◌, ◌≤◌, ◌<◌, ◌*◌, ◌^◌, ◌↔◌, ◌++◌, ◌∷◌, [], length, map, false, All, IsTrue, IfOk, OnOk};
ghost use Rattle.std.specs.List.{AllPairs, list_any};
ghost use Rattle.std.specs.Str.{bytes_eq};
ghost use Rattle.vlog_lex.specs.vidi_bits.Number.{IsWidth};
ghost use Rattle.wave_text.specs.declared.wave.WaveNet.{WaveNet};
ghost use Rattle.wave_text.specs.Wave.{most_numbers, IsNet, FitsRow, IsWave};

use crate::names::is_name;
use crate::wave::{Wave, WaveNet};
use indexmap::IndexSet;
use std::alloc::Global;
use vlog_lex::vidi_bits::{Memory, Numbers, ones};
use vlog_lex::{TokenKind, is_token};

/// How many numbers a wave has at most: its rows times its nets.
pub const MOST_NUMBERS: usize = 4_194_304;

/// Whether a net has a full name, and 1 to 128 bits.
fn is_net(net: &WaveNet) -> bool
    ensures { IsTrue result ↔ IsNet net.now }
{
    is_name(net.name.as_slice()) && 1 <= net.width && net.width <= 128
}

fn are_nets(nets: &[WaveNet]) -> bool
    ensures { IsTrue result ↔ All IsNet nets.now }
{
    for net in nets {
        if !is_net(net) {
            return false;
        }
    }
    true
}

/// Whether a number has at most so many bits.
fn fits(width: u32, x: u128) -> bool
    requires { IsWidth width }
    ensures { IsTrue result ↔ (x < 2 ^ width) }
{
    x <= ones(width)
}

/// Whether a row has a fitting number for each net.
fn fits_row(nets: &[WaveNet], row: &[u128]) -> bool
    requires { All IsNet nets.now }
    ensures { IsTrue result ↔ FitsRow nets.now row.now }
{
    if row.len() != nets.len() {
        return false;
    }
    for (n, net) in nets.iter().enumerate() {
        if !fits(net.width, row[n]) {
            return false;
        }
    }
    true
}

fn all_fit(nets: &[WaveNet], rows: &[Numbers]) -> bool
    requires { All IsNet nets.now }
    ensures { IsTrue result ↔ All (FitsRow nets.now) rows.now }
{
    for row in rows {
        if !fits_row(nets, row.as_slice()) {
            return false;
        }
    }
    true
}

/// Whether rows of so many nets have no more numbers than a wave may have.
fn are_few(rows: usize, nets: usize) -> bool
    ensures { IsTrue result ↔ (rows * nets ≤ most_numbers) }
{
    match rows.checked_mul(nets) {
        Some(numbers) => numbers <= MOST_NUMBERS,
        None => false,
    }
}

/// Whether a name is among the keys.
fn is_there(names: &IndexSet<Vec<u8>>, name: &[u8]) -> bool
    ensures { result ≡ list_any (bytes_eq name.now) (map (λ v. v.items) names.now.keys) }
{
    names.get_index_of(name).is_some()
}

/// Adds a copy of a name, where it isn't there.
fn insert_name(alloc: Global, names: &mut IndexSet<Vec<u8>>, name: &[u8]) -> Result<(), Memory>
    ensures { list_any (bytes_eq name.now) (map (λ v. v.items) names.old.keys) ≡ false
        → OnOk result (map (λ v. v.items) names.new.keys ≡ map (λ v. v.items) names.old.keys ++ name.now ∷ []) }
{
    let copy = Vec::from_slice(alloc, name)?;
    names.insert(copy)?;
    Ok(())
}

/// Whether no two nets have one name.
fn differ(alloc: Global, nets: &[WaveNet]) -> Result<bool, Memory>
    ensures { IfOk result (λ is. IsTrue is ↔ AllPairs (λ (x y : WaveNet). x.name ≢ y.name) nets.now) }
{
    let mut names = IndexSet::new(alloc);
    for net in nets {
        if is_there(&names, net.name.as_slice()) {
            return Ok(false);
        }
        insert_name(alloc, &mut names, net.name.as_slice())?;
    }
    Ok(true)
}

/// Whether this is a wave.
pub(crate) fn is_wave(alloc: Global, wave: &Wave) -> Result<bool, Memory>
    ensures { IfOk result (λ is. IsTrue is ↔ IsWave wave.now) }
{
    let nets = wave.nets.as_slice();
    let rows = wave.rows.as_slice();
    let top = is_token(TokenKind::Identifier, wave.top.as_slice());
    if !top
        || nets.is_empty()
        || !are_nets(nets)
        || !all_fit(nets, rows)
        || !are_few(rows.len(), nets.len())
    {
        return Ok(false);
    }
    differ(alloc, nets)
}
