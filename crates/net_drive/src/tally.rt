//! How often places name bits, and always blocks their regs and memories.

ghost use Rattle.std.specs.Prelude.{◌≡◌, ℕ, ◌<◌, ◌≤◌, ◌+◌, ◌&&◌, ◌||◌, nat_le, nat_lt, min, IfOk, OnOk};
ghost use Rattle.net_code.specs.vidi_bits.Number.{has};
ghost use Rattle.net_design.specs.Bits.{bits_of, place_writes};
ghost use Rattle.net_code.specs.BitMap.{in_map};
ghost use Rattle.net_code.specs.Tally.{IsLowTally, IsKeyTally};
ghost use Rattle.net_code.specs.Targets.{plain_places, bit_count};
ghost use Rattle.net_drive.specs.Drive.{block_count};
ghost use Rattle.net_drive.specs.Tallied.{span_writes};

use net_code::Tally;
use net_code::vidi_bits::{Items, Memory, ones, put};
use net_design::{Place, Span};
use std::alloc::Global;

/// At most 128.
pub fn capped(width: u32) -> u32
    ensures { result ≡ min width 128 }
{
    if width < 128 { width } else { 128 }
}

/// The bits from `low` on, `width` of them; those past the last of 128 are left out.
fn bits_from(low: u32, width: u32) -> u128
    requires { width ≤ 128 }
    ensures { (k : ℕ) → k < 128 → has result k ≡ (nat_le low k && nat_lt k (low + width)) }
{
    if width == 0 {
        return 0;
    }
    put(0, low, width, ones(width))
}

/// The first 128 bits that a span has.
fn span_bits(span: Span) -> u128
    ensures { (k : ℕ) → k < 128 → has result k ≡ (nat_le span.low k && nat_lt k (span.low + span.width)) }
{
    let width = capped(span.width);
    bits_from(span.low, width)
}

/// The bits of a net that a place names.
pub fn net_span(place: &Place) -> Option<Span>
    ensures { (m k : ℕ) → place_writes place.now m k ≡ span_writes result m k }
{
    match place {
        Place::Bits { span, .. } => Some(*span),
        Place::BitsFrom { whole, .. } => Some(*whole),
        Place::Word { .. } => None,
        Place::WordFrom { .. } => None,
    }
}

/// Names the bits of a span.
fn add_span(tally: &mut Tally, span: Span) -> Result<(), Memory>
    ensures once { OnOk result ((m k : ℕ) → k < 128 → in_map tally.new.once m k ≡ (in_map tally.old.once m k || bits_of span m k)) }
    ensures more { OnOk result ((m k : ℕ) → k < 128 → in_map tally.new.more m k
        ≡ (in_map tally.old.more m k || (in_map tally.old.once m k && bits_of span m k))) }
{
    let bits = span_bits(span);
    tally.add(span.net, bits)?;
    Ok(())
}

/// Names the bits of a place.
fn add_place(tally: &mut Tally, place: &Place) -> Result<(), Memory>
    ensures once { OnOk result ((m k : ℕ) → k < 128
        → in_map tally.new.once m k ≡ (in_map tally.old.once m k || place_writes place.now m k)) }
    ensures more { OnOk result ((m k : ℕ) → k < 128 → in_map tally.new.more m k
        ≡ (in_map tally.old.more m k || (in_map tally.old.once m k && place_writes place.now m k))) }
{
    match net_span(place) {
        Some(span) => {
            add_span(tally, span)?;
            Ok(())
        }
        None => Ok(()),
    }
}

/// How often places name each bit.
pub fn tally_places(alloc: Global, places: &[&Place]) -> Result<Tally, Memory>
    ensures { IfOk result (λ t. IsLowTally t (bit_count (plain_places places.now))) }
{
    let mut tally = Tally::new(alloc);
    for place in places {
        add_place(&mut tally, place)?;
    }
    Ok(tally)
}

/// How many blocks name each number.
pub fn tally_blocks(alloc: Global, blocks: &[Items<usize>]) -> Result<Tally, Memory>
    ensures { IfOk result (λ t. IsKeyTally t (block_count blocks.now)) }
{
    let mut tally = Tally::new(alloc);
    for keys in blocks {
        tally.add_keys(keys.as_slice())?;
    }
    Ok(tally)
}
