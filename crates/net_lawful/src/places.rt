//! Targets whose places name no bit twice.

ghost use Rattle.std.specs.Prelude.{◌≡◌, ℕ, ◌+◌, ◌≤◌, ◌==◌, ◌&&◌, ◌||◌, ◌↔◌, IsTrue, true, false, [], ◌∷◌, OnOk, IfOk};
ghost use Rattle.std.specs.List.{AllByRecursion};
ghost use Rattle.net_code.specs.vidi_bits.Number.{has};
ghost use Rattle.net_design.specs.Sized.{IsSizedPlace, IsSizedAct, IsSizedBlock};
ghost use Rattle.net_design.specs.Bits.{bits_of, place_writes, Apart};
ghost use Rattle.net_design.specs.Lawful.{IsEquation};
ghost use Rattle.net_code.specs.BitMap.{in_map};

use crate::masks::mask_apart;
use net_code::vidi_bits::{Items, Memory};
use net_code::{BitMap, span_mask};
use net_design::{Act, Mask, Place, Span};
use std::alloc::Global;

/// The bits of a span.
fn mask_of(span: Span) -> Mask
    requires { span.low + span.width ≤ 128 }
    ensures { (m k : ℕ) → ((result.net == m) && has result.bits k) ≡ bits_of span m k }
{
    let bits = span_mask(span);
    Mask {
        net: span.net,
        bits,
    }
}

/// The mask of no bit.
fn no_mask() -> Mask
    ensures { (m k : ℕ) → ((result.net == m) && has result.bits k) ≡ false }
{
    Mask { net: 0, bits: 0 }
}

/// The bits that an assignment to a place may write.
fn place_mask(place: &Place) -> Mask
    requires { IsSizedPlace place.now }
    ensures { (m k : ℕ) → ((result.net == m) && has result.bits k) ≡ place_writes place.now m k }
{
    match place {
        Place::Bits { span, .. } => mask_of(*span),
        Place::BitsFrom { whole, .. } => mask_of(*whole),
        Place::Word { .. } => no_mask(),
        Place::WordFrom { .. } => no_mask(),
    }
}

/// Whether a place names no bit of a set.
fn place_apart(place: &Place, seen: &BitMap) -> bool
    requires { IsSizedPlace place.now }
    ensures { IsTrue result ↔ ((m k : ℕ) → place_writes place.now m k ≡ true → in_map seen.now m k ≡ false) }
{
    let mask = place_mask(place);
    mask_apart(mask, seen)
}

/// Adds the bits of a place to a set.
fn add_place(place: &Place, seen: &mut BitMap) -> Result<(), Memory>
    requires { IsSizedPlace place.now }
    ensures { OnOk result ((m k : ℕ) → in_map seen.new m k ≡ (in_map seen.old m k || place_writes place.now m k)) }
{
    let mask = place_mask(place);
    seen.add(mask.net, mask.bits)?;
    Ok(())
}

/// Whether no bit is named by two of the places.
fn places_apart(alloc: Global, places: &[Place]) -> Result<bool, Memory>
    requires { AllByRecursion (λ p. IsSizedPlace p) places.now }
    ensures { IfOk result (λ b. IsTrue b ↔ Apart places.now) }
{
    let mut seen = BitMap::new(alloc);
    for place in places {
        if !place_apart(place, &seen) {
            return Ok(false);
        }
        add_place(place, &mut seen)?;
    }
    Ok(true)
}

/// Whether a statement is an assignment whose target names no bit twice.
fn sets_apart(alloc: Global, act: &Act) -> Result<bool, Memory>
    requires { IsSizedAct act.now }
    ensures { IfOk result (λ b. IsTrue b ↔ IsEquation (act.now ∷ [])) }
{
    match act {
        Act::Set { target, .. } => places_apart(alloc, target.as_slice()),
        Act::Read(_) => Ok(false),
        Act::Branch { .. } => Ok(false),
    }
}

/// Whether statements are one assignment, whose target names no bit twice.
pub fn is_equation(alloc: Global, acts: &Items<Act>) -> Result<bool, Memory>
    requires { IsSizedBlock acts.now }
    ensures { IfOk result (λ b. IsTrue b ↔ IsEquation acts.now) }
{
    if acts.len() != 1 {
        return Ok(false);
    }
    sets_apart(alloc, &acts.as_slice()[0])
}
