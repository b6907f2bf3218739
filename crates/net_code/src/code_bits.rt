//! The bits that statements write and read, found in one walk over them.
//!
//! What is surely assigned at a statement is kept as a mask for each net. An arm of a choice gives back what it learned: those
//! bits alone that every arm assigns are known after the choice.

ghost use Rattle.std.specs.Prelude.{◌≡◌, ℕ, ◌==◌, ◌&&◌, ◌||◌, ◌+◌, ◌≤◌, not, nat_le, nat_lt, List, [], OnOk, IfOk};
ghost use Rattle.std.specs.List.{AllByRecursion};
ghost use Rattle.net_design.specs.vidi_bits.Number.{has};
ghost use Rattle.net_design.specs.declared.act.Act.{Act};
ghost use Rattle.net_design.specs.declared.act.Timing.{Timing};
ghost use Rattle.net_code.specs.declared.code_bits.Found.{Found};
ghost use Rattle.net_design.specs.Sized.{IsSizedRhs, IsSizedPlace, IsSizedAct, IsSizedBlock, AreSizedGuards};
ghost use Rattle.net_design.specs.Bits.{BitSet, no_bits, bits_of, named, reads, place_reads, place_writes, place_adds};
ghost use Rattle.net_design.specs.Bits.{target_reads, target_writes, target_adds};
ghost use Rattle.net_design.specs.Bits.{writes, adds, open_reads, block_writes, block_adds, block_open_reads, HasBits};
ghost use Rattle.net_code.specs.BitMap.{in_map};
ghost use Rattle.net_code.specs.Found.{Reads, Learns, Walks, WalksChoice, Arm, AfterArms, learned, guard_writes, guard_adds, guard_reads};

use crate::bit_map::BitMap;
use net_design::vidi_bits::{Items, Memory, ones, put};
use net_design::{Act, Code, Guard, Lhs, Mask, Place, Rhs, Span, Timing, see_branch};
use std::alloc::Global;

/// What a walk found: the bits that statements may write, those that they read, and those that are surely assigned by now.
#[derive(Drop)]
pub struct Found {
    writes: BitMap,
    reads: BitMap,
    known: BitMap,
}

/// The bits of a span, as a mask of its net.
pub fn span_mask(span: Span) -> u128
    requires { span.low + span.width ≤ 128 }
    ensures { (k : ℕ) → has result k ≡ (nat_le span.low k && nat_lt k (span.low + span.width)) }
{
    if span.width == 0 {
        return 0;
    }
    put(0, span.low, span.width, ones(span.width))
}

// ---- bits read

/// Reads bits of a net, but for those that are known.
fn read_span(span: Span, known: &BitMap, out: &mut BitMap) -> Result<(), Memory>
    requires { span.low + span.width ≤ 128 }
    ensures { OnOk result (Reads (bits_of span) known.now out.old out.new) }
{
    let bits = span_mask(span) & !known.mask(span.net);
    out.add(span.net, bits)?;
    Ok(())
}

fn read_rhs(e: &Rhs, known: &BitMap, out: &mut BitMap) -> Result<(), Memory>
    requires { IsSizedRhs e.now }
    ensures { OnOk result (Reads (reads e.now) known.now out.old out.new) }
{
    match e {
        Rhs::Number(_) => Ok(()),
        Rhs::Bits(span) => read_span(*span, known, out),
        Rhs::Word { at, .. } => read_rhs(at, known, out),
        Rhs::Unary { operand, .. } => read_rhs(operand, known, out),
        Rhs::Binary { left, right, .. } => {
            read_rhs(left, known, out)?;
            read_rhs(right, known, out)
        }
        Rhs::Choose {
            condition,
            chosen,
            other,
        } => {
            read_rhs(condition, known, out)?;
            read_rhs(chosen, known, out)?;
            read_rhs(other, known, out)
        }
        Rhs::Join { high, low, .. } => {
            read_rhs(high, known, out)?;
            read_rhs(low, known, out)
        }
        Rhs::Repeat { part, .. } => read_rhs(part, known, out),
        Rhs::Select { vector, at, .. } => {
            read_rhs(vector, known, out)?;
            read_rhs(at, known, out)
        }
    }
}

/// The indexes of a place.
fn read_place(place: &Place, known: &BitMap, out: &mut BitMap) -> Result<(), Memory>
    requires { IsSizedPlace place.now }
    ensures { OnOk result (Reads (place_reads place.now) known.now out.old out.new) }
{
    match place {
        Place::Bits { .. } => Ok(()),
        Place::BitsFrom { at, .. } => read_rhs(at, known, out),
        Place::Word { word, .. } => read_rhs(word, known, out),
        Place::WordFrom { word, at, .. } => {
            read_rhs(word, known, out)?;
            read_rhs(at, known, out)
        }
    }
}

fn read_places(places: &[Place], known: &BitMap, out: &mut BitMap) -> Result<(), Memory>
    requires { AllByRecursion (λ p. IsSizedPlace p) places.now }
    ensures { OnOk result (Reads (target_reads places.now) known.now out.old out.new) }
{
    for place in places {
        read_place(place, known, out)?;
    }
    Ok(())
}

// ---- bits written

/// Adds the bits that a place may write.
fn write_place(place: &Place, out: &mut BitMap) -> Result<(), Memory>
    requires { IsSizedPlace place.now }
    ensures { OnOk result ((m k : ℕ) → in_map out.new m k ≡ (in_map out.old m k || place_writes place.now m k)) }
{
    let span = match place {
        Place::Bits { span, .. } => span,
        Place::BitsFrom { whole, .. } => whole,
        Place::Word { .. } => return Ok(()),
        Place::WordFrom { .. } => return Ok(()),
    };
    out.add(span.net, span_mask(*span))?;
    Ok(())
}

fn write_places(places: &[Place], out: &mut BitMap) -> Result<(), Memory>
    requires { AllByRecursion (λ p. IsSizedPlace p) places.now }
    ensures { OnOk result ((m k : ℕ) → in_map out.new m k ≡ (in_map out.old m k || target_writes places.now m k)) }
{
    for place in places {
        write_place(place, out)?;
    }
    Ok(())
}

// ---- bits that are surely assigned

/// Learns bits of a net: those that weren't known become fresh masks too.
fn learn(net: usize, bits: u128, known: &mut BitMap, fresh: &mut Items<Mask>) -> Result<(), Memory>
    ensures { OnOk result (Learns (λ m k. (net == m) && has bits k) known.old known.new fresh.old fresh.new) }
{
    let new = bits & !known.mask(net);
    known.add(net, new)?;
    fresh.push(Mask { net, bits: new })?;
    Ok(())
}

/// Learns the bits that an assignment to a place surely writes.
fn learn_place(place: &Place, known: &mut BitMap, fresh: &mut Items<Mask>) -> Result<(), Memory>
    requires { IsSizedPlace place.now }
    ensures { OnOk result (Learns (place_adds place.now) known.old known.new fresh.old fresh.new) }
{
    match place {
        Place::Bits { span, .. } => learn(span.net, span_mask(*span), known, fresh),
        Place::BitsFrom { .. } => Ok(()),
        Place::Word { .. } => Ok(()),
        Place::WordFrom { .. } => Ok(()),
    }
}

fn learn_places(places: &[Place], known: &mut BitMap, fresh: &mut Items<Mask>) -> Result<(), Memory>
    requires { AllByRecursion (λ p. IsSizedPlace p) places.now }
    ensures { OnOk result (Learns (target_adds places.now) known.old known.new fresh.old fresh.new) }
{
    for place in places {
        learn_place(place, known, fresh)?;
    }
    Ok(())
}

fn learn_masks(masks: &[Mask], known: &mut BitMap, fresh: &mut Items<Mask>) -> Result<(), Memory>
    ensures { OnOk result (Learns (named masks.now) known.old known.new fresh.old fresh.new) }
{
    for mask in masks {
        learn(mask.net, mask.bits, known, fresh)?;
    }
    Ok(())
}

/// Learns what the next statement knows of an assignment.
fn learn_target(
    timing: Timing,
    places: &[Place],
    known: &mut BitMap,
    fresh: &mut Items<Mask>,
) -> Result<(), Memory>
    requires { AllByRecursion (λ p. IsSizedPlace p) places.now }
    ensures { OnOk result (Learns (learned timing (target_adds places.now)) known.old known.new fresh.old fresh.new) }
{
    match timing {
        Timing::Blocking => learn_places(places, known, fresh),
        Timing::Nonblocking => Ok(()),
    }
}

/// Forgets bits.
fn forget(masks: &[Mask], known: &mut BitMap) -> Result<(), Memory>
    ensures { OnOk result ((m k : ℕ) → in_map known.new m k ≡ (in_map known.old m k && not (named masks.now m k))) }
{
    for mask in masks {
        known.remove(mask.net, mask.bits)?;
    }
    Ok(())
}

/// Those of the bits that are known, in masks that have some.
fn narrow(alloc: Global, masks: &[Mask], known: &BitMap) -> Result<Items<Mask>, Memory>
    ensures { IfOk result (λ out. (m k : ℕ) → named out m k ≡ (named masks.now m k && in_map known.now m k)) }
{
    let mut out = Items::new(alloc);
    for mask in masks {
        let bits = mask.bits & known.mask(mask.net);
        push_mask(&mut out, mask.net, bits)?;
    }
    Ok(out)
}

/// Adds a mask that has bits.
fn push_mask(out: &mut Items<Mask>, net: usize, bits: u128) -> Result<(), Memory>
    ensures { OnOk result ((m k : ℕ) → named out.new m k ≡ (named out.old m k || ((net == m) && has bits k))) }
{
    if bits != 0 {
        out.push(Mask { net, bits })?;
    }
    Ok(())
}

// ---- statements

/// An assignment.
fn set_bits(
    timing: Timing,
    target: &Lhs,
    value: &Rhs,
    found: &mut Found,
    fresh: &mut Items<Mask>,
) -> Result<(), Memory>
    requires target { AllByRecursion (λ p. IsSizedPlace p) target.now }
    requires value { IsSizedRhs value.now }
    ensures { OnOk result (Walks timing (target_writes target.now) (target_adds target.now)
        (λ known m k. (reads value.now m k || target_reads target.now m k) && not (known m k)) found.old found.new fresh.old fresh.new) }
{
    let places = target.as_slice();
    read_rhs(value, &found.known, &mut found.reads)?;
    read_places(places, &found.known, &mut found.reads)?;
    write_places(places, &mut found.writes)?;
    learn_target(timing, places, &mut found.known, fresh)
}

/// An expression that is read.
fn read_bits(
    timing: Timing,
    subject: &Rhs,
    found: &mut Found,
    fresh: &mut Items<Mask>,
) -> Result<(), Memory>
    requires { IsSizedRhs subject.now }
    ensures { OnOk result (Walks timing no_bits no_bits (λ known m k. reads subject.now m k && not (known m k))
        found.old found.new fresh.old fresh.new) }
{
    read_rhs(subject, &found.known, &mut found.reads)
}

/// The bits of a choice, over its lists.
fn see_bits(guards: &Items<Guard>, otherwise: &Items<Act>)
    ensures writes { (a : Act) → a ≡ Act.Branch guards.now otherwise.now → (m k : ℕ)
        → writes a m k ≡ (guard_writes guards.now m k || block_writes otherwise.now m k) }
    ensures adds { (a : Act) → a ≡ Act.Branch guards.now otherwise.now → (m k : ℕ)
        → adds a m k ≡ (guard_adds guards.now m k && block_adds otherwise.now m k) }
    ensures reads { (t : Timing) (a : Act) → a ≡ Act.Branch guards.now otherwise.now → (known : BitSet) (m k : ℕ)
        → open_reads t a known m k ≡ (guard_reads t guards.now known m k || block_open_reads t otherwise.now known m k) }
{}

/// A statement.
#[cycle(walks)]
fn act_bits(
    alloc: Global,
    timing: Timing,
    act: &Act,
    found: &mut Found,
    fresh: &mut Items<Mask>,
) -> Result<(), Memory>
    requires { IsSizedAct act.now }
    ensures { OnOk result (Walks timing (writes act.now) (adds act.now) (open_reads timing act.now)
        found.old found.new fresh.old fresh.new) }
{
    match act {
        Act::Set { target, value } => set_bits(timing, target, value, found, fresh),
        Act::Read(value) => read_bits(timing, value, found, fresh),
        Act::Branch { guards, otherwise } => {
            see_branch(guards, otherwise);
            see_bits(guards, otherwise);
            let mut all = Items::new(alloc);
            acts_bits(alloc, timing, otherwise, found, &mut all)?;
            forget(all.as_slice(), &mut found.known)?;
            guards_bits(alloc, timing, guards, all, found, fresh)?;
            Ok(())
        }
    }
}

/// A list of statements.
#[cycle(walks)]
fn acts_bits(
    alloc: Global,
    timing: Timing,
    acts: &Items<Act>,
    found: &mut Found,
    fresh: &mut Items<Mask>,
) -> Result<(), Memory>
    requires { IsSizedBlock acts.now }
    ensures { OnOk result (Walks timing (block_writes acts.now) (block_adds acts.now) (block_open_reads timing acts.now)
        found.old found.new fresh.old fresh.new) }
{
    for act in acts.as_slice() {
        act_bits(alloc, timing, act, found, fresh)?;
    }
    Ok(())
}

/// A guard, whose arm gives back what it learned: of the bits that each arm before it assigned, those that it assigns too.
#[cycle(walks)]
fn guard_bits(
    alloc: Global,
    timing: Timing,
    guard: &Guard,
    all: &Items<Mask>,
    found: &mut Found,
) -> Result<Items<Mask>, Memory>
    requires condition { IsSizedRhs guard.now.condition }
    requires body { IsSizedBlock guard.now.body }
    ensures { IfOk result (λ both. Arm timing guard.now all.now both found.old found.new) }
{
    read_rhs(&guard.condition, &found.known, &mut found.reads)?;
    let mut own = Items::new(alloc);
    acts_bits(alloc, timing, &guard.body, found, &mut own)?;
    let both = narrow(alloc, all.as_slice(), &found.known)?;
    forget(own.as_slice(), &mut found.known)?;
    Ok(both)
}

/// The guards of a choice, after its last arm: the bits that each arm assigns are known after it.
#[cycle(walks)]
fn guards_bits(
    alloc: Global,
    timing: Timing,
    guards: &Items<Guard>,
    mut all: Items<Mask>,
    found: &mut Found,
    fresh: &mut Items<Mask>,
) -> Result<(), Memory>
    requires { AreSizedGuards guards.now }
    ensures { OnOk result ((others : List Act) (before : Found) → AfterArms timing [] others before found.old all
        → WalksChoice timing guards.now others before found.new fresh.old fresh.new) }
{
    for guard in guards.as_slice() {
        all = guard_bits(alloc, timing, guard, &all, found)?;
    }
    learn_masks(all.as_slice(), &mut found.known, fresh)
}

/// The code of statements: their bits are found in one walk over them. With `Blocking` it is a driver's code, with
/// `Nonblocking` a clocked block's.
pub fn code_of(alloc: Global, timing: Timing, acts: Items<Act>) -> Result<Code, Memory>
    requires { IsSizedBlock acts }
    ensures acts { IfOk result (λ code. code.acts ≡ acts) }
    ensures bits { IfOk result (λ code. HasBits timing code) }
{
    let mut found = Found {
        writes: BitMap::new(alloc),
        reads: BitMap::new(alloc),
        known: BitMap::new(alloc),
    };
    let mut fresh = Items::new(alloc);
    acts_bits(alloc, timing, &acts, &mut found, &mut fresh)?;
    let writes = found.writes.to_masks(alloc)?;
    let reads = found.reads.to_masks(alloc)?;
    Ok(Code {
        acts,
        writes,
        reads,
    })
}

/// The bits that statements surely assign, where assignments take effect at once.
pub fn surely_assigned(alloc: Global, acts: &Items<Act>) -> Result<BitMap, Memory>
    requires { IsSizedBlock acts.now }
    ensures { IfOk result (λ sure. (m k : ℕ) → in_map sure m k ≡ block_adds acts.now m k) }
{
    let mut found = Found {
        writes: BitMap::new(alloc),
        reads: BitMap::new(alloc),
        known: BitMap::new(alloc),
    };
    let mut fresh = Items::new(alloc);
    acts_bits(alloc, Timing::Blocking, acts, &mut found, &mut fresh)?;
    Ok(found.known)
}
