//! Code of one instance, moved to the instance's base.

ghost use Rattle.std.specs.Prelude.{◌≡◌, ℕ, ◌<◌, ◌^◌, ◌↔◌, IsTrue, All, map};
ghost use Rattle.net_design.specs.declared.act.Act.{Act};
ghost use Rattle.net_design.specs.declared.act.Mask.{Mask};
ghost use Rattle.net_design.specs.Sized.{IsRhs, IsPlace, IsAct, IsBlock, AreGuards, IsShort, IsCountable};
ghost use Rattle.net_code.specs.Moved.{moved_span, moved_room, moved_rhs, moved_place, moved_act, moved_guard, moved_mask, moved};
ghost use Rattle.net_code.specs.Moved.{IsNear, IsNearBlock, IsNearRhs, AreNearPlaces};

use crate::base::Base;
use crate::sized::{acts_sized, places_sized, rhs_sized};
use net_design::vidi_bits::Items;
use net_design::{Act, Code, Guard, Lhs, Mask, Place, Rhs, Room, Span};

fn move_span(span: &mut Span, base: Base)
    requires { span.old.net < 2 ^ 32 }
    ensures { span.new ≡ moved_span base.net base.word span.old }
{
    span.net += base.net as usize;
}

fn move_room(room: &mut Room, base: Base)
    requires { room.old.first < 2 ^ 32 }
    ensures { room.new ≡ moved_room base.net base.word room.old }
{
    room.first += base.word as usize;
}

fn move_rhs(e: &mut Rhs, base: Base)
    requires { IsRhs (IsShort (2 ^ 32)) (IsCountable (2 ^ 32)) e.old }
    ensures { e.new ≡ moved_rhs base.net base.word e.old }
{
    match e {
        Rhs::Number(_) => (),
        Rhs::Bits(span) => move_span(span, base),
        Rhs::Word { room, at } => {
            move_room(room, base);
            move_rhs(at, base);
        }
        Rhs::Unary { operand, .. } => move_rhs(operand, base),
        Rhs::Binary { left, right, .. } => {
            move_rhs(left, base);
            move_rhs(right, base);
        }
        Rhs::Choose {
            condition,
            chosen,
            other,
        } => {
            move_rhs(condition, base);
            move_rhs(chosen, base);
            move_rhs(other, base);
        }
        Rhs::Join { high, low, .. } => {
            move_rhs(high, base);
            move_rhs(low, base);
        }
        Rhs::Repeat { part, .. } => move_rhs(part, base),
        Rhs::Select { vector, at, .. } => {
            move_rhs(vector, base);
            move_rhs(at, base);
        }
    }
}

fn move_place(place: &mut Place, base: Base)
    requires { IsPlace (IsShort (2 ^ 32)) (IsCountable (2 ^ 32)) place.old }
    ensures { place.new ≡ moved_place base.net base.word place.old }
{
    match place {
        Place::Bits { span, .. } => move_span(span, base),
        Place::BitsFrom { whole, at, .. } => {
            move_span(whole, base);
            move_rhs(at, base);
        }
        Place::Word { room, word, .. } => {
            move_room(room, base);
            move_rhs(word, base);
        }
        Place::WordFrom { room, word, at, .. } => {
            move_room(room, base);
            move_rhs(word, base);
            move_rhs(at, base);
        }
    }
}

fn move_places(places: &mut Lhs, base: Base)
    requires { AreNearPlaces places.old }
    ensures { places.new ≡ map (moved_place base.net base.word) places.old }
{
    for place in places.as_mut_slice() {
        move_place(place, base);
    }
}

fn move_mask(mask: &mut Mask, base: Base)
    requires { mask.old.net < 2 ^ 32 }
    ensures { mask.new ≡ moved_mask base.net base.word mask.old }
{
    mask.net += base.net as usize;
}

fn move_masks(masks: &mut Items<Mask>, base: Base)
    requires { All (λ x. x.net < 2 ^ 32) masks.old }
    ensures { masks.new ≡ map (moved_mask base.net base.word) masks.old }
{
    for mask in masks.as_mut_slice() {
        move_mask(mask, base);
    }
}

/// What a moved choice is, over its lists.
fn see_moved(guards: &Items<Guard>, otherwise: &Items<Act>)
    ensures near { (a : Act) → a ≡ Act.Branch guards.now otherwise.now
        → IsAct (IsShort (2 ^ 32)) (IsCountable (2 ^ 32)) a
        ↔ (AreGuards (IsShort (2 ^ 32)) (IsCountable (2 ^ 32)) guards.now × IsNearBlock otherwise.now) }
    ensures moved { (net word : ℕ) (a : Act) → a ≡ Act.Branch guards.now otherwise.now
        → moved_act net word a ≡ Act.Branch (map (moved_guard net word) guards.now) (map (moved_act net word) otherwise.now) }
{}

#[cycle(moves)]
fn move_act(act: &mut Act, base: Base)
    requires { IsAct (IsShort (2 ^ 32)) (IsCountable (2 ^ 32)) act.old }
    ensures { act.new ≡ moved_act base.net base.word act.old }
{
    match act {
        Act::Set { target, value } => {
            move_places(target, base);
            move_rhs(value, base);
        }
        Act::Read(value) => move_rhs(value, base),
        Act::Branch { guards, otherwise } => {
            see_moved(guards, otherwise);
            move_guards(guards, base);
            move_acts(otherwise, base);
        }
    }
}

#[cycle(moves)]
fn move_guard(guard: &mut Guard, base: Base)
    requires condition { IsRhs (IsShort (2 ^ 32)) (IsCountable (2 ^ 32)) guard.old.condition }
    requires body { IsNearBlock guard.old.body }
    ensures { guard.new ≡ moved_guard base.net base.word guard.old }
{
    move_rhs(&mut guard.condition, base);
    move_acts(&mut guard.body, base);
}

#[cycle(moves)]
fn move_guards(guards: &mut Items<Guard>, base: Base)
    requires { AreGuards (IsShort (2 ^ 32)) (IsCountable (2 ^ 32)) guards.old }
    ensures { guards.new ≡ map (moved_guard base.net base.word) guards.old }
{
    for guard in guards.as_mut_slice() {
        move_guard(guard, base);
    }
}

#[cycle(moves)]
fn move_acts(acts: &mut Items<Act>, base: Base)
    requires { IsNearBlock acts.old }
    ensures { acts.new ≡ map (moved_act base.net base.word) acts.old }
{
    for act in acts.as_mut_slice() {
        move_act(act, base);
    }
}

/// Whether each mask names a net of a place below 2^32.
fn masks_near(masks: &[Mask]) -> bool
    ensures { IsTrue result ↔ All (λ x. x.net < 2 ^ 32) masks.now }
{
    masks.iter().all(|x| (x.net as u64) < 1 << 32)
}

/// Whether the code can be moved: its places are below 2^32, its widths 1 to 128.
pub fn code_is_near(code: &Code) -> bool
    ensures { IsTrue result ↔ IsNear code.now }
{
    acts_sized(&code.acts, 1 << 32)
        && masks_near(code.writes.as_slice())
        && masks_near(code.reads.as_slice())
}

/// Moves the code of an instance, which counts nets and memory words from the instance's first ones, to this base.
pub fn move_code(code: &mut Code, base: Base)
    requires { IsNear code.old }
    ensures { code.new ≡ moved base.net base.word code.old }
{
    move_acts(&mut code.acts, base);
    move_masks(&mut code.writes, base);
    move_masks(&mut code.reads, base);
}

/// Whether the expression can be moved: its places are below 2^32, its widths 1 to 128.
pub fn expression_is_near(e: &Rhs) -> bool
    ensures { IsTrue result ↔ IsNearRhs e.now }
{
    rhs_sized(e, 1 << 32)
}

/// Moves an expression of an instance as `move_code` moves code.
pub fn move_expression(e: &mut Rhs, base: Base)
    requires { IsNearRhs e.old }
    ensures { e.new ≡ moved_rhs base.net base.word e.old }
{
    move_rhs(e, base);
}

/// Whether a target can be moved: its places are below 2^32, its widths 1 to 128.
pub fn target_is_near(target: &Lhs) -> bool
    ensures { IsTrue result ↔ AreNearPlaces target.now }
{
    places_sized(target.as_slice(), 1 << 32)
}

/// Moves a target of an instance as `move_code` moves code.
pub fn move_target(target: &mut Lhs, base: Base)
    requires { AreNearPlaces target.old }
    ensures { target.new ≡ map (moved_place base.net base.word) target.old }
{
    move_places(target, base);
}
