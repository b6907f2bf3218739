//! Whether statements name nets, bits and memories that are there.

ghost use Rattle.std.specs.Prelude.{◌≡◌, ◌↔◌, IsTrue};
ghost use Rattle.std.specs.List.{AllByRecursion};
ghost use Rattle.net_design.specs.declared.act.Act.{Act};
ghost use Rattle.net_design.specs.Lawful.{is_span};
ghost use Rattle.net_lawful.specs.Rooms.{has_room, IsSpan, IsRoom, IsRhsIn, IsPlaceIn, IsActIn, IsBlockIn, AreGuardsIn};

use crate::frame::net_width;
use crate::rooms::Rooms;
use net_code::vidi_bits::Items;
use net_code::{is_narrow, is_width};
use net_design::{Act, Design, Guard, Place, Rhs, Span};

/// Whether a span names bits of a net that is there.
fn is_span(design: &Design, span: Span) -> bool
    ensures { result ≡ is_span design.now span }
{
    span.net < design.nets.len()
        && u64::from(span.low) + u64::from(span.width) <= u64::from(net_width(design, span.net))
}

fn rhs_in(design: &Design, rooms: &Rooms, e: &Rhs) -> bool
    ensures { IsTrue result ↔ IsRhsIn design.now rooms.now e.now }
{
    match e {
        Rhs::Number(_) => true,
        Rhs::Bits(span) => is_width(span.width) && is_span(design, *span),
        Rhs::Word { room, at } => rooms.has(*room, 0) && rhs_in(design, rooms, at),
        Rhs::Unary { operand, width, .. } => is_width(*width) && rhs_in(design, rooms, operand),
        Rhs::Binary {
            left,
            right,
            width,
            ..
        } => { is_width(*width) && rhs_in(design, rooms, left) && rhs_in(design, rooms, right) }
        Rhs::Choose {
            condition,
            chosen,
            other,
        } => {
            rhs_in(design, rooms, condition)
                && rhs_in(design, rooms, chosen)
                && rhs_in(design, rooms, other)
        }
        Rhs::Join {
            high,
            low,
            high_width,
            low_width,
        } => {
            is_width(*high_width)
                && is_width(*low_width)
                && *high_width + *low_width <= 128
                && rhs_in(design, rooms, high)
                && rhs_in(design, rooms, low)
        }
        Rhs::Repeat { count, part, width } => {
            is_width(*width)
                && 1 <= *count
                && u64::from(*count) * u64::from(*width) <= 128
                && rhs_in(design, rooms, part)
        }
        Rhs::Select { vector, at, width } => {
            is_width(*width) && rhs_in(design, rooms, vector) && rhs_in(design, rooms, at)
        }
    }
}

fn place_in(design: &Design, rooms: &Rooms, place: &Place) -> bool
    ensures { IsTrue result ↔ IsPlaceIn design.now rooms.now place.now }
{
    match place {
        Place::Bits { span, takes } => {
            is_width(*takes) && span.width <= *takes && is_span(design, *span)
        }
        Place::BitsFrom { whole, at, width } => {
            is_width(*width)
                && is_width(whole.width)
                && is_span(design, *whole)
                && rhs_in(design, rooms, at)
        }
        Place::Word {
            room,
            word,
            low,
            width,
            takes,
        } => {
            is_width(*takes)
                && *width <= *takes
                && rooms.has(*room, u64::from(*low) + u64::from(*width))
                && rhs_in(design, rooms, word)
        }
        Place::WordFrom {
            room,
            word,
            size,
            at,
            width,
        } => {
            is_width(*width)
                && is_width(*size)
                && rooms.has(*room, u64::from(*size))
                && rhs_in(design, rooms, word)
                && rhs_in(design, rooms, at)
        }
    }
}

fn places_in(design: &Design, rooms: &Rooms, places: &[Place]) -> bool
    ensures { IsTrue result ↔ AllByRecursion (λ p. IsPlaceIn design.now rooms.now p) places.now }
{
    for place in places {
        if !place_in(design, rooms, place) {
            return false;
        }
    }
    true
}

/// What a choice is, over its lists.
fn see_range(guards: &Items<Guard>, otherwise: &Items<Act>)
    ensures { (a : Act) (d : Design) (rooms : Rooms) → a ≡ Act.Branch guards.now otherwise.now
        → IsActIn d rooms a ↔ (AreGuardsIn d rooms guards.now × IsBlockIn d rooms otherwise.now) }
{}

#[cycle(range)]
fn act_in(design: &Design, rooms: &Rooms, act: &Act) -> bool
    ensures { IsTrue result ↔ IsActIn design.now rooms.now act.now }
{
    match act {
        Act::Set { target, value } => {
            is_narrow(target.as_slice())
                && places_in(design, rooms, target.as_slice())
                && rhs_in(design, rooms, value)
        }
        Act::Read(value) => rhs_in(design, rooms, value),
        Act::Branch { guards, otherwise } => {
            see_range(guards, otherwise);
            guards_in(design, rooms, guards) && acts_in(design, rooms, otherwise)
        }
    }
}

#[cycle(range)]
fn guards_in(design: &Design, rooms: &Rooms, guards: &Items<Guard>) -> bool
    ensures { IsTrue result ↔ AreGuardsIn design.now rooms.now guards.now }
{
    for guard in guards.as_slice() {
        if !rhs_in(design, rooms, &guard.condition) {
            return false;
        }
        if !acts_in(design, rooms, &guard.body) {
            return false;
        }
    }
    true
}

/// Whether each width in statements is 1 to 128, no place takes fewer bits than it writes, and all that they name is there.
#[cycle(range)]
pub fn acts_in(design: &Design, rooms: &Rooms, acts: &Items<Act>) -> bool
    ensures { IsTrue result ↔ IsBlockIn design.now rooms.now acts.now }
{
    for act in acts.as_slice() {
        if !act_in(design, rooms, act) {
            return false;
        }
    }
    true
}
