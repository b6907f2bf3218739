//! Whether a design can be evaluated.

ghost use Rattle.std.specs.Prelude.{◌≡◌, ◌≤◌, ◌<◌, ◌↔◌, ◌&&◌, ◌^◌, IsTrue, All};
ghost use Rattle.std.specs.List.{AllByRecursion};
ghost use Rattle.net_design.specs.declared.act.Act.{Act};
ghost use Rattle.net_design.specs.vidi_bits.Number.{IsWidth};
ghost use Rattle.net_design.specs.Sized.{IsShort, IsCountable, IsRhs, IsPlace, IsAct, IsBlock, AreGuards, IsSizedBlock};
ghost use Rattle.net_design.specs.Updates.{target_width};
ghost use Rattle.net_design.specs.Settled.{IsSized};

use net_design::vidi_bits::Items;
use net_design::{
    Act, Code, Design, Driver, Guard, Net, Place, Rhs, Room, Span, few_words, place_width,
    see_branch,
};

/// Whether a width is 1 to 128.
pub fn is_width(w: u32) -> bool
    ensures { IsTrue result ↔ IsWidth w }
{
    1 <= w && w <= 128
}

/// Whether a span lies within 128 bits of one of the first nets.
fn span_short(span: Span, limit: u128) -> bool
    ensures { IsTrue result ↔ IsShort limit span }
{
    (span.net as u128) < limit && u64::from(span.low) + u64::from(span.width) <= 128
}

/// Whether a span lies within 128 bits of one of the first nets, and has some.
fn span_sized(span: Span, limit: u128) -> bool
    ensures { IsTrue result ↔ (IsWidth span.width × IsShort limit span) }
{
    is_width(span.width) && span_short(span, limit)
}

/// Whether the words of a memory are among the first, and `n` bits fit one.
fn room_sized(room: Room, n: u128, limit: u128) -> bool
    ensures { IsTrue result ↔ IsCountable limit room n }
{
    room.first as u128 + (room.length as u128) < limit && n <= 128
}

pub fn rhs_sized(e: &Rhs, limit: u128) -> bool
    ensures { IsTrue result ↔ IsRhs (IsShort limit) (IsCountable limit) e.now }
{
    match e {
        Rhs::Number(_) => true,
        Rhs::Bits(span) => span_sized(*span, limit),
        Rhs::Word { room, at } => room_sized(*room, 0, limit) && rhs_sized(at, limit),
        Rhs::Unary { operand, width, .. } => is_width(*width) && rhs_sized(operand, limit),
        Rhs::Binary {
            left,
            right,
            width,
            ..
        } => is_width(*width) && rhs_sized(left, limit) && rhs_sized(right, limit),
        Rhs::Choose {
            condition,
            chosen,
            other,
        } => rhs_sized(condition, limit) && rhs_sized(chosen, limit) && rhs_sized(other, limit),
        Rhs::Join {
            high,
            low,
            high_width,
            low_width,
        } => {
            is_width(*high_width)
                && is_width(*low_width)
                && *high_width + *low_width <= 128
                && rhs_sized(high, limit)
                && rhs_sized(low, limit)
        }
        Rhs::Repeat { count, part, width } => {
            is_width(*width)
                && 1 <= *count
                && u64::from(*count) * u64::from(*width) <= 128
                && rhs_sized(part, limit)
        }
        Rhs::Select { vector, at, width } => {
            is_width(*width) && rhs_sized(vector, limit) && rhs_sized(at, limit)
        }
    }
}

fn place_sized(place: &Place, limit: u128) -> bool
    ensures { IsTrue result ↔ IsPlace (IsShort limit) (IsCountable limit) place.now }
{
    match place {
        Place::Bits { span, takes } => {
            is_width(*takes) && span.width <= *takes && span_short(*span, limit)
        }
        Place::BitsFrom { whole, at, width } => {
            is_width(*width) && span_sized(*whole, limit) && rhs_sized(at, limit)
        }
        Place::Word {
            room,
            word,
            low,
            width,
            takes,
        } => {
            is_width(*takes)
                && *width <= *takes
                && room_sized(*room, u128::from(*low) + u128::from(*width), limit)
                && rhs_sized(word, limit)
        }
        Place::WordFrom {
            room,
            word,
            size,
            at,
            width,
        } => {
            is_width(*width)
                && is_width(*size)
                && room_sized(*room, u128::from(*size), limit)
                && rhs_sized(word, limit)
                && rhs_sized(at, limit)
        }
    }
}

pub fn places_sized(places: &[Place], limit: u128) -> bool
    ensures { IsTrue result ↔ AllByRecursion (λ p. IsPlace (IsShort limit) (IsCountable limit) p) places.now }
{
    for place in places {
        if !place_sized(place, limit) {
            return false;
        }
    }
    true
}

/// Whether a target has at most 128 bits.
pub fn is_narrow(places: &[Place]) -> bool
    ensures { IsTrue result ↔ (target_width places.now ≤ 128) }
{
    let mut total: u64 = 0;
    for place in places {
        total += u64::from(place_width(place));
        if total > 128 {
            return false;
        }
    }
    true
}

#[cycle(sizes)]
fn act_sized(act: &Act, limit: u128) -> bool
    ensures { IsTrue result ↔ IsAct (IsShort limit) (IsCountable limit) act.now }
{
    match act {
        Act::Set { target, value } => {
            is_narrow(target.as_slice())
                && places_sized(target.as_slice(), limit)
                && rhs_sized(value, limit)
        }
        Act::Read(value) => rhs_sized(value, limit),
        Act::Branch { guards, otherwise } => {
            see_branch(guards, otherwise);
            guards_sized(guards, limit) && acts_sized(otherwise, limit)
        }
    }
}

#[cycle(sizes)]
fn guards_sized(guards: &Items<Guard>, limit: u128) -> bool
    ensures { IsTrue result ↔ AreGuards (IsShort limit) (IsCountable limit) guards.now }
{
    for guard in guards.as_slice() {
        if !rhs_sized(&guard.condition, limit) {
            return false;
        }
        if !acts_sized(&guard.body, limit) {
            return false;
        }
    }
    true
}

#[cycle(sizes)]
pub fn acts_sized(acts: &Items<Act>, limit: u128) -> bool
    ensures { IsTrue result ↔ IsBlock (IsShort limit) (IsCountable limit) acts.now }
{
    for act in acts.as_slice() {
        if !act_sized(act, limit) {
            return false;
        }
    }
    true
}

/// Whether statements can be evaluated: each width in them is 1 to 128, no place takes fewer bits than it writes, and each net
/// and word has a number of 64 bits.
pub fn is_sized_block(acts: &Items<Act>) -> bool
    ensures { IsTrue result ↔ IsSizedBlock acts.now }
{
    acts_sized(acts, 1 << 64)
}

fn nets_narrow(nets: &[Net]) -> bool
    ensures { IsTrue result ↔ All (λ n. n.width ≤ 128) nets.now }
{
    nets.iter().all(|n| n.width <= 128)
}

fn drivers_sized(drivers: &[Driver]) -> bool
    ensures { IsTrue result ↔ All (λ x. IsSizedBlock x.code.acts) drivers.now }
{
    drivers.iter().all(|x| acts_sized(&x.code.acts, 1 << 64))
}

fn blocks_sized(blocks: &[Code]) -> bool
    ensures { IsTrue result ↔ All (λ c. IsSizedBlock c.acts) blocks.now }
{
    blocks.iter().all(|c| acts_sized(&c.acts, 1 << 64))
}

/// Whether a design can be evaluated: each width in it is at most 128, its statements can be evaluated, and each word has a number
/// of 64 bits.
pub fn is_sized(design: &Design) -> bool
    ensures { IsTrue result ↔ IsSized design.now }
{
    nets_narrow(design.nets.as_slice())
        && drivers_sized(design.drivers.as_slice())
        && blocks_sized(design.blocks.as_slice())
        && few_words(design, 1 << 64)
}
