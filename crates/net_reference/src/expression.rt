//! The number of an expression.

ghost use Rattle.std.specs.Prelude.{◌≡◌, ◌+◌, ◌<◌, ◌≤◌, ◌^◌, MatchOption, slice_index};
ghost use Rattle.net_design.specs.vidi_bits.Number.{IsWidth};
ghost use Rattle.net_design.specs.Value.{value, word_at, read};
ghost use Rattle.net_design.specs.Sized.{IsSizedRhs, IsCountable};

use net_design::vidi_bits::{Numbers, binary, joined, selected, slice, times, unary};
use net_design::{Rhs, Room, Span, Values, number_at};

pub fn read_bits(span: Span, values: &Values) -> u128
    requires { IsWidth span.width }
    ensures { result ≡ read span values.now }
{
    slice(number_at(&values.nets, span.net), span.low, span.width)
}

/// The place of word `i` of a memory among all words, where it has that word.
pub fn word_in(room: Room, i: u128) -> Option<usize>
    requires { IsCountable (2 ^ 64) room 0 }
    ensures { MatchOption result (room.length ≤ i) (λ k. (i < room.length) × (k ≡ room.first + i)) }
{
    if i >= room.length as u128 {
        return None;
    }
    Some(room.first + i as usize)
}

fn read_word(room: Room, i: u128, values: &Values) -> u128
    requires { IsCountable (2 ^ 64) room 0 }
    ensures { result ≡ word_at room i values.now }
{
    match word_in(room, i) {
        Some(k) => number_at(&values.words, k),
        None => 0,
    }
}

/// The number of an expression.
pub fn value_of(e: &Rhs, values: &Values) -> u128
    requires { IsSizedRhs e.now }
    ensures { result ≡ value e.now values.now }
{
    match e {
        Rhs::Number(number) => *number,
        Rhs::Bits(span) => read_bits(*span, values),
        Rhs::Word { room, at } => read_word(*room, value_of(at, values), values),
        Rhs::Unary { op, operand, width } => unary(*op, value_of(operand, values), *width),
        Rhs::Binary {
            op,
            left,
            right,
            width,
        } => binary(*op, value_of(left, values), value_of(right, values), *width),
        Rhs::Choose {
            condition,
            chosen,
            other,
        } => {
            if value_of(condition, values) == 0 {
                value_of(other, values)
            } else {
                value_of(chosen, values)
            }
        }
        Rhs::Join {
            high,
            low,
            high_width,
            low_width,
        } => joined(
            value_of(high, values),
            value_of(low, values),
            *high_width,
            *low_width,
        ),
        Rhs::Repeat { count, part, width } => times(*count, value_of(part, values), *width),
        Rhs::Select { vector, at, width } => {
            selected(value_of(vector, values), value_of(at, values), *width)
        }
    }
}
