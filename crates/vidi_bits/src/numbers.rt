//! What operators make of numbers.

ghost use Rattle.std.specs.Prelude.{◌≡◌, ◌+◌, ◌*◌, ◌≤◌};
ghost use Rattle.vidi_bits.specs.Number.{IsWidth, complement, truth, repeated, part_of, side_by_side};
ghost use Rattle.vidi_bits.specs.Operators.{unary_number, binary_number};

use crate::arithmetic::{add_w, mul_w, shl_w, shr_w, sub_w};
use crate::bits::{join, ones, trim};
use crate::operators::{BinaryOp, UnaryOp};

/// Each of the low `w` bits of `a` turned.
fn turned(a: u128, w: u32) -> u128
    requires { IsWidth w }
    ensures { result ≡ complement a w }
{
    ones(w) - trim(a, w)
}

/// 1 for true, 0 for false.
fn number_of(b: bool) -> u128
    ensures { result ≡ truth b }
{
    u128::from(b)
}

/// An operator of one operand, of `w` bits.
pub fn unary(op: UnaryOp, a: u128, w: u32) -> u128
    requires { IsWidth w }
    ensures { result ≡ unary_number op a w }
{
    match op {
        UnaryOp::Negate => sub_w(0, a, w),
        UnaryOp::Complement => turned(a, w),
        UnaryOp::LogicalNot => number_of(a == 0),
        UnaryOp::ReduceAnd => number_of(a == ones(w)),
        UnaryOp::ReduceNand => number_of(a != ones(w)),
        UnaryOp::ReduceOr => number_of(a != 0),
        UnaryOp::ReduceNor => number_of(a == 0),
        UnaryOp::ReduceXor => u128::from(a.count_ones() % 2),
        UnaryOp::ReduceXnor => u128::from(1 - a.count_ones() % 2),
    }
}

/// An operator of two operands, at `w` bits.
pub fn binary(op: BinaryOp, a: u128, b: u128, w: u32) -> u128
    requires { IsWidth w }
    ensures { result ≡ binary_number op a b w }
{
    match op {
        BinaryOp::Add => add_w(a, b, w),
        BinaryOp::Subtract => sub_w(a, b, w),
        BinaryOp::Multiply => mul_w(a, b, w),
        BinaryOp::And => a & b,
        BinaryOp::Or => a | b,
        BinaryOp::Xor => a ^ b,
        BinaryOp::Xnor => turned(a ^ b, w),
        BinaryOp::ShiftLeft => shl_w(a, b, w),
        BinaryOp::ShiftRight => shr_w(trim(a, w), b, w),
        BinaryOp::Less => number_of(a < b),
        BinaryOp::LessEqual => number_of(a <= b),
        BinaryOp::Greater => number_of(a > b),
        BinaryOp::GreaterEqual => number_of(a >= b),
        BinaryOp::Equal => number_of(a == b),
        BinaryOp::NotEqual => number_of(a != b),
        BinaryOp::LogicalAnd => number_of(a != 0 && b != 0),
        BinaryOp::LogicalOr => number_of(a != 0 || b != 0),
    }
}

/// `w` bits of `a` from a place on, which may be past its end.
pub fn selected(a: u128, at: u128, w: u32) -> u128
    requires { IsWidth w }
    ensures { result ≡ part_of a at w }
{
    trim(shr_w(a, at, 128), w)
}

/// The low bits of two numbers side by side.
pub fn joined(high: u128, low: u128, high_width: u32, low_width: u32) -> u128
    requires high { IsWidth high_width }
    requires low { IsWidth low_width }
    requires both { high_width + low_width ≤ 128 }
    ensures { result ≡ side_by_side high low high_width low_width }
{
    join(trim(high, high_width), low, low_width)
}

/// The low `w` bits of `x`, `count` times side by side.
pub fn times(count: u32, x: u128, w: u32) -> u128
    requires some { 1 ≤ count }
    requires width { IsWidth w }
    requires all { count * w ≤ 128 }
    ensures { result ≡ repeated count x w }
{
    let mut all = trim(x, w);
    for _done in 1..count {
        all = join(all, x, w);
    }
    all
}
