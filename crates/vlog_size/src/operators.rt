//! The operators of the trees: their kinds, what they stand for, and their numbers.

ghost use Rattle.std.specs.Prelude.{◌≡◌, ◌*◌, ◌^◌};
ghost use Rattle.vlog_tree.specs.vidi_bits.Number.{IsWidth};
ghost use Rattle.vlog_size.specs.Operators.{kind_of, in_range, whole_value, is_plain_op, is_plain_shift, is_wide};
ghost use Rattle.vlog_size.specs.Operators.{operator_of, unary_operator_of, binary_value, unary_value};

use vlog_tree::vidi_bits::{binary, shl_w, shr_w, unary};
use vlog_tree::{BinaryOp, UnaryOp, vidi_bits as operators};

/// The kinds of binary operators.
#[derive(Clone, Copy)]
pub enum Kind {
    /// Operators whose operands have the width of the whole.
    Sum,
    Comparison,
    Logic,
    Shift,
}

/// The kind of a binary operator.
pub fn kind_of(op: BinaryOp) -> Kind
    ensures { result ≡ kind_of op }
{
    match op {
        BinaryOp::LogicalOr | BinaryOp::LogicalAnd => Kind::Logic,
        BinaryOp::Or
        | BinaryOp::Xor
        | BinaryOp::XorTilde
        | BinaryOp::TildeXor
        | BinaryOp::And
        | BinaryOp::Plus
        | BinaryOp::Minus
        | BinaryOp::Times => Kind::Sum,
        BinaryOp::Equal
        | BinaryOp::NotEqual
        | BinaryOp::Less
        | BinaryOp::LessOrEqual
        | BinaryOp::Greater
        | BinaryOp::GreaterOrEqual => Kind::Comparison,
        BinaryOp::ShiftLeft
        | BinaryOp::ShiftRight
        | BinaryOp::ArithmeticShiftLeft
        | BinaryOp::ArithmeticShiftRight => Kind::Shift,
    }
}

/// Whether the operator is one of `+ - * << >>`, which make plain expressions.
pub fn is_plain_op(op: BinaryOp) -> bool
    ensures { result ≡ is_plain_op op }
{
    matches!(
        op,
        BinaryOp::Plus
            | BinaryOp::Minus
            | BinaryOp::Times
            | BinaryOp::ShiftLeft
            | BinaryOp::ShiftRight
    )
}

/// Whether the operator is `<<` or `>>`.
pub fn is_plain_shift(op: BinaryOp) -> bool
    ensures { result ≡ is_plain_shift op }
{
    matches!(op, BinaryOp::ShiftLeft | BinaryOp::ShiftRight)
}

/// Whether the operator before an operand is one of `+ - ~`.
pub fn is_wide(op: UnaryOp) -> bool
    ensures { result ≡ is_wide op }
{
    matches!(op, UnaryOp::Plus | UnaryOp::Minus | UnaryOp::BitNot)
}

/// The operator that a binary operator of the trees stands for: all is unsigned, so `<<<` is `<<`
/// and `>>>` is `>>` (IEEE 1364-2005, 5.1.12).
pub fn operator_of(op: BinaryOp) -> operators::BinaryOp
    ensures { result ≡ operator_of op }
{
    match op {
        BinaryOp::LogicalOr => operators::BinaryOp::LogicalOr,
        BinaryOp::LogicalAnd => operators::BinaryOp::LogicalAnd,
        BinaryOp::Or => operators::BinaryOp::Or,
        BinaryOp::Xor => operators::BinaryOp::Xor,
        BinaryOp::XorTilde | BinaryOp::TildeXor => operators::BinaryOp::Xnor,
        BinaryOp::And => operators::BinaryOp::And,
        BinaryOp::Equal => operators::BinaryOp::Equal,
        BinaryOp::NotEqual => operators::BinaryOp::NotEqual,
        BinaryOp::Less => operators::BinaryOp::Less,
        BinaryOp::LessOrEqual => operators::BinaryOp::LessEqual,
        BinaryOp::Greater => operators::BinaryOp::Greater,
        BinaryOp::GreaterOrEqual => operators::BinaryOp::GreaterEqual,
        BinaryOp::ShiftLeft | BinaryOp::ArithmeticShiftLeft => operators::BinaryOp::ShiftLeft,
        BinaryOp::ShiftRight | BinaryOp::ArithmeticShiftRight => operators::BinaryOp::ShiftRight,
        BinaryOp::Plus => operators::BinaryOp::Add,
        BinaryOp::Minus => operators::BinaryOp::Subtract,
        BinaryOp::Times => operators::BinaryOp::Multiply,
    }
}

/// The operator that a unary operator of the trees stands for; `+` changes nothing.
pub fn unary_operator_of(op: UnaryOp) -> Option<operators::UnaryOp>
    ensures { result ≡ unary_operator_of op }
{
    match op {
        UnaryOp::Plus => None,
        UnaryOp::Minus => Some(operators::UnaryOp::Negate),
        UnaryOp::LogicalNot => Some(operators::UnaryOp::LogicalNot),
        UnaryOp::BitNot => Some(operators::UnaryOp::Complement),
        UnaryOp::And => Some(operators::UnaryOp::ReduceAnd),
        UnaryOp::Nand => Some(operators::UnaryOp::ReduceNand),
        UnaryOp::Or => Some(operators::UnaryOp::ReduceOr),
        UnaryOp::Nor => Some(operators::UnaryOp::ReduceNor),
        UnaryOp::Xor => Some(operators::UnaryOp::ReduceXor),
        UnaryOp::TildeXor | UnaryOp::XorTilde => Some(operators::UnaryOp::ReduceXnor),
    }
}

/// The number of a binary operator of two numbers at a width of `w` bits.
pub fn binary_value(op: BinaryOp, a: u128, b: u128, w: u32) -> u128
    requires { IsWidth w }
    ensures { result ≡ binary_value op a b w }
{
    binary(operator_of(op), a, b, w)
}

/// The number of an operator before an operand of `w` bits.
pub fn unary_value(op: UnaryOp, a: u128, w: u32) -> u128
    requires { IsWidth w }
    ensures { result ≡ unary_value op a w }
{
    match unary_operator_of(op) {
        Some(op) => unary(op, a, w),
        None => a,
    }
}

/// A value of `+ - * << >>` in whole numbers, where it is 0 to 2,147,483,647.
pub fn whole_value(op: BinaryOp, a: u32, b: u32) -> Option<u32>
    ensures { result ≡ whole_value op a b }
{
    match op {
        BinaryOp::Plus => in_range(u128::from(a) + u128::from(b)),
        BinaryOp::Minus => in_range(u128::from(a.checked_sub(b)?)),
        BinaryOp::Times => in_range(u128::from(u64::from(a) * u64::from(b))),
        BinaryOp::ShiftLeft => shifted_left(a, b),
        BinaryOp::ShiftRight => in_range(shr_w(u128::from(a), u128::from(b), 128)),
        _ => None,
    }
}

/// The number, where it is 0 to 2,147,483,647.
pub fn in_range(n: u128) -> Option<u32>
    ensures { result ≡ in_range n }
{
    if n <= 2_147_483_647 {
        Some(n as u32)
    } else {
        None
    }
}

#[tactic(auto, using(crate::proofs::Shifts::shift_none, crate::proofs::Shifts::shift_past, crate::proofs::Shifts::shift_whole))]
/// `a` shifted left by `n` bits, where that is 0 to 2,147,483,647.
fn shifted_left(a: u32, n: u32) -> Option<u32>
    ensures { result ≡ in_range (a * 2 ^ n) }
{
    if a == 0 {
        return Some(0);
    }
    if n >= 31 {
        return None;
    }
    in_range(shl_w(u128::from(a), u128::from(n), 128))
}
