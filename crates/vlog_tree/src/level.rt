//! The levels of the operators between two operands (IEEE 1364-2005, 5.1.2).

ghost use Rattle.std.specs.Prelude.{◌≡◌};
ghost use Rattle.vlog_tree.specs.Shape.{level_of};

use crate::expr::BinaryOp;

/// The level of a binary operator (IEEE 1364-2005, 5.1.2): 1 is the lowest, that of `||`, and 10 the
/// highest, that of `*`.
pub fn level_of(op: BinaryOp) -> u32
    ensures { result ≡ level_of op }
{
    match op {
        BinaryOp::LogicalOr => 1,
        BinaryOp::LogicalAnd => 2,
        BinaryOp::Or => 3,
        BinaryOp::Xor | BinaryOp::XorTilde | BinaryOp::TildeXor => 4,
        BinaryOp::And => 5,
        BinaryOp::Equal | BinaryOp::NotEqual => 6,
        BinaryOp::Less | BinaryOp::LessOrEqual | BinaryOp::Greater | BinaryOp::GreaterOrEqual => 7,
        BinaryOp::ShiftLeft
        | BinaryOp::ShiftRight
        | BinaryOp::ArithmeticShiftLeft
        | BinaryOp::ArithmeticShiftRight => 8,
        BinaryOp::Plus | BinaryOp::Minus => 9,
        BinaryOp::Times => 10,
    }
}
