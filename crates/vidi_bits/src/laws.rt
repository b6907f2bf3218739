//! What holds of operators' numbers, as contracts of functions that do nothing.

ghost use Rattle.std.specs.Prelude.{ℕ, ◌<◌, ◌^◌, ◌+◌};
ghost use Rattle.vidi_bits.specs.Number.{IsWidth, side_by_side};
ghost use Rattle.vidi_bits.specs.Operators.{unary_number, binary_number};
ghost use Rattle.vidi_bits.specs.declared.operators.UnaryOp.{UnaryOp};
ghost use Rattle.vidi_bits.specs.declared.operators.BinaryOp.{BinaryOp};

/// At a width of `w` bits operands below 2 to the power of `w` make a number below it.
pub fn numbers_fit()
    ensures unary { (op : UnaryOp) (a w : ℕ) → IsWidth w → a < 2 ^ w → unary_number op a w < 2 ^ w }
    ensures binary { (op : BinaryOp) (a b w : ℕ) → IsWidth w → a < 2 ^ w → b < 2 ^ w → binary_number op a b w < 2 ^ w }
    ensures joined { (high low v w : ℕ) → side_by_side high low v w < 2 ^ (v + w) }
{}
