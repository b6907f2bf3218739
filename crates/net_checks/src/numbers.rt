//! The numbers of operators, by IEEE 1364-2005, clause 5, and by hand.

use net_sim::vidi_bits::{BinaryOp, UnaryOp, binary, joined, selected, times, unary};

// An operator of 8 bits, its operand, and what it makes.
static ONE_OPERAND: [(UnaryOp, u128, u128); 9] = [
    (UnaryOp::Negate, 3, 253),
    (UnaryOp::Complement, 0x0f, 0xf0),
    (UnaryOp::LogicalNot, 4, 0),
    (UnaryOp::ReduceAnd, 255, 1),
    (UnaryOp::ReduceNand, 255, 0),
    (UnaryOp::ReduceOr, 0, 0),
    (UnaryOp::ReduceNor, 0, 1),
    (UnaryOp::ReduceXor, 7, 1),
    (UnaryOp::ReduceXnor, 7, 0),
];

// An operator of 8 bits, its operands, and what it makes.
static TWO_OPERANDS: [(BinaryOp, u128, u128, u128); 15] = [
    (BinaryOp::Add, 200, 100, 44),
    (BinaryOp::Subtract, 3, 5, 254),
    (BinaryOp::Multiply, 20, 13, 4),
    (BinaryOp::And, 12, 10, 8),
    (BinaryOp::Or, 12, 10, 14),
    (BinaryOp::Xor, 12, 10, 6),
    (BinaryOp::Xnor, 12, 10, 249),
    (BinaryOp::ShiftLeft, 129, 1, 2),
    (BinaryOp::ShiftLeft, 1, 8, 0),
    (BinaryOp::ShiftRight, 129, 1, 64),
    (BinaryOp::ShiftRight, 129, 200, 0),
    (BinaryOp::Less, 3, 200, 1),
    (BinaryOp::GreaterEqual, 3, 3, 1),
    (BinaryOp::Equal, 3, 4, 0),
    (BinaryOp::LogicalAnd, 2, 4, 1),
];

#[test]
fn operators_of_one_operand(rt: HostRuntime) {
    let mut right = true;
    for (op, a, want) in &ONE_OPERAND {
        right &= unary(*op, *a, 8) == *want;
    }
    assert!(rt; right);
}

#[test]
fn operators_of_two_operands(rt: HostRuntime) {
    let mut right = true;
    for (op, a, b, want) in &TWO_OPERANDS {
        right &= binary(*op, *a, *b, 8) == *want;
    }
    assert!(rt; right);
}

// `{4'h3a, 4'h5}` is 8'ha5 and `{2{3'o6}}` is 6'o66. Two bits of 8'h81 from bit 7 on are 1.
#[test]
fn concatenations_and_selects(rt: HostRuntime) {
    let side_by_side = joined(0x3a, 0x5, 4, 4) == 0xa5;
    let repeated = times(2, 0x6, 3) == 0o66;
    assert!(rt; side_by_side && repeated && selected(0x81, 7, 2) == 1);
}
