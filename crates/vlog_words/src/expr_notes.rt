//! Notes on expressions. Their signs: an operator before its operands, `(` and `{` as they stand, a count before the `{` of what it repeats,
//! the first of two brackets as `<..>` and the last one as `[..]`.

use crate::notes::Notes;
use vlog_tree::{BinaryOp, Expr, Operand, Ref, Sel, Unary, UnaryOp};

/// Notes an expression.
#[cycle(expr)]
pub(crate) fn note_expr(notes: &mut Notes, e: &Expr) {
    match e {
        Expr::Unary(unary) => note_unary(notes, unary),
        Expr::Binary { left, op, right } => {
            notes.mark(binary_sign(*op));
            note_expr(notes, left);
            notes.mark(b",");
            note_expr(notes, right);
            notes.mark(b")");
        }
        Expr::Choice {
            condition,
            then_value,
            else_value,
        } => {
            notes.mark(b"Choice(");
            note_expr(notes, condition);
            notes.mark(b",");
            note_expr(notes, then_value);
            notes.mark(b",");
            note_expr(notes, else_value);
            notes.mark(b")");
        }
    }
}

#[cycle(expr)]
fn note_unary(notes: &mut Notes, unary: &Unary) {
    match unary.sign {
        Some(sign) => {
            notes.line(sign.line);
            notes.mark(unary_sign(sign.op));
            note_operand(notes, &unary.prim);
            notes.mark(b")");
        }
        None => note_operand(notes, &unary.prim),
    }
}

#[cycle(expr)]
fn note_operand(notes: &mut Notes, operand: &Operand) {
    match operand {
        Operand::Number(number) => {
            notes.mark(number.text.as_slice());
            notes.line(number.line);
        }
        Operand::Ref(name) => note_ref(notes, name),
        Operand::Paren { line, inner } => {
            notes.line(*line);
            notes.mark(b"(");
            note_expr(notes, inner);
            notes.mark(b")");
        }
        Operand::Concat { line, parts } => {
            notes.line(*line);
            notes.mark(b"{");
            note_exprs(notes, parts.as_slice());
            notes.mark(b"}");
        }
        Operand::Repeat { line, count, parts } => {
            notes.line(*line);
            notes.mark(b"{");
            note_expr(notes, count);
            notes.mark(b"{");
            note_exprs(notes, parts.as_slice());
            notes.mark(b"}}");
        }
    }
}

/// Notes expressions, with a comma between them.
#[cycle(expr)]
pub(crate) fn note_exprs(notes: &mut Notes, parts: &[Expr]) {
    for (place, part) in parts.iter().enumerate() {
        notes.mark(if place > 0 { b"," } else { b"" });
        note_expr(notes, part);
    }
}

/// Notes a name with its brackets.
#[cycle(expr)]
pub(crate) fn note_ref(notes: &mut Notes, name: &Ref) {
    notes.mark(name.id.name.as_slice());
    notes.line(name.id.line);
    if let Some(index) = &name.index {
        notes.mark(b"<");
        note_expr(notes, index);
        notes.mark(b">");
    }
    if let Some(sel) = &name.sel {
        notes.mark(b"[");
        note_sel(notes, sel);
        notes.mark(b"]");
    }
}

#[cycle(expr)]
fn note_sel(notes: &mut Notes, sel: &Sel) {
    match sel {
        Sel::Index(e) => note_expr(notes, e),
        Sel::Part { first, second } => {
            note_expr(notes, first);
            notes.mark(b":");
            note_expr(notes, second);
        }
        Sel::Indexed { base, width } => {
            note_expr(notes, base);
            notes.mark(b"+:");
            note_expr(notes, width);
        }
    }
}

/// The operator and the bracket behind it.
fn unary_sign(op: UnaryOp) -> &'static [u8] {
    match op {
        UnaryOp::Plus => b"Plus(",
        UnaryOp::Minus => b"Minus(",
        UnaryOp::LogicalNot => b"LogicalNot(",
        UnaryOp::BitNot => b"BitNot(",
        UnaryOp::And => b"And(",
        UnaryOp::Nand => b"Nand(",
        UnaryOp::Or => b"Or(",
        UnaryOp::Nor => b"Nor(",
        UnaryOp::Xor => b"Xor(",
        UnaryOp::TildeXor => b"TildeXor(",
        UnaryOp::XorTilde => b"XorTilde(",
    }
}

/// The operator and the bracket behind it.
fn binary_sign(op: BinaryOp) -> &'static [u8] {
    match op {
        BinaryOp::LogicalOr => b"LogicalOr(",
        BinaryOp::LogicalAnd => b"LogicalAnd(",
        BinaryOp::Or => b"Or(",
        BinaryOp::Xor => b"Xor(",
        BinaryOp::XorTilde => b"XorTilde(",
        BinaryOp::TildeXor => b"TildeXor(",
        BinaryOp::And => b"And(",
        BinaryOp::Equal => b"Equal(",
        BinaryOp::NotEqual => b"NotEqual(",
        BinaryOp::Less => b"Less(",
        BinaryOp::LessOrEqual => b"LessOrEqual(",
        BinaryOp::Greater => b"Greater(",
        BinaryOp::GreaterOrEqual => b"GreaterOrEqual(",
        BinaryOp::ShiftLeft => b"ShiftLeft(",
        BinaryOp::ShiftRight => b"ShiftRight(",
        BinaryOp::ArithmeticShiftLeft => b"ArithmeticShiftLeft(",
        BinaryOp::ArithmeticShiftRight => b"ArithmeticShiftRight(",
        BinaryOp::Plus => b"Plus(",
        BinaryOp::Minus => b"Minus(",
        BinaryOp::Times => b"Times(",
    }
}
