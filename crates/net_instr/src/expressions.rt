//! The code of expressions. It is pushed from its last instruction to its first.

ghost use Rattle.std.specs.Prelude.{◌≡◌, ◌+◌, ◌*◌, ◌^◌, ◌<◌, ◌≤◌, ◌++◌, OnOk, IsTrue, length, slice_index};
ghost use Rattle.net_instr.specs.Expressions.{unary_step, binary_step, is_whole, stands, slot};
ghost use Rattle.net_instr.specs.Expressions.{step, taken, below, IsRhsThere, IsThere, HasRoom};

use crate::instr::{Instr, Step};
use net_design::vidi_bits::{BinaryOp, Items, Memory, UnaryOp};
use net_design::{Rhs, Room, Span};

/// Whether some more slots behind `t` can be named; without that there is no memory for them.
pub fn more_slots(t: u32) -> Result<(), Memory>
    ensures { OnOk result (t + 8 < 2 ^ 32) }
{
    if t > u32::MAX - 8 {
        return Err(Memory);
    }
    Ok(())
}

/// Whether a span has all bits of its net.
pub fn is_whole(span: Span, widths: &[u32]) -> bool
    requires { span.net < length widths.now }
    ensures { result ≡ is_whole widths.now span }
{
    span.low == 0 && span.width == widths[span.net]
}

/// Whether an expression is a whole net.
pub fn stands(e: &Rhs, widths: &[u32], words: u32) -> bool
    requires { IsRhsThere widths.now words e.now }
    ensures { result ≡ stands widths.now e.now }
{
    match e {
        Rhs::Bits(span) => is_whole(*span, widths),
        _ => false,
    }
}

/// The slot of an operand, where `t` is free for it.
pub fn slot(e: &Rhs, t: u32, widths: &[u32], words: u32) -> u32
    requires sized { IsRhsThere widths.now words e.now }
    requires few { length widths.now < 2 ^ 32 }
    ensures { result ≡ slot widths.now e.now t }
{
    match e {
        Rhs::Bits(span) => if is_whole(*span, widths) {
            span.net as u32
        } else {
            t
        },
        _ => t,
    }
}

/// The step of an operator of one operand.
fn unary_step(op: UnaryOp, from: u32, width: u32) -> Step
    ensures { result ≡ unary_step op from width }
{
    match op {
        UnaryOp::LogicalNot => Step::LogicalNot { from },
        _ => Step::Unary { op, from, width },
    }
}

/// The step of an operator of two operands.
fn binary_step(op: BinaryOp, left: u32, right: u32, width: u32) -> Step
    ensures { result ≡ binary_step op left right width }
{
    match op {
        BinaryOp::Add => Step::Add { left, right, width },
        BinaryOp::Subtract => Step::Subtract { left, right, width },
        BinaryOp::And => Step::And { left, right },
        BinaryOp::Or => Step::Or { left, right },
        BinaryOp::Xor => Step::Xor { left, right },
        BinaryOp::Less => Step::Less { left, right },
        BinaryOp::Equal => Step::Equal { left, right },
        _ => Step::Binary {
            op,
            left,
            right,
            width,
        },
    }
}

/// The step of bits of a net.
fn span_step(span: Span, widths: &[u32]) -> Step
    requires there { span.net < length widths.now }
    requires few { length widths.now < 2 ^ 32 }
    ensures { result ≡ step widths.now (Rhs.Bits span) 0 }
{
    if is_whole(span, widths) {
        Step::Copy {
            from: span.net as u32,
        }
    } else {
        Step::Slice {
            from: span.net as u32,
            low: span.low,
            width: span.width,
        }
    }
}

/// The step of a word of a memory.
fn word_step(room: Room, word: u32, widths: &[u32], words: u32) -> Step
    requires room { room.first + room.length ≤ words }
    requires few { length widths.now + words < 2 ^ 32 }
    ensures { result ≡ Step.Word (length widths.now + room.first) room.length word }
{
    Step::Word {
        first: widths.len() as u32 + room.first as u32,
        length: room.length as u32,
        word,
    }
}

/// The step that gives an expression's number once the code below it has run.
pub fn step(e: &Rhs, t: u32, widths: &[u32], words: u32) -> Step
    requires sized { IsRhsThere widths.now words e.now }
    requires few { length widths.now + words < 2 ^ 32 }
    requires room { t + 2 < 2 ^ 32 }
    ensures { result ≡ step widths.now e.now t }
{
    match e {
        Rhs::Number(number) => Step::Number { number: *number },
        Rhs::Bits(span) => span_step(*span, widths),
        Rhs::Word { room, at } => word_step(*room, slot(at, t, widths, words), widths, words),
        Rhs::Unary { op, operand, width } => unary_step(
            *op,
            slot(operand, t, widths, words),
            *width,
        ),
        Rhs::Binary {
            op,
            left,
            right,
            width,
        } => {
            binary_step(
                *op,
                slot(left, t, widths, words),
                slot(right, t + 1, widths, words),
                *width,
            )
        }
        Rhs::Choose {
            condition,
            chosen,
            other,
        } => Step::Choose {
            test: slot(condition, t, widths, words),
            chosen: slot(chosen, t + 1, widths, words),
            other: slot(other, t + 2, widths, words),
        },
        Rhs::Join {
            high,
            low,
            high_width,
            low_width,
        } => Step::Join {
            high: slot(high, t, widths, words),
            low: slot(low, t + 1, widths, words),
            high_width: *high_width,
            low_width: *low_width,
        },
        Rhs::Repeat { count, part, width } => Step::Repeat {
            count: *count,
            part: slot(part, t, widths, words),
            width: *width,
        },
        Rhs::Select { vector, at, width } => Step::Select {
            vector: slot(vector, t, widths, words),
            at: slot(at, t + 1, widths, words),
            width: *width,
        },
    }
}

/// Puts an operand into slot `t`, where it doesn't stand elsewhere.
pub fn take(
    code: &mut Items<Instr>,
    e: &Rhs,
    t: u32,
    widths: &[u32],
    words: u32,
) -> Result<(), Memory>
    requires sized { IsRhsThere widths.now words e.now }
    requires few { length widths.now + words < 2 ^ 32 }
    requires room { t + 2 < 2 ^ 32 }
    ensures { OnOk result (code.new ≡ code.old ++ taken widths.now e.now t) }
{
    if stands(e, widths, words) {
        return Ok(());
    }
    code.push(Instr::Do {
        to: t,
        step: step(e, t, widths, words),
    })?;
    Ok(())
}

/// Pushes the code below an expression, from the last instruction to the first; it takes free slots from
/// `t` on.
pub fn lower(
    code: &mut Items<Instr>,
    e: &Rhs,
    t: u32,
    widths: &[u32],
    words: u32,
) -> Result<(), Memory>
    requires sized { IsRhsThere widths.now words e.now }
    requires few { length widths.now + words < 2 ^ 32 }
    requires room { t + 2 < 2 ^ 32 }
    ensures { OnOk result (code.new ≡ code.old ++ below widths.now e.now t) }
{
    match e {
        Rhs::Number(_) | Rhs::Bits(_) => Ok(()),
        Rhs::Word { at: operand, .. }
        | Rhs::Unary { operand, .. }
        | Rhs::Repeat { part: operand, .. } => {
            more_slots(t)?;
            take(code, operand, t, widths, words)?;
            lower(code, operand, t, widths, words)?;
            Ok(())
        }
        Rhs::Binary { left, right, .. }
        | Rhs::Join {
            high: left,
            low: right,
            ..
        }
        | Rhs::Select {
            vector: left,
            at: right,
            ..
        } => {
            more_slots(t)?;
            take(code, right, t + 1, widths, words)?;
            lower(code, right, t + 1, widths, words)?;
            take(code, left, t, widths, words)?;
            lower(code, left, t, widths, words)?;
            Ok(())
        }
        Rhs::Choose {
            condition,
            chosen,
            other,
        } => {
            more_slots(t)?;
            take(code, other, t + 2, widths, words)?;
            lower(code, other, t + 2, widths, words)?;
            take(code, chosen, t + 1, widths, words)?;
            lower(code, chosen, t + 1, widths, words)?;
            take(code, condition, t, widths, words)?;
            lower(code, condition, t, widths, words)?;
            Ok(())
        }
    }
}
