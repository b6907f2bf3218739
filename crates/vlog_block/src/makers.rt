//! Pieces of code, made of their parts.

ghost use Rattle.std.specs.Prelude.{◌≡◌, ℕ, false, ◌||◌, ◌≤◌, ◌<◌, ◌+◌, ◌^◌, IfOk, if◌then◌else◌, ◌==◌};
ghost use Rattle.vlog_size.specs.vidi_bits.Number.{IsWidth, part_of, side_by_side, repeated};
ghost use Rattle.vlog_size.specs.Operators.{unary_value, binary_value};
ghost use Rattle.net_design.specs.declared.values.Values.{Values};
ghost use Rattle.net_design.specs.Value.{value, read, word_at};
ghost use Rattle.net_design.specs.Bits as bits;
ghost use Rattle.net_design.specs.Sized.{IsSizedRhs, IsCountable};
ghost use Rattle.vlog_block.specs.Bits.{bits_from};
ghost use Rattle.vlog_block.specs.Fit.{IsRepeated};

use net_design::{Rhs, Room, Span};
use std::alloc::Global;
use std::boxed::Box;
use vlog_size::vidi_bits::Memory;
use vlog_size::{operator_of, unary_operator_of};
use vlog_tree::{BinaryOp, UnaryOp};

/// A constant.
pub fn number(alloc: Global, n: u128) -> Result<Box<Rhs>, Memory>
    ensures value { IfOk result (λ c. (v : Values) → value c.value v ≡ n) }
    ensures reads { IfOk result (λ c. (m k : ℕ) → bits.reads c.value m k ≡ false) }
    ensures sized { IfOk result (λ c. IsSizedRhs c.value) }
{
    Ok(Box::new(alloc, Rhs::Number(n))?)
}

/// An operator before an operand of `w` bits.
pub fn unary_code(alloc: Global, op: UnaryOp, operand: Box<Rhs>, w: u32) -> Result<Box<Rhs>, Memory>
    requires width { IsWidth w }
    requires operand { IsSizedRhs operand.value }
    ensures value { IfOk result (λ c. (v : Values) → value c.value v ≡ unary_value op (value operand.value v) w) }
    ensures reads { IfOk result (λ c. (m k : ℕ) → bits.reads c.value m k ≡ bits.reads operand.value m k) }
    ensures sized { IfOk result (λ c. IsSizedRhs c.value) }
{
    match unary_operator_of(op) {
        None => Ok(operand),
        Some(op) => Ok(Box::new(
            alloc,
            Rhs::Unary {
                op,
                operand,
                width: w,
            },
        )?),
    }
}

/// An operator between two operands, at `w` bits.
pub fn binary_code(
    alloc: Global,
    op: BinaryOp,
    left: Box<Rhs>,
    right: Box<Rhs>,
    w: u32,
) -> Result<Box<Rhs>, Memory>
    requires width { IsWidth w }
    requires left { IsSizedRhs left.value }
    requires right { IsSizedRhs right.value }
    ensures value { IfOk result (λ c. (v : Values) → value c.value v ≡ binary_value op (value left.value v) (value right.value v) w) }
    ensures reads { IfOk result (λ c. (m k : ℕ) → bits.reads c.value m k ≡ (bits.reads left.value m k || bits.reads right.value m k)) }
    ensures sized { IfOk result (λ c. IsSizedRhs c.value) }
{
    let op = operator_of(op);
    Ok(Box::new(
        alloc,
        Rhs::Binary {
            op,
            left,
            right,
            width: w,
        },
    )?)
}

/// `condition ? chosen : other`
pub fn choice_code(
    alloc: Global,
    condition: Box<Rhs>,
    chosen: Box<Rhs>,
    other: Box<Rhs>,
) -> Result<Box<Rhs>, Memory>
    requires condition { IsSizedRhs condition.value }
    requires chosen { IsSizedRhs chosen.value }
    requires other { IsSizedRhs other.value }
    ensures value { IfOk result (λ c. (v : Values) → value c.value v
        ≡ (if value condition.value v == 0 then value other.value v else value chosen.value v)) }
    ensures reads { IfOk result (λ c. (m k : ℕ) → bits.reads c.value m k
        ≡ (bits.reads condition.value m k || (bits.reads chosen.value m k || bits.reads other.value m k))) }
    ensures sized { IfOk result (λ c. IsSizedRhs c.value) }
{
    Ok(Box::new(
        alloc,
        Rhs::Choose {
            condition,
            chosen,
            other,
        },
    )?)
}

/// The low bits of two numbers side by side.
pub fn join_code(
    alloc: Global,
    high: Box<Rhs>,
    low: Box<Rhs>,
    high_width: u32,
    low_width: u32,
) -> Result<Box<Rhs>, Memory>
    requires high_width { IsWidth high_width }
    requires low_width { IsWidth low_width }
    requires both { high_width + low_width ≤ 128 }
    requires high { IsSizedRhs high.value }
    requires low { IsSizedRhs low.value }
    ensures value { IfOk result (λ c. (v : Values) → value c.value v
        ≡ side_by_side (value high.value v) (value low.value v) high_width low_width) }
    ensures reads { IfOk result (λ c. (m k : ℕ) → bits.reads c.value m k ≡ (bits.reads high.value m k || bits.reads low.value m k)) }
    ensures sized { IfOk result (λ c. IsSizedRhs c.value) }
{
    Ok(Box::new(
        alloc,
        Rhs::Join {
            high,
            low,
            high_width,
            low_width,
        },
    )?)
}

/// `width` bits so many times side by side.
pub fn repeat_code(
    alloc: Global,
    count: u32,
    part: Box<Rhs>,
    width: u32,
) -> Result<Box<Rhs>, Memory>
    requires repeated { IsRepeated count width }
    requires part { IsSizedRhs part.value }
    ensures value { IfOk result (λ c. (v : Values) → value c.value v ≡ repeated count (value part.value v) width) }
    ensures reads { IfOk result (λ c. (m k : ℕ) → bits.reads c.value m k ≡ bits.reads part.value m k) }
    ensures sized { IfOk result (λ c. IsSizedRhs c.value) }
{
    Ok(Box::new(alloc, Rhs::Repeat { count, part, width })?)
}

/// Bits of a net.
pub fn bits_code(alloc: Global, span: Span) -> Result<Box<Rhs>, Memory>
    requires width { IsWidth span.width }
    requires short { span.low + span.width ≤ 128 }
    ensures value { IfOk result (λ c. (v : Values) → value c.value v ≡ read span v) }
    ensures reads { IfOk result (λ c. (m k : ℕ) → bits.reads c.value m k ≡ bits.bits_of span m k) }
    ensures sized { IfOk result (λ c. IsSizedRhs c.value) }
{
    Ok(Box::new(alloc, Rhs::Bits(span))?)
}

/// A word of a memory.
pub fn word_code(alloc: Global, room: Room, at: Box<Rhs>) -> Result<Box<Rhs>, Memory>
    requires room { IsCountable (2 ^ 64) room 0 }
    requires at { IsSizedRhs at.value }
    ensures value { IfOk result (λ c. (v : Values) → value c.value v ≡ word_at room (value at.value v) v) }
    ensures reads { IfOk result (λ c. (m k : ℕ) → bits.reads c.value m k ≡ bits.reads at.value m k) }
    ensures sized { IfOk result (λ c. IsSizedRhs c.value) }
{
    Ok(Box::new(alloc, Rhs::Word { room, at })?)
}

/// `w` bits of a vector from a place on.
pub fn select_code(
    alloc: Global,
    vector: Box<Rhs>,
    at: Box<Rhs>,
    w: u32,
) -> Result<Box<Rhs>, Memory>
    requires width { IsWidth w }
    requires vector { IsSizedRhs vector.value }
    requires at { IsSizedRhs at.value }
    ensures value { IfOk result (λ c. (v : Values) → value c.value v ≡ part_of (value vector.value v) (value at.value v) w) }
    ensures reads { IfOk result (λ c. (m k : ℕ) → bits.reads c.value m k ≡ (bits.reads vector.value m k || bits.reads at.value m k)) }
    ensures sized { IfOk result (λ c. IsSizedRhs c.value) }
{
    Ok(Box::new(
        alloc,
        Rhs::Select {
            vector,
            at,
            width: w,
        },
    )?)
}

/// `w` bits of a whole net from a constant place on, as far as it has them; none read as 0.
#[tactic(auto, using(crate::proofs::Clips::part_inside, crate::proofs::Clips::part_past, crate::proofs::Ranges::ranges))]
pub fn fixed_bits(alloc: Global, span: Span, at: u128, w: u32) -> Result<Box<Rhs>, Memory>
    requires width { IsWidth w }
    requires net { IsWidth span.width × (span.low ≡ 0) }
    ensures value { IfOk result (λ c. (v : Values) → value c.value v ≡ part_of (read span v) at w) }
    ensures reads { IfOk result (λ c. (m k : ℕ) → bits.reads c.value m k ≡ bits_from span at w m k) }
    ensures sized { IfOk result (λ c. IsSizedRhs c.value) }
{
    if at >= u128::from(span.width) {
        return number(alloc, 0);
    }
    let low = at as u32;
    let width = w.min(span.width - low);
    bits_code(
        alloc,
        Span {
            net: span.net,
            low,
            width,
        },
    )
}
