//! The code of an expression.

ghost use Rattle.std.specs.Prelude.{◌≡◌, ℕ, ◌≤◌, ◌+◌, ◌-◌, ◌<◌, ◌^◌, ◌||◌, true, false, [], IfOk, IfSome, Some};
ghost use Rattle.vlog_size.specs.vidi_bits.Number.{IsWidth, part_of, side_by_side};
ghost use Rattle.vlog_tree.specs.Tree.{Last, Index};
ghost use Rattle.vlog_tree.specs.Plain.{plain_expr, plain_prim, plain_unary, plain_ref, plain_sel, plain_index, plain_last, plain_exprs};
ghost use Rattle.vlog_tree.specs.declared.expr.Ref.{back-Ref-index, back-Ref-sel};
ghost use Rattle.vlog_size.specs.Names.{Readable};
ghost use Rattle.vlog_size.specs.Operators.{kind_of, binary_value};
ghost use Rattle.vlog_size.specs.Size.{sizes_of, faults, sizes_of_all, total_width};
ghost use Rattle.net_design.specs.declared.values.Values.{Values};
ghost use Rattle.net_design.specs.Value as code;
ghost use Rattle.net_design.specs.Bits as bits;
ghost use Rattle.net_design.specs.Sized.{IsSizedRhs, IsCountable};
ghost use Rattle.vlog_block.specs.declared.source.Source.TheVariants.{Memory as MemorySource};
ghost use Rattle.vlog_block.specs.Sources.{names_of, IsSource};
ghost use Rattle.vlog_block.specs.Bits.{reads, prim_reads, parts_read, index_reads, last_reads, part_reads, source_reads};
ghost use Rattle.vlog_block.specs.Bits.{lone_reads, net_reads, ref_reads};
ghost use Rattle.vlog_block.specs.Places.{constant_index, constant_low};
ghost use Rattle.vlog_block.specs.Fit.{IsFitWith, IsFit, IsFitPrim, AreFit, IsFitRef, IsFitIndex, IsFitLast, IsFitSel};
ghost use Rattle.vlog_block.specs.Value.{value, prim_value, parts_value, ref_value, source_number, first_index, lowest, low_of};
ghost use Rattle.vlog_block.specs.Value.{index_value, part_or_whole, lone_word, picked, width_of};
ghost use Rattle.vlog_block.specs.Value.{prim_width, operand_width, binary_at, bound};

use crate::makers::{
    binary_code, bits_code, choice_code, fixed_bits, join_code, number, repeat_code, select_code,
    unary_code, word_code,
};
use crate::source::{Source, source_of};
use net_design::{Rhs, Room, Span};
use std::alloc::Global;
use std::boxed::Box;
use vlog_size::vidi_bits::Memory;
use vlog_size::{
    Kind, Scope, checked, const_number, facts_of, fixed, is_wide, kind_of, literal_number,
    numbered, prim_facts, whole_view,
};
use vlog_tree::{BinaryOp, Expr, Operand, Ref, Sel, Unary, UnaryOp, see_concat, see_repeat};

/// Whether the expression is a comparison, `&&` or `||`, which has 1 bit whatever its operands have.
fn is_truth(e: &Expr) -> bool
    ensures { result ≡ true → (r : Readable) → width_of r (plain_expr e.now) ≡ 1 }
{
    match e {
        Expr::Binary { op, .. } => matches!(kind_of(*op), Kind::Comparison | Kind::Logic),
        Expr::Unary(_) | Expr::Choice { .. } => false,
    }
}

/// The self-determined width of an expression. In a run of comparisons, `&&` or `||` the operands
/// before an operator aren't looked at.
pub fn own_width(scope: &Scope, e: &Expr) -> u32
    requires { IsWidth (width_of (names_of scope.now) (plain_expr e.now)) }
    ensures { result ≡ width_of (names_of scope.now) (plain_expr e.now) }
{
    if is_truth(e) {
        return 1;
    }
    let names = whole_view(scope);
    facts_of(&checked(&names), e).width as u32
}

/// The width at which the operand of an operator is taken.
fn operand_width(scope: &Scope, op: UnaryOp, prim: &Operand, w: u32) -> u32
    requires width { IsWidth w }
    requires own { IsWidth (prim_width (names_of scope.now) (plain_prim prim.now)) }
    ensures value { result ≡ operand_width (names_of scope.now) op (plain_prim prim.now) w }
    ensures width { IsWidth result }
{
    if is_wide(op) {
        return w;
    }
    let names = whole_view(scope);
    prim_facts(&checked(&names), prim).width as u32
}

/// The number of a bound, or of the width after `+:`; none where it has none.
fn bound_number(scope: &Scope, e: &Expr) -> u128
    ensures { result ≡ bound (names_of scope.now) (plain_expr e.now) }
{
    let names = whole_view(scope);
    numbered(&fixed(&checked(&names)), e).number.unwrap_or(0)
}

/// The widths at which two operands are taken, and that of the operator between them.
#[derive(Clone, Copy)]
struct Operands {
    left: u32,
    right: u32,
    whole: u32,
}

/// The widths for an operator of this kind.
fn widths_of(scope: &Scope, op: BinaryOp, left: &Expr, right: &Expr, w: u32) -> Operands
    requires width { IsWidth w }
    requires left { IsWidth (width_of (names_of scope.now) (plain_expr left.now)) }
    requires right { IsWidth (width_of (names_of scope.now) (plain_expr right.now)) }
    ensures value { (a b : ℕ → ℕ) → binary_at (kind_of op) op (width_of (names_of scope.now) (plain_expr left.now))
        (width_of (names_of scope.now) (plain_expr right.now)) a b w ≡ binary_value op (a result.left) (b result.right) result.whole }
    ensures left { IsWidth result.left }
    ensures right { IsWidth result.right }
    ensures whole { IsWidth result.whole }
{
    match kind_of(op) {
        Kind::Sum => Operands {
            left: w,
            right: w,
            whole: w,
        },
        Kind::Comparison => {
            let m = own_width(scope, left);
            let n = own_width(scope, right);
            let both = m.max(n);
            Operands {
                left: both,
                right: both,
                whole: both,
            }
        }
        Kind::Logic => {
            let m = own_width(scope, left);
            let n = own_width(scope, right);
            Operands {
                left: m,
                right: n,
                whole: w,
            }
        }
        Kind::Shift => {
            let n = own_width(scope, right);
            Operands {
                left: w,
                right: n,
                whole: w,
            }
        }
    }
}

/// An index, and its number where it is a constant.
#[derive(Drop)]
pub struct Place {
    pub code: Box<Rhs>,
    pub constant: Option<u128>,
}

/// A select: its lowest bit, and its number of bits.
#[derive(Drop)]
pub struct Part {
    pub low: Place,
    pub width: u32,
}

/// The number of an index that is a constant.
fn constant_number(scope: &Scope, e: &Expr) -> Option<u128>
    ensures { result ≡ constant_index (names_of scope.now) (plain_expr e.now) }
{
    let names = whole_view(scope);
    let found = numbered(&checked(&names), e);
    if found.facts.constant {
        Some(found.number.unwrap_or(0))
    } else {
        None
    }
}

/// The code of an expression's number at a width of `w` bits.
#[cycle(bind)]
fn bound_expr(alloc: Global, scope: &Scope, e: &Expr, w: u32) -> Result<Box<Rhs>, Memory>
    requires width { IsWidth w }
    requires fit { IsFit (names_of scope.now) (plain_expr e.now) }
    ensures value { IfOk result (λ c. (v : Values) → code.value c.value v ≡ value (names_of scope.now) v (plain_expr e.now) w) }
    ensures reads { IfOk result (λ c. (m k : ℕ) → bits.reads c.value m k
        ≡ reads (names_of scope.now) (plain_expr e.now) m k) }
    ensures sized { IfOk result (λ c. IsSizedRhs c.value) }
{
    match e {
        Expr::Unary(unary) => bound_unary(alloc, scope, unary, w),
        Expr::Binary { left, op, right } => {
            let widths = widths_of(scope, *op, left, right, w);
            let a = bound_expr(alloc, scope, left, widths.left)?;
            let b = bound_expr(alloc, scope, right, widths.right)?;
            binary_code(alloc, *op, a, b, widths.whole)
        }
        Expr::Choice {
            condition,
            then_value,
            else_value,
        } => {
            let own = own_width(scope, condition);
            let c = bound_expr(alloc, scope, condition, own)?;
            let a = bound_expr(alloc, scope, then_value, w)?;
            let b = bound_expr(alloc, scope, else_value, w)?;
            choice_code(alloc, c, a, b)
        }
    }
}

#[cycle(bind)]
fn bound_unary(alloc: Global, scope: &Scope, unary: &Unary, w: u32) -> Result<Box<Rhs>, Memory>
    requires width { IsWidth w }
    requires fit { IsFit (names_of scope.now) (plain_unary unary.now) }
    ensures value { IfOk result (λ c. (v : Values) → code.value c.value v ≡ value (names_of scope.now) v (plain_unary unary.now) w) }
    ensures reads { IfOk result (λ c. (m k : ℕ) → bits.reads c.value m k
        ≡ reads (names_of scope.now) (plain_unary unary.now) m k) }
    ensures sized { IfOk result (λ c. IsSizedRhs c.value) }
{
    match unary.sign {
        None => bound_prim(alloc, scope, &unary.prim, w),
        Some(sign) => {
            let at = operand_width(scope, sign.op, &unary.prim, w);
            let a = bound_prim(alloc, scope, &unary.prim, at)?;
            unary_code(alloc, sign.op, a, at)
        }
    }
}

#[cycle(bind)]
fn bound_prim(alloc: Global, scope: &Scope, prim: &Operand, w: u32) -> Result<Box<Rhs>, Memory>
    requires width { IsWidth w }
    requires fit { IsFitPrim (names_of scope.now) (plain_prim prim.now) }
    ensures value { IfOk result (λ c. (v : Values) → code.value c.value v ≡ prim_value (names_of scope.now) v (plain_prim prim.now) w) }
    ensures reads { IfOk result (λ c. (m k : ℕ) → bits.reads c.value m k
        ≡ prim_reads (names_of scope.now) (plain_prim prim.now) m k) }
    ensures sized { IfOk result (λ c. IsSizedRhs c.value) }
{
    match prim {
        Operand::Number(n) => {
            let found = literal_number(n.kind, n.text.as_slice());
            number(alloc, found.unwrap_or(0))
        }
        Operand::Ref(name) => bound_ref(alloc, scope, name),
        Operand::Paren { line: _, inner } => bound_expr(alloc, scope, inner, w),
        Operand::Concat { line, parts } => {
            see_concat(*line, parts);
            let all = bound_parts(alloc, scope, parts.as_slice())?;
            Ok(all.code)
        }
        Operand::Repeat { line, count, parts } => {
            see_repeat(*line, parts);
            let times = bound_number(scope, count) as u32;
            let all = bound_parts(alloc, scope, parts.as_slice())?;
            repeat_code(alloc, times, all.code, all.width)
        }
    }
}

/// Some bits, and how many they are.
#[derive(Drop)]
struct Joined {
    code: Box<Rhs>,
    width: u32,
}

/// Some bits and others below them.
fn with_part(alloc: Global, high: Joined, low: Joined) -> Result<Joined, Memory>
    requires widths { IsWidth high.width × IsWidth low.width }
    requires both { high.width + low.width ≤ 128 }
    requires high { IsSizedRhs high.code.value }
    requires low { IsSizedRhs low.code.value }
    ensures value { IfOk result (λ j. (v : Values) → code.value j.code.value v
        ≡ side_by_side (code.value high.code.value v) (code.value low.code.value v) high.width low.width) }
    ensures reads { IfOk result (λ j. (m k : ℕ) → bits.reads j.code.value m k
        ≡ (bits.reads high.code.value m k || bits.reads low.code.value m k)) }
    ensures sized { IfOk result (λ j. IsSizedRhs j.code.value) }
    ensures width { IfOk result (λ j. j.width ≡ high.width + low.width) }
{
    let width = high.width + low.width;
    let code = join_code(alloc, high.code, low.code, high.width, low.width)?;
    Ok(Joined { code, width })
}

/// No bits.
fn nothing(alloc: Global) -> Result<Joined, Memory>
    ensures value { IfOk result (λ j. (v : Values) → code.value j.code.value v ≡ 0) }
    ensures reads { IfOk result (λ j. (m k : ℕ) → bits.reads j.code.value m k ≡ false) }
    ensures sized { IfOk result (λ j. IsSizedRhs j.code.value) }
    ensures width { IfOk result (λ j. j.width ≡ 0) }
{
    let code = number(alloc, 0)?;
    Ok(Joined { code, width: 0 })
}

/// An expression at its own width.
#[cycle(bind)]
fn bound_own(alloc: Global, scope: &Scope, e: &Expr) -> Result<Joined, Memory>
    requires width { IsWidth (width_of (names_of scope.now) (plain_expr e.now)) }
    requires fit { IsFit (names_of scope.now) (plain_expr e.now) }
    ensures value { IfOk result (λ j. (v : Values) → code.value j.code.value v
        ≡ value (names_of scope.now) v (plain_expr e.now) (width_of (names_of scope.now) (plain_expr e.now))) }
    ensures reads { IfOk result (λ j. (m k : ℕ) → bits.reads j.code.value m k
        ≡ reads (names_of scope.now) (plain_expr e.now) m k) }
    ensures sized { IfOk result (λ j. IsSizedRhs j.code.value) }
    ensures width { IfOk result (λ j. j.width ≡ width_of (names_of scope.now) (plain_expr e.now)) }
{
    let width = own_width(scope, e);
    let code = bound_expr(alloc, scope, e, width)?;
    Ok(Joined { code, width })
}

/// The parts of a concatenation, side by side.
#[cycle(bind)]
fn bound_parts(alloc: Global, scope: &Scope, parts: &[Expr]) -> Result<Joined, Memory>
    requires all { total_width (sizes_of_all (names_of scope.now) (plain_exprs parts.now)) ≤ 128 }
    requires fit { AreFit (names_of scope.now) (plain_exprs parts.now) }
    ensures value { IfOk result (λ j. (v : Values)
        → code.value j.code.value v ≡ parts_value (names_of scope.now) v (plain_exprs parts.now)) }
    ensures reads { IfOk result (λ j. (m k : ℕ) → bits.reads j.code.value m k
        ≡ parts_read (names_of scope.now) (plain_exprs parts.now) m k) }
    ensures sized { IfOk result (λ j. IsSizedRhs j.code.value) }
    ensures width { IfOk result (λ j. j.width ≡ total_width (sizes_of_all (names_of scope.now) (plain_exprs parts.now))) }
{
    let [first, rest @ ..] = parts else {
        return nothing(alloc);
    };
    let mut so_far = bound_own(alloc, scope, first)?;
    for part in rest {
        let low = bound_own(alloc, scope, part)?;
        so_far = with_part(alloc, so_far, low)?;
    }
    Ok(so_far)
}

/// An index at its own width.
#[cycle(bind)]
pub fn bound_index(alloc: Global, scope: &Scope, e: &Expr) -> Result<Place, Memory>
    requires width { IsWidth (width_of (names_of scope.now) (plain_expr e.now)) }
    requires fit { IsFit (names_of scope.now) (plain_expr e.now) }
    ensures value { IfOk result (λ p. (v : Values) → code.value p.code.value v ≡ index_value (names_of scope.now) v (plain_expr e.now)) }
    ensures reads { IfOk result (λ p. (m k : ℕ) → bits.reads p.code.value m k
        ≡ index_reads (names_of scope.now) (Index (plain_expr e.now)) m k) }
    ensures sized { IfOk result (λ p. IsSizedRhs p.code.value) }
    ensures constant { IfOk result (λ p. p.constant ≡ constant_index (names_of scope.now) (plain_expr e.now)) }
{
    match constant_number(scope, e) {
        Some(n) => {
            let code = number(alloc, n)?;
            Ok(Place {
                code,
                constant: Some(n),
            })
        }
        None => {
            let own = own_width(scope, e);
            let code = bound_expr(alloc, scope, e, own)?;
            Ok(Place {
                code,
                constant: None,
            })
        }
    }
}

/// A place that is a constant.
fn fixed_place(alloc: Global, n: u128) -> Result<Place, Memory>
    ensures value { IfOk result (λ p. (v : Values) → code.value p.code.value v ≡ n) }
    ensures reads { IfOk result (λ p. (m k : ℕ) → bits.reads p.code.value m k
        ≡ false) }
    ensures sized { IfOk result (λ p. IsSizedRhs p.code.value) }
    ensures constant { IfOk result (λ p. p.constant ≡ Some n) }
{
    let code = number(alloc, n)?;
    Ok(Place {
        code,
        constant: Some(n),
    })
}

/// The number of bits from a first bound down to a second one.
fn bits_between(first: u128, second: u128) -> u32
    requires { IsWidth (first + 1 - second) }
    ensures { result ≡ first + 1 - second }
{
    (first - second) as u32 + 1
}

/// What stands in the last bracket.
#[cycle(bind)]
pub fn bound_sel(alloc: Global, scope: &Scope, sel: &Sel) -> Result<Part, Memory>
    requires fit { IsFitSel (names_of scope.now) (plain_sel sel.now) }
    ensures low { IfOk result (λ p. (v : Values) → code.value p.low.code.value v ≡ low_of (names_of scope.now) v (plain_sel sel.now)) }
    ensures reads { IfOk result (λ p. (m k : ℕ) → bits.reads p.low.code.value m k
        ≡ last_reads (names_of scope.now) (Last (plain_sel sel.now)) m k) }
    ensures sized { IfOk result (λ p. IsSizedRhs p.low.code.value) }
    ensures constant { IfOk result (λ p. p.low.constant ≡ constant_low (names_of scope.now) (plain_sel sel.now)) }
    ensures width { IfOk result (λ p. (n : ℕ) → p.width ≡ picked (names_of scope.now) (Last (plain_sel sel.now)) n) }
    ensures lawful { IfOk result (λ p. IsWidth p.width) }
{
    match sel {
        Sel::Index(i) => {
            let low = bound_index(alloc, scope, i)?;
            Ok(Part { low, width: 1 })
        }
        Sel::Part { first, second } => {
            let high = bound_number(scope, first);
            let n = bound_number(scope, second);
            let width = bits_between(high, n);
            let low = fixed_place(alloc, n)?;
            Ok(Part { low, width })
        }
        Sel::Indexed { base, width } => {
            let width = bound_number(scope, width) as u32;
            let low = bound_index(alloc, scope, base)?;
            Ok(Part { low, width })
        }
    }
}

/// A select of a net.
fn net_part(alloc: Global, span: Span, part: Part) -> Result<Box<Rhs>, Memory>
    requires net { IsWidth span.width × (span.low ≡ 0) }
    requires width { IsWidth part.width }
    requires sized { IsSizedRhs part.low.code.value }
    requires constant { IfSome part.low.constant (λ n. (v : Values) → code.value part.low.code.value v ≡ n) }
    ensures value { IfOk result (λ c. (v : Values) → code.value c.value v
        ≡ part_of (code.read span v) (code.value part.low.code.value v) part.width) }
    ensures reads { IfOk result (λ c. (m k : ℕ) → bits.reads c.value m k
        ≡ part_reads span part.low.constant part.width (bits.reads part.low.code.value m k) m k) }
    ensures sized { IfOk result (λ c. IsSizedRhs c.value) }
{
    match part.low.constant {
        Some(n) => fixed_bits(alloc, span, n, part.width),
        None => {
            let vector = bits_code(alloc, span)?;
            select_code(alloc, vector, part.low.code, part.width)
        }
    }
}

/// A memory's word, or a select of it.
#[cycle(bind)]
fn bound_word(alloc: Global, scope: &Scope, room: Room, name: &Ref) -> Result<Box<Rhs>, Memory>
    requires room { IsCountable (2 ^ 64) room 0 }
    requires index { IsFitIndex (names_of scope.now) (plain_index (back-Ref-index name.now.index)) }
    requires last { IsFitLast (names_of scope.now) (plain_last (back-Ref-sel name.now.sel)) }
    ensures value { IfOk result (λ c. (v : Values) (n : ℕ) → code.value c.value v
        ≡ source_number (names_of scope.now) v (MemorySource room n)
        (first_index (names_of scope.now) v (plain_index (back-Ref-index name.now.index)))
        (plain_last (back-Ref-sel name.now.sel)) (lowest (names_of scope.now) v (plain_last (back-Ref-sel name.now.sel)))) }
    ensures reads { IfOk result (λ c. (m k : ℕ) → bits.reads c.value m k
        ≡ source_reads (names_of scope.now) (MemorySource room 0)
        (plain_index (back-Ref-index name.now.index)) (plain_last (back-Ref-sel name.now.sel))
        (index_reads (names_of scope.now) (plain_index (back-Ref-index name.now.index)) m k)
        (last_reads (names_of scope.now) (plain_last (back-Ref-sel name.now.sel)) m k) m k) }
    ensures sized { IfOk result (λ c. IsSizedRhs c.value) }
{
    match (&name.index, &name.sel) {
        (Some(index), None) => {
            let at = bound_index(alloc, scope, index)?;
            word_code(alloc, room, at.code)
        }
        (Some(index), Some(sel)) => {
            let at = bound_index(alloc, scope, index)?;
            let vector = word_code(alloc, room, at.code)?;
            let part = bound_sel(alloc, scope, sel)?;
            select_code(alloc, vector, part.low.code, part.width)
        }
        (None, Some(sel)) => {
            let word = lone_word(alloc, scope, room, sel)?;
            Ok(word)
        }
        (None, None) => number(alloc, 0),
    }
}

/// The word of a memory whose index stands in a lone bracket.
#[cycle(bind)]
fn lone_word(alloc: Global, scope: &Scope, room: Room, sel: &Sel) -> Result<Box<Rhs>, Memory>
    requires room { IsCountable (2 ^ 64) room 0 }
    requires fit { IsFitSel (names_of scope.now) (plain_sel sel.now) }
    ensures value { IfOk result (λ c. (v : Values) → code.value c.value v
        ≡ lone_word v room (Last (plain_sel sel.now)) (Some (low_of (names_of scope.now) v (plain_sel sel.now)))) }
    ensures reads { IfOk result (λ c. (m k : ℕ) → bits.reads c.value m k
        ≡ lone_reads (Last (plain_sel sel.now)) (last_reads (names_of scope.now) (Last (plain_sel sel.now)) m k)) }
    ensures sized { IfOk result (λ c. IsSizedRhs c.value) }
{
    match sel {
        Sel::Index(i) => {
            let at = bound_index(alloc, scope, i)?;
            word_code(alloc, room, at.code)
        }
        Sel::Part { .. } | Sel::Indexed { .. } => number(alloc, 0),
    }
}

/// A net, or a select of it.
#[cycle(bind)]
fn bound_net(alloc: Global, scope: &Scope, span: Span, name: &Ref) -> Result<Box<Rhs>, Memory>
    requires net { IsWidth span.width × (span.low ≡ 0) }
    requires last { IsFitLast (names_of scope.now) (plain_last (back-Ref-sel name.now.sel)) }
    ensures value { IfOk result (λ c. (v : Values) → code.value c.value v
        ≡ part_or_whole (code.read span v) (lowest (names_of scope.now) v (plain_last (back-Ref-sel name.now.sel)))
        (picked (names_of scope.now) (plain_last (back-Ref-sel name.now.sel)) span.width)) }
    ensures reads { IfOk result (λ c. (m k : ℕ) → bits.reads c.value m k
        ≡ net_reads (names_of scope.now) span (plain_last (back-Ref-sel name.now.sel))
        (last_reads (names_of scope.now) (plain_last (back-Ref-sel name.now.sel)) m k) m k) }
    ensures sized { IfOk result (λ c. IsSizedRhs c.value) }
{
    match &name.sel {
        None => bits_code(alloc, span),
        Some(sel) => {
            let part = bound_sel(alloc, scope, sel)?;
            net_part(alloc, span, part)
        }
    }
}

/// What a name stands for, with the name's brackets.
#[cycle(bind)]
fn bound_source(
    alloc: Global,
    scope: &Scope,
    source: Source,
    name: &Ref,
) -> Result<Box<Rhs>, Memory>
    requires countable { IsSource source }
    requires fit { IsFitWith source (IsFitIndex (names_of scope.now) (plain_index (back-Ref-index name.now.index))
        × IsFitLast (names_of scope.now) (plain_last (back-Ref-sel name.now.sel))) }
    ensures value { IfOk result (λ c. (v : Values) → code.value c.value v
        ≡ source_number (names_of scope.now) v source
        (first_index (names_of scope.now) v (plain_index (back-Ref-index name.now.index)))
        (plain_last (back-Ref-sel name.now.sel)) (lowest (names_of scope.now) v (plain_last (back-Ref-sel name.now.sel)))) }
    ensures reads { IfOk result (λ c. (m k : ℕ) → bits.reads c.value m k
        ≡ source_reads (names_of scope.now) source
        (plain_index (back-Ref-index name.now.index)) (plain_last (back-Ref-sel name.now.sel))
        (index_reads (names_of scope.now) (plain_index (back-Ref-index name.now.index)) m k)
        (last_reads (names_of scope.now) (plain_last (back-Ref-sel name.now.sel)) m k) m k) }
    ensures sized { IfOk result (λ c. IsSizedRhs c.value) }
{
    match source {
        Source::Constant(c) => number(alloc, const_number(c)),
        Source::Nothing => number(alloc, 0),
        Source::Net(span) => bound_net(alloc, scope, span, name),
        Source::Memory { room, width: _ } => bound_word(alloc, scope, room, name),
    }
}

/// A name with its brackets.
#[cycle(bind)]
fn bound_ref(alloc: Global, scope: &Scope, name: &Ref) -> Result<Box<Rhs>, Memory>
    requires fit { IsFitRef (names_of scope.now) (plain_ref name.now) }
    ensures value { IfOk result (λ c. (v : Values) → code.value c.value v ≡ ref_value (names_of scope.now) v (plain_ref name.now)) }
    ensures reads { IfOk result (λ c. (m k : ℕ) → bits.reads c.value m k
        ≡ ref_reads (names_of scope.now) (plain_ref name.now) m k) }
    ensures sized { IfOk result (λ c. IsSizedRhs c.value) }
{
    let source = source_of(scope, name.id.name.as_slice())?;
    bound_source(alloc, scope, source, name)
}

/// The code of an expression, with the condition and the clauses of `bind_expr`.
#[tactic(auto, using(crate::proofs::Fitting::faultless_fit))]
pub fn boxed_expr(alloc: Global, e: &Expr, scope: &Scope, w: u32) -> Result<Box<Rhs>, Memory>
    requires faultless { faults (sizes_of (names_of scope.now) (plain_expr e.now)) ≡ [] }
    requires least { width_of (names_of scope.now) (plain_expr e.now) ≤ w }
    requires most { w ≤ 128 }
    ensures value { IfOk result (λ c. (v : Values) → code.value c.value v ≡ value (names_of scope.now) v (plain_expr e.now) w) }
    ensures reads { IfOk result (λ c. (m k : ℕ) → bits.reads c.value m k
        ≡ reads (names_of scope.now) (plain_expr e.now) m k) }
    ensures sized { IfOk result (λ c. IsSizedRhs c.value) }
{
    bound_expr(alloc, scope, e, w)
}

/// The code of an expression's number at `w` bits, for all numbers of the scope's nets and words (IEEE 1364-2005, 5.1, 5.2 and 5.4).
/// Nets and memories are named by their places in the scope's lists.
///
/// By condition nothing is wrong with the expression's names, constants and widths, and `w` is at least its width and at most 128.
///
/// # Errors
///
/// `Memory`: there isn't enough memory, or the words of the scope's memories can't be counted in 64 bits.
pub fn bind_expr(alloc: Global, e: &Expr, scope: &Scope, w: u32) -> Result<Rhs, Memory>
    requires faultless { faults (sizes_of (names_of scope.now) (plain_expr e.now)) ≡ [] }
    requires least { width_of (names_of scope.now) (plain_expr e.now) ≤ w }
    requires most { w ≤ 128 }
    ensures value { IfOk result (λ c. (v : Values) → code.value c v ≡ value (names_of scope.now) v (plain_expr e.now) w) }
    ensures reads { IfOk result (λ c. (m k : ℕ) → bits.reads c m k
        ≡ reads (names_of scope.now) (plain_expr e.now) m k) }
    ensures sized { IfOk result IsSizedRhs }
{
    let code = boxed_expr(alloc, e, scope, w)?;
    Ok(Box::into_inner(code))
}
