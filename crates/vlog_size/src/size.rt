//! What is said of an expression and of a target, and the number of an expression.

ghost use Rattle.std.specs.Prelude.{◌≡◌, ℕ, List, [], ◌∷◌, Some, None};
ghost use Rattle.vlog_size.specs.declared.error.SizeError.TheVariants as error;
ghost use Rattle.vlog_tree.specs.vidi_bits.Number.{IsWidth};
ghost use Rattle.vlog_tree.specs.Plain.{plain_expr, plain_prim, plain_unary, plain_ref, plain_sel, plain_exprs};
ghost use Rattle.vlog_tree.specs.Plain.{plain_target, plain_targets};
ghost use Rattle.vlog_size.specs.Names.{readable_in, meaning_of, fixed};
ghost use Rattle.vlog_size.specs.Size.{sizes_of, sizes_of_prim, sizes_of_ref, sizes_of_read, sizes_of_sel, sizes_of_all};
ghost use Rattle.vlog_size.specs.Size.{sizes_of_target, sizes_of_targets};
ghost use Rattle.vlog_size.specs.Size.{Sizes, Bracket, NoBracket, assigned_number, of_concat, of_repeat, of_read, of_place};
ghost use Rattle.vlog_size.specs.Size.{no_faults};
ghost use Rattle.vlog_size.specs.Sides.{left_of, right_of, operand_of, other_side};
ghost use Rattle.vlog_size.specs.Facts.{Shows, ShowsNumber, ShowsSelect, ShowsRest, ShowsAt, ShowsBoth, ShowsOperands, ShowsAll};

use crate::error::SizeError;
use crate::evaluated::{
    Evaluated, Gathered, Operands, binary_at, choice_at, concat_at, is_enough, name_at,
    none_gathered, number_at, numbered_from, operand_reach, paren_at, reach_after, repeat_at,
    sign_at, wide_number, with_next,
};
use crate::facts::{
    Facts, Numbered, Select, bit_select, concat_facts, either, indexed_select, name_facts,
    no_parts, outside, param_facts, part_select, read_facts, with_part,
};
use crate::length::{Side, other_side, shorter_side};
use crate::names::{Meaning, View, fixed, meaning_of};
use crate::operators::{Kind, kind_of};
use vlog_tree::vidi_bits::trim;
use vlog_tree::{
    Expr, Operand, Ref, Sel, Target, Unary, see_concat, see_concat_target, see_repeat,
};

/// What is said of an expression.
pub fn facts_of(view: &View<'_>, e: &Expr) -> Facts
    ensures { Shows result (sizes_of (readable_in view.now) (plain_expr e.now)) }
{
    evaluate(view, e, 0).facts
}

/// What is said of an operand.
pub fn prim_facts(view: &View<'_>, prim: &Operand) -> Facts
    ensures { Shows result (sizes_of_prim (readable_in view.now) (plain_prim prim.now)) }
{
    evaluate_prim(view, prim, 0).facts
}

/// What is said of an expression, and its number.
#[cycle(evaluate)]
pub fn numbered(view: &View<'_>, e: &Expr) -> Numbered
    ensures { ShowsNumber result (sizes_of (readable_in view.now) (plain_expr e.now)) }
{
    let found = evaluate(view, e, 0);
    numbered_from(&found)
}

/// What is said of an expression, and its number at the larger of its own width and `wide`.
#[cycle(evaluate)]
fn evaluate(view: &View<'_>, e: &Expr, wide: u128) -> Evaluated
    ensures { ShowsAt wide result (sizes_of (readable_in view.now) (plain_expr e.now)) }
{
    match e {
        Expr::Unary(unary) => evaluate_unary(view, unary, wide),
        Expr::Binary { left, op, right } => {
            let first = shorter_side(left, right);
            let both = operands(view, e, first, kind_of(*op), wide);
            binary_at(*op, &both, wide)
        }
        Expr::Choice {
            condition,
            then_value,
            else_value,
        } => {
            let chosen = evaluate(view, condition, 0);
            let first = shorter_side(then_value, else_value);
            let branches = together(view, e, first, wide);
            choice_at(&chosen, &branches, wide)
        }
    }
}

/// What is said of the left operand of an operator, or of the first branch of `?:`.
#[cycle(evaluate)]
fn evaluate_left(view: &View<'_>, e: &Expr, wide: u128) -> Evaluated
    ensures { ShowsAt wide result (sizes_of (readable_in view.now) (left_of (plain_expr e.now))) }
{
    match e {
        Expr::Unary(unary) => evaluate_unary(view, unary, wide),
        Expr::Binary { left, .. } => evaluate(view, left, wide),
        Expr::Choice { then_value, .. } => evaluate(view, then_value, wide),
    }
}

/// What is said of the right operand of an operator, or of the second branch of `?:`.
#[cycle(evaluate)]
fn evaluate_right(view: &View<'_>, e: &Expr, wide: u128) -> Evaluated
    ensures { ShowsAt wide result (sizes_of (readable_in view.now) (right_of (plain_expr e.now))) }
{
    match e {
        Expr::Unary(unary) => evaluate_unary(view, unary, wide),
        Expr::Binary { right, .. } => evaluate(view, right, wide),
        Expr::Choice { else_value, .. } => evaluate(view, else_value, wide),
    }
}

/// What is said of the operand on one side.
#[cycle(evaluate)]
fn evaluate_side(view: &View<'_>, e: &Expr, side: Side, wide: u128) -> Evaluated
    ensures { ShowsAt wide result (sizes_of (readable_in view.now) (operand_of side (plain_expr e.now))) }
{
    match side {
        Side::Left => evaluate_left(view, e, wide),
        Side::Right => evaluate_right(view, e, wide),
    }
}

/// The operands of an expression, each at the width at which an operator of this kind takes it, where
/// the whole is taken at `wide` or more.
#[cycle(evaluate)]
fn operands(view: &View<'_>, e: &Expr, first: Side, kind: Kind, wide: u128) -> Operands
    ensures { ShowsOperands kind wide result (sizes_of (readable_in view.now) (left_of (plain_expr e.now)))
        (sizes_of (readable_in view.now) (right_of (plain_expr e.now))) }
{
    match kind {
        Kind::Sum => together(view, e, first, wide),
        Kind::Comparison => together(view, e, first, 0),
        Kind::Logic => apart(view, e, 0),
        Kind::Shift => apart(view, e, wide),
    }
}

/// The operands of an expression, the right one at its own width.
#[cycle(evaluate)]
fn apart(view: &View<'_>, e: &Expr, wide: u128) -> Operands
    ensures left { ShowsAt wide result.left (sizes_of (readable_in view.now) (left_of (plain_expr e.now))) }
    ensures right { ShowsAt 0 result.right (sizes_of (readable_in view.now) (right_of (plain_expr e.now))) }
{
    let left = evaluate_left(view, e, wide);
    let right = evaluate_right(view, e, 0);
    Operands { left, right }
}

/// The operands of an expression, or the branches of `?:`, each at the largest of `wide` and both
/// widths. This one is evaluated first.
#[cycle(evaluate)]
fn together(view: &View<'_>, e: &Expr, first: Side, wide: u128) -> Operands
    ensures { ShowsBoth wide result (sizes_of (readable_in view.now) (left_of (plain_expr e.now)))
        (sizes_of (readable_in view.now) (right_of (plain_expr e.now))) }
{
    let pair = in_turn(view, e, first, wide);
    match first {
        Side::Left => pair,
        Side::Right => Operands {
            left: pair.right,
            right: pair.left,
        },
    }
}

/// The operand on one side, and the other one, each at the largest of `wide` and both widths. Where the
/// second one is wider than what the first one was taken at, the first one is evaluated once more.
#[cycle(evaluate)]
fn in_turn(view: &View<'_>, e: &Expr, first: Side, wide: u128) -> Operands
    ensures { ShowsBoth wide result (sizes_of (readable_in view.now) (operand_of first (plain_expr e.now)))
        (sizes_of (readable_in view.now) (operand_of (other_side first) (plain_expr e.now))) }
{
    let one = evaluate_side(view, e, first, wide);
    let reach = reach_after(wide, &one);
    let second = other_side(first);
    let other = evaluate_side(view, e, second, reach);
    if is_enough(wide, &one, &other) {
        return Operands {
            left: one,
            right: other,
        };
    }
    let again = evaluate_side(view, e, first, other.facts.width);
    Operands {
        left: again,
        right: other,
    }
}

#[cycle(evaluate)]
fn evaluate_unary(view: &View<'_>, unary: &Unary, wide: u128) -> Evaluated
    ensures { ShowsAt wide result (sizes_of (readable_in view.now) (plain_unary unary.now)) }
{
    match unary.sign {
        None => evaluate_prim(view, &unary.prim, wide),
        Some(sign) => {
            let a = evaluate_prim(view, &unary.prim, operand_reach(sign.op, wide));
            sign_at(sign.line, sign.op, &a, wide)
        }
    }
}

#[cycle(evaluate)]
fn evaluate_prim(view: &View<'_>, prim: &Operand, wide: u128) -> Evaluated
    ensures { ShowsAt wide result (sizes_of_prim (readable_in view.now) (plain_prim prim.now)) }
{
    match prim {
        Operand::Number(number) => number_at(number, wide),
        Operand::Ref(name) => evaluate_ref(view, name, wide),
        Operand::Paren { line, inner } => {
            let inner = evaluate(view, inner, wide);
            paren_at(*line, &inner)
        }
        Operand::Concat { line, parts } => {
            see_concat(*line, parts);
            let all = gather(view, parts.as_slice());
            concat_at(*line, &all, wide)
        }
        Operand::Repeat { line, count, parts } => {
            see_repeat(*line, parts);
            let all = gather(view, parts.as_slice());
            repeat(view, *line, count, &all, wide)
        }
    }
}

/// The parts of a concatenation.
#[cycle(evaluate)]
fn gather(view: &View<'_>, parts: &[Expr]) -> Gathered
    ensures { ShowsAll result (sizes_of_all (readable_in view.now) (plain_exprs parts.now)) }
{
    let mut so_far = none_gathered();
    for part in parts {
        let found = evaluate(view, part, 0);
        so_far = with_next(&so_far, &found);
    }
    so_far
}

/// What is said of these parts, so many times. The count is a constant position.
#[cycle(evaluate)]
fn repeat(view: &View<'_>, line: u32, count: &Expr, all: &Gathered, wide: u128) -> Evaluated
    ensures { (parts : List Sizes) → ShowsAll all.now parts
        → ShowsAt wide result (of_repeat line (sizes_of (fixed (readable_in view.now)) (plain_expr count.now)) parts) }
{
    let constants = fixed(view);
    let count = numbered(&constants, count);
    repeat_at(line, &count, all, wide)
}

#[cycle(evaluate)]
fn evaluate_ref(view: &View<'_>, name: &Ref, wide: u128) -> Evaluated
    ensures { ShowsAt wide result (sizes_of_ref (readable_in view.now) (plain_ref name.now)) }
{
    let facts = ref_facts(view, name);
    name_at(view, name, facts, wide)
}

#[cycle(evaluate)]
fn ref_facts(view: &View<'_>, name: &Ref) -> Facts
    ensures { Shows result (sizes_of_ref (readable_in view.now) (plain_ref name.now)) }
{
    let meaning = meaning_of(view, name.id.name.as_slice());
    let read = read_of(view, name, meaning);
    name_facts(view.is_checked, name.id.line, meaning, &read)
}

/// What is said of a name with this meaning and its brackets, without what is found of what it
/// stands for.
#[cycle(evaluate)]
fn read_of(view: &View<'_>, name: &Ref, meaning: Meaning) -> Facts
    requires { meaning ≡ meaning_of (readable_in view.now) name.now.id.name }
    ensures { Shows result (sizes_of_read (readable_in view.now) (plain_ref name.now)) }
{
    let line = name.id.line;
    match meaning {
        Meaning::Parameter { value, known } => param_facts(line, value, known),
        Meaning::Undeclared => undeclared_facts(line),
        Meaning::Place {
            width,
            picked,
            limit,
        } => match (&name.index, &name.sel) {
            (None, None) => plain_facts(line, width),
            (None, Some(sel)) => {
                let last = select(view, line, width, picked, limit, sel);
                select_facts(line, &last)
            }
            (Some(index), None) => {
                let word = numbered(view, index);
                lone_word_facts(line, width, limit, &word)
            }
            (Some(index), Some(sel)) => {
                let word = numbered(view, index);
                let last = select(view, line, width, 1, width, sel);
                word_facts(line, limit, &word, &last)
            }
        },
    }
}

/// What is said of a read that isn't declared, and so in a constant position.
fn undeclared_facts(line: u32) -> Facts
    ensures { Shows result (of_read line 0 (error.Const line ∷ []) no_faults) }
{
    read_facts(line, 0, Some(SizeError::Const { line }), None)
}

/// What is said of a net's name alone.
fn plain_facts(line: u32, width: u32) -> Facts
    ensures { Shows result (of_read line width no_faults no_faults) }
{
    read_facts(line, u128::from(width), None, None)
}

/// What is said of a select of a net, or of a memory's word by its index.
#[tactic(auto, using(crate::proofs::Firsts::first_append))]
fn select_facts(line: u32, last: &Select) -> Facts
    ensures { (L : Bracket) (width picked limit : ℕ) → ShowsSelect line width picked limit last.now L
        → Shows result (of_place line width picked limit None L) }
{
    let widths = either(last.own_fault, last.width_fault);
    read_facts(line, last.width, last.const_fault, widths)
}

/// No select of a word.
fn whole_word(width: u32) -> Select
    ensures { (line : ℕ) → ShowsSelect line width 1 width result NoBracket }
{
    Select {
        width: u128::from(width),
        own_fault: None,
        const_fault: None,
        width_fault: None,
    }
}

/// What is said of a memory's word, or of a select of it.
#[tactic(auto, using(crate::proofs::Firsts::first_append))]
fn word_facts(line: u32, limit: u32, word: &Numbered, last: &Select) -> Facts
    ensures { (I : Sizes) (L : Bracket) (width : ℕ) → ShowsNumber word.now I → ShowsSelect line width 1 width last.now L
        → Shows result (of_place line width 0 limit (Some I) L) }
{
    let index = either(outside(limit, word), word.facts.width_fault);
    let consts = either(word.facts.const_fault, last.const_fault);
    let parts = either(index, last.width_fault);
    read_facts(line, last.width, consts, either(last.own_fault, parts))
}

/// What is said of a memory's word without a select.
fn lone_word_facts(line: u32, width: u32, limit: u32, word: &Numbered) -> Facts
    ensures { (I : Sizes) → ShowsNumber word.now I → Shows result (of_place line width 0 limit (Some I) NoBracket) }
{
    let whole = whole_word(width);
    word_facts(line, limit, word, &whole)
}

/// What a select adds. An index picks some bits below the limit.
#[cycle(evaluate)]
fn select(view: &View<'_>, line: u32, whole: u32, picked: u32, limit: u32, sel: &Sel) -> Select
    ensures { ShowsSelect line whole picked limit result (sizes_of_sel (readable_in view.now) (plain_sel sel.now)) }
{
    match sel {
        Sel::Index(e) => {
            let index = numbered(view, e);
            bit_select(picked, limit, &index)
        }
        Sel::Part { first, second } => {
            let constants = fixed(view);
            let a = numbered(&constants, first);
            let b = numbered(&constants, second);
            part_select(whole, &a, &b)
        }
        Sel::Indexed { base, width } => {
            let constants = fixed(view);
            let base = evaluate(view, base, 0);
            let width = numbered(&constants, width);
            indexed_select(line, whole, &base.facts, &width)
        }
    }
}

/// What is said of a target: its width in bits, and its first faults (IEEE 1364-2005, 9.2).
#[cycle(targets)]
pub fn target_facts(view: &View<'_>, target: &Target) -> Facts
    ensures { Shows result (sizes_of_target (readable_in view.now) (plain_target target.now)) }
{
    match target {
        Target::Ref(name) => ref_facts(view, name),
        Target::Concat { line, parts } => {
            see_concat_target(*line, parts);
            targets_facts(view, *line, parts.as_slice())
        }
    }
}

#[cycle(targets)]
fn targets_facts(view: &View<'_>, line: u32, parts: &[Target]) -> Facts
    ensures { Shows result (of_concat line (sizes_of_targets (readable_in view.now) (plain_targets parts.now))) }
{
    let mut so_far = no_parts();
    for part in parts {
        let facts = target_facts(view, part);
        so_far = with_part(&so_far, &facts);
    }
    concat_facts(line, &so_far)
}

/// The number that `w` bits have where a constant expression is assigned to them, as a parameter's
/// range or a register does: it is evaluated at the larger of `w` and its own width, and then cut
/// (IEEE 1364-2005, 5.4.1). There is none where the expression isn't constant, has a fault, or
/// rests on a parameter whose number isn't known.
#[tactic(auto, unfolding(crate::specs::Size::assigned_number))]
pub fn assigned_number(view: &View<'_>, e: &Expr, w: u32) -> Option<u128>
    requires { IsWidth w }
    ensures { result ≡ assigned_number w (sizes_of (readable_in view.now) (plain_expr e.now)) }
{
    let found = evaluate(view, e, u128::from(w));
    let n = wide_number(w, &found)?;
    Some(trim(n, w))
}
