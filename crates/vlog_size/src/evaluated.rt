//! What is said of each form of expression together with its number, from what is said of its parts.

ghost use Rattle.std.specs.Prelude.{◌≡◌, ◌≤◌, ◌+◌, ◌&&◌, ◌||◌, not, nat_le, [], ◌∷◌, ℕ, List, max, true, Some, None};
ghost use Rattle.std.specs.Prelude.{if◌then◌else◌};
ghost use Rattle.vlog_tree.specs.vidi_bits.Number.{IsWidth, side_by_side};
ghost use Rattle.vlog_tree.specs.Plain.{plain_number, plain_ref};
ghost use Rattle.vlog_size.specs.Literal.{is_lawful};
ghost use Rattle.vlog_size.specs.Names.{readable_in};
ghost use Rattle.vlog_size.specs.Operators.{kind_of, is_wide, unary_value, binary_value};
ghost use Rattle.vlog_size.specs.Size.{Sizes, sizes_of_ref, of_number, of_paren, of_sign, of_binary, of_choice, of_concat, of_repeat};
ghost use Rattle.vlog_size.specs.Size.{own, number, wide_number, at_width, assigned_width, of_one, of_two, chosen_value};
ghost use Rattle.vlog_size.specs.Size.{repeat_value};
ghost use Rattle.vlog_size.specs.Facts.{Shows, ShowsNumber, ShowsAt, ShowsBoth, ShowsOperands, ShowsGathered, ShowsAll};
ghost use Rattle.vlog_size.specs.Facts.{operated_width};

use crate::facts::{
    Facts, Numbered, Parts, binary_facts, choice_facts, concat_facts, no_parts, number_facts,
    paren_facts, repeat_facts, sign_facts, times, with_part,
};
use crate::literal::{is_lawful, read_literal, read_number};
use crate::names::View;
use crate::operators::{Kind, binary_value, is_wide, kind_of, unary_value};
use crate::value::{join_part, lawful_width, ref_number};
use vlog_tree::{BinaryOp, Number, Ref, UnaryOp};

/// What is said of an expression, and its number at the larger of its own width and another one.
#[derive(Clone, Copy)]
pub struct Evaluated {
    pub facts: Facts,
    pub value: Option<u128>,
}

/// Two operands, each with its number at the width at which it is taken.
#[derive(Clone, Copy)]
pub struct Operands {
    pub left: Evaluated,
    pub right: Evaluated,
}

/// Whether the expression is constant, and the larger of its width and `wide` lawful.
fn is_reached(facts: &Facts, wide: u128) -> bool
    ensures { result ≡ (facts.now.constant && is_lawful (max wide facts.now.width)) }
{
    let width = wide.max(facts.width);
    facts.constant && is_lawful(width)
}

/// The number, where the test holds.
fn kept(test: bool, n: Option<u128>) -> Option<u128>
    ensures { result ≡ (if test then n else None) }
{
    if test { n } else { None }
}

/// An expression whose number is `n` at the larger of its width and `wide`, where it is constant
/// and that is lawful.
fn reached(facts: Facts, wide: u128, n: Option<u128>) -> Evaluated
    ensures { (E : Sizes) → Shows facts E
        → (E.constant ≡ true → is_lawful (max wide E.width) ≡ true → n ≡ E.value (max wide E.width)) → ShowsAt wide result E }
{
    let test = is_reached(&facts, wide);
    let value = kept(test, n);
    Evaluated { facts, value }
}

/// What is said of a literal.
pub fn number_at(number: &Number, wide: u128) -> Evaluated
    ensures { ShowsAt wide result (of_number (plain_number number.now)) }
{
    let literal = read_literal(number.kind, number.text.as_slice());
    let facts = number_facts(number.line, &literal);
    let n = read_number(&literal);
    reached(facts, wide, n)
}

/// What is said of a name with these facts.
pub fn name_at(view: &View<'_>, name: &Ref, facts: Facts, wide: u128) -> Evaluated
    ensures { Shows facts (sizes_of_ref (readable_in view.now) (plain_ref name.now))
        → ShowsAt wide result (sizes_of_ref (readable_in view.now) (plain_ref name.now)) }
{
    let n = ref_number(view, name);
    reached(facts, wide, n)
}

/// What is said of an expression in parentheses.
pub fn paren_at(line: u32, inner: &Evaluated) -> Evaluated
    ensures { (wide : ℕ) (E : Sizes) → ShowsAt wide inner.now E → ShowsAt wide result (of_paren line E) }
{
    let facts = paren_facts(line, &inner.facts);
    Evaluated {
        facts,
        value: inner.value,
    }
}

/// The width to which the operand of an operator is taken: `wide` or its own.
pub fn operand_reach(op: UnaryOp, wide: u128) -> u128
    ensures { result ≡ (if is_wide op then wide else 0) }
{
    if is_wide(op) { wide } else { 0 }
}

/// The number of an operator before this operand, at the larger of the operand's width and `wide`.
fn unary_at(op: UnaryOp, a: &Evaluated, wide: u128) -> Option<u128>
    ensures { result ≡ (if is_lawful (max wide a.now.facts.width)
        then of_one (λ (n : ℕ). unary_value op n (max wide a.now.facts.width)) a.now.value else None) }
{
    let w = lawful_width(wide.max(a.facts.width))?;
    let n = a.value?;
    Some(unary_value(op, n, w))
}

/// What is said of an operator before an operand.
pub fn sign_at(line: u32, op: UnaryOp, a: &Evaluated, wide: u128) -> Evaluated
    ensures { (A : Sizes) → ShowsAt (if is_wide op then wide else 0) a.now A → ShowsAt wide result (of_sign line op A) }
{
    let facts = sign_facts(line, op, &a.facts);
    let reach = operand_reach(op, wide);
    let n = unary_at(op, a, reach);
    reached(facts, wide, n)
}

/// The width at which an operator of this kind works, where the whole is taken at `wide` or more.
fn operated_width(kind: Kind, wide: u128, left: u128, right: u128) -> u128
    ensures { result ≡ operated_width kind wide left right }
{
    match kind {
        Kind::Sum => wide.max(left.max(right)),
        Kind::Comparison => left.max(right),
        Kind::Logic => wide.max(1),
        Kind::Shift => wide.max(left),
    }
}

/// The least width at which the second operand is taken, where this is the first one.
pub fn reach_after(wide: u128, first: &Evaluated) -> u128
    ensures { result ≡ max wide first.now.facts.width }
{
    wide.max(first.facts.width)
}

/// Whether the first operand was taken wide enough for the second one.
pub fn is_enough(wide: u128, first: &Evaluated, second: &Evaluated) -> bool
    ensures { result ≡ (not first.now.facts.constant || nat_le second.now.facts.width (max wide first.now.facts.width)) }
{
    !first.facts.constant || second.facts.width <= reach_after(wide, first)
}

/// The number of an operator between two operands at this width, where that is lawful.
fn binary_of(op: BinaryOp, both: &Operands, width: u128) -> Option<u128>
    ensures { result ≡ (if is_lawful width
        then of_two (λ (m n : ℕ). Some (binary_value op m n width)) both.now.left.value both.now.right.value else None) }
{
    let w = lawful_width(width)?;
    let m = both.left.value?;
    let n = both.right.value?;
    Some(binary_value(op, m, n, w))
}

/// What is said of two operands with an operator between them.
pub fn binary_at(op: BinaryOp, both: &Operands, wide: u128) -> Evaluated
    ensures { (A B : Sizes) → ShowsOperands (kind_of op) wide both.now A B → ShowsAt wide result (of_binary op A B) }
{
    let facts = binary_facts(op, &both.left.facts, &both.right.facts);
    let kind = kind_of(op);
    let width = operated_width(kind, wide, both.left.facts.width, both.right.facts.width);
    let n = binary_of(op, both, width);
    reached(facts, wide, n)
}

/// The number of an expression with these facts, of which this is the number at its own width.
#[tactic(auto, unfolding(crate::specs::Size::number))]
fn number_from(facts: &Facts, n: Option<u128>) -> Option<u128>
    ensures { (E : Sizes) → Shows facts.now E → n ≡ own E → result ≡ number E }
{
    if facts.plain {
        return match facts.whole {
            Some(n) => Some(u128::from(n)),
            None => None,
        };
    }
    if facts.const_fault.is_none() && facts.width_fault.is_none() {
        return n;
    }
    None
}

/// An expression and its number where it has no fault.
pub fn numbered_from(found: &Evaluated) -> Numbered
    ensures { (E : Sizes) → ShowsAt 0 found.now E → ShowsNumber result E }
{
    let number = number_from(&found.facts, found.value);
    Numbered {
        facts: found.facts,
        number,
    }
}

/// The number of the branch that is taken.
fn chosen(c: Option<u128>, a: Option<u128>, b: Option<u128>) -> Option<u128>
    ensures { result ≡ chosen_value c a b }
{
    let c = c?;
    if c == 0 { b } else { a }
}

/// What is said of `condition ? a : b`.
pub fn choice_at(condition: &Evaluated, both: &Operands, wide: u128) -> Evaluated
    ensures { (C A B : Sizes) → ShowsAt 0 condition.now C → ShowsBoth wide both.now A B → ShowsAt wide result (of_choice C A B) }
{
    let first = numbered_from(condition);
    let facts = choice_facts(&first, &both.left.facts, &both.right.facts);
    let n = chosen(condition.value, both.left.value, both.right.value);
    reached(facts, wide, n)
}

/// The parts of a concatenation so far, and their numbers side by side.
#[derive(Clone, Copy)]
pub struct Gathered {
    pub parts: Parts,
    pub number: Option<u128>,
}

/// No part so far.
pub fn none_gathered() -> Gathered
    ensures { (all : List Sizes) → ShowsGathered result all all }
{
    let parts = no_parts();
    Gathered {
        parts,
        number: Some(0),
    }
}

/// The number of `before` bits with that of a part side by side.
fn joined_part(before: u128, high: Option<u128>, part: &Evaluated) -> Option<u128>
    requires { before + part.now.facts.width ≤ 128 }
    ensures { result ≡ (if is_lawful part.now.facts.width
        then of_two (λ (m n : ℕ). Some (side_by_side m n before part.now.facts.width)) high part.now.value else None) }
{
    let v = lawful_width(part.facts.width)?;
    let high = high?;
    let low = part.value?;
    Some(join_part(before as u32, v, high, low))
}

/// The number of the parts so far with one more, where they have at most 128 bits.
fn next_number(so_far: &Gathered, part: &Evaluated) -> Option<u128>
    ensures { so_far.now.parts.sum + part.now.facts.width ≤ 128
        → result ≡ (if is_lawful part.now.facts.width
        then of_two (λ (m n : ℕ). Some (side_by_side m n so_far.now.parts.sum part.now.facts.width)) so_far.now.number part.now.value
        else None) }
{
    let sum = so_far.parts.sum.saturating_add(part.facts.width);
    if sum > 128 {
        return None;
    }
    joined_part(so_far.parts.sum, so_far.number, part)
}

/// The parts with one more.
pub fn with_next(so_far: &Gathered, part: &Evaluated) -> Gathered
    ensures { (P : Sizes) (rest all : List Sizes) → ShowsGathered so_far.now (P ∷ rest) all → ShowsAt 0 part.now P
        → ShowsGathered result rest all }
{
    let parts = with_part(&so_far.parts, &part.facts);
    let number = next_number(so_far, part);
    Gathered { parts, number }
}

/// What is said of a concatenation of these parts.
pub fn concat_at(line: u32, all: &Gathered, wide: u128) -> Evaluated
    ensures { (parts : List Sizes) → ShowsAll all.now parts → ShowsAt wide result (of_concat line parts) }
{
    let facts = concat_facts(line, &all.parts);
    let test = is_lawful(facts.width);
    let n = kept(test, all.number);
    reached(facts, wide, n)
}

/// A number of `width` bits so many times side by side, where that width is lawful.
#[tactic(auto, using(crate::proofs::Repeats::some_times, crate::proofs::Repeats::unit_within, crate::proofs::Repeats::unit_there))]
fn repeated_number(count: Option<u32>, width: u128, number: Option<u128>) -> Option<u128>
    ensures { result ≡ repeat_value count width number }
{
    let count = count?;
    let number = number?;
    let product = u128::from(count).checked_mul(width);
    let _whole = lawful_width(product?)?;
    Some(vlog_tree::vidi_bits::times(count, number, width as u32))
}

/// What is said of these parts, so many times.
pub fn repeat_at(line: u32, count: &Numbered, all: &Gathered, wide: u128) -> Evaluated
    ensures { (C : Sizes) (parts : List Sizes) → ShowsNumber count.now C → ShowsAll all.now parts
        → ShowsAt wide result (of_repeat line C parts) }
{
    let unit = concat_at(line, all, 0);
    let many = times(count);
    let facts = repeat_facts(line, count, many, &unit.facts, &all.parts);
    let n = repeated_number(many, unit.facts.width, unit.value);
    reached(facts, wide, n)
}

/// The number of an expression with these facts, of which this is the number at the width at which
/// it is assigned to `w` bits.
#[tactic(auto, unfolding(crate::specs::Size::wide_number))]
fn wide_from(w: u32, facts: &Facts, n: Option<u128>) -> Option<u128>
    ensures { (E : Sizes) → Shows facts.now E → n ≡ at_width E.value (assigned_width w E) → result ≡ wide_number w E }
{
    if facts.plain {
        return match facts.whole {
            Some(n) => Some(u128::from(n)),
            None => None,
        };
    }
    if facts.const_fault.is_none() && facts.width_fault.is_none() {
        return n;
    }
    None
}

/// The number of a constant expression without a fault at the larger of `w` and its own width.
pub fn wide_number(w: u32, found: &Evaluated) -> Option<u128>
    requires { IsWidth w }
    ensures { (E : Sizes) → ShowsAt w found.now E → result ≡ wide_number w E }
{
    let test = is_lawful(found.facts.width);
    let n = kept(test, found.value);
    wide_from(w, &found.facts, n)
}
