//! What is said of each form of expression, from what is said of its parts.

ghost use Rattle.std.specs.Prelude.{◌≡◌, ◌<◌, ◌^◌, [], ◌∷◌, ℕ, List, min, length, ◌&&◌, not, Some};
ghost use Rattle.vlog_tree.specs.Tree.{NumberOf};
ghost use Rattle.vlog_tree.specs.vidi_bits.Findings.{first, told_if, or_first};
ghost use Rattle.vlog_size.specs.Literal.{is_lawful, literal_width, is_unsized_literal, spelled_number};
ghost use Rattle.vlog_size.specs.Size.{Sizes, of_number, of_param, of_read, of_sign, of_binary, of_choice, of_paren, of_concat};
ghost use Rattle.vlog_size.specs.Size.{is_decimal, is_plain_const, decimal_value, is_bad_operator, is_out, of_two, number};
ghost use Rattle.vlog_size.specs.Size.{chosen_whole, outside, too_large, wrong_order, wrong_part, bounds_width, Bit, Part, Indexed};
ghost use Rattle.vlog_size.specs.Size.{all_lawful, total_width, sum_fault, times, count_fault, repeat_width, of_repeat};
ghost use Rattle.vlog_size.specs.Size.{has_width, operands_lawful, is_past, wrong_width, name_const_faults, name_width_faults, if_checked, of_name};
ghost use Rattle.vlog_size.specs.Limits.{TOP};
ghost use Rattle.vlog_size.specs.Operators.{whole_value};
ghost use Rattle.vlog_size.specs.Facts.{Shows, ShowsNumber, ShowsSelect, ShowsRest};
ghost use Rattle.vlog_size.specs.declared.error.SizeError.{SizeError};

use crate::error::SizeError;
use crate::literal::{Literal, is_bad_literal, is_lawful};
use crate::names::Meaning;
use crate::operators::{
    Kind, in_range, is_plain_op, is_plain_shift, is_wide, kind_of, whole_value,
};
use crate::scope::Const;
use crate::value::{binary_width, const_number, const_width};
use vlog_tree::{BinaryOp, NumberKind, UnaryOp};

/// What is said of an expression, with the first fault of each kind alone.
#[derive(Clone, Copy)]
pub struct Facts {
    /// The line of its first token.
    pub line: u32,
    pub plain: bool,
    pub is_unsized: bool,
    /// A based literal without a size, bare or in parentheses.
    pub unsized_literal: bool,
    /// It reads parameters alone.
    pub constant: bool,
    /// Its width, or the largest number where it is larger.
    pub width: u128,
    /// Each part that makes its width has a lawful one.
    pub parts_lawful: bool,
    /// A plain expression's value; none where a part is at fault.
    pub whole: Option<u32>,
    pub const_fault: Option<SizeError>,
    pub width_fault: Option<SizeError>,
}

/// What is said of an expression, and its number where it has one.
#[derive(Clone, Copy)]
pub struct Numbered {
    pub facts: Facts,
    pub number: Option<u128>,
}

/// Whether the expression has a lawful width: its own is 1 to 128, and so is that of each part that
/// makes it.
fn has_width(facts: &Facts) -> bool
    ensures { (E : Sizes) → Shows facts.now E → result ≡ has_width E }
{
    facts.parts_lawful && is_lawful(facts.width)
}

/// The first of two findings, where there is one.
pub fn either(a: Option<SizeError>, b: Option<SizeError>) -> Option<SizeError>
    ensures { result ≡ or_first a b }
{
    match a {
        None => b,
        Some(e) => Some(e),
    }
}

/// The finding where the test holds.
pub fn told_if(test: bool, e: SizeError) -> Option<SizeError>
    ensures { result ≡ first (told_if test e) }
{
    if test { Some(e) } else { None }
}

fn is_decimal(kind: NumberKind) -> bool
    ensures { result ≡ is_decimal kind }
{
    matches!(kind, NumberKind::Decimal)
}

/// The value of a decimal literal, where it is in range.
fn decimal_value(literal: &Literal) -> Option<u32>
    ensures { (text : List ℕ) → literal.now.spelled ≡ spelled_number literal.now.kind text
        → result ≡ decimal_value literal.now.kind text }
{
    match literal.kind {
        NumberKind::Decimal => in_range(literal.spelled?),
        NumberKind::Based => None,
    }
}

/// What is said of a literal on this line, of which this is read.
pub fn number_facts(line: u32, literal: &Literal) -> Facts
    ensures { (text : List ℕ) → literal.now.is_unsized ≡ is_unsized_literal literal.now.kind text
        → literal.now.width ≡ min (literal_width literal.now.kind text) TOP
        → literal.now.spelled ≡ spelled_number literal.now.kind text
        → Shows result (of_number (record { kind = literal.now.kind; text = text; line = line })) }
{
    let decimal = is_decimal(literal.kind);
    let whole = decimal_value(literal);
    let bad = is_bad_literal(literal) || (decimal && whole.is_none());
    Facts {
        line,
        plain: decimal,
        is_unsized: decimal,
        unsized_literal: literal.is_unsized,
        constant: true,
        width: literal.width,
        parts_lawful: true,
        whole,
        const_fault: told_if(bad, SizeError::Const { line }),
        width_fault: None,
    }
}

fn is_plain_const(value: Const) -> bool
    ensures { result ≡ is_plain_const value }
{
    matches!(value, Const::Plain { .. })
}

/// What is said of a parameter that is read on this line.
pub fn param_facts(line: u32, value: Const, known: bool) -> Facts
    ensures { Shows result (of_param line value known) }
{
    let plain = is_plain_const(value);
    Facts {
        line,
        plain,
        is_unsized: plain,
        unsized_literal: false,
        constant: true,
        width: u128::from(const_width(value)),
        parts_lawful: true,
        whole: if known {
            in_range(const_number(value))
        } else {
            None
        },
        const_fault: None,
        width_fault: None,
    }
}

/// What is said of an operator before an operand.
#[tactic(auto, using(crate::proofs::Firsts::first_append))]
pub fn sign_facts(line: u32, op: UnaryOp, a: &Facts) -> Facts
    ensures { (A : Sizes) → Shows a.now A → Shows result (of_sign line op A) }
{
    let wide = is_wide(op);
    let bad = told_if(wide && a.is_unsized, SizeError::Const { line });
    Facts {
        line,
        plain: false,
        is_unsized: false,
        unsized_literal: false,
        constant: a.constant,
        width: if wide { a.width } else { 1 },
        parts_lawful: !wide || has_width(a),
        whole: None,
        const_fault: either(bad, a.const_fault),
        width_fault: a.width_fault,
    }
}

/// Whether all operands that count are unsized, and the operator isn't lawful there.
fn is_bad_operator(op: BinaryOp, a: &Facts, b: &Facts) -> bool
    ensures { result ≡ is_bad_operator op a.now.is_unsized b.now.is_unsized a.now.plain b.now.plain }
{
    match kind_of(op) {
        Kind::Sum => a.is_unsized && b.is_unsized && !(is_plain_op(op) && a.plain && b.plain),
        Kind::Comparison => a.is_unsized && b.is_unsized && !(a.plain && b.plain),
        Kind::Logic => false,
        Kind::Shift => a.is_unsized && !(is_plain_shift(op) && a.plain),
    }
}

/// Whether both numbers are there, and the value isn't in range.
fn is_out(op: BinaryOp, a: Option<u32>, b: Option<u32>) -> bool
    ensures { result ≡ is_out op a b }
{
    match (a, b) {
        (Some(a), Some(b)) => whole_value(op, a, b).is_none(),
        _ => false,
    }
}

/// The value in whole numbers, where both numbers are there.
fn whole_of(op: BinaryOp, a: Option<u32>, b: Option<u32>) -> Option<u32>
    ensures { result ≡ of_two (whole_value op) a b }
{
    match (a, b) {
        (Some(a), Some(b)) => whole_value(op, a, b),
        _ => None,
    }
}

/// Whether those of two operands that make the width with an operator of this kind between them have
/// lawful ones.
fn operands_lawful(kind: Kind, a: &Facts, b: &Facts) -> bool
    ensures { (A B : Sizes) → Shows a.now A → Shows b.now B → result ≡ operands_lawful kind A B }
{
    match kind {
        Kind::Sum => has_width(a) && has_width(b),
        Kind::Comparison | Kind::Logic => true,
        Kind::Shift => has_width(a),
    }
}

/// What is said of two operands with an operator between them.
#[tactic(auto, using(crate::proofs::Firsts::first_append))]
pub fn binary_facts(op: BinaryOp, a: &Facts, b: &Facts) -> Facts
    ensures { (A B : Sizes) → Shows a.now A → Shows b.now B → Shows result (of_binary op A B) }
{
    let plain = is_plain_op(op) && (a.plain && b.plain);
    let bad = is_bad_operator(op, a, b) || (plain && is_out(op, a.whole, b.whole));
    let own = told_if(bad, SizeError::Const { line: a.line });
    let parts = either(a.const_fault, b.const_fault);
    Facts {
        line: a.line,
        plain,
        is_unsized: plain || (is_plain_shift(op) && a.plain),
        unsized_literal: false,
        constant: a.constant && b.constant,
        width: binary_width(kind_of(op), a.width, b.width),
        parts_lawful: operands_lawful(kind_of(op), a, b),
        whole: whole_of(op, a.whole, b.whole),
        const_fault: either(own, parts),
        width_fault: either(a.width_fault, b.width_fault),
    }
}

/// The value of the branch that is taken, where the condition and both branches have one.
fn whole_choice(chosen: Option<u128>, a: Option<u32>, b: Option<u32>) -> Option<u32>
    ensures { result ≡ chosen_whole chosen a b }
{
    match (chosen, a, b) {
        (Some(0), Some(_), Some(b)) => Some(b),
        (Some(_), Some(a), Some(_)) => Some(a),
        _ => None,
    }
}

/// What is said of `condition ? a : b`.
#[tactic(auto, using(crate::proofs::Firsts::first_append))]
pub fn choice_facts(condition: &Numbered, a: &Facts, b: &Facts) -> Facts
    ensures { (C A B : Sizes) → ShowsNumber condition.now C → Shows a.now A → Shows b.now B → Shows result (of_choice C A B) }
{
    let chosen = &condition.facts;
    let consts = either(a.const_fault, b.const_fault);
    let widths = either(a.width_fault, b.width_fault);
    Facts {
        line: chosen.line,
        plain: chosen.constant && (a.plain && b.plain),
        is_unsized: a.is_unsized && b.is_unsized,
        unsized_literal: false,
        constant: chosen.constant && (a.constant && b.constant),
        width: a.width.max(b.width),
        parts_lawful: has_width(a) && has_width(b),
        whole: whole_choice(condition.number, a.whole, b.whole),
        const_fault: either(chosen.const_fault, consts),
        width_fault: either(chosen.width_fault, widths),
    }
}

/// What is said of what is read at run time.
pub fn read_facts(
    line: u32,
    width: u128,
    const_fault: Option<SizeError>,
    width_fault: Option<SizeError>,
) -> Facts
    ensures { (w : ℕ) (consts widths : List SizeError) → width ≡ min w TOP → const_fault ≡ first consts → width_fault ≡ first widths
        → Shows result (of_read line w consts widths) }
{
    Facts {
        line,
        plain: false,
        is_unsized: false,
        unsized_literal: false,
        constant: false,
        width,
        parts_lawful: true,
        whole: None,
        const_fault,
        width_fault,
    }
}

/// The name's number, where it isn't known, or is plain and above 2,147,483,647.
fn name_const_fault(line: u32, meaning: Meaning) -> Option<SizeError>
    ensures { result ≡ first (name_const_faults line meaning) }
{
    match meaning {
        Meaning::Parameter { value, known } => {
            told_if(!known || is_past(value), SizeError::Const { line })
        }
        _ => None,
    }
}

/// Whether a constant is plain and above 2,147,483,647.
fn is_past(value: Const) -> bool
    ensures { result ≡ is_past value }
{
    match value {
        Const::Plain { n } => in_range(u128::from(n)).is_none(),
        Const::Sized { .. } => false,
    }
}

/// The width, where it isn't 1 to 128.
fn wrong_width(line: u32, width: u32) -> Option<SizeError>
    ensures { result ≡ first (wrong_width line width) }
{
    let got = u128::from(width);
    told_if(!is_lawful(got), SizeError::Width { line, got })
}

/// The width of what the name stands for, where it isn't 1 to 128.
fn name_width_fault(line: u32, meaning: Meaning) -> Option<SizeError>
    ensures { result ≡ first (name_width_faults line meaning) }
{
    match meaning {
        Meaning::Parameter { value, .. } => wrong_width(line, const_width(value)),
        Meaning::Place { width, .. } => wrong_width(line, width),
        Meaning::Undeclared => None,
    }
}

/// The finding, where names are checked.
fn if_checked(is_checked: bool, found: Option<SizeError>) -> Option<SizeError>
    ensures { (all : List SizeError) → found ≡ first all → result ≡ first (if_checked is_checked all) }
{
    if is_checked { found } else { None }
}

/// What is said of a name that is read: what is found of what it stands for comes before what is
/// found in its brackets.
#[tactic(auto, using(crate::proofs::Firsts::first_append))]
pub fn name_facts(is_checked: bool, line: u32, meaning: Meaning, read: &Facts) -> Facts
    ensures { (E : Sizes) → Shows read.now E → Shows result (of_name is_checked line meaning E) }
{
    let own_const = if_checked(is_checked, name_const_fault(line, meaning));
    let own_width = if_checked(is_checked, name_width_fault(line, meaning));
    Facts {
        const_fault: either(own_const, read.const_fault),
        width_fault: either(own_width, read.width_fault),
        ..*read
    }
}

/// What is said of an expression in parentheses.
pub fn paren_facts(line: u32, inner: &Facts) -> Facts
    ensures { (E : Sizes) → Shows inner.now E → Shows result (of_paren line E) }
{
    Facts { line, ..*inner }
}

/// The index or bound, where it isn't below the limit.
pub fn outside(limit: u32, index: &Numbered) -> Option<SizeError>
    ensures { (I : Sizes) → ShowsNumber index.now I → result ≡ first (outside limit I) }
{
    match index.number {
        Some(got) if got >= u128::from(limit) => Some(SizeError::Width {
            line: index.facts.line,
            got,
        }),
        _ => None,
    }
}

/// The bound or width, where it is sized and above 2,147,483,647.
pub fn too_large(bound: &Numbered) -> Option<SizeError>
    ensures { (E : Sizes) → ShowsNumber bound.now E → result ≡ first (too_large E) }
{
    match bound.number {
        Some(n) if !bound.facts.plain && n >= 2_147_483_648 => Some(SizeError::Const {
            line: bound.facts.line,
        }),
        _ => None,
    }
}

/// The first bound, where it is below the second one.
pub fn wrong_order(a: &Numbered, b: &Numbered) -> Option<SizeError>
    ensures { (A B : Sizes) → ShowsNumber a.now A → ShowsNumber b.now B → result ≡ first (wrong_order A B) }
{
    match (a.number, b.number) {
        (Some(first), Some(got)) if first < got => Some(SizeError::Width {
            line: a.facts.line,
            got,
        }),
        _ => None,
    }
}

/// The width after `+:`, where the vector has a lawful width and it is unlawful.
pub fn wrong_part(line: u32, whole: u32, width: &Numbered) -> Option<SizeError>
    ensures { (W : Sizes) → ShowsNumber width.now W → result ≡ first (wrong_part line whole W) }
{
    let got = width.number?;
    let wrong = is_lawful(u128::from(whole)) && !is_lawful(got);
    told_if(wrong, SizeError::Width { line, got })
}

/// What a select adds to the name before it.
#[derive(Clone, Copy)]
pub struct Select {
    pub width: u128,
    /// The fault of the select itself.
    pub own_fault: Option<SizeError>,
    /// The first faults in its brackets.
    pub const_fault: Option<SizeError>,
    pub width_fault: Option<SizeError>,
}

/// The select of the bits that an index below the limit picks.
#[tactic(auto, using(crate::proofs::Firsts::first_append))]
pub fn bit_select(picked: u32, limit: u32, index: &Numbered) -> Select
    ensures { (I : Sizes) (line whole : ℕ) → ShowsNumber index.now I → ShowsSelect line whole picked limit result (Bit I) }
{
    Select {
        width: u128::from(picked),
        own_fault: None,
        const_fault: index.facts.const_fault,
        width_fault: either(outside(limit, index), index.facts.width_fault),
    }
}

/// The width of a select by two bounds, 0 where one has no number.
fn bounds_width(a: Option<u128>, b: Option<u128>) -> u128
    ensures { result ≡ min (bounds_width a b) TOP }
{
    match (a, b) {
        (Some(a), Some(b)) if a < b => 0,
        (Some(a), Some(b)) => (a - b).saturating_add(1),
        _ => 0,
    }
}

/// The select of the bits from the first bound down to the second one.
#[tactic(auto, using(crate::proofs::Firsts::first_append))]
pub fn part_select(whole: u32, a: &Numbered, b: &Numbered) -> Select
    ensures { (A B : Sizes) (line picked limit : ℕ) → ShowsNumber a.now A
        → ShowsNumber b.now B → ShowsSelect line whole picked limit result (Part A B) }
{
    let a_const = either(too_large(a), a.facts.const_fault);
    let b_const = either(too_large(b), b.facts.const_fault);
    let a_own = either(wrong_order(a, b), a.facts.width_fault);
    let a_width = either(outside(whole, a), a_own);
    let b_width = either(outside(whole, b), b.facts.width_fault);
    Select {
        width: bounds_width(a.number, b.number),
        own_fault: None,
        const_fault: either(a_const, b_const),
        width_fault: either(a_width, b_width),
    }
}

/// The select of some bits from a base on.
#[tactic(auto, using(crate::proofs::Firsts::first_append))]
pub fn indexed_select(line: u32, whole: u32, base: &Facts, width: &Numbered) -> Select
    ensures { (B W : Sizes) (picked limit : ℕ) → Shows base.now B → ShowsNumber width.now W
        → ShowsSelect line whole picked limit result (Indexed B W) }
{
    let width_const = either(too_large(width), width.facts.const_fault);
    let parts = either(base.width_fault, width.facts.width_fault);
    Select {
        width: width.number.unwrap_or(0),
        own_fault: wrong_part(line, whole, width),
        const_fault: either(base.const_fault, width_const),
        width_fault: parts,
    }
}

/// What is said of the parts of a concatenation so far.
#[derive(Clone, Copy)]
pub struct Parts {
    pub constant: bool,
    /// Each width is lawful.
    pub lawful: bool,
    /// The widths in all, or the largest number where they are more.
    pub sum: u128,
    pub const_fault: Option<SizeError>,
    pub width_fault: Option<SizeError>,
}

/// No part so far.
pub fn no_parts() -> Parts
    ensures rest { (all : List Sizes) → ShowsRest result all all }
    ensures sum { result.sum ≡ 0 }
{
    Parts {
        constant: true,
        lawful: true,
        sum: 0,
        const_fault: None,
        width_fault: None,
    }
}

/// The parts with one more.
#[tactic(auto, using(crate::proofs::Firsts::first_append, crate::proofs::Firsts::or_first_assoc, crate::proofs::Passed::and_grouped))]
pub fn with_part(parts: &Parts, part: &Facts) -> Parts
    ensures { (P : Sizes) (rest all : List Sizes) → ShowsRest parts.now (P ∷ rest) all → Shows part.now P → ShowsRest result rest all }
{
    let is_unsized = part.is_unsized || part.unsized_literal;
    let own = told_if(is_unsized, SizeError::Const { line: part.line });
    let consts = either(own, part.const_fault);
    Parts {
        constant: parts.constant && part.constant,
        lawful: parts.lawful && has_width(part),
        sum: parts.sum.saturating_add(part.width),
        const_fault: either(parts.const_fault, consts),
        width_fault: either(parts.width_fault, part.width_fault),
    }
}

/// The number of a replication's count, where it isn't too large.
#[tactic(auto, unfolding(crate::specs::Size::number, crate::specs::Size::times))]
pub fn times(count: &Numbered) -> Option<u32>
    ensures { (C : Sizes) → ShowsNumber count.now C → result ≡ times C }
{
    if count.facts.plain {
        return count.facts.whole;
    }
    match count.number {
        Some(n) if n <= 2_147_483_647 => Some(n as u32),
        _ => None,
    }
}

/// A width so many times, or the largest number where that is larger.
fn repeat_width(count: Option<u32>, width: u128) -> u128
    ensures { result ≡ min (repeat_width count width) TOP }
{
    match count {
        Some(n) => u128::from(n).checked_mul(width).unwrap_or(u128::MAX),
        None => 0,
    }
}

/// The width of parts of lawful widths, `count` times, where it is unlawful.
fn wrong_count(line: u32, count: u32, lawful: bool, width: u128) -> Option<SizeError>
    ensures { (all : List Sizes) → length all < 2 ^ 64 → lawful ≡ all_lawful all → width ≡ min (total_width all) TOP
        → result ≡ first (count_fault line (Some count) all) }
{
    let got = repeat_width(Some(count), width);
    let wrong = is_wrong_sum(lawful, got);
    told_if(wrong, SizeError::Width { line, got })
}

/// The width of parts of lawful widths, so many times, where the count has a number and the width is
/// unlawful.
fn count_fault(line: u32, count: Option<u32>, lawful: bool, width: u128) -> Option<SizeError>
    ensures { (all : List Sizes) → length all < 2 ^ 64 → lawful ≡ all_lawful all → width ≡ min (total_width all) TOP
        → result ≡ first (count_fault line count all) }
{
    match count {
        Some(count) => wrong_count(line, count, lawful, width),
        None => None,
    }
}

fn both(a: bool, b: bool) -> bool
    ensures { result ≡ (a && b) }
{
    a && b
}

/// What is said of these parts, so many times: `whole` is what is said of their concatenation.
#[tactic(auto, using(crate::proofs::Firsts::first_append))]
pub fn repeat_facts(
    line: u32,
    count: &Numbered,
    many: Option<u32>,
    whole: &Facts,
    parts: &Parts,
) -> Facts
    ensures { (C : Sizes) (all : List Sizes) → length all < 2 ^ 64 → ShowsNumber count.now C → many ≡ times C
        → Shows whole.now (of_concat line all) → ShowsRest parts.now [] all → Shows result (of_repeat line C all) }
{
    let own = count_fault(line, many, parts.lawful, whole.width);
    let constant = both(count.facts.constant, parts.constant);
    let large = too_large(count);
    let count_const = either(large, count.facts.const_fault);
    let count_width = either(count.facts.width_fault, parts.width_fault);
    let width = repeat_width(many, whole.width);
    let consts = either(count_const, parts.const_fault);
    let widths = either(own, count_width);
    Facts {
        line,
        plain: false,
        is_unsized: false,
        unsized_literal: false,
        constant,
        width,
        parts_lawful: parts.lawful,
        whole: None,
        const_fault: consts,
        width_fault: widths,
    }
}

fn is_wrong_sum(lawful: bool, sum: u128) -> bool
    ensures { result ≡ (lawful && not (is_lawful sum)) }
{
    lawful && !is_lawful(sum)
}

/// The width of parts of lawful widths in all, where it is unlawful.
fn sum_fault(line: u32, lawful: bool, sum: u128) -> Option<SizeError>
    ensures { (all : List Sizes) → length all < 2 ^ 64 → lawful ≡ all_lawful all → sum ≡ min (total_width all) TOP
        → result ≡ first (sum_fault line all) }
{
    let wrong = is_wrong_sum(lawful, sum);
    told_if(wrong, SizeError::Width { line, got: sum })
}

/// What is said of a concatenation of these parts.
#[tactic(auto, using(crate::proofs::Firsts::first_append))]
pub fn concat_facts(line: u32, parts: &Parts) -> Facts
    ensures { (all : List Sizes) → length all < 2 ^ 64 → ShowsRest parts.now [] all → Shows result (of_concat line all) }
{
    let own = sum_fault(line, parts.lawful, parts.sum);
    Facts {
        line,
        plain: false,
        is_unsized: false,
        unsized_literal: false,
        constant: parts.constant,
        width: parts.sum,
        parts_lawful: parts.lawful,
        whole: None,
        const_fault: parts.const_fault,
        width_fault: either(own, parts.width_fault),
    }
}
