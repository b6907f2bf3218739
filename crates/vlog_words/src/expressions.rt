//! The words on expressions and targets: their widths, faults and numbers.

ghost use Rattle.std.specs.Prelude.{IfOk};
ghost use Rattle.vlog_print.specs.vidi_bits.Number.{IsWidth};

use crate::ended::Ended;
use crate::names::Names;
use crate::texts::{expression_of, target_of_words};
use net_reference::value_of;
use report_text::vidi_io::Text;
use report_text::{Draft, Page, print_number};
use std::alloc::Global;
use vlog_driver::vlog_block::bind_expr;
use vlog_driver::vlog_size::{
    Const, Facts, Numbered, Scope, assigned_number, constant, facts_of, fixed, numbered,
    target_facts, target_width, whole_view, width,
};
use vlog_tree::{Expr, Target};

/// What a word asks for of an expression.
#[derive(Clone, Copy)]
pub(crate) enum ExpressionWord {
    /// Its number in a constant position.
    Fixed,
    /// Its width elsewhere.
    Facts,
    /// The constant that it is, of names that are checked.
    Constant,
    /// Its width, of names that are checked.
    Width,
}

/// What a word asks for of an expression at so many bits.
#[derive(Clone, Copy)]
pub(crate) enum SizedWord {
    /// The number that they have where it is assigned to them.
    Assigned,
    /// The number of its code.
    Value,
}

/// What a word asks for of a target.
#[derive(Clone, Copy)]
pub(crate) enum TargetWord {
    /// Its width.
    Facts,
    /// Its width, of names that are checked.
    Width,
}

/// `fixed E..`, `facts E..`, `constant E..`, `width E..`
pub(crate) fn print_expression(
    alloc: Global,
    word: ExpressionWord,
    words: &[Text],
    scope: &Scope,
    page: &mut Draft,
) -> Result<(), Ended> {
    let e = expression_of(alloc, words)?;
    print_said(word, &e, scope, page)
}

fn print_said(
    word: ExpressionWord,
    e: &Expr,
    scope: &Scope,
    page: &mut Draft,
) -> Result<(), Ended> {
    match word {
        ExpressionWord::Fixed => print_fixed(&numbered(&fixed(&whole_view(scope)), e), page)?,
        ExpressionWord::Facts => print_facts(&facts_of(&whole_view(scope), e), page)?,
        ExpressionWord::Constant => print_constant(constant(e, &scope.params)?, page),
        ExpressionWord::Width => print_line(u128::from(width(e, scope)?), page),
    }
    Ok(())
}

/// `target T..`, `target-width T..`
pub(crate) fn print_target(
    alloc: Global,
    word: TargetWord,
    words: &[Text],
    scope: &Scope,
    page: &mut Draft,
) -> Result<(), Ended> {
    let target = target_of_words(alloc, words)?;
    print_target_width(word, &target, scope, page)
}

fn print_target_width(
    word: TargetWord,
    target: &Target,
    scope: &Scope,
    page: &mut Draft,
) -> Result<(), Ended> {
    match word {
        TargetWord::Facts => print_facts(&target_facts(&whole_view(scope), target), page)?,
        TargetWord::Width => print_line(u128::from(target_width(target, scope)?), page),
    }
    Ok(())
}

/// `assigned W E..`, `value W E..`
pub(crate) fn print_sized(
    alloc: Global,
    word: SizedWord,
    width: &Text,
    words: &[Text],
    names: &Names,
    page: &mut Draft,
) -> Result<(), Ended> {
    let w = width_of(width)?;
    let e = expression_of(alloc, words)?;
    print_at(alloc, word, &e, names, w, page)
}

fn print_at(
    alloc: Global,
    word: SizedWord,
    e: &Expr,
    names: &Names,
    w: u32,
    page: &mut Draft,
) -> Result<(), Ended>
    requires { IsWidth w }
{
    match word {
        SizedWord::Assigned => match assigned_number(&whole_view(&names.scope), e, w) {
            Some(n) => print_line(n, page),
            None => page.print(b"unknown\n"),
        },
        SizedWord::Value => print_line(number_at(alloc, e, names, w)?, page),
    }
    Ok(())
}

/// A width of 1 to 128 bits that a word writes.
fn width_of(word: &Text) -> Result<u32, Ended>
    ensures { IfOk result IsWidth }
{
    match word.as_str().parse::<u32>() {
        Ok(w) if 1 <= w && w <= 128 => Ok(w),
        _ => Err(Ended::Usage),
    }
}

/// The number of an expression's code.
fn number_at(alloc: Global, e: &Expr, names: &Names, w: u32) -> Result<u128, Ended>
    requires { IsWidth w }
{
    let own = width(e, &names.scope)?;
    if own > w {
        return Err(Ended::Usage);
    }
    let code = bind_expr(alloc, e, &names.scope, w)?;
    Ok(value_of(&code, &names.values))
}

/// Prints the width, unless there is a fault.
fn print_facts(facts: &Facts, page: &mut Draft) -> Result<(), Ended> {
    faultless(facts)?;
    print_line(facts.width, page);
    Ok(())
}

/// Prints the number where it is known, unless there is a fault.
fn print_fixed(whole: &Numbered, page: &mut Draft) -> Result<(), Ended> {
    faultless(&whole.facts)?;
    match whole.number {
        Some(n) if whole.facts.plain => print_plain(n, page),
        Some(n) => print_with_width(whole.facts.width, n, page),
        None => page.print(b"unknown\n"),
    }
    Ok(())
}

fn faultless(facts: &Facts) -> Result<(), Ended> {
    match (facts.const_fault, facts.width_fault) {
        (Some(fault), _) | (None, Some(fault)) => Err(Ended::from(fault)),
        (None, None) => Ok(()),
    }
}

fn print_constant(constant: Const, page: &mut Draft) {
    match constant {
        Const::Plain { n } => print_plain(u128::from(n), page),
        Const::Sized { width, n } => print_with_width(u128::from(width), n, page),
    }
}

/// `plain N`
fn print_plain(n: u128, page: &mut Draft) {
    page.print(b"plain ");
    print_line(n, page);
}

/// `WIDTH N`
fn print_with_width(width: u128, n: u128, page: &mut Draft) {
    print_number(page, width);
    page.print(b" ");
    print_line(n, page);
}

fn print_line(n: u128, page: &mut Draft) {
    print_number(page, n);
    page.print(b"\n");
}
