//! The constant and the width of an expression, or its first fault.

ghost use Rattle.std.specs.Prelude.{◌≡◌, ◌<◌, ◌^◌, true, Some, IfOk, if◌then◌else◌};
ghost use Rattle.vlog_tree.specs.Plain.{plain_expr, plain_target};
ghost use Rattle.vlog_tree.specs.vidi_bits.Findings.{Judged};
ghost use Rattle.vlog_size.specs.Literal.{is_lawful};
ghost use Rattle.vlog_size.specs.Names.{readable_of, params_alone, checked, is_lawful_const};
ghost use Rattle.vlog_size.specs.Size.{Sizes, sizes_of, sizes_of_target, faults, constant_at, constant_of};
ghost use Rattle.vlog_size.specs.Facts.{Shows};

use crate::error::SizeError;
use crate::facts::Facts;
use crate::names::{checked, params_view, whole_view};
use crate::scope::{Const, Params, Scope};
use crate::size::{facts_of, numbered, target_facts};
use vlog_tree::{Expr, Target};

/// The first fault, where there is one: the first `Const` in text order, else the first `Width`.
#[tactic(auto, unfolding(crate::specs::Size::faults))]
fn faultless(facts: &Facts) -> Result<(), SizeError>
    ensures { (E : Sizes) → Shows facts.now E → Judged Some result (faults E) }
{
    match (facts.const_fault, facts.width_fault) {
        (Some(e), _) | (None, Some(e)) => Err(e),
        (None, None) => Ok(()),
    }
}

/// The constant of this number: plain, or of the expression's width.
fn constant_from(facts: &Facts, n: u128) -> Const
    requires { (if facts.now.plain then n else facts.now.width) < 2 ^ 32 }
    ensures { result ≡ constant_at facts.now.plain facts.now.width n }
{
    if facts.plain {
        Const::Plain { n: n as u32 }
    } else {
        Const::Sized {
            width: facts.width as u32,
            n,
        }
    }
}

/// The constant of an expression that may read these parameters alone: plain, or of its
/// self-determined width (IEEE 1364-2005, 5.4.1).
///
/// A parameter's number counts modulo 2 to the power of its width. The caller sees to it that no
/// bracket follows a parameter's name (E7).
///
/// # Errors
///
/// The first `Const` in text order, else the first `Width`. `Const` comes also at each other name,
/// and at a parameter whose number isn't known, or is plain and above 2,147,483,647; `Width` at a
/// parameter whose width isn't 1 to 128.
pub fn constant(e: &Expr, params: &Params) -> Result<Const, SizeError>
    ensures told { Judged Some result (faults (sizes_of (checked (params_alone params.now)) (plain_expr e.now))) }
    ensures value { IfOk result (λ c. constant_of (sizes_of (checked (params_alone params.now)) (plain_expr e.now)) ≡ Some c) }
    ensures lawful { IfOk result (λ c. is_lawful_const c ≡ true) }
{
    let names = params_view(params);
    let view = checked(&names);
    let whole = numbered(&view, e);
    faultless(&whole.facts)?;
    // An expression without a fault has a number.
    let n = whole.number.unwrap();
    Ok(constant_from(&whole.facts, n))
}

/// The self-determined width of an expression in bits, 1 to 128 (IEEE 1364-2005, 5.4.1).
///
/// The caller sees to it that the scope has each name (E4), and that each is used as what it is: a
/// memory with an index, a vector with at most one bracket, a scalar or a parameter with none (E7).
///
/// # Errors
///
/// The first `Const` in text order, else the first `Width`. `Const` comes also at a parameter whose
/// number isn't known, or is plain and above 2,147,483,647; `Width` at a parameter, a net or a
/// memory whose width isn't 1 to 128.
pub fn width(e: &Expr, scope: &Scope) -> Result<u32, SizeError>
    ensures told { Judged Some result (faults (sizes_of (checked (readable_of scope.now)) (plain_expr e.now))) }
    ensures value { IfOk result (λ w. w ≡ (sizes_of (checked (readable_of scope.now)) (plain_expr e.now)).width) }
    ensures lawful { IfOk result (λ w. is_lawful w ≡ true) }
{
    let names = whole_view(scope);
    let view = checked(&names);
    let facts = facts_of(&view, e);
    faultless(&facts)?;
    Ok(facts.width as u32)
}

/// The width of a target in bits, 1 to 128, with the conditions and the errors of `width`.
///
/// # Errors
///
/// The first `Const` in text order, else the first `Width`.
pub fn target_width(target: &Target, scope: &Scope) -> Result<u32, SizeError>
    ensures told { Judged Some result (faults (sizes_of_target (checked (readable_of scope.now)) (plain_target target.now))) }
    ensures value { IfOk result (λ w. w ≡ (sizes_of_target (checked (readable_of scope.now)) (plain_target target.now)).width) }
    ensures lawful { IfOk result (λ w. is_lawful w ≡ true) }
{
    let names = whole_view(scope);
    let view = checked(&names);
    let facts = target_facts(&view, target);
    faultless(&facts)?;
    Ok(facts.width as u32)
}
