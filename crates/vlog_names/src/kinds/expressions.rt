//! Names of a wrong kind in expressions, and nets that expressions read.

ghost use Rattle.std.specs.Prelude.{◌≡◌, ℕ, map, option_map};
ghost use Rattle.std.specs.List.{flat_map};
ghost use Rattle.vlog_names.specs.vidi_bits.Findings.{told_if};
ghost use Rattle.vlog_tree.specs.Tree.{ExprOf, LastOf, NoIndex, Index, NoLast, Last};
ghost use Rattle.vlog_tree.specs.Plain.{plain_ident, plain_expr, plain_prim, plain_unary, plain_ref, plain_sel, plain_exprs, plain_range};
ghost use Rattle.vlog_names.specs.Kinds.{at_names, at_names_of_prim, at_names_of_ref, at_names_of_sel, at_names_of_all, is_wrong_kind};
ghost use Rattle.vlog_names.specs.Entries.{class_of};
ghost use Rattle.vlog_names.specs.vidi_bits.Findings.{Judged};
ghost use Rattle.vlog_names.specs.Told.{kind_told};
ghost use Rattle.vlog_names.specs.Selects.{is_scalar, is_index, sought_at, is_wrong_ref, is_constant};
ghost use Rattle.vlog_names.specs.Uses.{in_expr, in_ref, in_value, in_bounds, in_range};

use crate::declaration::{Declaration, Declarations, Shape};
use crate::kinds::error::KindError;
use crate::kinds::roles::is_place;
use crate::kinds::sought::Sought;
use vlog_tree::{Expr, Operand, Range, Ref, Sel, Unary, see_concat, see_repeat};

/// Refuses the line where the test holds.
pub fn refuse_if(test: bool, line: u32) -> Result<(), KindError>
    ensures { Judged kind_told result (told_if test line) }
{
    if test {
        return Err(KindError { line });
    }
    Ok(())
}

fn is_scalar(shape: Shape) -> bool
    ensures { result ≡ is_scalar shape }
{
    matches!(shape, Shape::Scalar)
}

/// Whether a name that is declared so can't stand without brackets.
fn is_wrong_bare(what: Declaration) -> bool
    ensures { result ≡ is_wrong_kind (class_of what) NoIndex NoLast }
{
    match what {
        Declaration::Memory { shape: _ } => true,
        Declaration::Instance => true,
        _ => false,
    }
}

fn is_index(sel: &Sel) -> bool
    ensures { result ≡ is_index (plain_sel sel.now) }
{
    match sel {
        Sel::Index(_) => true,
        Sel::Part { .. } => false,
        Sel::Indexed { .. } => false,
    }
}

/// Whether a name that is declared so can't stand with this bracket alone.
fn is_wrong_select(what: Declaration, sel: &Sel) -> bool
    ensures { result ≡ is_wrong_kind (class_of what) NoIndex (Last (plain_sel sel.now)) }
{
    match what {
        Declaration::Parameter => true,
        Declaration::Localparam => true,
        Declaration::Port {
            direction: _,
            shape,
        } => is_scalar(shape),
        Declaration::Wire { shape } => is_scalar(shape),
        Declaration::Reg { shape } => is_scalar(shape),
        Declaration::Memory { shape: _ } => !is_index(sel),
        Declaration::Instance => true,
    }
}

/// Whether a name that is declared so can't stand with two brackets.
fn is_wrong_word(what: Declaration) -> bool
    ensures { (e : ExprOf ℕ) (last : LastOf ℕ) → result ≡ is_wrong_kind (class_of what) (Index e) last }
{
    match what {
        Declaration::Memory { shape } => is_scalar(shape),
        _ => true,
    }
}

fn is_wrong_ref(names: &Declarations, name: &Ref) -> bool
    ensures { result ≡ is_wrong_ref names.now (plain_ref name.now) }
{
    match names.get(name.id.name.as_slice()) {
        None => false,
        Some(what) => match (&name.index, &name.sel) {
            (None, None) => is_wrong_bare(*what),
            (None, Some(sel)) => is_wrong_select(*what, sel),
            (Some(_), _) => is_wrong_word(*what),
        },
    }
}

/// What is looked for, at one name.
#[tactic(auto, unfolding(crate::specs::Selects::sought_at, crate::specs::Selects::place_at))]
fn look_at(sought: Sought, names: &Declarations, name: &Ref) -> Result<(), KindError>
    ensures { Judged kind_told result (sought_at sought names.now (plain_ref name.now)) }
{
    match sought {
        Sought::WrongKind => refuse_if(is_wrong_ref(names, name), name.id.line),
        Sought::Place => refuse_if(is_place(names, &name.id), name.id.line),
    }
}

#[cycle(look)]
pub fn look_in(sought: Sought, names: &Declarations, e: &Expr) -> Result<(), KindError>
    ensures { Judged kind_told result (at_names (sought_at sought names.now) (plain_expr e.now)) }
{
    match e {
        Expr::Unary(unary) => look_in_unary(sought, names, unary),
        Expr::Binary { left, op: _, right } => {
            look_in(sought, names, left)?;
            look_in(sought, names, right)
        }
        Expr::Choice {
            condition,
            then_value,
            else_value,
        } => {
            look_in(sought, names, condition)?;
            look_in(sought, names, then_value)?;
            look_in(sought, names, else_value)
        }
    }
}

#[cycle(look)]
fn look_in_unary(sought: Sought, names: &Declarations, unary: &Unary) -> Result<(), KindError>
    ensures { Judged kind_told result (at_names (sought_at sought names.now) (plain_unary unary.now)) }
{
    look_in_prim(sought, names, &unary.prim)
}

#[cycle(look)]
fn look_in_prim(sought: Sought, names: &Declarations, prim: &Operand) -> Result<(), KindError>
    ensures { Judged kind_told result (at_names_of_prim (sought_at sought names.now) (plain_prim prim.now)) }
{
    match prim {
        Operand::Number(_) => Ok(()),
        Operand::Ref(name) => look_in_ref(sought, names, name),
        Operand::Paren { line: _, inner } => look_in(sought, names, inner),
        Operand::Concat { line, parts } => {
            see_concat(*line, parts);
            look_in_exprs(sought, names, parts.as_slice())
        }
        Operand::Repeat { line, count, parts } => {
            see_repeat(*line, parts);
            look_in(sought, names, count)?;
            look_in_exprs(sought, names, parts.as_slice())
        }
    }
}

#[cycle(look)]
fn look_in_ref(sought: Sought, names: &Declarations, name: &Ref) -> Result<(), KindError>
    ensures { Judged kind_told result (at_names_of_ref (sought_at sought names.now) (plain_ref name.now)) }
{
    look_at(sought, names, name)?;
    if let Some(index) = &name.index {
        look_in(sought, names, index)?;
    }
    match &name.sel {
        None => Ok(()),
        Some(sel) => look_in_sel(sought, names, sel),
    }
}

#[cycle(look)]
fn look_in_sel(sought: Sought, names: &Declarations, sel: &Sel) -> Result<(), KindError>
    ensures { Judged kind_told result (at_names_of_sel (sought_at sought names.now) (plain_sel sel.now)) }
{
    match sel {
        Sel::Index(e) => look_in(sought, names, e),
        Sel::Part { first, second } => {
            look_in(sought, names, first)?;
            look_in(sought, names, second)
        }
        Sel::Indexed { base, width } => {
            look_in(sought, names, base)?;
            look_in(sought, names, width)
        }
    }
}

#[cycle(look)]
fn look_in_exprs(sought: Sought, names: &Declarations, exprs: &[Expr]) -> Result<(), KindError>
    ensures { Judged kind_told result (at_names_of_all (sought_at sought names.now) (plain_exprs exprs.now)) }
{
    for e in exprs {
        look_in(sought, names, e)?;
    }
    Ok(())
}

/// Whether an expression reads no nets and no memories.
#[tactic(auto, using(crate::proofs::Firsts::first_not_nil), unfolding(crate::specs::Selects::sought_at))]
pub fn is_constant(names: &Declarations, e: &Expr) -> bool
    ensures { result ≡ is_constant names.now (plain_expr e.now) }
{
    match look_in(Sought::Place, names, e) {
        Ok(()) => true,
        Err(_) => false,
    }
}

#[tactic(auto, unfolding(crate::specs::Selects::sought_at, crate::specs::Uses::in_expr))]
pub fn check_expr(names: &Declarations, e: &Expr) -> Result<(), KindError>
    ensures { Judged kind_told result (in_expr names.now (plain_expr e.now)) }
{
    look_in(Sought::WrongKind, names, e)
}

#[tactic(auto, unfolding(crate::specs::Selects::sought_at, crate::specs::Uses::in_ref))]
pub fn check_ref(names: &Declarations, name: &Ref) -> Result<(), KindError>
    ensures { Judged kind_told result (in_ref names.now (plain_ref name.now)) }
{
    look_in_ref(Sought::WrongKind, names, name)
}

/// Expressions in a row, as the labels of an arm.
pub fn check_labels(names: &Declarations, labels: &[Expr]) -> Result<(), KindError>
    ensures { Judged kind_told result (flat_map (in_expr names.now) (map plain_expr labels.now)) }
{
    for label in labels {
        check_expr(names, label)?;
    }
    Ok(())
}

pub fn check_value(names: &Declarations, value: &Option<Expr>) -> Result<(), KindError>
    ensures { Judged kind_told result (in_value names.now (option_map plain_expr value.now)) }
{
    match value {
        None => Ok(()),
        Some(e) => check_expr(names, e),
    }
}

pub fn check_bounds(names: &Declarations, range: &Range) -> Result<(), KindError>
    ensures { Judged kind_told result (in_bounds names.now (plain_range range.now)) }
{
    check_expr(names, &range.first)?;
    check_expr(names, &range.second)
}

pub fn check_range(names: &Declarations, range: &Option<Range>) -> Result<(), KindError>
    ensures { Judged kind_told result (in_range names.now (option_map plain_range range.now)) }
{
    match range {
        None => Ok(()),
        Some(range) => check_bounds(names, range),
    }
}
