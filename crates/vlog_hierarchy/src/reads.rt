//! Reads of the clock in expressions, targets and statements.

ghost use Rattle.std.specs.Prelude.{◌≡◌, map, option_map};
ghost use Rattle.std.specs.List.{flat_map};
ghost use Rattle.vlog_size.specs.Table.{value_of};
ghost use Rattle.vlog_tree.specs.Plain.{plain_ident, plain_expr, plain_prim, plain_unary, plain_ref, plain_sel, plain_exprs};
ghost use Rattle.vlog_tree.specs.Plain.{plain_target, plain_targets, plain_stmt, plain_stmts, plain_body, plain_arm, plain_arms};
ghost use Rattle.vlog_hierarchy.specs.Reach.{is_marked};
ghost use Rattle.vlog_hierarchy.specs.Clock.{is_clock, name_faults, expr_faults, prim_faults, ref_faults, sel_faults, exprs_faults};
ghost use Rattle.vlog_hierarchy.specs.Clock.{written_faults, target_faults, targets_faults, stmt_faults, stmts_faults, body_faults};
ghost use Rattle.vlog_hierarchy.specs.Clock.{arm_faults, arms_faults};
ghost use Rattle.vlog_size.specs.vidi_bits.Findings.{Judged};
ghost use Rattle.vlog_hierarchy.specs.Told.{hierarchy_told};

use crate::error::HierarchyError;
use crate::scopes::port_of;
use vlog_size::Table;
use vlog_tree::{
    Arm, Body, Expr, Ident, Operand, Ref, Sel, Stmt, Target, Unary, see_begin, see_case,
    see_concat, see_concat_target, see_repeat,
};

/// Whether a port is a clock.
fn is_marked(marks: &[bool], port: usize) -> bool
    ensures { result ≡ is_marked marks.now port }
{
    if port < marks.len() {
        marks[port]
    } else {
        false
    }
}

/// Whether a name is joined to a clock.
fn is_clock(marks: &[bool], joined: &Table<usize>, name: &[u8]) -> bool
    ensures { result ≡ is_clock marks.now (value_of joined.now name.now) }
{
    match port_of(joined, name) {
        Some(port) => is_marked(marks, port),
        None => false,
    }
}

/// Refuses a name that is joined to a clock.
#[tactic(auto, unfolding(crate::specs::Clock::name_faults))]
fn check_name(marks: &[bool], joined: &Table<usize>, ident: &Ident) -> Result<(), HierarchyError>
    ensures { Judged hierarchy_told result (name_faults marks.now joined.now (plain_ident ident.now)) }
{
    if is_clock(marks, joined, ident.name.as_slice()) {
        return Err(HierarchyError::Clock { line: ident.line });
    }
    Ok(())
}

/// Refuses reads of the clock in an expression.
#[cycle(exprs)]
pub fn check_expr(marks: &[bool], joined: &Table<usize>, e: &Expr) -> Result<(), HierarchyError>
    ensures { Judged hierarchy_told result (expr_faults marks.now joined.now (plain_expr e.now)) }
{
    match e {
        Expr::Unary(unary) => check_unary(marks, joined, unary),
        Expr::Binary { left, op: _, right } => {
            check_expr(marks, joined, left)?;
            check_expr(marks, joined, right)
        }
        Expr::Choice {
            condition,
            then_value,
            else_value,
        } => {
            check_expr(marks, joined, condition)?;
            check_expr(marks, joined, then_value)?;
            check_expr(marks, joined, else_value)
        }
    }
}

#[cycle(exprs)]
fn check_unary(marks: &[bool], joined: &Table<usize>, unary: &Unary) -> Result<(), HierarchyError>
    ensures { Judged hierarchy_told result (expr_faults marks.now joined.now (plain_unary unary.now)) }
{
    check_prim(marks, joined, &unary.prim)
}

#[cycle(exprs)]
fn check_prim(marks: &[bool], joined: &Table<usize>, prim: &Operand) -> Result<(), HierarchyError>
    ensures { Judged hierarchy_told result (prim_faults marks.now joined.now (plain_prim prim.now)) }
{
    match prim {
        Operand::Number(_) => Ok(()),
        Operand::Ref(name) => check_ref(marks, joined, name),
        Operand::Paren { line: _, inner } => check_expr(marks, joined, inner),
        Operand::Concat { line, parts } => {
            see_concat(*line, parts);
            check_exprs(marks, joined, parts.as_slice())
        }
        Operand::Repeat { line, count, parts } => {
            see_repeat(*line, parts);
            check_expr(marks, joined, count)?;
            check_exprs(marks, joined, parts.as_slice())
        }
    }
}

#[cycle(exprs)]
fn check_ref(marks: &[bool], joined: &Table<usize>, name: &Ref) -> Result<(), HierarchyError>
    ensures { Judged hierarchy_told result (ref_faults marks.now joined.now (plain_ref name.now)) }
{
    check_name(marks, joined, &name.id)?;
    check_written(marks, joined, name)
}

/// Refuses reads of the clock in the brackets behind a name.
#[cycle(exprs)]
fn check_written(marks: &[bool], joined: &Table<usize>, name: &Ref) -> Result<(), HierarchyError>
    ensures { Judged hierarchy_told result (written_faults marks.now joined.now (plain_ref name.now)) }
{
    if let Some(index) = &name.index {
        check_expr(marks, joined, index)?;
    }
    match &name.sel {
        None => Ok(()),
        Some(sel) => check_sel(marks, joined, sel),
    }
}

#[cycle(exprs)]
fn check_sel(marks: &[bool], joined: &Table<usize>, sel: &Sel) -> Result<(), HierarchyError>
    ensures { Judged hierarchy_told result (sel_faults marks.now joined.now (plain_sel sel.now)) }
{
    match sel {
        Sel::Index(e) => check_expr(marks, joined, e),
        Sel::Part { first, second } => {
            check_expr(marks, joined, first)?;
            check_expr(marks, joined, second)
        }
        Sel::Indexed { base, width } => {
            check_expr(marks, joined, base)?;
            check_expr(marks, joined, width)
        }
    }
}

#[cycle(exprs)]
fn check_exprs(marks: &[bool], joined: &Table<usize>, exprs: &[Expr]) -> Result<(), HierarchyError>
    ensures { Judged hierarchy_told result (exprs_faults marks.now joined.now (plain_exprs exprs.now)) }
{
    for e in exprs {
        check_expr(marks, joined, e)?;
    }
    Ok(())
}

/// Expressions in a row, as the labels of an arm.
fn check_labels(
    marks: &[bool],
    joined: &Table<usize>,
    labels: &[Expr],
) -> Result<(), HierarchyError>
    ensures { Judged hierarchy_told result (flat_map (expr_faults marks.now joined.now) (map plain_expr labels.now)) }
{
    for label in labels {
        check_expr(marks, joined, label)?;
    }
    Ok(())
}

/// Refuses reads of the clock in a target.
#[cycle(targets)]
pub fn check_target(
    marks: &[bool],
    joined: &Table<usize>,
    target: &Target,
) -> Result<(), HierarchyError>
    ensures { Judged hierarchy_told result (target_faults marks.now joined.now (plain_target target.now)) }
{
    match target {
        Target::Ref(name) => check_written(marks, joined, name),
        Target::Concat { line, parts } => {
            see_concat_target(*line, parts);
            check_targets(marks, joined, parts.as_slice())
        }
    }
}

#[cycle(targets)]
fn check_targets(
    marks: &[bool],
    joined: &Table<usize>,
    targets: &[Target],
) -> Result<(), HierarchyError>
    ensures { Judged hierarchy_told result (targets_faults marks.now joined.now (plain_targets targets.now)) }
{
    for target in targets {
        check_target(marks, joined, target)?;
    }
    Ok(())
}

#[cycle(stmts)]
fn check_stmt(marks: &[bool], joined: &Table<usize>, stmt: &Stmt) -> Result<(), HierarchyError>
    ensures { Judged hierarchy_told result (stmt_faults marks.now joined.now (plain_stmt stmt.now)) }
{
    match stmt {
        Stmt::Begin(stmts) => {
            see_begin(stmts);
            check_stmts(marks, joined, stmts.as_slice())
        }
        Stmt::If {
            condition,
            then_body,
            else_body,
        } => {
            check_expr(marks, joined, condition)?;
            check_body(marks, joined, then_body)?;
            match else_body {
                None => Ok(()),
                Some(body) => check_body(marks, joined, body),
            }
        }
        Stmt::Case { expression, arms } => {
            see_case(expression, arms);
            check_expr(marks, joined, expression)?;
            check_arms(marks, joined, arms.as_slice())
        }
        Stmt::Assign {
            target,
            op: _,
            value,
        } => {
            check_target(marks, joined, target)?;
            check_expr(marks, joined, value)
        }
    }
}

/// Refuses reads of the clock in a body.
#[cycle(stmts)]
pub fn check_body(marks: &[bool], joined: &Table<usize>, body: &Body) -> Result<(), HierarchyError>
    ensures { Judged hierarchy_told result (body_faults marks.now joined.now (plain_body body.now)) }
{
    match body {
        Body::Stmt(stmt) => check_stmt(marks, joined, stmt),
        Body::Empty => Ok(()),
    }
}

#[cycle(stmts)]
fn check_arm(marks: &[bool], joined: &Table<usize>, arm: &Arm) -> Result<(), HierarchyError>
    ensures { Judged hierarchy_told result (arm_faults marks.now joined.now (plain_arm arm.now)) }
{
    match arm {
        Arm::Labels { labels, body } => {
            check_labels(marks, joined, labels.as_slice())?;
            check_body(marks, joined, body)
        }
        Arm::Default {
            line: _,
            colon: _,
            body,
        } => check_body(marks, joined, body),
    }
}

#[cycle(stmts)]
fn check_arms(marks: &[bool], joined: &Table<usize>, arms: &[Arm]) -> Result<(), HierarchyError>
    ensures { Judged hierarchy_told result (arms_faults marks.now joined.now (plain_arms arms.now)) }
{
    for arm in arms {
        check_arm(marks, joined, arm)?;
    }
    Ok(())
}

#[cycle(stmts)]
fn check_stmts(marks: &[bool], joined: &Table<usize>, stmts: &[Stmt]) -> Result<(), HierarchyError>
    ensures { Judged hierarchy_told result (stmts_faults marks.now joined.now (plain_stmts stmts.now)) }
{
    for stmt in stmts {
        check_stmt(marks, joined, stmt)?;
    }
    Ok(())
}
