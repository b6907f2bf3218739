//! Statements of always blocks.

ghost use Rattle.std.specs.Prelude.{◌≡◌, false};
ghost use Rattle.vlog_tree.specs.Plain.{plain_stmt, plain_stmts, plain_body, plain_arm, plain_arms};
ghost use Rattle.vlog_names.specs.vidi_bits.Findings.{Judged};
ghost use Rattle.vlog_names.specs.Told.{kind_told};
ghost use Rattle.vlog_names.specs.Uses.{second_default, is_default, in_stmt, in_stmts, in_body, in_arm, in_arms};

use crate::declaration::Declarations;
use crate::kinds::error::KindError;
use crate::kinds::expressions::{check_expr, check_labels, refuse_if};
use crate::kinds::roles::is_wrong_sign;
use crate::kinds::targets::check_stored_target;
use vlog_tree::{Arm, Body, Stmt, see_begin, see_case, target_line};

/// Refuses a `default` behind another one.
fn check_default(seen: bool, arm: &Arm) -> Result<(), KindError>
    ensures { Judged kind_told result (second_default seen (plain_arm arm.now)) }
{
    match arm {
        Arm::Labels { .. } => Ok(()),
        Arm::Default {
            line,
            colon: _,
            body: _,
        } => refuse_if(seen, *line),
    }
}

fn is_default(arm: &Arm) -> bool
    ensures { result ≡ is_default (plain_arm arm.now) }
{
    match arm {
        Arm::Labels { .. } => false,
        Arm::Default { .. } => true,
    }
}

#[cycle(check_stmts)]
fn check_stmt(is_clocked: bool, names: &Declarations, stmt: &Stmt) -> Result<(), KindError>
    ensures { Judged kind_told result (in_stmt is_clocked names.now (plain_stmt stmt.now)) }
{
    match stmt {
        Stmt::Begin(stmts) => {
            see_begin(stmts);
            check_stmts(is_clocked, names, stmts.as_slice())
        }
        Stmt::If {
            condition,
            then_body,
            else_body,
        } => {
            check_expr(names, condition)?;
            check_body(is_clocked, names, then_body)?;
            match else_body {
                None => Ok(()),
                Some(body) => check_body(is_clocked, names, body),
            }
        }
        Stmt::Case { expression, arms } => {
            see_case(expression, arms);
            check_expr(names, expression)?;
            check_arms(is_clocked, names, arms.as_slice())
        }
        Stmt::Assign { target, op, value } => {
            refuse_if(is_wrong_sign(is_clocked, *op), target_line(target))?;
            check_stored_target(is_clocked, names, target)?;
            check_expr(names, value)
        }
    }
}

#[cycle(check_stmts)]
pub fn check_body(is_clocked: bool, names: &Declarations, body: &Body) -> Result<(), KindError>
    ensures { Judged kind_told result (in_body is_clocked names.now (plain_body body.now)) }
{
    match body {
        Body::Stmt(stmt) => check_stmt(is_clocked, names, stmt),
        Body::Empty => Ok(()),
    }
}

#[cycle(check_stmts)]
fn check_arm(is_clocked: bool, names: &Declarations, arm: &Arm) -> Result<(), KindError>
    ensures { Judged kind_told result (in_arm is_clocked names.now (plain_arm arm.now)) }
{
    match arm {
        Arm::Labels { labels, body } => {
            check_labels(names, labels.as_slice())?;
            check_body(is_clocked, names, body)
        }
        Arm::Default {
            line: _,
            colon: _,
            body,
        } => check_body(is_clocked, names, body),
    }
}

#[cycle(check_stmts)]
fn check_arms(is_clocked: bool, names: &Declarations, arms: &[Arm]) -> Result<(), KindError>
    ensures { Judged kind_told result (in_arms is_clocked names.now false (plain_arms arms.now)) }
{
    let mut seen = false;
    for arm in arms {
        check_default(seen, arm)?;
        check_arm(is_clocked, names, arm)?;
        seen = seen || is_default(arm);
    }
    Ok(())
}

#[cycle(check_stmts)]
fn check_stmts(is_clocked: bool, names: &Declarations, stmts: &[Stmt]) -> Result<(), KindError>
    ensures { Judged kind_told result (in_stmts is_clocked names.now (plain_stmts stmts.now)) }
{
    for stmt in stmts {
        check_stmt(is_clocked, names, stmt)?;
    }
    Ok(())
}
