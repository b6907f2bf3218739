//! Names in targets and statements that aren't declared.

ghost use Rattle.std.specs.Prelude.{◌≡◌};
ghost use Rattle.vlog_tree.specs.Plain.{plain_target, plain_targets, plain_stmt, plain_stmts, plain_body, plain_arm, plain_arms};
ghost use Rattle.vlog_names.specs.Unknown.{unknown_target, unknown_targets, unknown_stmt, unknown_stmts, unknown_body, unknown_arm};
ghost use Rattle.vlog_names.specs.Unknown.{unknown_arms};
ghost use Rattle.vlog_size.specs.vidi_bits.Findings.{Judged};
ghost use Rattle.vlog_names.specs.Told.{name_told};

use crate::declaration::Declarations;
use crate::error::NameError;
use crate::expressions::{known_expr, known_labels, known_ref};
use std::alloc::Global;
use vlog_tree::{Arm, Body, Stmt, Target, see_begin, see_case, see_concat_target};

#[cycle(known_targets)]
pub fn known_target(alloc: Global, names: &Declarations, target: &Target) -> Result<(), NameError>
    ensures { Judged name_told result (unknown_target names.now (plain_target target.now)) }
{
    match target {
        Target::Ref(name) => known_ref(alloc, names, name),
        Target::Concat { line, parts } => {
            see_concat_target(*line, parts);
            known_targets(alloc, names, parts.as_slice())
        }
    }
}

#[cycle(known_targets)]
fn known_targets(alloc: Global, names: &Declarations, targets: &[Target]) -> Result<(), NameError>
    ensures { Judged name_told result (unknown_targets names.now (plain_targets targets.now)) }
{
    for target in targets {
        known_target(alloc, names, target)?;
    }
    Ok(())
}

#[cycle(known_stmts)]
fn known_stmt(alloc: Global, names: &Declarations, stmt: &Stmt) -> Result<(), NameError>
    ensures { Judged name_told result (unknown_stmt names.now (plain_stmt stmt.now)) }
{
    match stmt {
        Stmt::Begin(stmts) => {
            see_begin(stmts);
            known_stmts(alloc, names, stmts.as_slice())
        }
        Stmt::If {
            condition,
            then_body,
            else_body,
        } => {
            known_expr(alloc, names, condition)?;
            known_body(alloc, names, then_body)?;
            match else_body {
                None => Ok(()),
                Some(body) => known_body(alloc, names, body),
            }
        }
        Stmt::Case { expression, arms } => {
            see_case(expression, arms);
            known_expr(alloc, names, expression)?;
            known_arms(alloc, names, arms.as_slice())
        }
        Stmt::Assign {
            target,
            op: _,
            value,
        } => {
            known_target(alloc, names, target)?;
            known_expr(alloc, names, value)
        }
    }
}

#[cycle(known_stmts)]
pub fn known_body(alloc: Global, names: &Declarations, body: &Body) -> Result<(), NameError>
    ensures { Judged name_told result (unknown_body names.now (plain_body body.now)) }
{
    match body {
        Body::Stmt(stmt) => known_stmt(alloc, names, stmt),
        Body::Empty => Ok(()),
    }
}

#[cycle(known_stmts)]
fn known_arm(alloc: Global, names: &Declarations, arm: &Arm) -> Result<(), NameError>
    ensures { Judged name_told result (unknown_arm names.now (plain_arm arm.now)) }
{
    match arm {
        Arm::Labels { labels, body } => {
            known_labels(alloc, names, labels.as_slice())?;
            known_body(alloc, names, body)
        }
        Arm::Default {
            line: _,
            colon: _,
            body,
        } => known_body(alloc, names, body),
    }
}

#[cycle(known_stmts)]
fn known_arms(alloc: Global, names: &Declarations, arms: &[Arm]) -> Result<(), NameError>
    ensures { Judged name_told result (unknown_arms names.now (plain_arms arms.now)) }
{
    for arm in arms {
        known_arm(alloc, names, arm)?;
    }
    Ok(())
}

#[cycle(known_stmts)]
fn known_stmts(alloc: Global, names: &Declarations, stmts: &[Stmt]) -> Result<(), NameError>
    ensures { Judged name_told result (unknown_stmts names.now (plain_stmts stmts.now)) }
{
    for stmt in stmts {
        known_stmt(alloc, names, stmt)?;
    }
    Ok(())
}
