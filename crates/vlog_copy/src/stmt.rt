//! Copies of targets, statements and their bodies.

ghost use Rattle.std.specs.Prelude.{◌≡◌, IfOk, map};
ghost use Rattle.vlog_tree.specs.Plain.{plain_expr, plain_target, plain_stmt, plain_body, plain_arm};
ghost use Rattle.vlog_tree.specs.Tree.{AssignStmt};

use crate::expr::{copy_boxed, copy_expr, copy_exprs, copy_ref};
use std::alloc::Global;
use vlog_tree::vidi_bits::{Items, Memory};
use vlog_tree::{
    Arm, Arms, AssignOp, Body, Expr, Stmt, Stmts, Target, Targets, begin, case, concat_target,
    see_begin, see_case, see_concat_target,
};

/// A copy of a target, with the same lines.
#[cycle(copy_targets)]
pub fn copy_target(alloc: Global, target: &Target) -> Result<Target, Memory>
    ensures { IfOk result (λ c. plain_target c ≡ plain_target target.now) }
{
    match target {
        Target::Ref(name) => Ok(Target::Ref(copy_ref(alloc, name)?)),
        Target::Concat { line, parts } => {
            see_concat_target(*line, parts);
            let parts = copy_targets(alloc, parts.as_slice())?;
            Ok(concat_target(*line, parts))
        }
    }
}

#[cycle(copy_targets)]
fn copy_targets(alloc: Global, targets: &[Target]) -> Result<Targets, Memory>
    ensures { IfOk result (λ c. map plain_target c ≡ map plain_target targets.now) }
{
    let mut copy = Items::new(alloc);
    for target in targets {
        let target = copy_target(alloc, target)?;
        copy.push(target)?;
    }
    Ok(copy)
}

fn copy_assign(alloc: Global, target: &Target, op: AssignOp, value: &Expr) -> Result<Stmt, Memory>
    ensures { IfOk result (λ c. plain_stmt c ≡ AssignStmt (plain_target target.now) op (plain_expr value.now)) }
{
    let value = copy_boxed(alloc, value)?;
    let target = copy_target(alloc, target)?;
    Ok(Stmt::Assign {
        target,
        op,
        value: Box::into_inner(value),
    })
}

#[cycle(copy_stmts)]
fn copy_stmt(alloc: Global, stmt: &Stmt) -> Result<Stmt, Memory>
    ensures { IfOk result (λ c. plain_stmt c ≡ plain_stmt stmt.now) }
{
    match stmt {
        Stmt::Begin(stmts) => {
            see_begin(stmts);
            let stmts = copy_stmts(alloc, stmts.as_slice())?;
            Ok(begin(stmts))
        }
        Stmt::If {
            condition,
            then_body,
            else_body,
        } => {
            let then_body = copy_body(alloc, then_body)?;
            match else_body {
                None => {
                    let condition = copy_expr(alloc, condition)?;
                    Ok(Stmt::If {
                        condition,
                        then_body,
                        else_body: None,
                    })
                }
                Some(body) => {
                    let body = copy_body(alloc, body)?;
                    let condition = copy_expr(alloc, condition)?;
                    Ok(Stmt::If {
                        condition,
                        then_body,
                        else_body: Some(body),
                    })
                }
            }
        }
        Stmt::Case { expression, arms } => {
            see_case(expression, arms);
            let arms = copy_arms(alloc, arms.as_slice())?;
            let expression = copy_expr(alloc, expression)?;
            Ok(case(expression, arms))
        }
        Stmt::Assign { target, op, value } => copy_assign(alloc, target, *op, value),
    }
}

/// A copy of a body, with the same lines.
#[cycle(copy_stmts)]
pub fn copy_body(alloc: Global, body: &Body) -> Result<Body, Memory>
    ensures { IfOk result (λ c. plain_body c ≡ plain_body body.now) }
{
    match body {
        Body::Stmt(stmt) => {
            let stmt = copy_stmt(alloc, stmt)?;
            Ok(Body::Stmt(Box::new(alloc, stmt)?))
        }
        Body::Empty => Ok(Body::Empty),
    }
}

#[cycle(copy_stmts)]
fn copy_arm(alloc: Global, arm: &Arm) -> Result<Arm, Memory>
    ensures { IfOk result (λ c. plain_arm c ≡ plain_arm arm.now) }
{
    match arm {
        Arm::Labels { labels, body } => {
            let labels = copy_exprs(alloc, labels.as_slice())?;
            let body = copy_body(alloc, body)?;
            Ok(Arm::Labels { labels, body })
        }
        Arm::Default { line, colon, body } => {
            let body = copy_body(alloc, body)?;
            Ok(Arm::Default {
                line: *line,
                colon: *colon,
                body,
            })
        }
    }
}

#[cycle(copy_stmts)]
fn copy_arms(alloc: Global, arms: &[Arm]) -> Result<Arms, Memory>
    ensures { IfOk result (λ c. map plain_arm c ≡ map plain_arm arms.now) }
{
    let mut copy = Items::new(alloc);
    for arm in arms {
        let arm = copy_arm(alloc, arm)?;
        copy.push(arm)?;
    }
    Ok(copy)
}

#[cycle(copy_stmts)]
fn copy_stmts(alloc: Global, stmts: &[Stmt]) -> Result<Stmts, Memory>
    ensures { IfOk result (λ c. map plain_stmt c ≡ map plain_stmt stmts.now) }
{
    let mut copy = Items::new(alloc);
    for stmt in stmts {
        let stmt = copy_stmt(alloc, stmt)?;
        copy.push(stmt)?;
    }
    Ok(copy)
}
