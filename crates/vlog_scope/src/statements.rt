//! What is at fault in statements.

ghost use Rattle.std.specs.Prelude.{◌≡◌, Some};
ghost use Rattle.vlog_size.specs.vidi_bits.Findings.{Judged};
ghost use Rattle.vlog_tree.specs.Plain.{plain_stmt, plain_stmts, plain_body, plain_arm, plain_arms};
ghost use Rattle.vlog_size.specs.Names.{readable_in};
ghost use Rattle.vlog_scope.specs.Faults as faults;

use crate::expressions::{assign_fault, expr_fault, exprs_fault};
use crate::fault::FaultKind;
use vlog_size::{SizeError, View};
use vlog_tree::{Arm, Body, Stmt, see_begin, see_case};

#[cycle(statements)]
fn stmt_fault(kind: FaultKind, view: &View<'_>, stmt: &Stmt) -> Result<(), SizeError>
    ensures { Judged Some result (faults.stmt_faults kind (readable_in view.now) (plain_stmt stmt.now)) }
{
    match stmt {
        Stmt::Begin(stmts) => {
            see_begin(stmts);
            stmts_fault(kind, view, stmts.as_slice())
        }
        Stmt::If {
            condition,
            then_body,
            else_body,
        } => {
            expr_fault(kind, view, condition)?;
            body_fault(kind, view, then_body)?;
            match else_body {
                None => Ok(()),
                Some(body) => body_fault(kind, view, body),
            }
        }
        Stmt::Case { expression, arms } => {
            see_case(expression, arms);
            expr_fault(kind, view, expression)?;
            arms_fault(kind, view, arms.as_slice())
        }
        Stmt::Assign { target, value, .. } => assign_fault(kind, view, target, value),
    }
}

#[cycle(statements)]
fn stmts_fault(kind: FaultKind, view: &View<'_>, stmts: &[Stmt]) -> Result<(), SizeError>
    ensures { Judged Some result (faults.stmts_faults kind (readable_in view.now) (plain_stmts stmts.now)) }
{
    for stmt in stmts {
        stmt_fault(kind, view, stmt)?;
    }
    Ok(())
}

/// The fault of a statement, where there is one.
#[cycle(statements)]
pub fn body_fault(kind: FaultKind, view: &View<'_>, body: &Body) -> Result<(), SizeError>
    ensures { Judged Some result (faults.body_faults kind (readable_in view.now) (plain_body body.now)) }
{
    match body {
        Body::Stmt(stmt) => stmt_fault(kind, view, stmt),
        Body::Empty => Ok(()),
    }
}

#[cycle(statements)]
fn arm_fault(kind: FaultKind, view: &View<'_>, arm: &Arm) -> Result<(), SizeError>
    ensures { Judged Some result (faults.arm_faults kind (readable_in view.now) (plain_arm arm.now)) }
{
    match arm {
        Arm::Labels { labels, body } => {
            exprs_fault(kind, view, labels.as_slice())?;
            body_fault(kind, view, body)
        }
        Arm::Default { body, .. } => body_fault(kind, view, body),
    }
}

#[cycle(statements)]
fn arms_fault(kind: FaultKind, view: &View<'_>, arms: &[Arm]) -> Result<(), SizeError>
    ensures { Judged Some result (faults.arms_faults kind (readable_in view.now) (plain_arms arms.now)) }
{
    for arm in arms {
        arm_fault(kind, view, arm)?;
    }
    Ok(())
}
