//! Good shape of targets, statements and blocks.

ghost use Rattle.std.specs.Prelude.{◌≡◌, ◌↔◌, IsTrue};
ghost use Rattle.vlog_tree.specs.Plain.{plain_target, plain_targets, plain_stmt, plain_stmts, plain_body, plain_arm, plain_arms};
ghost use Rattle.vlog_tree.specs.Shape.{IsGoodTarget, AreGoodTargets, is_open, is_open_body, IsGoodStmt, AreGoodStmts, IsGoodBody};
ghost use Rattle.vlog_tree.specs.Shape.{IsGoodArm, AreGoodArms};

use crate::shape::expr::{good_expr, good_ref};
use crate::shape::listed::some_good;
use vlog_tree::{Arm, Body, Stmt, Target, see_begin, see_case, see_concat_target};

#[cycle(good_targets)]
pub fn good_target(target: &Target) -> bool
    ensures { IsTrue result ↔ IsGoodTarget (plain_target target.now) }
{
    match target {
        Target::Ref(name) => good_ref(name),
        Target::Concat { line, parts } => {
            see_concat_target(*line, parts);
            good_targets(parts.as_slice())
        }
    }
}

#[cycle(good_targets)]
fn good_targets(targets: &[Target]) -> bool
    ensures { IsTrue result ↔ AreGoodTargets (plain_targets targets.now) }
{
    match targets {
        [] => false,
        [first, rest @ ..] => {
            if !good_target(first) {
                return false;
            }
            for target in rest {
                if !good_target(target) {
                    return false;
                }
            }
            true
        }
    }
}

/// Whether an `else` after it would belong to an `if` in it.
#[cycle(open)]
fn is_open(stmt: &Stmt) -> bool
    ensures { result ≡ is_open (plain_stmt stmt.now) }
{
    match stmt {
        Stmt::Begin(_) | Stmt::Case { .. } | Stmt::Assign { .. } => false,
        Stmt::If { else_body, .. } => match else_body {
            None => true,
            Some(body) => is_open_body(body),
        },
    }
}

#[cycle(open)]
fn is_open_body(body: &Body) -> bool
    ensures { result ≡ is_open_body (plain_body body.now) }
{
    match body {
        Body::Stmt(stmt) => is_open(stmt),
        Body::Empty => false,
    }
}

#[cycle(good_stmts)]
fn good_stmt(stmt: &Stmt) -> bool
    ensures { IsTrue result ↔ IsGoodStmt (plain_stmt stmt.now) }
{
    match stmt {
        Stmt::Begin(stmts) => {
            see_begin(stmts);
            good_stmts(stmts.as_slice())
        }
        Stmt::If {
            condition,
            then_body,
            else_body,
        } => {
            if !good_expr(condition) || !good_body(then_body) {
                return false;
            }
            match else_body {
                None => true,
                Some(body) => !is_open_body(then_body) && good_body(body),
            }
        }
        Stmt::Case { expression, arms } => {
            see_case(expression, arms);
            good_expr(expression) && good_arms(arms.as_slice())
        }
        Stmt::Assign { target, value, .. } => good_target(target) && good_expr(value),
    }
}

#[cycle(good_stmts)]
pub fn good_body(body: &Body) -> bool
    ensures { IsTrue result ↔ IsGoodBody (plain_body body.now) }
{
    match body {
        Body::Stmt(stmt) => good_stmt(stmt),
        Body::Empty => true,
    }
}

#[cycle(good_stmts)]
fn good_arm(arm: &Arm) -> bool
    ensures { IsTrue result ↔ IsGoodArm (plain_arm arm.now) }
{
    match arm {
        Arm::Labels { labels, body } => some_good(labels.as_slice()) && good_body(body),
        Arm::Default { body, .. } => good_body(body),
    }
}

#[cycle(good_stmts)]
fn good_arms(arms: &[Arm]) -> bool
    ensures { IsTrue result ↔ AreGoodArms (plain_arms arms.now) }
{
    match arms {
        [] => false,
        [first, rest @ ..] => {
            if !good_arm(first) {
                return false;
            }
            for arm in rest {
                if !good_arm(arm) {
                    return false;
                }
            }
            true
        }
    }
}

#[cycle(good_stmts)]
fn good_stmts(stmts: &[Stmt]) -> bool
    ensures { IsTrue result ↔ AreGoodStmts (plain_stmts stmts.now) }
{
    for stmt in stmts {
        if !good_stmt(stmt) {
            return false;
        }
    }
    true
}
