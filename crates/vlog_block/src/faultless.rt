//! Whether nothing is found in the expressions and targets of statements.

ghost use Rattle.std.specs.Prelude.{◌≡◌, ◌↔◌, IsTrue, map};
ghost use Rattle.std.specs.List.{AllByRecursion};
ghost use Rattle.vlog_tree.specs.Plain.{plain_expr, plain_target, plain_stmt, plain_stmts, plain_body, plain_arm, plain_arms};
ghost use Rattle.vlog_tree.specs.Plain.{plain_always};
ghost use Rattle.vlog_block.specs.Sources.{names_of};
ghost use Rattle.vlog_block.specs.Faultless.{IsFaultless, IsFaultlessTarget, IsFaultlessStmt, AreFaultlessStmts, IsFaultlessBody};
ghost use Rattle.vlog_block.specs.Faultless.{IsFaultlessArm, AreFaultlessArms};

use vlog_size::{Scope, target_width, width};
use vlog_tree::{Always, Arm, Body, Expr, Stmt, Target, see_begin, see_case};

fn is_faultless_expr(scope: &Scope, e: &Expr) -> bool
    ensures { IsTrue result ↔ IsFaultless (names_of scope.now) (plain_expr e.now) }
{
    match width(e, scope) {
        Ok(_) => true,
        Err(_) => false,
    }
}

fn is_faultless_target(scope: &Scope, target: &Target) -> bool
    ensures { IsTrue result ↔ IsFaultlessTarget (names_of scope.now) (plain_target target.now) }
{
    match target_width(target, scope) {
        Ok(_) => true,
        Err(_) => false,
    }
}

fn are_faultless_exprs(scope: &Scope, exprs: &[Expr]) -> bool
    ensures { IsTrue result ↔ AllByRecursion (λ e. IsFaultless (names_of scope.now) e) (map plain_expr exprs.now) }
{
    for e in exprs {
        if !is_faultless_expr(scope, e) {
            return false;
        }
    }
    true
}

#[cycle(faultless)]
fn is_faultless_stmt(scope: &Scope, stmt: &Stmt) -> bool
    ensures { IsTrue result ↔ IsFaultlessStmt (names_of scope.now) (plain_stmt stmt.now) }
{
    match stmt {
        Stmt::Begin(stmts) => {
            see_begin(stmts);
            are_faultless_stmts(scope, stmts.as_slice())
        }
        Stmt::If {
            condition,
            then_body,
            else_body,
        } => {
            if !is_faultless_expr(scope, condition) || !is_faultless_body(scope, then_body) {
                return false;
            }
            match else_body {
                None => true,
                Some(body) => is_faultless_body(scope, body),
            }
        }
        Stmt::Case { expression, arms } => {
            see_case(expression, arms);
            is_faultless_expr(scope, expression) && are_faultless_arms(scope, arms.as_slice())
        }
        Stmt::Assign { target, value, .. } => {
            is_faultless_target(scope, target) && is_faultless_expr(scope, value)
        }
    }
}

#[cycle(faultless)]
fn is_faultless_body(scope: &Scope, body: &Body) -> bool
    ensures { IsTrue result ↔ IsFaultlessBody (names_of scope.now) (plain_body body.now) }
{
    match body {
        Body::Stmt(stmt) => is_faultless_stmt(scope, stmt),
        Body::Empty => true,
    }
}

#[cycle(faultless)]
fn is_faultless_arm(scope: &Scope, arm: &Arm) -> bool
    ensures { IsTrue result ↔ IsFaultlessArm (names_of scope.now) (plain_arm arm.now) }
{
    match arm {
        Arm::Labels { labels, body } => {
            are_faultless_exprs(scope, labels.as_slice()) && is_faultless_body(scope, body)
        }
        Arm::Default { body, .. } => is_faultless_body(scope, body),
    }
}

#[cycle(faultless)]
fn are_faultless_arms(scope: &Scope, arms: &[Arm]) -> bool
    ensures { IsTrue result ↔ AreFaultlessArms (names_of scope.now) (plain_arms arms.now) }
{
    for arm in arms {
        if !is_faultless_arm(scope, arm) {
            return false;
        }
    }
    true
}

#[cycle(faultless)]
fn are_faultless_stmts(scope: &Scope, stmts: &[Stmt]) -> bool
    ensures { IsTrue result ↔ AreFaultlessStmts (names_of scope.now) (plain_stmts stmts.now) }
{
    for stmt in stmts {
        if !is_faultless_stmt(scope, stmt) {
            return false;
        }
    }
    true
}

/// Whether nothing is wrong with the names, constants and widths in a block: the condition of `block_code`.
pub fn is_faultless(block: &Always, scope: &Scope) -> bool
    ensures { IsTrue result ↔ IsFaultlessBody (names_of scope.now) (plain_always block.now).body }
{
    is_faultless_body(scope, &block.body)
}
