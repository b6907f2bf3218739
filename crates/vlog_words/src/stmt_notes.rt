//! Notes on targets and statements. The signs of statements: `;` an empty one, `=` and `<` assignments, `{..}`, `?(..)(..)` with the two bodies
//! of an `if`, `:(..)` with an arm in each pair of brackets.

use crate::expr_notes::{note_expr, note_exprs, note_ref};
use crate::notes::Notes;
use vlog_tree::{Arm, AssignOp, Body, Stmt, Target};

/// Notes a target, which has no signs.
#[cycle(target)]
pub(crate) fn note_target(notes: &mut Notes, target: &Target) {
    match target {
        Target::Ref(name) => note_ref(notes, name),
        Target::Concat { line, parts } => {
            notes.line(*line);
            note_targets(notes, parts.as_slice());
        }
    }
}

#[cycle(target)]
fn note_targets(notes: &mut Notes, parts: &[Target]) {
    for part in parts {
        note_target(notes, part);
    }
}

/// Notes a body.
#[cycle(stmt)]
pub(crate) fn note_body(notes: &mut Notes, body: &Body) {
    match body {
        Body::Stmt(stmt) => note_stmt(notes, stmt),
        Body::Empty => notes.sign(b";"),
    }
}

#[cycle(stmt)]
fn note_stmt(notes: &mut Notes, stmt: &Stmt) {
    match stmt {
        Stmt::Begin(stmts) => {
            notes.sign(b"{");
            note_stmts(notes, stmts.as_slice());
            notes.sign(b"}");
        }
        Stmt::If {
            condition,
            then_body,
            else_body,
        } => {
            note_expr(notes, condition);
            notes.sign(b"?(");
            note_body(notes, then_body);
            notes.sign(b")(");
            if let Some(body) = else_body {
                note_body(notes, body);
            }
            notes.sign(b")");
        }
        Stmt::Case { expression, arms } => {
            note_expr(notes, expression);
            notes.sign(b":(");
            note_arms(notes, arms.as_slice());
            notes.sign(b")");
        }
        Stmt::Assign { target, op, value } => {
            note_target(notes, target);
            notes.sign(match op {
                AssignOp::Blocking => b"=",
                AssignOp::Nonblocking => b"<",
            });
            note_expr(notes, value);
        }
    }
}

#[cycle(stmt)]
fn note_stmts(notes: &mut Notes, stmts: &[Stmt]) {
    for stmt in stmts {
        note_stmt(notes, stmt);
    }
}

#[cycle(stmt)]
fn note_arms(notes: &mut Notes, arms: &[Arm]) {
    for arm in arms {
        notes.sign(b"(");
        note_arm(notes, arm);
        notes.sign(b")");
    }
}

/// Notes an arm: the number of its labels, or `d` or `d:` with the line of `default`, and its body.
#[cycle(stmt)]
fn note_arm(notes: &mut Notes, arm: &Arm) {
    match arm {
        Arm::Labels { labels, body } => {
            notes.count(labels.len());
            note_exprs(notes, labels.as_slice());
            note_body(notes, body);
        }
        Arm::Default { line, colon, body } => {
            notes.sign(if *colon { b"d:" } else { b"d" });
            notes.line_sign(*line);
            note_body(notes, body);
        }
    }
}
