//! Targets, statements and blocks spelled as tokens.

ghost use Rattle.std.specs.Prelude.{◌≡◌, ℕ, [], ◌∷◌, ◌++◌, OnOk};
ghost use Rattle.vlog_tree.specs.Tree.{AssignStmt};
ghost use Rattle.vlog_tree.specs.Words.{Fixed, tokens_of};
ghost use Rattle.vlog_tree.specs.declared.terminal.Terminal.TheVariants as t;
ghost use Rattle.vlog_tree.specs.Plain.{plain_expr, plain_target, plain_targets, plain_stmt, plain_stmts, plain_body, plain_arm};
ghost use Rattle.vlog_tree.specs.Plain.{plain_arms};
ghost use Rattle.vlog_tree.specs.Spelling.{assign_terminal, expr_words, target_words, targets_words, stmt_words, stmts_words, body_words};
ghost use Rattle.vlog_tree.specs.Spelling.{colon_words, arm_words, arms_words};

use crate::spelling::expr::{push_expr, push_ref};
use crate::spelling::listed::push_with_commas;
use crate::spelling::token::{put_fixed, put_two};
use std::alloc::Global;
use vlog_parse::vidi_bits::Memory;
use vlog_parse::vlog_lex::Tokens;
use vlog_tree::{
    Arm, AssignOp, Body, Expr, Stmt, Target, Terminal, see_begin, see_case, see_concat_target,
};

fn assign_terminal(op: AssignOp) -> Terminal
    ensures { result ≡ assign_terminal op }
{
    match op {
        AssignOp::Blocking => Terminal::Equals,
        AssignOp::Nonblocking => Terminal::LessEquals,
    }
}

#[cycle(push_targets)]
pub fn push_target(alloc: Global, out: &mut Tokens, target: &Target) -> Result<(), Memory>
    ensures { OnOk result (out.new ≡ out.old ++ tokens_of (target_words (plain_target target.now))) }
{
    match target {
        Target::Ref(name) => push_ref(alloc, out, name),
        Target::Concat { line, parts } => {
            see_concat_target(*line, parts);
            put_fixed(alloc, out, Terminal::BraceOpen)?;
            push_targets(alloc, out, parts.as_slice())?;
            put_fixed(alloc, out, Terminal::BraceClose)
        }
    }
}

#[cycle(push_targets)]
fn push_targets(alloc: Global, out: &mut Tokens, targets: &[Target]) -> Result<(), Memory>
    ensures { OnOk result (out.new ≡ out.old ++ tokens_of (targets_words (plain_targets targets.now))) }
{
    match targets {
        [] => Ok(()),
        [first, rest @ ..] => {
            push_target(alloc, out, first)?;
            for target in rest {
                put_fixed(alloc, out, Terminal::Comma)?;
                push_target(alloc, out, target)?;
            }
            Ok(())
        }
    }
}

fn push_colon(alloc: Global, out: &mut Tokens, colon: bool) -> Result<(), Memory>
    ensures { OnOk result (out.new ≡ out.old ++ tokens_of {A = ℕ} (colon_words colon)) }
{
    match colon {
        false => Ok(()),
        true => put_fixed(alloc, out, Terminal::Colon),
    }
}

/// Adds the tokens of `if (e)` or `case (e)`.
fn push_head(alloc: Global, out: &mut Tokens, word: Terminal, e: &Expr) -> Result<(), Memory>
    ensures { OnOk result (out.new ≡ out.old ++ tokens_of (Fixed word ∷ Fixed t.ParenOpen ∷ (expr_words (plain_expr e.now)
        ++ Fixed t.ParenClose ∷ []))) }
{
    put_two(alloc, out, word, Terminal::ParenOpen)?;
    push_expr(alloc, out, e)?;
    put_fixed(alloc, out, Terminal::ParenClose)
}

fn push_assign(
    alloc: Global,
    out: &mut Tokens,
    target: &Target,
    op: AssignOp,
    value: &Expr,
) -> Result<(), Memory>
    ensures { OnOk result (out.new ≡ out.old ++ tokens_of (stmt_words (AssignStmt (plain_target target.now) op (plain_expr value.now)))) }
{
    push_target(alloc, out, target)?;
    put_fixed(alloc, out, assign_terminal(op))?;
    push_expr(alloc, out, value)?;
    put_fixed(alloc, out, Terminal::Semicolon)
}

#[cycle(push_stmts)]
fn push_stmt(alloc: Global, out: &mut Tokens, stmt: &Stmt) -> Result<(), Memory>
    ensures { OnOk result (out.new ≡ out.old ++ tokens_of (stmt_words (plain_stmt stmt.now))) }
{
    match stmt {
        Stmt::Begin(stmts) => {
            see_begin(stmts);
            put_fixed(alloc, out, Terminal::Begin)?;
            push_stmts(alloc, out, stmts.as_slice())?;
            put_fixed(alloc, out, Terminal::End)
        }
        Stmt::If {
            condition,
            then_body,
            else_body,
        } => {
            push_head(alloc, out, Terminal::If, condition)?;
            push_body(alloc, out, then_body)?;
            match else_body {
                None => Ok(()),
                Some(body) => {
                    put_fixed(alloc, out, Terminal::Else)?;
                    push_body(alloc, out, body)
                }
            }
        }
        Stmt::Case { expression, arms } => {
            see_case(expression, arms);
            push_head(alloc, out, Terminal::Case, expression)?;
            push_arms(alloc, out, arms.as_slice())?;
            put_fixed(alloc, out, Terminal::Endcase)
        }
        Stmt::Assign { target, op, value } => push_assign(alloc, out, target, *op, value),
    }
}

#[cycle(push_stmts)]
pub fn push_body(alloc: Global, out: &mut Tokens, body: &Body) -> Result<(), Memory>
    ensures { OnOk result (out.new ≡ out.old ++ tokens_of (body_words (plain_body body.now))) }
{
    match body {
        Body::Stmt(stmt) => push_stmt(alloc, out, stmt),
        Body::Empty => put_fixed(alloc, out, Terminal::Semicolon),
    }
}

#[cycle(push_stmts)]
fn push_arm(alloc: Global, out: &mut Tokens, arm: &Arm) -> Result<(), Memory>
    ensures { OnOk result (out.new ≡ out.old ++ tokens_of (arm_words (plain_arm arm.now))) }
{
    match arm {
        Arm::Labels { labels, body } => {
            push_with_commas(alloc, out, labels.as_slice())?;
            put_fixed(alloc, out, Terminal::Colon)?;
            push_body(alloc, out, body)
        }
        Arm::Default {
            line: _,
            colon,
            body,
        } => {
            put_fixed(alloc, out, Terminal::Default)?;
            push_colon(alloc, out, *colon)?;
            push_body(alloc, out, body)
        }
    }
}

#[cycle(push_stmts)]
fn push_arms(alloc: Global, out: &mut Tokens, arms: &[Arm]) -> Result<(), Memory>
    ensures { OnOk result (out.new ≡ out.old ++ tokens_of (arms_words (plain_arms arms.now))) }
{
    for arm in arms {
        push_arm(alloc, out, arm)?;
    }
    Ok(())
}

#[cycle(push_stmts)]
fn push_stmts(alloc: Global, out: &mut Tokens, stmts: &[Stmt]) -> Result<(), Memory>
    ensures { OnOk result (out.new ≡ out.old ++ tokens_of (stmts_words (plain_stmts stmts.now))) }
{
    for stmt in stmts {
        push_stmt(alloc, out, stmt)?;
    }
    Ok(())
}
