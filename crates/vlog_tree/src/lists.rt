//! Trees made of lists of trees.

ghost use Rattle.std.specs.Prelude.{◌≡◌, Box};
ghost use Rattle.std.specs.Global.{Global};
ghost use Rattle.vlog_tree.specs.Tree.{ConcatPrim, RepeatPrim, ConcatTarget, BeginStmt, CaseStmt};
ghost use Rattle.vlog_tree.specs.Plain.{plain_expr, plain_prim, plain_exprs, plain_target, plain_targets, plain_stmt, plain_stmts};
ghost use Rattle.vlog_tree.specs.Plain.{plain_arms};
ghost use Rattle.vlog_tree.specs.declared.expr.Expr as declared_expr;
ghost use Rattle.vlog_tree.specs.declared.expr.Operand as declared_prim;
ghost use Rattle.vlog_tree.specs.declared.stmt.Target as declared_target;
ghost use Rattle.vlog_tree.specs.declared.stmt.Stmt as declared_stmt;

use crate::expr::{Expr, Exprs, Operand};
use crate::stmt::{Arms, Stmt, Stmts, Target, Targets};

/// The operand `{part, ..}`, whose `{` stands on `line`.
pub fn concat(line: u32, parts: Exprs) -> Operand
    ensures { plain_prim result ≡ ConcatPrim line (plain_exprs parts) }
{
    Operand::Concat { line, parts }
}

/// The operand `{count{part, ..}}`, whose first `{` stands on `line`.
pub fn repeat(line: u32, count: Box<Expr>, parts: Exprs) -> Operand
    ensures { plain_prim result ≡ RepeatPrim line (plain_expr count.value) (plain_exprs parts) }
{
    Operand::Repeat { line, count, parts }
}

/// The target `{part, ..}`, whose `{` stands on `line`.
pub fn concat_target(line: u32, parts: Targets) -> Target
    ensures { plain_target result ≡ ConcatTarget line (plain_targets parts) }
{
    Target::Concat { line, parts }
}

/// The statement `begin .. end`.
pub fn begin(stmts: Stmts) -> Stmt
    ensures { plain_stmt result ≡ BeginStmt (plain_stmts stmts) }
{
    Stmt::Begin(stmts)
}

/// The statement `case (expression) arm .. endcase`.
pub fn case(expression: Expr, arms: Arms) -> Stmt
    ensures { plain_stmt result ≡ CaseStmt (plain_expr expression) (plain_arms arms) }
{
    Stmt::Case { expression, arms }
}

/// What `Operand::Concat` is as plain data, for proofs of an arm that matches it.
pub fn see_concat(line: u32, parts: &Exprs)
    ensures { (p : declared_prim.Operand) → p ≡ declared_prim.Concat line parts.now → plain_prim p
        ≡ ConcatPrim line (plain_exprs parts.now) }
{}

/// What `Operand::Repeat` is as plain data, for proofs of an arm that matches it.
pub fn see_repeat(line: u32, parts: &Exprs)
    ensures { (p : declared_prim.Operand) (count : Box declared_expr.Expr Global) → p ≡ declared_prim.Repeat line count parts.now
        → plain_prim p ≡ RepeatPrim line (plain_expr count.value) (plain_exprs parts.now) }
{}

/// What `Target::Concat` is as plain data, for proofs of an arm that matches it.
pub fn see_concat_target(line: u32, parts: &Targets)
    ensures { (t : declared_target.Target) → t ≡ declared_target.Concat line parts.now → plain_target t
        ≡ ConcatTarget line (plain_targets parts.now) }
{}

/// What `Stmt::Begin` is as plain data, for proofs of an arm that matches it.
pub fn see_begin(stmts: &Stmts)
    ensures { (s : declared_stmt.Stmt) → s ≡ declared_stmt.Begin stmts.now → plain_stmt s ≡ BeginStmt (plain_stmts stmts.now) }
{}

/// What `Stmt::Case` is as plain data, for proofs of an arm that matches it.
pub fn see_case(expression: &Expr, arms: &Arms)
    ensures { (s : declared_stmt.Stmt) → s ≡ declared_stmt.Case expression.now arms.now → plain_stmt s
        ≡ CaseStmt (plain_expr expression.now) (plain_arms arms.now) }
{}
