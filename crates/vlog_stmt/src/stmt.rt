//! The reader of statements.

ghost use Rattle.std.specs.Prelude.{◌≡◌, ◌≤◌, ℕ, Some, [], ◌∷◌, map};
ghost use Rattle.vlog_tree.specs.Tree.{ExprOf, StmtOf, IfStmt, CaseStmt, arms_of};
ghost use Rattle.vlog_tree.specs.Plain.{plain_expr, plain_stmt, plain_body, plain_arm};
ghost use Rattle.vlog_expr.specs.Marks.{Toks, all_marked};
ghost use Rattle.vlog_expr.specs.Reader.{◌>>=◌ as bind, expr_at};
ghost use Rattle.vlog_stmt.specs.StmtReader.{assign_op_at, assign_stmt_at, stmt_at, if_at, body_at, else_at, stmts_at};
ghost use Rattle.vlog_stmt.specs.StmtReader.{colon_front, case_at, arm_at, arms_at};
ghost use Rattle.vlog_expr.specs.Given.{Gives};

use crate::listed::{ListReader, some_of};
use std::alloc::Global;
use vlog_expr::vlog_lex::Token;
use vlog_expr::{Parsed, Unread, after, expect, expr_of, target_of};
use vlog_tree::{Arm, Arms, AssignOp, Body, Expr, Stmt, Stmts, Terminal, begin, case};

/// The sign of a procedural assignment.
fn assign_op(tokens: &[Token]) -> Parsed<'_, AssignOp>
    ensures { Gives (λ x. (x.0, all_marked x.1.now)) result (assign_op_at (all_marked tokens.now)) }
{
    if let Some((_, rest)) = after(Terminal::Equals, tokens) {
        return Ok((AssignOp::Blocking, rest));
    }
    let (_, rest) = expect(Terminal::LessEquals, tokens)?;
    Ok((AssignOp::Nonblocking, rest))
}

/// An assignment with its `;`.
fn assign_stmt_of(alloc: Global, tokens: &[Token], fuel: usize) -> Parsed<'_, Stmt>
    ensures { Gives (λ x. (plain_stmt x.0, all_marked x.1.now)) result (assign_stmt_at fuel (all_marked tokens.now)) }
{
    let (target, rest) = target_of(alloc, tokens, fuel)?;
    let (op, rest) = assign_op(rest)?;
    let (value, rest) = expr_of(alloc, rest, fuel)?;
    let (_, rest) = expect(Terminal::Semicolon, rest)?;
    Ok((Stmt::Assign { target, op, value }, rest))
}

/// A statement, with at most so many statements within one another.
#[cycle(stmts)]
fn stmt_of(alloc: Global, tokens: &[Token], fuel: usize, nested: u32) -> Parsed<'_, Stmt>
    ensures { Gives (λ x. (plain_stmt x.0, all_marked x.1.now)) result (stmt_at fuel (all_marked tokens.now)) }
{
    if fuel == 0 {
        return Err(Unread::Fault);
    }
    if nested == 0 {
        return Err(Unread::Memory);
    }
    if let Some((_, rest)) = after(Terminal::Begin, tokens) {
        let (stmts, rest) = stmts_of(alloc, rest, fuel - 1, nested - 1)?;
        return Ok((begin(stmts), rest));
    }
    if let Some((_, rest)) = after(Terminal::If, tokens) {
        return if_of(alloc, rest, fuel - 1, nested - 1);
    }
    if let Some((_, rest)) = after(Terminal::Case, tokens) {
        return case_of(alloc, rest, fuel - 1, nested - 1);
    }
    assign_stmt_of(alloc, tokens, fuel - 1)
}

/// What stands behind `if`.
#[cycle(stmts)]
fn if_of(alloc: Global, tokens: &[Token], fuel: usize, nested: u32) -> Parsed<'_, Stmt>
    ensures { Gives (λ x. (plain_stmt x.0, all_marked x.1.now)) result (if_at fuel (all_marked tokens.now)) }
{
    if fuel == 0 {
        return Err(Unread::Fault);
    }
    let (_, rest) = expect(Terminal::ParenOpen, tokens)?;
    let (condition, rest) = expr_of(alloc, rest, fuel - 1)?;
    let (_, rest) = expect(Terminal::ParenClose, rest)?;
    let (then_body, rest) = body_of(alloc, rest, fuel - 1, nested)?;
    rest_of_if(alloc, condition, then_body, rest, fuel - 1, nested)
}

/// The whole `if`, where `else` and a body may follow its first body.
#[cycle(stmts)]
fn rest_of_if(
    alloc: Global,
    condition: Expr,
    then_body: Body,
    tokens: &[Token],
    fuel: usize,
    nested: u32,
) -> Parsed<'_, Stmt>
    ensures { Gives {Y = StmtOf ℕ × Toks ℕ} (λ x. (plain_stmt x.0, all_marked x.1.now)) result
        (bind (else_at fuel (all_marked tokens.now)) (λ x. Some (IfStmt (plain_expr condition) (plain_body then_body) x.0, x.1))) }
{
    if fuel == 0 {
        return Err(Unread::Fault);
    }
    let Some((_, rest)) = after(Terminal::Else, tokens) else {
        let stmt = Stmt::If {
            condition,
            then_body,
            else_body: None,
        };
        return Ok((stmt, tokens));
    };
    let (body, rest) = body_of(alloc, rest, fuel - 1, nested)?;
    let stmt = Stmt::If {
        condition,
        then_body,
        else_body: Some(body),
    };
    Ok((stmt, rest))
}

/// What stands behind `case`.
// Never inlined, so that `if`s within one another need little stack.
#[inline(never)]
#[cycle(stmts)]
fn case_of(alloc: Global, tokens: &[Token], fuel: usize, nested: u32) -> Parsed<'_, Stmt>
    ensures { Gives (λ x. (plain_stmt x.0, all_marked x.1.now)) result (case_at fuel (all_marked tokens.now)) }
{
    if fuel == 0 {
        return Err(Unread::Fault);
    }
    let (_, rest) = expect(Terminal::ParenOpen, tokens)?;
    let (expression, rest) = expr_of(alloc, rest, fuel - 1)?;
    let expression = Box::new(alloc, expression)?;
    let (_, rest) = expect(Terminal::ParenClose, rest)?;
    rest_of_case(alloc, expression, rest, fuel - 1, nested)
}

/// The whole `case`, of which the first arm stands at the front.
#[cycle(stmts)]
fn rest_of_case(
    alloc: Global,
    expression: Box<Expr>,
    tokens: &[Token],
    fuel: usize,
    nested: u32,
) -> Parsed<'_, Stmt>
    ensures { Gives {Y = StmtOf ℕ × Toks ℕ} (λ x. (plain_stmt x.0, all_marked x.1.now)) result
        (bind (arm_at fuel (all_marked tokens.now)) (λ a. bind (arms_at fuel (a.0 ∷ []) a.1)
        (λ xs. Some (CaseStmt (plain_expr expression.value) (arms_of xs.0), xs.1)))) }
{
    let (arm, rest) = arm_of(alloc, tokens, fuel, nested)?;
    let mut arms = Arms::new(alloc);
    arms.push(arm)?;
    let (arms, rest) = arms_of(alloc, arms, rest, fuel, nested)?;
    Ok((case(Box::into_inner(expression), arms), rest))
}

/// The colon that may stand behind `default`.
fn colon_front(tokens: &[Token]) -> (bool, &[Token])
    ensures { Some (result.0, all_marked result.1.now) ≡ colon_front (all_marked tokens.now) }
{
    match after(Terminal::Colon, tokens) {
        Some((_, rest)) => (true, rest),
        None => (false, tokens),
    }
}

/// The reader of a label.
struct LabelReader;

impl ListReader<Expr> for LabelReader {
    ghost Plain = { ExprOf ℕ };

    ghost plain = { plain_expr };

    ghost one_at = { expr_at };

    fn read(alloc: Global, tokens: &[Token], fuel: usize) -> Parsed<'_, Expr> {
        expr_of(alloc, tokens, fuel)
    }
}

/// An arm of a `case`.
#[cycle(stmts)]
fn arm_of(alloc: Global, tokens: &[Token], fuel: usize, nested: u32) -> Parsed<'_, Arm>
    ensures { Gives (λ x. (plain_arm x.0, all_marked x.1.now)) result (arm_at fuel (all_marked tokens.now)) }
{
    if fuel == 0 {
        return Err(Unread::Fault);
    }
    if let Some((line, rest)) = after(Terminal::Default, tokens) {
        let (colon, rest) = colon_front(rest);
        let (body, rest) = body_of(alloc, rest, fuel - 1, nested)?;
        return Ok((Arm::Default { line, colon, body }, rest));
    }
    let (labels, rest) = some_of::<LabelReader, _>(alloc, tokens, fuel - 1)?;
    let (_, rest) = expect(Terminal::Colon, rest)?;
    let (body, rest) = body_of(alloc, rest, fuel - 1, nested)?;
    Ok((Arm::Labels { labels, body }, rest))
}

/// The arms that follow the first ones, up to `endcase`, and what stands behind it.
#[cycle(stmts)]
#[tactic(auto, using(crate::proofs::Maps::arms_snoc))]
fn arms_of(
    alloc: Global,
    arms: Arms,
    tokens: &[Token],
    fuel: usize,
    nested: u32,
) -> Parsed<'_, Arms>
    ensures { Gives (λ x. (map plain_arm x.0, all_marked x.1.now)) result (arms_at fuel (map plain_arm arms) (all_marked tokens.now)) }
{
    let mut arms = arms;
    let mut rest = tokens;
    let mut left = fuel;
    while left > 0 {
        left -= 1;
        match after(Terminal::Endcase, rest) {
            Some((_, behind)) => return Ok((arms, behind)),
            None => {
                let (arm, behind) = arm_of(alloc, rest, left, nested)?;
                arms.push(arm)?;
                rest = behind;
            }
        }
    }
    Err(Unread::Fault)
}

/// A statement, or `;` alone.
#[cycle(stmts)]
pub fn body_of(alloc: Global, tokens: &[Token], fuel: usize, nested: u32) -> Parsed<'_, Body>
    ensures { Gives (λ x. (plain_body x.0, all_marked x.1.now)) result (body_at fuel (all_marked tokens.now)) }
{
    if fuel == 0 {
        return Err(Unread::Fault);
    }
    if let Some((_, rest)) = after(Terminal::Semicolon, tokens) {
        return Ok((Body::Empty, rest));
    }
    let (stmt, rest) = stmt_of(alloc, tokens, fuel - 1, nested)?;
    Ok((Body::Stmt(Box::new(alloc, stmt)?), rest))
}

/// The statements up to `end`, and what stands behind it.
#[cycle(stmts)]
#[tactic(auto, using(crate::proofs::Maps::stmts_snoc))]
fn stmts_of(alloc: Global, tokens: &[Token], fuel: usize, nested: u32) -> Parsed<'_, Stmts>
    ensures { Gives (λ x. (map plain_stmt x.0, all_marked x.1.now)) result (stmts_at fuel [] (all_marked tokens.now)) }
{
    let mut stmts = Stmts::new(alloc);
    let mut rest = tokens;
    let mut left = fuel;
    while left > 0 {
        left -= 1;
        match after(Terminal::End, rest) {
            Some((_, behind)) => return Ok((stmts, behind)),
            None => {
                let (stmt, behind) = stmt_of(alloc, rest, left, nested)?;
                stmts.push(stmt)?;
                rest = behind;
            }
        }
    }
    Err(Unread::Fault)
}
