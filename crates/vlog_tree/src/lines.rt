//! The line at which an expression or a target stands.

ghost use Rattle.std.specs.Prelude.{◌≡◌};
ghost use Rattle.vlog_tree.specs.Plain.{plain_expr, plain_prim, plain_target};
ghost use Rattle.vlog_tree.specs.Lines.{expr_line, prim_line, target_line};

use crate::expr::{Expr, Operand};
use crate::lists::{see_concat, see_concat_target, see_repeat};
use crate::stmt::Target;

/// The line of an operand's first token.
fn prim_line(prim: &Operand) -> u32
    ensures { result ≡ prim_line (plain_prim prim.now) }
{
    match prim {
        Operand::Number(number) => number.line,
        Operand::Ref(name) => name.id.line,
        Operand::Paren { line, inner: _ } => *line,
        Operand::Concat { line, parts } => {
            see_concat(*line, parts);
            *line
        }
        Operand::Repeat {
            line,
            count: _,
            parts,
        } => {
            see_repeat(*line, parts);
            *line
        }
    }
}

/// The line of an expression's first token.
pub fn expr_line(e: &Expr) -> u32
    ensures { result ≡ expr_line (plain_expr e.now) }
{
    match e {
        Expr::Unary(unary) => match unary.sign {
            None => prim_line(&unary.prim),
            Some(sign) => sign.line,
        },
        Expr::Binary { left, .. } => expr_line(left),
        Expr::Choice { condition, .. } => expr_line(condition),
    }
}

/// The line of a target's first token.
pub fn target_line(target: &Target) -> u32
    ensures { result ≡ target_line (plain_target target.now) }
{
    match target {
        Target::Ref(name) => name.id.line,
        Target::Concat { line, parts } => {
            see_concat_target(*line, parts);
            *line
        }
    }
}
