//! Whole lists of tokens as one expression.

ghost use Rattle.std.specs.Prelude.{◌≡◌, [], IfOk, MatchResult, length};
ghost use Rattle.vlog_tree.specs.Words.{tokens_of};
ghost use Rattle.vlog_tree.specs.Tree.{ExprOf};
ghost use Rattle.vlog_tree.specs.Plain.{plain_expr};
ghost use Rattle.vlog_tree.specs.Spelling.{expr_words};
ghost use Rattle.vlog_tree.specs.Shape.{IsGoodExpr};
ghost use Rattle.vlog_expr.specs.declared.unread.Unread.{Unread};
ghost use Rattle.vlog_expr.specs.Bare.{without_lines, bare_expr};
ghost use Rattle.vlog_expr.specs.Marks.{all_marked, AreWords};
ghost use Rattle.vlog_expr.specs.Reader.{expr_of, fuel_for};
ghost use Rattle.vlog_expr.specs.Given.{Gives};

use crate::expr::expr_of;
use crate::lawful::are_lawful;
use crate::unread::Unread;
use std::alloc::Global;
use vlog_tree::Expr;
use vlog_tree::vlog_lex::Token;

/// Fuel enough for each tree that the tokens could spell.
pub fn fuel_for(tokens: &[Token]) -> usize
    ensures { result ≡ fuel_for (length tokens.now) }
{
    32 * tokens.len() + 14
}

/// The expression of all the tokens, whose names and numbers aren't looked at.
#[tactic(auto, using(crate::proofs::Maps::marked_length), unfolding(crate::specs::Reader::expr_of))]
fn whole_expr(alloc: Global, tokens: &[Token]) -> Result<Expr, Unread>
    ensures { Gives plain_expr result (expr_of (all_marked tokens.now)) }
{
    let (e, rest) = expr_of(alloc, tokens, fuel_for(tokens))?;
    if rest.is_empty() {
        Ok(e)
    } else {
        Err(Unread::Fault)
    }
}

/// The expression of good shape that all the tokens spell, with the lines that a tree keeps.
///
/// `Fault` comes exactly where no expression of good shape has these tokens, `Memory` where no memory
/// was found. Lines don't count where tokens are compared.
pub fn parse_expression(alloc: Global, tokens: &[Token]) -> Result<Expr, Unread>
    // What is read has good shape, and the tokens are its words, lines included.
    ensures found { IfOk result (λ e. IsGoodExpr (plain_expr e) × AreWords (expr_words (plain_expr e)) (all_marked tokens.now) []) }
    // The tree of good shape that has these tokens is read, unless memory runs out.
    ensures only { (t : ExprOf (Unit {0})) → IsGoodExpr t → tokens_of (expr_words t) ≡ without_lines tokens.now
        → MatchResult result (λ e. bare_expr (plain_expr e) ≡ t) (λ e. e ≡ Unread.Memory) }
{
    if !are_lawful(tokens) {
        return Err(Unread::Fault);
    }
    whole_expr(alloc, tokens)
}
