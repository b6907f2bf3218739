//! The parts of lists spelled as tokens.

ghost use Rattle.std.specs.Prelude.{◌≡◌, ℕ, List, ◌++◌, OnOk, map};
ghost use Rattle.vlog_tree.specs.Tree.{ExprOf};
ghost use Rattle.vlog_tree.specs.Words.{WordOf, tokens_of};
ghost use Rattle.vlog_tree.specs.Plain.{plain_expr};
ghost use Rattle.vlog_tree.specs.Spelling.{with_commas, in_row, hash_words, expr_words};

use crate::spelling::expr::push_expr;
use crate::spelling::token::{put_fixed, put_two};
use std::alloc::Global;
use vlog_parse::vidi_bits::Memory;
use vlog_parse::vlog_lex::Tokens;
use vlog_tree::{Expr, Terminal};

/// A part of a tree that stands in lists.
pub trait Spelled {
    /// What it is as plain data.
    ghost Plain: { Type 0 };

    ghost plain: { Self → Plain };

    /// The words of which that is spelled.
    ghost words: { Plain → List (WordOf ℕ) };

    /// Adds its tokens.
    fn push(&self, alloc: Global, out: &mut Tokens) -> Result<(), Memory>
        ensures { OnOk result (out.new ≡ out.old ++ tokens_of (words (plain self.now))) };
}

/// Adds the tokens of these parts, with commas between them.
pub fn push_with_commas<T: Spelled>(
    alloc: Global,
    out: &mut Tokens,
    parts: &[T],
) -> Result<(), Memory>
    ensures { OnOk result (out.new ≡ out.old ++ tokens_of (with_commas T.words (map T.plain parts.now))) }
{
    match parts {
        [] => Ok(()),
        [first, rest @ ..] => {
            first.push(alloc, out)?;
            for part in rest {
                put_fixed(alloc, out, Terminal::Comma)?;
                part.push(alloc, out)?;
            }
            Ok(())
        }
    }
}

/// Adds the tokens of these parts, one behind the other.
pub fn push_in_row<T: Spelled>(alloc: Global, out: &mut Tokens, parts: &[T]) -> Result<(), Memory>
    ensures { OnOk result (out.new ≡ out.old ++ tokens_of (in_row T.words (map T.plain parts.now))) }
{
    for part in parts {
        part.push(alloc, out)?;
    }
    Ok(())
}

/// Adds the tokens of `#(part, ..)`, where there is a part.
pub fn push_hash<T: Spelled>(alloc: Global, out: &mut Tokens, parts: &[T]) -> Result<(), Memory>
    ensures { OnOk result (out.new ≡ out.old ++ tokens_of (hash_words T.words (map T.plain parts.now))) }
{
    match parts {
        [] => Ok(()),
        _ => {
            put_two(alloc, out, Terminal::Hash, Terminal::ParenOpen)?;
            push_with_commas(alloc, out, parts)?;
            put_fixed(alloc, out, Terminal::ParenClose)
        }
    }
}

impl Spelled for Expr {
    ghost Plain = { ExprOf ℕ };

    ghost plain = { plain_expr };

    ghost words = { expr_words };

    fn push(&self, alloc: Global, out: &mut Tokens) -> Result<(), Memory> {
        push_expr(alloc, out, self)
    }
}
