//! Lists with commas.

ghost use Rattle.std.specs.Prelude.{◌≡◌, ◌≤◌, ℕ, map};
ghost use Rattle.vlog_expr.specs.Marks.{Toks, all_marked};
ghost use Rattle.vlog_expr.specs.Reader.{Read, more_at, some_at};
ghost use Rattle.vlog_expr.specs.Given.{Gives};

use std::alloc::Global;
use vlog_expr::vidi_bits::Items;
use vlog_expr::vlog_lex::Token;
use vlog_expr::{Parsed, Unread, after};
use vlog_tree::Terminal;

/// The reader of what stands in one kind of list with commas.
pub trait ListReader<T> {
    /// What one of them is as plain data.
    ghost Plain: { Type 0 };

    ghost plain: { T → Plain };

    /// The reader of one on lists of tokens.
    ghost one_at: { ℕ → Toks ℕ → Read ℕ Plain };

    /// One of them.
    fn read(alloc: Global, tokens: &[Token], fuel: usize) -> Parsed<'_, T>
        ensures { Gives (λ x. (plain x.0, all_marked x.1.now)) result (one_at fuel (all_marked tokens.now)) };
}

/// The ones that follow the first ones, each behind a comma.
#[tactic(auto, using(vlog_expr::proofs::Maps::map_snoc))]
pub fn more_of<R: ListReader<T>, T: Drop>(
    alloc: Global,
    front: Items<T>,
    tokens: &[Token],
    fuel: usize,
) -> Parsed<'_, Items<T>>
    ensures { Gives (λ x. (map R.plain x.0, all_marked x.1.now)) result
        (more_at (R.one_at fuel) fuel (map R.plain front) (all_marked tokens.now)) }
{
    let mut front = front;
    let mut rest = tokens;
    let mut left = fuel;
    while left > 0 {
        left -= 1;
        let Some((_, behind)) = after(Terminal::Comma, rest) else {
            return Ok((front, rest));
        };
        let (one, behind) = R::read(alloc, behind, fuel)?;
        front.push(one)?;
        rest = behind;
    }
    Err(Unread::Fault)
}

/// At least one, with commas between them.
pub fn some_of<R: ListReader<T>, T: Drop>(
    alloc: Global,
    tokens: &[Token],
    fuel: usize,
) -> Parsed<'_, Items<T>>
    ensures { Gives (λ x. (map R.plain x.0, all_marked x.1.now)) result (some_at (R.one_at fuel) fuel (all_marked tokens.now)) }
{
    let (first, rest) = R::read(alloc, tokens, fuel)?;
    let mut front = Items::new(alloc);
    front.push(first)?;
    more_of::<R, _>(alloc, front, rest, fuel)
}
