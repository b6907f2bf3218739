//! The reader of targets.

ghost use Rattle.std.specs.Prelude.{◌≡◌, map};
ghost use Rattle.vlog_tree.specs.Plain.{plain_target};
ghost use Rattle.vlog_expr.specs.Marks.{all_marked};
ghost use Rattle.vlog_expr.specs.Reader.{target_at, targets_at};
ghost use Rattle.vlog_expr.specs.Given.{Gives};

use crate::expr::ref_of;
use crate::front::{Parsed, after, expect};
use crate::unread::Unread;
use std::alloc::Global;
use vlog_tree::vlog_lex::Token;
use vlog_tree::{Target, Targets, Terminal, concat_target};

/// What an assignment writes.
#[cycle(targets)]
pub fn target_of(alloc: Global, tokens: &[Token], fuel: usize) -> Parsed<'_, Target>
    ensures { Gives (λ x. (plain_target x.0, all_marked x.1.now)) result (target_at fuel (all_marked tokens.now)) }
{
    if fuel == 0 {
        return Err(Unread::Fault);
    }
    let Some((line, rest)) = after(Terminal::BraceOpen, tokens) else {
        let (name, rest) = ref_of(alloc, tokens, fuel - 1)?;
        return Ok((Target::Ref(name), rest));
    };
    let (first, rest) = target_of(alloc, rest, fuel - 1)?;
    let mut parts = Targets::new(alloc);
    parts.push(first)?;
    let (parts, rest) = targets_of(alloc, parts, rest, fuel - 1)?;
    let (_, rest) = expect(Terminal::BraceClose, rest)?;
    Ok((concat_target(line, parts), rest))
}

/// The parts that follow the first ones, each behind a comma.
#[cycle(targets)]
#[tactic(auto, using(crate::proofs::Maps::targets_snoc))]
fn targets_of(alloc: Global, parts: Targets, tokens: &[Token], fuel: usize) -> Parsed<'_, Targets>
    ensures { Gives (λ x. (map plain_target x.0, all_marked x.1.now)) result
        (targets_at fuel (map plain_target parts) (all_marked tokens.now)) }
{
    let mut parts = parts;
    let mut rest = tokens;
    let mut left = fuel;
    while left > 0 {
        left -= 1;
        let Some((_, behind)) = after(Terminal::Comma, rest) else {
            return Ok((parts, rest));
        };
        let (part, behind) = target_of(alloc, behind, left)?;
        parts.push(part)?;
        rest = behind;
    }
    Err(Unread::Fault)
}
