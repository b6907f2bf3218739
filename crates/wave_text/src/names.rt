//! Full names, part by part.

ghost use Rattle.std.specs.Prelude.{◌≡◌, ◌<◌, ◌≤◌, ◌↔◌, length, All, IsTrue, MatchOption};
ghost use Rattle.std.specs.List.{position_or_len};
ghost use Rattle.wave_text.specs.Names.{is_dot, parts, base_of, path_of};
ghost use Rattle.wave_text.specs.Parts.{IsBase, IsInside, AreInside};
ghost use Rattle.wave_text.specs.Text.{moves, out_and_in};
ghost use Rattle.wave_text.specs.Wave.{IsIdentifier};

use vlog_lex::{TokenKind, is_token};

/// The number of bytes up to the next dot, or to the end.
fn part_len(name: &[u8]) -> usize
    ensures value { result ≡ position_or_len is_dot name.now }
    ensures fits { result ≤ length name.now }
{
    name.iter().take_while(|b| **b != b'.').count()
}

/// The first instance on a name's path, and the name in it.
pub(crate) fn enter(name: &[u8]) -> Option<(&[u8], &[u8])>
    ensures { MatchOption result (IsBase name.now) (λ inside. IsInside name.now inside.0.now inside.1.now) }
{
    let len = part_len(name);
    if len == name.len() {
        return None;
    }
    Some((&name[..len], &name[len + 1..]))
}

/// A net's name in its instance.
pub(crate) fn base_of(name: &[u8]) -> &[u8]
    ensures { result.now ≡ base_of name.now }
{
    let mut rest = name;
    while let Some((_, inside)) = enter(rest) {
        rest = inside;
    }
    rest
}

/// Two names in the instance that both paths begin with.
fn enter_both<'a>(from: &'a [u8], to: &'a [u8]) -> Option<(&'a [u8], &'a [u8])>
    ensures { MatchOption result (moves (path_of from.now) (path_of to.now) ≡ out_and_in (path_of from.now) (path_of to.now))
        (λ inside. AreInside from.now to.now inside.0.now inside.1.now) }
{
    let (left, from_inside) = enter(from)?;
    let (entered, to_inside) = enter(to)?;
    if left != entered {
        return None;
    }
    Some((from_inside, to_inside))
}

/// Two names without the instances that their paths have in common.
pub(crate) fn apart<'a>(from: &'a [u8], to: &'a [u8]) -> (&'a [u8], &'a [u8])
    ensures { moves (path_of from.now) (path_of to.now) ≡ out_and_in (path_of result.0.now) (path_of result.1.now) }
{
    let mut left = from;
    let mut entered = to;
    while let Some((from_inside, to_inside)) = enter_both(left, entered) {
        left = from_inside;
        entered = to_inside;
    }
    (left, entered)
}

/// Whether a name is one or more identifiers joined by dots.
pub(crate) fn is_name(name: &[u8]) -> bool
    ensures { IsTrue result ↔ All IsIdentifier (parts name.now) }
{
    let mut rest = name;
    while let Some((part, inside)) = enter(rest) {
        if !is_token(TokenKind::Identifier, part) {
            return false;
        }
        rest = inside;
    }
    is_token(TokenKind::Identifier, rest)
}
