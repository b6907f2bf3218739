//! The whole units of a design text.

ghost use Rattle.std.specs.Prelude.{◌≡◌, ◌↔◌, false, IsTrue, Some, IfOk, option_map};
ghost use Rattle.vlog_tree.specs.Plain.{plain_item};
ghost use Rattle.vlog_item.specs.vlog_expr.Marks.{all_marked};
ghost use Rattle.vlog_item.specs.vlog_expr.Given.{Gives};
ghost use Rattle.vlog_item.specs.ItemReader.{item_at};
ghost use Rattle.vlog_parse.specs.UnitReader.{whole_item, behind_header, behind_item, unit_at, behind_units};
ghost use Rattle.vlog_parse.specs.Units.{line_or, last_line, IsItemLine};

use crate::module::header_of;
use std::alloc::Global;
use vlog_item::item_of;
use vlog_item::vidi_bits::Memory;
use vlog_item::vlog_expr::{Parsed, Unread, after, fuel_for, lawful_len};
use vlog_item::vlog_lex::Token;
use vlog_tree::{Item, Terminal};

/// Whether no `else` follows the item, where it is an `always`.
fn is_whole(item: &Item, rest: &[Token]) -> bool
    ensures { IsTrue result ↔ (whole_item (plain_item item.now) (all_marked rest.now) ≡ Some tt) }
{
    match item {
        Item::Always(_) => after(Terminal::Else, rest).is_none(),
        Item::Wires { range: _, names: _ } => true,
        Item::DrivenWires { range: _, wires: _ } => true,
        Item::Regs { range: _, regs: _ } => true,
        Item::Localparams {
            range: _,
            parameters: _,
        } => true,
        Item::Assign { assigns: _ } => true,
        Item::Instance(_) => true,
    }
}

/// The tokens behind a module's header.
fn behind_header(alloc: Global, tokens: &[Token], fuel: usize) -> Result<&[Token], Unread>
    ensures { Gives (λ rest. all_marked rest.now) result (behind_header fuel (all_marked tokens.now)) }
{
    let (_, rest) = header_of(alloc, tokens, fuel)?;
    Ok(rest)
}

/// An item, on the heap.
fn boxed_item(alloc: Global, tokens: &[Token], fuel: usize) -> Parsed<'_, Box<Item>>
    ensures { Gives (λ x. (plain_item x.0.value, all_marked x.1.now)) result (item_at fuel (all_marked tokens.now)) }
{
    let (item, rest) = item_of(alloc, tokens, fuel)?;
    Ok((Box::new(alloc, item)?, rest))
}

/// The tokens behind a whole item.
fn behind_item(alloc: Global, tokens: &[Token], fuel: usize) -> Result<&[Token], Unread>
    ensures { Gives (λ rest. all_marked rest.now) result (behind_item fuel (all_marked tokens.now)) }
{
    let (item, rest) = boxed_item(alloc, tokens, fuel)?;
    if is_whole(&item, rest) {
        return Ok(rest);
    }
    Err(Unread::Fault)
}

/// A whole unit, in a module or not, and whether a module is open behind it.
#[tactic(auto, using(crate::proofs::UnitSteps::header_found, crate::proofs::UnitSteps::item_found))]
fn unit_of(alloc: Global, inside: bool, tokens: &[Token], fuel: usize) -> Parsed<'_, bool>
    ensures { Gives (λ x. (x.0, all_marked x.1.now)) result (unit_at fuel inside (all_marked tokens.now)) }
{
    if !inside {
        return Ok((true, behind_header(alloc, tokens, fuel)?));
    }
    if let Some((_, rest)) = after(Terminal::Endmodule, tokens) {
        return Ok((false, rest));
    }
    Ok((true, behind_item(alloc, tokens, fuel)?))
}

/// A whole unit at the front, where there is one.
fn unit_front(
    alloc: Global,
    inside: bool,
    tokens: &[Token],
    fuel: usize,
) -> Result<Option<(bool, &[Token])>, Memory>
    ensures { IfOk result (λ unit. option_map (λ x. (x.0, all_marked x.1.now)) unit ≡ unit_at fuel inside (all_marked tokens.now)) }
{
    match unit_of(alloc, inside, tokens, fuel) {
        Ok(unit) => Ok(Some(unit)),
        Err(Unread::Fault) => Ok(None),
        Err(Unread::Memory) => Err(Memory),
    }
}

/// The tokens behind the whole units at the front.
fn behind_units(alloc: Global, tokens: &[Token], fuel: usize) -> Result<&[Token], Memory>
    ensures { IfOk result (λ rest. all_marked rest.now ≡ behind_units fuel fuel false (all_marked tokens.now)) }
{
    let mut inside = false;
    let mut rest = tokens;
    let mut left = fuel;
    while left > 0 {
        left -= 1;
        match unit_front(alloc, inside, rest, fuel)? {
            Some((now_inside, behind)) => {
                inside = now_inside;
                rest = behind;
            }
            None => left = 0,
        }
    }
    Ok(rest)
}

/// The line of the first token, or else the other.
fn line_or(other: u32, tokens: &[Token]) -> u32
    ensures { result ≡ line_or other (all_marked tokens.now) }
{
    match tokens {
        [first, ..] => first.line,
        [] => other,
    }
}

/// The line of the last token, 1 if there is none.
fn last_line(tokens: &[Token]) -> u32
    ensures { result ≡ last_line (all_marked tokens.now) }
{
    line_or(1, &tokens[tokens.len().saturating_sub(1)..])
}

/// The line of the first token behind the longest list of whole units with which some file begins, or
/// where no token follows the last token's line, 1 if there is none.
pub fn item_line(alloc: Global, tokens: &[Token]) -> Result<u32, Memory>
    ensures { IfOk result (λ line. IsItemLine (all_marked tokens.now) line) }
{
    let lawful = &tokens[..lawful_len(tokens)];
    let rest = behind_units(alloc, lawful, fuel_for(lawful))?;
    let place = lawful.len().saturating_sub(rest.len());
    Ok(line_or(last_line(tokens), &tokens[place..]))
}
