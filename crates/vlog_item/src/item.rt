//! The reader of items.

ghost use Rattle.std.specs.Prelude.{◌≡◌, ℕ, option_map, Some};
ghost use Rattle.vlog_tree.specs.Tree.{IdentOf, NamedValueOf, Reg1Of, AssignOf};
ghost use Rattle.vlog_tree.specs.Plain.{plain_ident, plain_expr, plain_range, plain_named, plain_reg, plain_assign, plain_event};
ghost use Rattle.vlog_tree.specs.Plain.{plain_item};
ghost use Rattle.vlog_stmt.specs.vlog_expr.Marks.{all_marked, name_front};
ghost use Rattle.vlog_item.specs.ItemReader.{range_at, range_front, init_front, named_at, reg_at, assign_at, names_at, driven_at};
ghost use Rattle.vlog_item.specs.ItemReader.{wires_at};
ghost use Rattle.vlog_item.specs.ItemReader.{regs_at, assigns_at, event_at, always_at, item_at, tail_front, localparams_at};
ghost use Rattle.vlog_item.specs.ItemReader.{paren_event_at};
ghost use Rattle.vlog_item.specs.ItemReader.{other_item_at};
ghost use Rattle.vlog_tree.specs.Plain.{plain_tail};
ghost use Rattle.vlog_stmt.specs.vlog_expr.Given.{Gives};

use crate::instance::named_item_of;
use std::alloc::Global;
use vlog_stmt::vlog_expr::{Parsed, after, expect, expr_of, name_of, target_of};
use vlog_stmt::vlog_lex::Token;
use vlog_stmt::{ListReader, body_of, more_of, some_of};
use vlog_tree::{
    Always, Assign, Event, Expr, Ident, Idents, Item, MOST_NESTED, NamedValue, NamedValues, Range,
    Reg1, RegTail, Terminal,
};

/// The bounds behind `[`, and `]`.
fn range_of(alloc: Global, tokens: &[Token], fuel: usize) -> Parsed<'_, Box<Range>>
    ensures { Gives (λ x. (plain_range x.0.value, all_marked x.1.now)) result (range_at fuel (all_marked tokens.now)) }
{
    let (first, rest) = expr_of(alloc, tokens, fuel)?;
    let first = Box::new(alloc, first)?;
    let (_, rest) = expect(Terminal::Colon, rest)?;
    let (second, rest) = expr_of(alloc, rest, fuel)?;
    let first = Box::into_inner(first);
    let range = Box::new(alloc, Range { first, second })?;
    let (_, rest) = expect(Terminal::BracketClose, rest)?;
    Ok((range, rest))
}

/// The range, no longer on the heap.
pub fn unboxed(range: Option<Box<Range>>) -> Option<Range>
    ensures { option_map plain_range result ≡ option_map (λ b. plain_range b.value) range }
{
    Some(Box::into_inner(range?))
}

/// The range, where one stands at the front.
pub fn range_front(alloc: Global, tokens: &[Token], fuel: usize) -> Parsed<'_, Option<Box<Range>>>
    ensures { Gives (λ x. (option_map (λ b. plain_range b.value) x.0, all_marked x.1.now)) result
        (range_front fuel (all_marked tokens.now)) }
{
    let Some((_, rest)) = after(Terminal::BracketOpen, tokens) else {
        return Ok((None, tokens));
    };
    let (range, rest) = range_of(alloc, rest, fuel)?;
    Ok((Some(range), rest))
}

/// The value behind `=`, where that stands at the front.
pub fn init_front(alloc: Global, tokens: &[Token], fuel: usize) -> Parsed<'_, Option<Expr>>
    ensures { Gives (λ x. (option_map plain_expr x.0, all_marked x.1.now)) result (init_front fuel (all_marked tokens.now)) }
{
    let Some((_, rest)) = after(Terminal::Equals, tokens) else {
        return Ok((None, tokens));
    };
    let (value, rest) = expr_of(alloc, rest, fuel)?;
    Ok((Some(value), rest))
}

/// The reader of a name.
struct NameReader;

impl ListReader<Ident> for NameReader {
    ghost Plain = { IdentOf ℕ };

    ghost plain = { plain_ident };

    ghost one_at = { λ _ ws. name_front ws };

    fn read(alloc: Global, tokens: &[Token], _fuel: usize) -> Parsed<'_, Ident> {
        name_of(alloc, tokens)
    }
}

/// The reader of a name with its value.
struct NamedValueReader;

impl ListReader<NamedValue> for NamedValueReader {
    ghost Plain = { NamedValueOf ℕ };

    ghost plain = { plain_named };

    ghost one_at = { named_at };

    fn read(alloc: Global, tokens: &[Token], fuel: usize) -> Parsed<'_, NamedValue> {
        let (id, rest) = name_of(alloc, tokens)?;
        let (_, rest) = expect(Terminal::Equals, rest)?;
        let (value, rest) = expr_of(alloc, rest, fuel)?;
        Ok((NamedValue { id, value }, rest))
    }
}

/// The value or the memory's range behind the name of a register, where one stands at the front.
fn tail_front(alloc: Global, tokens: &[Token], fuel: usize) -> Parsed<'_, Option<RegTail>>
    ensures { Gives (λ x. (option_map plain_tail x.0, all_marked x.1.now)) result (tail_front fuel (all_marked tokens.now)) }
{
    if let Some((_, rest)) = after(Terminal::Equals, tokens) {
        let (value, rest) = expr_of(alloc, rest, fuel)?;
        return Ok((Some(RegTail::Init(value)), rest));
    }
    if let Some((_, rest)) = after(Terminal::BracketOpen, tokens) {
        let (range, rest) = range_of(alloc, rest, fuel)?;
        return Ok((Some(RegTail::Memory(Box::into_inner(range))), rest));
    }
    Ok((None, tokens))
}

/// The reader of a register.
struct RegReader;

impl ListReader<Reg1> for RegReader {
    ghost Plain = { Reg1Of ℕ };

    ghost plain = { plain_reg };

    ghost one_at = { reg_at };

    fn read(alloc: Global, tokens: &[Token], fuel: usize) -> Parsed<'_, Reg1> {
        let (id, rest) = name_of(alloc, tokens)?;
        let (tail, rest) = tail_front(alloc, rest, fuel)?;
        Ok((Reg1 { id, tail }, rest))
    }
}

/// The reader of an assignment.
struct AssignReader;

impl ListReader<Assign> for AssignReader {
    ghost Plain = { AssignOf ℕ };

    ghost plain = { plain_assign };

    ghost one_at = { assign_at };

    fn read(alloc: Global, tokens: &[Token], fuel: usize) -> Parsed<'_, Assign> {
        let (target, rest) = target_of(alloc, tokens, fuel)?;
        let (_, rest) = expect(Terminal::Equals, rest)?;
        let (value, rest) = expr_of(alloc, rest, fuel)?;
        Ok((Assign { target, value }, rest))
    }
}

/// Wires without values, behind the name of the first one.
fn names_of(
    alloc: Global,
    range: Option<Box<Range>>,
    id: Ident,
    tokens: &[Token],
    fuel: usize,
) -> Parsed<'_, Item>
    ensures { Gives (λ x. (plain_item x.0, all_marked x.1.now)) result
        (names_at fuel (option_map (λ b. plain_range b.value) range) (plain_ident id) (all_marked tokens.now)) }
{
    let mut front = Idents::new(alloc);
    front.push(id)?;
    let (names, rest) = more_of::<NameReader, _>(alloc, front, tokens, fuel)?;
    let (_, rest) = expect(Terminal::Semicolon, rest)?;
    let range = unboxed(range);
    Ok((Item::Wires { range, names }, rest))
}

/// Wires with their values, behind the name and the `=` of the first one.
fn driven_of(
    alloc: Global,
    range: Option<Box<Range>>,
    id: Ident,
    tokens: &[Token],
    fuel: usize,
) -> Parsed<'_, Item>
    ensures { Gives (λ x. (plain_item x.0, all_marked x.1.now)) result
        (driven_at fuel (option_map (λ b. plain_range b.value) range) (plain_ident id) (all_marked tokens.now)) }
{
    let (value, rest) = expr_of(alloc, tokens, fuel)?;
    let mut front = NamedValues::new(alloc);
    front.push(NamedValue { id, value })?;
    let (wires, rest) = more_of::<NamedValueReader, _>(alloc, front, rest, fuel)?;
    let (_, rest) = expect(Terminal::Semicolon, rest)?;
    let range = unboxed(range);
    Ok((Item::DrivenWires { range, wires }, rest))
}

/// What stands behind `wire`.
fn wires_of(alloc: Global, tokens: &[Token], fuel: usize) -> Parsed<'_, Item>
    ensures { Gives (λ x. (plain_item x.0, all_marked x.1.now)) result (wires_at fuel (all_marked tokens.now)) }
{
    let (range, rest) = range_front(alloc, tokens, fuel)?;
    let (id, rest) = name_of(alloc, rest)?;
    match after(Terminal::Equals, rest) {
        Some((_, rest)) => driven_of(alloc, range, id, rest, fuel),
        None => names_of(alloc, range, id, rest, fuel),
    }
}

/// What stands behind `reg`.
fn regs_of(alloc: Global, tokens: &[Token], fuel: usize) -> Parsed<'_, Item>
    ensures { Gives (λ x. (plain_item x.0, all_marked x.1.now)) result (regs_at fuel (all_marked tokens.now)) }
{
    let (range, rest) = range_front(alloc, tokens, fuel)?;
    let (regs, rest) = some_of::<RegReader, _>(alloc, rest, fuel)?;
    let (_, rest) = expect(Terminal::Semicolon, rest)?;
    let range = unboxed(range);
    Ok((Item::Regs { range, regs }, rest))
}

/// What stands behind `localparam`.
fn localparams_of(alloc: Global, tokens: &[Token], fuel: usize) -> Parsed<'_, Item>
    ensures { Gives (λ x. (plain_item x.0, all_marked x.1.now)) result (localparams_at fuel (all_marked tokens.now)) }
{
    let (range, rest) = range_front(alloc, tokens, fuel)?;
    let (parameters, rest) = some_of::<NamedValueReader, _>(alloc, rest, fuel)?;
    let (_, rest) = expect(Terminal::Semicolon, rest)?;
    let range = unboxed(range);
    Ok((Item::Localparams { range, parameters }, rest))
}

/// What stands behind `assign`.
fn assigns_of(alloc: Global, tokens: &[Token], fuel: usize) -> Parsed<'_, Item>
    ensures { Gives (λ x. (plain_item x.0, all_marked x.1.now)) result (assigns_at fuel (all_marked tokens.now)) }
{
    let (assigns, rest) = some_of::<AssignReader, _>(alloc, tokens, fuel)?;
    let (_, rest) = expect(Terminal::Semicolon, rest)?;
    Ok((Item::Assign { assigns }, rest))
}

/// What an `always` block waits for.
fn event_of(alloc: Global, tokens: &[Token]) -> Parsed<'_, Event>
    ensures { Gives (λ x. (plain_event x.0, all_marked x.1.now)) result (event_at (all_marked tokens.now)) }
{
    let (_, rest) = expect(Terminal::At, tokens)?;
    if let Some((_, rest)) = after(Terminal::Star, rest) {
        return Ok((Event::Implicit { parens: false }, rest));
    }
    let (_, rest) = expect(Terminal::ParenOpen, rest)?;
    paren_event_of(alloc, rest)
}

/// What an `always` block waits for, behind `(`, and `)`.
fn paren_event_of(alloc: Global, tokens: &[Token]) -> Parsed<'_, Event>
    ensures { Gives (λ x. (plain_event x.0, all_marked x.1.now)) result (paren_event_at (all_marked tokens.now)) }
{
    if let Some((_, rest)) = after(Terminal::Star, tokens) {
        let (_, rest) = expect(Terminal::ParenClose, rest)?;
        return Ok((Event::Implicit { parens: true }, rest));
    }
    let (_, rest) = expect(Terminal::Posedge, tokens)?;
    let (clock, rest) = name_of(alloc, rest)?;
    let (_, rest) = expect(Terminal::ParenClose, rest)?;
    Ok((Event::Posedge(clock), rest))
}

/// What stands behind `always`, whose line this is.
fn always_of(alloc: Global, line: u32, tokens: &[Token], fuel: usize) -> Parsed<'_, Item>
    ensures { Gives (λ x. (plain_item x.0, all_marked x.1.now)) result (always_at fuel line (all_marked tokens.now)) }
{
    let (event, rest) = event_of(alloc, tokens)?;
    let (body, rest) = body_of(alloc, rest, fuel, MOST_NESTED)?;
    Ok((Item::Always(Always { line, event, body }), rest))
}

/// An item of a module.
pub fn item_of(alloc: Global, tokens: &[Token], fuel: usize) -> Parsed<'_, Item>
    ensures { Gives (λ x. (plain_item x.0, all_marked x.1.now)) result (item_at fuel (all_marked tokens.now)) }
{
    if let Some((_, rest)) = after(Terminal::Wire, tokens) {
        return wires_of(alloc, rest, fuel);
    }
    if let Some((_, rest)) = after(Terminal::Reg, tokens) {
        return regs_of(alloc, rest, fuel);
    }
    other_item_of(alloc, tokens, fuel)
}

/// An item that declares no nets.
fn other_item_of(alloc: Global, tokens: &[Token], fuel: usize) -> Parsed<'_, Item>
    ensures { Gives (λ x. (plain_item x.0, all_marked x.1.now)) result (other_item_at fuel (all_marked tokens.now)) }
{
    if let Some((_, rest)) = after(Terminal::Localparam, tokens) {
        return localparams_of(alloc, rest, fuel);
    }
    if let Some((_, rest)) = after(Terminal::Assign, tokens) {
        return assigns_of(alloc, rest, fuel);
    }
    if let Some((line, rest)) = after(Terminal::Always, tokens) {
        return always_of(alloc, line, rest, fuel);
    }
    named_item_of(alloc, tokens, fuel)
}
