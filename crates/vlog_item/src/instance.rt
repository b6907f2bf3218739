//! The reader of instances.

ghost use Rattle.std.specs.Prelude.{ℕ, map, option_map};
ghost use Rattle.vlog_tree.specs.Tree.{ConnOf};
ghost use Rattle.vlog_tree.specs.Plain.{plain_ident, plain_expr, plain_conn, plain_item};
ghost use Rattle.vlog_stmt.specs.vlog_expr.Marks.{all_marked};
ghost use Rattle.vlog_stmt.specs.vlog_expr.Given.{Gives};
ghost use Rattle.vlog_item.specs.ItemReader.{value_at, conn_at, parameter_conns_front, conns_at, instance_at, named_item_at};

use std::alloc::Global;
use vlog_stmt::vlog_expr::{Parsed, after, expect, expr_of, name_of};
use vlog_stmt::vlog_lex::Token;
use vlog_stmt::{ListReader, some_of};
use vlog_tree::{Conn, Conns, Expr, Ident, Instance, Item, Terminal};

/// The expression that may stand before `)`, and `)`.
fn value_of(alloc: Global, tokens: &[Token], fuel: usize) -> Parsed<'_, Option<Expr>>
    ensures { Gives (λ x. (option_map plain_expr x.0, all_marked x.1.now)) result (value_at fuel (all_marked tokens.now)) }
{
    if let Some((_, rest)) = after(Terminal::ParenClose, tokens) {
        return Ok((None, rest));
    }
    let (value, rest) = expr_of(alloc, tokens, fuel)?;
    let value = Box::new(alloc, value)?;
    let (_, rest) = expect(Terminal::ParenClose, rest)?;
    Ok((Some(Box::into_inner(value)), rest))
}

/// The reader of a connection.
struct ConnReader;

impl ListReader<Conn> for ConnReader {
    ghost Plain = { ConnOf ℕ };

    ghost plain = { plain_conn };

    ghost one_at = { conn_at };

    fn read(alloc: Global, tokens: &[Token], fuel: usize) -> Parsed<'_, Conn> {
        let (line, rest) = expect(Terminal::Dot, tokens)?;
        let (id, rest) = name_of(alloc, rest)?;
        let (_, rest) = expect(Terminal::ParenOpen, rest)?;
        let (value, rest) = value_of(alloc, rest, fuel)?;
        Ok((Conn { line, id, value }, rest))
    }
}

/// The connections of parameters, where `#` stands at the front.
fn parameter_conns_front(alloc: Global, tokens: &[Token], fuel: usize) -> Parsed<'_, Conns>
    ensures { Gives (λ x. (map plain_conn x.0, all_marked x.1.now)) result (parameter_conns_front fuel (all_marked tokens.now)) }
{
    let Some((_, rest)) = after(Terminal::Hash, tokens) else {
        return Ok((Conns::new(alloc), tokens));
    };
    let (_, rest) = expect(Terminal::ParenOpen, rest)?;
    let (conns, rest) = some_of::<ConnReader, _>(alloc, rest, fuel)?;
    let (_, rest) = expect(Terminal::ParenClose, rest)?;
    Ok((conns, rest))
}

/// The connections of ports behind `(`, and `)`.
fn conns_of(alloc: Global, tokens: &[Token], fuel: usize) -> Parsed<'_, Conns>
    ensures { Gives (λ x. (map plain_conn x.0, all_marked x.1.now)) result (conns_at fuel (all_marked tokens.now)) }
{
    if let Some((_, rest)) = after(Terminal::ParenClose, tokens) {
        return Ok((Conns::new(alloc), rest));
    }
    let (conns, rest) = some_of::<ConnReader, _>(alloc, tokens, fuel)?;
    let (_, rest) = expect(Terminal::ParenClose, rest)?;
    Ok((conns, rest))
}

/// An instance, behind the name of its module.
fn instance_of(alloc: Global, module_id: Ident, tokens: &[Token], fuel: usize) -> Parsed<'_, Item>
    ensures { Gives (λ x. (plain_item x.0, all_marked x.1.now)) result (instance_at fuel (plain_ident module_id) (all_marked tokens.now)) }
{
    let (parameters, rest) = parameter_conns_front(alloc, tokens, fuel)?;
    let (id, rest) = name_of(alloc, rest)?;
    let (_, rest) = expect(Terminal::ParenOpen, rest)?;
    let (ports, rest) = conns_of(alloc, rest, fuel)?;
    let (_, rest) = expect(Terminal::Semicolon, rest)?;
    let instance = Instance {
        module_id,
        parameters,
        id,
        ports,
    };
    Ok((Item::Instance(instance), rest))
}

/// An item that begins with a name.
pub fn named_item_of(alloc: Global, tokens: &[Token], fuel: usize) -> Parsed<'_, Item>
    ensures { Gives (λ x. (plain_item x.0, all_marked x.1.now)) result (named_item_at fuel (all_marked tokens.now)) }
{
    let (module_id, rest) = name_of(alloc, tokens)?;
    instance_of(alloc, module_id, rest, fuel)
}
