//! Connections of shims' instances.

ghost use Rattle.std.specs.Prelude.{◌≡◌, ◌++◌, [], ◌∷◌, IfOk, OnOk, map, option_map};
ghost use Rattle.vlog_tree.specs.Plain.{plain_expr, plain_conn};
ghost use Rattle.shim_trees.specs.Pieces as pieces;
ghost use Rattle.shim_gen.specs.Rows as spec;

use crate::exprs::{ident, net};
use crate::names::{Label, name_of};
use std::alloc::Global;
use vlog_copy::vidi_bits::Memory;
use vlog_tree::{Conn, Conns, Expr};

/// Connections that stand beside each other: those of ports to nets, or to nothing.
#[derive(Clone, Copy)]
pub enum ConnRow<'a> {
    /// One.
    One(Label<'a>, Option<Label<'a>>),
    /// One for each of these widths, with both names numbered from 0.
    Each(Label<'a>, Option<Label<'a>>, &'a [u8]),
    /// So many, with both names numbered from 0.
    Upto(Label<'a>, Option<Label<'a>>, usize),
}

/// The net of a label, where there is one.
fn net_of(alloc: Global, label: Option<Label>) -> Result<Option<Expr>, Memory>
    ensures { IfOk result (λ e. option_map plain_expr e ≡ spec.joined label.entry) }
{
    match label {
        None => Ok(None),
        Some(label) => {
            let name = name_of(alloc, label)?;
            Ok(Some(net(None, name)))
        }
    }
}

/// Adds `. port ( label )`, or `. port ( )`.
pub fn add_conn(
    alloc: Global,
    conns: &mut Conns,
    port: Label,
    label: Option<Label>,
) -> Result<(), Memory>
    ensures { OnOk result (map plain_conn conns.new ≡ map plain_conn conns.old ++ spec.conn_of port.entry label.entry ∷ []) }
{
    let name = name_of(alloc, port)?;
    let value = net_of(alloc, label)?;
    conns.push(Conn {
        line: 0,
        id: ident(name),
        value,
    })
}

/// A label with one number more, where there is one.
fn label_at<'a>(label: Option<Label<'a>>, i: usize) -> Option<Label<'a>>
    ensures { spec.joined result ≡ spec.joined_at label.entry i }
{
    match label {
        None => None,
        Some(label) => Some(label.at(i)),
    }
}

/// Adds `count` connections.
fn add_upto(
    alloc: Global,
    conns: &mut Conns,
    port: Label,
    label: Option<Label>,
    count: usize,
) -> Result<(), Memory>
    ensures { OnOk result (map plain_conn conns.new ≡ map plain_conn conns.old
        ++ pieces.upto (λ j. spec.conn_at port.entry label.entry j) 0 count) }
{
    for i in 0..count {
        add_conn(alloc, conns, port.at(i), label_at(label, i))?;
    }
    Ok(())
}

/// Adds the connections of a row.
fn add_row(alloc: Global, conns: &mut Conns, row: ConnRow) -> Result<(), Memory>
    ensures { OnOk result (map plain_conn conns.new ≡ map plain_conn conns.old ++ spec.conns_of (row.entry ∷ [])) }
{
    match row {
        ConnRow::One(port, label) => add_conn(alloc, conns, port, label),
        ConnRow::Each(port, label, widths) => add_upto(alloc, conns, port, label, widths.len()),
        ConnRow::Upto(port, label, count) => add_upto(alloc, conns, port, label, count),
    }
}

/// Adds the connections of these rows.
pub fn add_rows(alloc: Global, conns: &mut Conns, rows: &[ConnRow]) -> Result<(), Memory>
    ensures { OnOk result (map plain_conn conns.new ≡ map plain_conn conns.old ++ spec.conns_of rows.now) }
{
    for row in rows {
        add_row(alloc, conns, *row)?;
    }
    Ok(())
}
