//! Items of shims.

ghost use Rattle.std.specs.Prelude.{◌≡◌, ◌++◌, [], ◌∷◌, IfOk, OnOk, map, codes};
ghost use Rattle.vlog_tree.specs.Plain.{plain_expr, plain_stmt, plain_conn, plain_item};
ghost use Rattle.vlog_tree.specs.Tree.{ChoiceExpr};
ghost use Rattle.shim_trees.specs.Pieces as pieces;
ghost use Rattle.shim_gen.specs.Labels.{text, text_at, signed};
ghost use Rattle.shim_gen.specs.Rows.{items_of};

use crate::exprs::{NOT, boxed_net, boxed_zero, ident, pair, range_of, target};
use crate::names::{Label, name_of};
use std::alloc::Global;
use vlog_copy::vidi_bits::{Items, Memory, Name};
use vlog_tree::{
    Always, Assign, AssignOp, BinaryOp, Body, Conns, Event, Expr, Instance, Item, Reg1, Sign, Stmt,
};

/// Items that stand beside each other.
#[derive(Clone, Copy)]
pub enum ItemRow<'a> {
    /// `wire label ;`
    Wire(Label<'a>),
    /// A wire for each of these widths, numbered from 0.
    Wires(Label<'a>, &'a [u8]),
    /// `reg name ;`
    Reg(&'a str),
    /// `assign name = left & right ;`
    Both(&'a str, &'a str, &'a str),
    /// `assign name = left & ~ right ;`
    Without(&'a str, &'a str, &'a str),
    /// `always @ ( posedge clk ) name <= left & ~ right ;`
    Next(&'a str, &'a str, &'a str),
    /// The assignments of gated contents of these widths.
    Gated(&'a [u8]),
}

/// The list of one element.
fn alone<T: Drop>(alloc: Global, x: T) -> Result<Items<T>, Memory>
    ensures { IfOk result (λ xs. xs ≡ x ∷ []) }
{
    let mut xs = Items::new(alloc);
    xs.push(x)?;
    Ok(xs)
}

/// Adds `wire label ;`, of `width` bits.
fn add_wire(alloc: Global, items: &mut Items<Item>, label: Label, width: u32) -> Result<(), Memory>
    ensures { OnOk result (map plain_item items.new ≡ map plain_item items.old ++ pieces.wire (text label.entry) width ∷ []) }
{
    let name = name_of(alloc, label)?;
    let names = alone(alloc, ident(name))?;
    let range = range_of(alloc, width)?;
    items.push(Item::Wires { range, names })
}

/// Adds `reg label ;`, of `width` bits.
pub fn add_reg(
    alloc: Global,
    items: &mut Items<Item>,
    label: Label,
    width: u32,
) -> Result<(), Memory>
    ensures { OnOk result (map plain_item items.new ≡ map plain_item items.old ++ pieces.reg (text label.entry) width ∷ []) }
{
    let name = name_of(alloc, label)?;
    let id = ident(name);
    let regs = alone(alloc, Reg1 { id, tail: None })?;
    let range = range_of(alloc, width)?;
    items.push(Item::Regs { range, regs })
}

/// Adds `assign name = value ;`.
pub fn add_assign(
    alloc: Global,
    items: &mut Items<Item>,
    name: Name,
    value: Expr,
) -> Result<(), Memory>
    ensures { OnOk result (map plain_item items.new ≡ map plain_item items.old ++ pieces.assign name (plain_expr value) ∷ []) }
{
    let target = target(name);
    let assigns = alone(alloc, Assign { target, value })?;
    items.push(Item::Assign { assigns })
}

/// Adds `assign name = left & right ;`, perhaps with an operator before the right net.
fn add_and(
    alloc: Global,
    items: &mut Items<Item>,
    name: &str,
    left: &str,
    sign: Option<Sign>,
    right: &str,
) -> Result<(), Memory>
    ensures { OnOk result (map plain_item items.new ≡ map plain_item items.old
        ++ pieces.assign name.now (pieces.both (pieces.net left.now) (signed sign right.now)) ∷ []) }
{
    let name = name_of(alloc, Label::Plain(name))?;
    let value = pair(
        alloc,
        Label::Plain(left),
        BinaryOp::And,
        sign,
        Label::Plain(right),
    )?;
    add_assign(alloc, items, name, value)
}

/// `name <= value ;`
pub fn next(name: Name, value: Expr) -> Stmt
    ensures { plain_stmt result ≡ pieces.next name (plain_expr value) }
{
    Stmt::Assign {
        target: target(name),
        op: AssignOp::Nonblocking,
        value,
    }
}

/// Adds `always @ ( posedge clk ) body`.
pub fn add_at_clock(alloc: Global, items: &mut Items<Item>, body: Stmt) -> Result<(), Memory>
    ensures { OnOk result (map plain_item items.new ≡ map plain_item items.old ++ pieces.at_clock (plain_stmt body) ∷ []) }
{
    let body = Box::new(alloc, body)?;
    let clock = name_of(alloc, Label::Plain("clk"))?;
    items.push(Item::Always(Always {
        line: 0,
        event: Event::Posedge(ident(clock)),
        body: Body::Stmt(body),
    }))
}

/// Adds `always @ ( posedge clk ) name <= left & ~ right ;`.
fn add_next(
    alloc: Global,
    items: &mut Items<Item>,
    name: &str,
    left: &str,
    right: &str,
) -> Result<(), Memory>
    ensures { OnOk result (map plain_item items.new ≡ map plain_item items.old
        ++ pieces.at_clock (pieces.next name.now (pieces.both (pieces.net left.now) (pieces.not_net right.now))) ∷ []) }
{
    let name = name_of(alloc, Label::Plain(name))?;
    let value = pair(
        alloc,
        Label::Plain(left),
        BinaryOp::And,
        NOT,
        Label::Plain(right),
    )?;
    add_at_clock(alloc, items, next(name, value))
}

/// Adds `kind name ( .. ) ;`.
pub fn add_instance(
    alloc: Global,
    items: &mut Items<Item>,
    kind: Name,
    name: Name,
    ports: Conns,
) -> Result<(), Memory>
    ensures { OnOk result (map plain_item items.new
        ≡ map plain_item items.old ++ pieces.instance kind name (map plain_conn ports) ∷ []) }
{
    items.push(Item::Instance(Instance {
        module_id: ident(kind),
        parameters: Items::new(alloc),
        id: ident(name),
        ports,
    }))
}

/// `kv ? s0 : W'd0`, where 0 is `i`.
fn gated(alloc: Global, i: usize, width: u32) -> Result<Expr, Memory>
    ensures { IfOk result (λ e. plain_expr e
        ≡ ChoiceExpr (pieces.net (codes "kv")) (pieces.net (pieces.numbered (codes "s") i)) (pieces.zero_of width)) }
{
    let condition = boxed_net(alloc, None, Label::Plain("kv"))?;
    let then_value = boxed_net(alloc, None, Label::Numbered("s", i))?;
    let else_value = boxed_zero(alloc, width)?;
    Ok(Expr::Choice {
        condition,
        then_value,
        else_value,
    })
}

/// Adds the assignment of a gated content.
fn add_gated(alloc: Global, items: &mut Items<Item>, i: usize, width: u32) -> Result<(), Memory>
    ensures { OnOk result (map plain_item items.new ≡ map plain_item items.old ++ pieces.gated_content i width ∷ []) }
{
    let name = name_of(alloc, Label::Numbered("k", i))?;
    let value = gated(alloc, i, width)?;
    add_assign(alloc, items, name, value)
}

/// Adds those of all contents.
fn add_all_gated(alloc: Global, items: &mut Items<Item>, widths: &[u8]) -> Result<(), Memory>
    ensures { OnOk result (map plain_item items.new ≡ map plain_item items.old ++ pieces.each pieces.gated_content 0 widths.now) }
{
    for (i, width) in widths.iter().enumerate() {
        add_gated(alloc, items, i, u32::from(*width))?;
    }
    Ok(())
}

/// Adds a wire for each of these widths.
fn add_wires(
    alloc: Global,
    items: &mut Items<Item>,
    label: Label,
    widths: &[u8],
) -> Result<(), Memory>
    ensures { OnOk result (map plain_item items.new ≡ map plain_item items.old
        ++ pieces.each (λ i w. pieces.wire (text_at label.entry i) w) 0 widths.now) }
{
    for (i, width) in widths.iter().enumerate() {
        add_wire(alloc, items, label.at(i), u32::from(*width))?;
    }
    Ok(())
}

/// Adds the items of a row.
fn add_row(alloc: Global, items: &mut Items<Item>, row: ItemRow) -> Result<(), Memory>
    ensures { OnOk result (map plain_item items.new ≡ map plain_item items.old ++ items_of (row.entry ∷ [])) }
{
    match row {
        ItemRow::Wire(label) => add_wire(alloc, items, label, 1),
        ItemRow::Wires(label, widths) => add_wires(alloc, items, label, widths),
        ItemRow::Reg(name) => add_reg(alloc, items, Label::Plain(name), 1),
        ItemRow::Both(name, left, right) => add_and(alloc, items, name, left, None, right),
        ItemRow::Without(name, left, right) => add_and(alloc, items, name, left, NOT, right),
        ItemRow::Next(name, left, right) => add_next(alloc, items, name, left, right),
        ItemRow::Gated(widths) => add_all_gated(alloc, items, widths),
    }
}

/// Adds the items of these rows.
pub fn add_rows(alloc: Global, items: &mut Items<Item>, rows: &[ItemRow]) -> Result<(), Memory>
    ensures { OnOk result (map plain_item items.new ≡ map plain_item items.old ++ items_of rows.now) }
{
    for row in rows {
        add_row(alloc, items, *row)?;
    }
    Ok(())
}
