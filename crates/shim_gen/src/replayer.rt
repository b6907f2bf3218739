//! The replayer of a channel.

ghost use Rattle.std.specs.Prelude.{◌≡◌, ◌<◌, ◌++◌, [], ◌∷◌, Some, IfOk, OnOk, map, length, codes, slice_get};
ghost use Rattle.shim_trees.specs.trace_model.declared.channel.Channel.{Channel as ChannelRecord};
ghost use Rattle.vlog_tree.specs.Plain.{plain_expr, plain_stmt, plain_port, plain_item, plain_module};
ghost use Rattle.vlog_tree.specs.Tree.{BeginStmt};
ghost use Rattle.shim_trees.specs.Pieces as pieces;
ghost use Rattle.shim_trees.specs.Replayer as spec;
ghost use Rattle.shim_gen.specs.Counting.{counted};

use crate::exprs::{net, pair};
use crate::items::{self, ItemRow, add_assign, add_at_clock, add_reg, next};
use crate::names::{Label, name_of};
use crate::ports::{self, INPUT, OUTPUT, PortRow};
use shim_trees::trace_model::{Channel, Channels, Dir};
use std::alloc::Global;
use vlog_copy::vidi_bits::{Items, Memory};
use vlog_tree::{BinaryOp, Expr, Item, Module, Operand, Ports, Stmts, Unary, begin};

/// The width in bits of a replayer's counters, and of what they are compared with.
pub(crate) const COUNTER_WIDTH: u32 = 32;

/// Adds the ports of the side that the replayer stands for: the sink's of an outward channel, else both, since the source's contents go
/// through it.
fn add_side(alloc: Global, ports: &mut Ports, dir: Dir, widths: &[u8]) -> Result<(), Memory>
    ensures { OnOk result (map plain_port ports.new ≡ map plain_port ports.old ++ spec.side_ports dir widths.now) }
{
    match dir {
        Dir::Inward => {
            let rows = [
                PortRow::Each(INPUT, Label::Plain("s"), widths),
                PortRow::One(OUTPUT, Label::Plain("kv")),
                PortRow::One(INPUT, Label::Plain("kr")),
                PortRow::Each(OUTPUT, Label::Plain("k"), widths),
            ];
            ports::add_rows(alloc, ports, &rows)
        }
        Dir::Outward => {
            let rows = [
                PortRow::One(INPUT, Label::Plain("sv")),
                PortRow::One(OUTPUT, Label::Plain("sr")),
            ];
            ports::add_rows(alloc, ports, &rows)
        }
    }
}

/// Adds the ports.
fn add_ports(
    alloc: Global,
    ports: &mut Ports,
    count: usize,
    dir: Dir,
    widths: &[u8],
) -> Result<(), Memory>
    ensures { OnOk result (map plain_port ports.new ≡ map plain_port ports.old ++ spec.replayer_ports count dir widths.now) }
{
    let rows = [
        PortRow::One(INPUT, Label::Plain("clk")),
        PortRow::One(INPUT, Label::Plain("more")),
        PortRow::Upto(INPUT, Label::Plain("n"), count, COUNTER_WIDTH),
        PortRow::Upto(INPUT, Label::Plain("d"), count, 1),
    ];
    ports::add_rows(alloc, ports, &rows)?;
    add_side(alloc, ports, dir, widths)?;
    ports::add_rows(alloc, ports, &[PortRow::One(OUTPUT, Label::Plain("pop"))])
}

/// `( c0 >= n0 )`, where 0 is `j`.
fn covers(alloc: Global, j: usize) -> Result<Expr, Memory>
    ensures { IfOk result (λ e. plain_expr e ≡ spec.covers j) }
{
    let counter = Label::Numbered("c", j);
    let need = Label::Numbered("n", j);
    let compared = pair(alloc, counter, BinaryOp::GreaterOrEqual, None, need)?;
    let inner = Box::new(alloc, compared)?;
    Ok(Expr::Unary(Unary {
        sign: None,
        prim: Operand::Paren { line: 0, inner },
    }))
}

/// `e & ( c0 >= n0 )`, where 0 is `j`.
fn with_cover(alloc: Global, e: Expr, j: usize) -> Result<Expr, Memory>
    ensures { IfOk result (λ more. plain_expr more ≡ pieces.both (plain_expr e) (spec.covers j)) }
{
    let e = Box::new(alloc, e)?;
    let covers = covers(alloc, j)?;
    let right = Box::new(alloc, covers)?;
    Ok(Expr::Binary {
        left: e,
        op: BinaryOp::And,
        right,
    })
}

/// `more & ( c0 >= n0 ) & ( c1 >= n1 ) ..`, over `count` counters.
fn covering(alloc: Global, count: usize) -> Result<Expr, Memory>
    ensures { IfOk result (λ e. plain_expr e ≡ spec.covering 0 count (pieces.net (codes "more"))) }
{
    let name = name_of(alloc, Label::Plain("more"))?;
    let mut covering = net(None, name);
    for j in 0..count {
        covering = with_cover(alloc, covering, j)?;
    }
    Ok(covering)
}

/// Adds the counters: `reg [ 31 : 0 ] c0 ; reg [ 31 : 0 ] c1 ; ..`
fn add_counters(alloc: Global, items: &mut Items<Item>, count: usize) -> Result<(), Memory>
    ensures { OnOk result (map plain_item items.new ≡ map plain_item items.old
        ++ pieces.upto (λ j. pieces.reg (pieces.numbered (codes "c") j) 32) 0 count) }
{
    for j in 0..count {
        add_reg(alloc, items, Label::Numbered("c", j), COUNTER_WIDTH)?;
    }
    Ok(())
}

/// Adds `c0 <= c0 + d0 ;`, where 0 is `j`.
fn add_count(alloc: Global, stmts: &mut Stmts, j: usize) -> Result<(), Memory>
    ensures { OnOk result (map plain_stmt stmts.new ≡ map plain_stmt stmts.old ++ counted j ∷ []) }
{
    let counter = Label::Numbered("c", j);
    let name = name_of(alloc, counter)?;
    let sum = pair(
        alloc,
        counter,
        BinaryOp::Plus,
        None,
        Label::Numbered("d", j),
    )?;
    stmts.push(next(name, sum))
}

/// Adds `c0 <= c0 + d0 ; c1 <= c1 + d1 ; ..`
fn add_counts(alloc: Global, stmts: &mut Stmts, count: usize) -> Result<(), Memory>
    ensures { OnOk result (map plain_stmt stmts.new ≡ map plain_stmt stmts.old ++ pieces.upto counted 0 count) }
{
    for j in 0..count {
        add_count(alloc, stmts, j)?;
    }
    Ok(())
}

/// Adds the block that counts.
fn add_counting(alloc: Global, items: &mut Items<Item>, count: usize) -> Result<(), Memory>
    ensures { OnOk result (map plain_item items.new
        ≡ map plain_item items.old ++ pieces.at_clock (BeginStmt (spec.counting 0 count)) ∷ []) }
{
    let mut stmts = Items::new(alloc);
    add_counts(alloc, &mut stmts, count)?;
    add_at_clock(alloc, items, begin(stmts))
}

/// Adds `assign name = more & ( c0 >= n0 ) & ..`.
fn add_offer(alloc: Global, items: &mut Items<Item>, name: &str, count: usize) -> Result<(), Memory>
    ensures { OnOk result (map plain_item items.new ≡ map plain_item items.old
        ++ pieces.assign name.now (spec.covering 0 count (pieces.net (codes "more"))) ∷ []) }
{
    let name = name_of(alloc, Label::Plain(name))?;
    let value = covering(alloc, count)?;
    add_assign(alloc, items, name, value)
}

/// Adds what the replayer shows: an inward channel's valid and contents, or an outward channel's ready; and completions.
fn add_shown(
    alloc: Global,
    items: &mut Items<Item>,
    count: usize,
    dir: Dir,
    widths: &[u8],
) -> Result<(), Memory>
    ensures { OnOk result (map plain_item items.new ≡ map plain_item items.old ++ spec.shown_items count dir widths.now) }
{
    match dir {
        Dir::Inward => {
            add_offer(alloc, items, "kv", count)?;
            let rows = [ItemRow::Gated(widths), ItemRow::Both("pop", "kv", "kr")];
            items::add_rows(alloc, items, &rows)
        }
        Dir::Outward => {
            add_offer(alloc, items, "sr", count)?;
            items::add_rows(alloc, items, &[ItemRow::Both("pop", "sv", "sr")])
        }
    }
}

/// Adds the items.
fn add_items(
    alloc: Global,
    items: &mut Items<Item>,
    count: usize,
    dir: Dir,
    widths: &[u8],
) -> Result<(), Memory>
    ensures { OnOk result (map plain_item items.new ≡ map plain_item items.old ++ spec.replayer_items count dir widths.now) }
{
    add_counters(alloc, items, count)?;
    add_shown(alloc, items, count, dir, widths)?;
    add_counting(alloc, items, count)
}

/// The replayer of channel n of `count`.
pub fn replayer_of(
    alloc: Global,
    count: usize,
    n: usize,
    channel: &Channel,
) -> Result<Module, Memory>
    ensures { IfOk result (λ tree. plain_module tree ≡ spec.replayer count n channel.now) }
{
    let widths = channel.widths.as_slice();
    let name = name_of(alloc, Label::Numbered("vidi_q_", n))?;
    let mut ports = Items::new(alloc);
    add_ports(alloc, &mut ports, count, channel.dir, widths)?;
    let mut items = Items::new(alloc);
    add_items(alloc, &mut items, count, channel.dir, widths)?;
    Ok(Module {
        name,
        parameters: Items::new(alloc),
        ports,
        items,
    })
}

/// The replayer of channel n (from 0) of these: the module `vidi_q_n`, which counts the completions of all channels, and offers the next
/// transaction of its own, or takes it, once they cover what that one waits for.
pub fn replayer_tree(alloc: Global, channels: &Channels, n: usize) -> Result<Module, Memory>
    requires { n < length channels.now }
    ensures { IfOk result (λ tree. (c : ChannelRecord) → slice_get channels.now n ≡ Some c
        → plain_module tree ≡ spec.replayer (length channels.now) n c) }
{
    let channel = &channels.as_slice()[n];
    replayer_of(alloc, channels.len(), n, channel)
}
