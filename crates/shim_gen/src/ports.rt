//! Ports of shims.

ghost use Rattle.std.specs.Prelude.{◌≡◌, ◌++◌, [], ◌∷◌, OnOk, map};
ghost use Rattle.vlog_tree.specs.Plain.{plain_port};
ghost use Rattle.shim_trees.specs.Pieces as pieces;
ghost use Rattle.shim_gen.specs.Labels.{text, text_at};
ghost use Rattle.shim_gen.specs.Rows.{ports_of};

use crate::exprs::{ident, range_of};
use crate::names::{Label, name_of};
use shim_trees::trace_model::Dir;
use std::alloc::Global;
use vlog_copy::vidi_bits::Memory;
use vlog_tree::{Direction, Port, PortHead, Ports};

/// `input`
pub const INPUT: Direction = Direction::Input { wire: false };

/// `output`
pub const OUTPUT: Direction = Direction::Output { kind: None };

/// Ports that stand beside each other.
#[derive(Clone, Copy)]
pub enum PortRow<'a> {
    /// One of one bit.
    One(Direction, Label<'a>),
    /// One for each of these widths, numbered from 0.
    Each(Direction, Label<'a>, &'a [u8]),
    /// So many of this width, numbered from 0.
    Upto(Direction, Label<'a>, usize, u32),
}

/// The direction, on a top, of a channel's valid and contents.
pub fn source_side(dir: Dir) -> Direction
    ensures { result ≡ pieces.source_side dir }
{
    match dir {
        Dir::Inward => INPUT,
        Dir::Outward => OUTPUT,
    }
}

/// The direction, on a top, of a channel's ready.
pub fn sink_side(dir: Dir) -> Direction
    ensures { result ≡ pieces.sink_side dir }
{
    match dir {
        Dir::Inward => OUTPUT,
        Dir::Outward => INPUT,
    }
}

/// Adds a port of `width` bits.
pub fn add_port(
    alloc: Global,
    ports: &mut Ports,
    direction: Direction,
    label: Label,
    width: u32,
) -> Result<(), Memory>
    ensures { OnOk result (map plain_port ports.new ≡ map plain_port ports.old ++ pieces.port direction (text label.entry) width ∷ []) }
{
    let name = name_of(alloc, label)?;
    let range = range_of(alloc, width)?;
    ports.push(Port {
        head: Some(PortHead { direction, range }),
        id: ident(name),
        init: None,
    })
}

/// Adds a port for each of these widths.
fn add_each(
    alloc: Global,
    ports: &mut Ports,
    direction: Direction,
    label: Label,
    widths: &[u8],
) -> Result<(), Memory>
    ensures { OnOk result (map plain_port ports.new ≡ map plain_port ports.old
        ++ pieces.each (λ i w. pieces.port direction (text_at label.entry i) w) 0 widths.now) }
{
    for (i, width) in widths.iter().enumerate() {
        add_port(alloc, ports, direction, label.at(i), u32::from(*width))?;
    }
    Ok(())
}

/// Adds `count` ports of `width` bits.
fn add_upto(
    alloc: Global,
    ports: &mut Ports,
    direction: Direction,
    label: Label,
    count: usize,
    width: u32,
) -> Result<(), Memory>
    ensures { OnOk result (map plain_port ports.new ≡ map plain_port ports.old
        ++ pieces.upto (λ j. pieces.port direction (text_at label.entry j) width) 0 count) }
{
    for j in 0..count {
        add_port(alloc, ports, direction, label.at(j), width)?;
    }
    Ok(())
}

/// Adds the ports of a row.
fn add_row(alloc: Global, ports: &mut Ports, row: PortRow) -> Result<(), Memory>
    ensures { OnOk result (map plain_port ports.new ≡ map plain_port ports.old ++ ports_of (row.entry ∷ [])) }
{
    match row {
        PortRow::One(direction, label) => add_port(alloc, ports, direction, label, 1),
        PortRow::Each(direction, label, widths) => add_each(alloc, ports, direction, label, widths),
        PortRow::Upto(direction, label, count, width) => {
            add_upto(alloc, ports, direction, label, count, width)
        }
    }
}

/// Adds the ports of these rows.
pub fn add_rows(alloc: Global, ports: &mut Ports, rows: &[PortRow]) -> Result<(), Memory>
    ensures { OnOk result (map plain_port ports.new ≡ map plain_port ports.old ++ ports_of rows.now) }
{
    for row in rows {
        add_row(alloc, ports, *row)?;
    }
    Ok(())
}
