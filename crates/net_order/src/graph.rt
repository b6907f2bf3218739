//! The graph of a design's drivers, from the masks of the bits that they read and write.

ghost use Rattle.std.specs.Prelude.{◌≡◌, ℕ, ◌==◌, ◌&&◌, ◌||◌, OnOk, IfOk, IfErr};
ghost use Rattle.net_design.specs.Lawful.{IsLawful};
ghost use Rattle.net_design.specs.Names.{list_at};
ghost use Rattle.net_order.specs.Order.{IsOrder, Reads};
ghost use Rattle.net_order.specs.Index.{meets, met, found, in_row, AreRows};
ghost use Rattle.net_order.specs.Reading.{IsGraphOf};
ghost use Rattle.net_order.specs.Steps.{IsLoopError};

use crate::answer::{Order, OrderError};
use crate::search::sorted;
use crate::writers::{Writer, writers_of};
use net_design::{Design, Driver, Mask};
use std::alloc::Global;
use vidi_bits::{Items, Memory, Numbers};

/// Adds a writer where it writes some of the bits.
#[tactic(auto, using(crate::proofs::RowLaws::row_more, crate::proofs::RowLaws::row_stays))]
fn add_met(row: &mut Items<usize>, bits: u128, writer: Writer) -> Result<(), Memory>
    ensures { OnOk result ((j : ℕ) → in_row row.new j ≡ (in_row row.old j || ((writer.driver == j) && meets bits writer.bits))) }
{
    if bits & writer.bits != 0 {
        row.push(writer.driver)?;
    }
    Ok(())
}

/// Adds the writers that write some of the bits.
fn add_all_met(row: &mut Items<usize>, bits: u128, writers: &[Writer]) -> Result<(), Memory>
    ensures { OnOk result ((j : ℕ) → in_row row.new j ≡ (in_row row.old j || met bits writers.now j)) }
{
    for writer in writers {
        add_met(row, bits, *writer)?;
    }
    Ok(())
}

/// Adds the writers of bits of a mask.
#[tactic(auto, using(crate::proofs::RowLaws::past_all))]
fn add_mask(row: &mut Items<usize>, mask: Mask, writers: &[Items<Writer>]) -> Result<(), Memory>
    ensures { OnOk result ((j : ℕ) → in_row row.new j ≡ (in_row row.old j || met mask.bits (list_at writers.now mask.net) j)) }
{
    if mask.net < writers.len() {
        add_all_met(row, mask.bits, writers[mask.net].as_slice())?;
    }
    Ok(())
}

/// Those that write bits that masks name.
fn row_of(alloc: Global, reads: &[Mask], writers: &[Items<Writer>]) -> Result<Items<usize>, Memory>
    ensures { IfOk result (λ row. (j : ℕ) → in_row row j ≡ found writers.now reads.now j) }
{
    let mut row = Items::new(alloc);
    for mask in reads {
        add_mask(&mut row, *mask, writers)?;
    }
    Ok(row)
}

/// A row for each driver.
fn rows_of(
    alloc: Global,
    drivers: &[Driver],
    writers: &[Items<Writer>],
) -> Result<Items<Items<usize>>, Memory>
    ensures { IfOk result (λ graph. AreRows writers.now drivers.now graph) }
{
    let mut graph = Items::new(alloc);
    for driver in drivers {
        let row = row_of(alloc, driver.code.reads.as_slice(), writers)?;
        graph.push(row)?;
    }
    Ok(graph)
}

/// Which drivers read bits of which.
fn graph_of(alloc: Global, design: &Design) -> Result<Items<Items<usize>>, Memory>
    requires { IsLawful design.now }
    ensures { IfOk result (λ graph. IsGraphOf design.now graph) }
{
    let writers = writers_of(alloc, design)?;
    let graph = rows_of(alloc, design.drivers.as_slice(), &writers)?;
    Ok(graph)
}

/// An order of the drivers that a graph is of, or a loop of them.
fn sorted_drivers(
    alloc: Global,
    design: &Design,
    graph: &[Items<usize>],
) -> Result<Numbers, OrderError>
    requires { IsGraphOf design.now graph.now }
    ensures order { IfOk result (λ order. IsOrder design.now order) }
    ensures no_order { IfErr result (λ e. IsLoopError (Reads design.now) e) }
{
    sorted(alloc, graph)
}

/// An order of a lawful design's drivers, each once and after those whose bits it reads; or a loop of them.
pub fn order(alloc: Global, design: &Design) -> Result<Order, OrderError>
    requires { IsLawful design.now }
    ensures order { IfOk result (λ order. IsOrder design.now order.drivers) }
    ensures no_order { IfErr result (λ e. IsLoopError (Reads design.now) e) }
{
    let graph = graph_of(alloc, design)?;
    let drivers = sorted_drivers(alloc, design, graph.as_slice())?;
    Ok(Order { drivers })
}
