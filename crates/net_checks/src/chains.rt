//! Orders of small graphs and of long chains, and loops.

ghost use Rattle.std.specs.Prelude.{◌<◌, ◌↔◌, IsTrue, All, length};
ghost use Rattle.net_sim.specs.net_order.Graph.{IsGraph};

use net_sim::net_order::{OrderError, sorted};
use net_sim::vidi_bits::Items;
use std::alloc::Global;

// Adds a number that reads these. Answers, as all that adds here, whether memory was found.
fn add_row(alloc: Global, graph: &mut Items<Items<usize>>, reads: &[usize]) -> bool {
    match Vec::from_slice(alloc, reads) {
        Ok(row) => graph.push(Items::from_vec(row)).is_ok(),
        Err(_) => false,
    }
}

fn add_rows(alloc: Global, graph: &mut Items<Items<usize>>, rows: &[&[usize]]) -> bool {
    let mut added = true;
    for reads in rows {
        added &= add_row(alloc, graph, reads);
    }
    added
}

// Each number reads the next one, and the last reads none.
fn add_chain(alloc: Global, graph: &mut Items<Items<usize>>, count: usize) -> bool {
    let mut added = true;
    for next in 1..count {
        added &= add_row(alloc, graph, &[next]);
    }
    added & add_row(alloc, graph, &[])
}

fn all_below(row: &[usize], limit: usize) -> bool
    ensures { IsTrue result ↔ All (λ j. j < limit) row.now }
{
    row.iter().all(|j| *j < limit)
}

fn rows_below(rows: &[Items<usize>], limit: usize) -> bool
    ensures { IsTrue result ↔ All (λ row. All (λ j. j < limit) row) rows.now }
{
    rows.iter().all(|row| all_below(row.as_slice(), limit))
}

fn is_graph(graph: &[Items<usize>]) -> bool
    ensures { IsTrue result → IsGraph graph.now }
{
    rows_below(graph, graph.len())
}

fn is_one_of(numbers: &[u128], wanted: &[&[u128]]) -> bool {
    wanted.iter().any(|one| numbers == *one)
}

// Whether a graph has one of these orders, or one of these loops.
fn answers(alloc: Global, graph: &[Items<usize>], ordered: bool, wanted: &[&[u128]]) -> bool {
    if !is_graph(graph) {
        return false;
    }
    match sorted(alloc, graph) {
        Ok(order) => ordered && is_one_of(order.as_slice(), wanted),
        Err(OrderError::Loop { drivers }) => !ordered && is_one_of(drivers.as_slice(), wanted),
        Err(OrderError::Memory) => false,
    }
}

fn row_answers(alloc: Global, rows: &[&[usize]], ordered: bool, wanted: &[&[u128]]) -> bool {
    let mut graph = Items::new(alloc);
    add_rows(alloc, &mut graph, rows) && answers(alloc, graph.as_slice(), ordered, wanted)
}

// What each number reads, whether there is an order, and the orders or the loops of which one is found. A loop begins with its least
// number, and each number in it reads the one before.
static GRAPHS: [(&[&[usize]], bool, &[&[u128]]); 4] = [
    (&[&[1], &[2], &[3], &[]], true, &[&[3, 2, 1, 0]]),
    (&[&[3], &[2], &[3], &[1]], false, &[&[1, 3, 2]]),
    (&[&[], &[], &[2], &[]], false, &[&[2]]),
    (&[&[1, 2], &[0, 0], &[0, 0]], false, &[&[0, 1], &[0, 2]]),
];

#[test]
fn small_graphs_have_orders_or_loops(rt: HostRuntime) {
    let mut right = true;
    for (rows, ordered, wanted) in &GRAPHS {
        right &= row_answers(rt.alloc(), rows, *ordered, wanted);
    }
    assert!(rt; right);
}

// Whether these are so many numbers, which count down to 0.
fn count_down(numbers: &[u128], count: usize) -> bool {
    let mut right = numbers.len() == count;
    for (below, number) in numbers.iter().rev().enumerate() {
        right &= *number == below as u128;
    }
    right
}

fn is_counted_down(alloc: Global, graph: &[Items<usize>], count: usize) -> bool {
    if !is_graph(graph) {
        return false;
    }
    match sorted(alloc, graph) {
        Ok(order) => count_down(order.as_slice(), count),
        Err(_) => false,
    }
}

fn is_chain_ordered(alloc: Global, count: usize) -> bool {
    let mut graph = Items::new(alloc);
    add_chain(alloc, &mut graph, count) && is_counted_down(alloc, graph.as_slice(), count)
}

#[test]
fn a_long_chain_in_reverse_order_is_ordered(rt: HostRuntime) {
    assert!(rt; is_chain_ordered(rt.alloc(), 65_536));
}
