//! The depth-first search for an order.

ghost use Rattle.std.specs.Prelude.{◌≡◌, ◌≢◌, ℕ, ◌+◌, ◌-◌, ◌<◌, ◌≤◌, [], OnOk, IfOk, IfErr, length, slice_index};
ghost use Rattle.net_design.specs.Names.{list_at};
ghost use Rattle.net_order.specs.declared.search.Mark.TheVariants.{Fresh, Open, Done};
ghost use Rattle.net_order.specs.Order.{IsOrderBy};
ghost use Rattle.net_order.specs.Graph.{IsGraph, Points};
ghost use Rattle.net_order.specs.Search.{mark_of, StayBegun};
ghost use Rattle.net_order.specs.Steps.{IsSearch, IsStep, IsLoopError};

use crate::answer::OrderError;
use crate::turn::turned;
use std::alloc::Global;
use vidi_bits::{Items, Memory, Numbers};

/// How far a driver is.
#[derive(Clone, Copy, PartialEq, Eq)]
pub enum Mark {
    /// Not begun.
    Fresh,
    /// On the path.
    Open,
    /// In the order.
    Done,
}

/// A search: for each driver how far it is, and how many of those that it reads weren't looked at yet; the drivers on the path,
/// each of which reads the next; and the order as far as it is found.
#[derive(Drop)]
pub struct Search {
    marks: Vec<Mark>,
    left: Vec<usize>,
    path: Vec<usize>,
    order: Numbers,
}

/// The numbers that driver `i` reads.
fn row(graph: &[Items<usize>], i: usize) -> &[usize]
    requires { i < length graph.now }
    ensures { result.now ≡ list_at graph.now i }
{
    graph[i].as_slice()
}

/// How many numbers each driver reads.
fn lengths(alloc: Global, graph: &[Items<usize>]) -> Result<Vec<usize>, Memory>
    ensures long { IfOk result (λ left. length left.items ≡ length graph.now) }
    ensures each { IfOk result (λ left. (i : ℕ) → slice_index left.items i ≡ length (list_at graph.now i)) }
{
    let mut left = Vec::new(alloc);
    for numbers in graph {
        left.push(numbers.len())?;
    }
    Ok(left)
}

impl Search {
    /// A search at its start.
    #[tactic(auto, using(crate::proofs::Ends::start_sound))]
    fn new(alloc: Global, graph: &[Items<usize>]) -> Result<Search, Memory>
        ensures sound { IfOk result (λ s. IsSearch graph.now s) }
        ensures path { IfOk result (λ s. s.path.items ≡ []) }
    {
        let marks = Vec::from_elem(alloc, Mark::Fresh, graph.len())?;
        let left = lengths(alloc, graph)?;
        Ok(Search {
            marks,
            left,
            path: Vec::new(alloc),
            order: Items::new(alloc),
        })
    }

    fn mark(&self, i: usize) -> Mark
        requires { i < length self.now.marks.items }
        ensures { result ≡ mark_of self.now.marks.items i }
    {
        self.marks[i]
    }

    /// Begins a driver: it goes on the path.
    fn open(&mut self, graph: &[Items<usize>], i: usize) -> Result<(), Memory>
        requires sound { IsSearch graph.now self.old }
        requires within { i < length graph.now }
        requires fresh { mark_of self.old.marks.items i ≡ Fresh }
        requires read { (t : ℕ) → t + 1 ≡ length self.old.path.items → Points graph.now (slice_index self.old.path.items t) i }
        ensures step { OnOk result (IsStep graph.now self.old self.new) }
        ensures begun { OnOk result (mark_of self.new.marks.items i ≢ Fresh) }
    {
        self.path.push(i)?;
        self.marks[i] = Mark::Open;
        Ok(())
    }

    /// Goes on past a driver that is read and done.
    fn look(&mut self, graph: &[Items<usize>], top: usize)
        requires sound { IsSearch graph.now self.old }
        requires within { top < length graph.now }
        requires some { 0 < slice_index self.old.left.items top }
        requires done { mark_of self.old.marks.items (slice_index (list_at graph.now top) (slice_index self.old.left.items top - 1))
            ≡ Done }
        ensures { IsStep graph.now self.old self.new }
    {
        self.left[top] -= 1;
    }

    /// Places the last driver of the path, all of whose reads are done, in the order.
    fn place(&mut self, graph: &[Items<usize>], top: usize) -> Result<(), Memory>
        requires sound { IsSearch graph.now self.old }
        requires some { 0 < length self.old.path.items }
        requires top { slice_index self.old.path.items (length self.old.path.items - 1) ≡ top }
        requires none { slice_index self.old.left.items top ≡ 0 }
        ensures { OnOk result (IsStep graph.now self.old self.new) }
    {
        self.order.push(top as u128)?;
        self.marks[top] = Mark::Done;
        self.path.pop();
        Ok(())
    }

    /// The last driver of the path.
    fn top(&self) -> usize
        requires { 0 < length self.now.path.items }
        ensures { result ≡ slice_index self.now.path.items (length self.now.path.items - 1) }
    {
        self.path[self.path.len() - 1]
    }

    /// The next number to look at of those that a driver reads.
    #[tactic(auto, using(crate::proofs::Moves::next_read))]
    fn next(&self, graph: &[Items<usize>], top: usize) -> usize
        requires sound { IsSearch graph.now self.now }
        requires graph { IsGraph graph.now }
        requires within { top < length graph.now }
        requires some { 0 < slice_index self.now.left.items top }
        ensures value { result ≡ slice_index (list_at graph.now top) (slice_index self.now.left.items top - 1) }
        ensures read { Points graph.now top result }
        ensures within { result < length graph.now }
    {
        row(graph, top)[self.left[top] - 1]
    }

    /// The loop that the last driver of the path closes by reading a driver of the path.
    fn close(
        &self,
        alloc: Global,
        graph: &[Items<usize>],
        next: usize,
    ) -> Result<OrderError, Memory>
        requires sound { IsSearch graph.now self.now }
        requires some { 0 < length self.now.path.items }
        requires read { Points graph.now (slice_index self.now.path.items (length self.now.path.items - 1)) next }
        requires opened { mark_of self.now.marks.items next ≡ Open }
        ensures { IfOk result (λ e. IsLoopError (Points graph.now) e) }
    {
        let drivers = turned(alloc, &self.path, next)?;
        Ok(OrderError::Loop { drivers })
    }

    /// One step at the last driver of the path.
    #[tactic(auto, using(crate::proofs::Moves::top_in))]
    fn step(&mut self, alloc: Global, graph: &[Items<usize>]) -> Result<(), OrderError>
        requires sound { IsSearch graph.now self.old }
        requires within { IsGraph graph.now }
        requires some { 0 < length self.old.path.items }
        ensures step { OnOk result (IsStep graph.now self.old self.new) }
        ensures no_order { IfErr result (λ e. IsLoopError (Points graph.now) e) }
    {
        let top = self.top();
        if self.left[top] == 0 {
            self.place(graph, top)?;
            return Ok(());
        }
        let next = self.next(graph, top);
        match self.mark(next) {
            Mark::Done => {
                self.look(graph, top);
                Ok(())
            }
            Mark::Fresh => {
                self.open(graph, next)?;
                Ok(())
            }
            Mark::Open => {
                let error = self.close(alloc, graph, next)?;
                Err(error)
            }
        }
    }

    /// Places a driver that isn't begun, and all that it needs.
    fn visit(
        &mut self,
        alloc: Global,
        graph: &[Items<usize>],
        root: usize,
    ) -> Result<(), OrderError>
        requires sound { IsSearch graph.now self.old }
        requires within { IsGraph graph.now }
        requires root { root < length graph.now }
        requires fresh { mark_of self.old.marks.items root ≡ Fresh }
        requires empty { self.old.path.items ≡ [] }
        ensures sound { OnOk result (IsSearch graph.now self.new) }
        ensures empty { OnOk result (self.new.path.items ≡ []) }
        ensures stay { OnOk result (StayBegun self.old.marks.items self.new.marks.items) }
        ensures begun { OnOk result (mark_of self.new.marks.items root ≢ Fresh) }
        ensures no_order { IfErr result (λ e. IsLoopError (Points graph.now) e) }
    {
        self.open(graph, root)?;
        'steps: while !self.path.is_empty() {
            self.step(alloc, graph)?;
        }
        Ok(())
    }

    /// Sees to it that a driver is begun.
    fn begin(
        &mut self,
        alloc: Global,
        graph: &[Items<usize>],
        root: usize,
    ) -> Result<(), OrderError>
        requires sound { IsSearch graph.now self.old }
        requires within { IsGraph graph.now }
        requires root { root < length graph.now }
        requires empty { self.old.path.items ≡ [] }
        ensures sound { OnOk result (IsSearch graph.now self.new) }
        ensures empty { OnOk result (self.new.path.items ≡ []) }
        ensures stay { OnOk result (StayBegun self.old.marks.items self.new.marks.items) }
        ensures begun { OnOk result (mark_of self.new.marks.items root ≢ Fresh) }
        ensures no_order { IfErr result (λ e. IsLoopError (Points graph.now) e) }
    {
        if self.mark(root) == Mark::Fresh {
            self.visit(alloc, graph, root)?;
        }
        Ok(())
    }
}

/// An order of the numbers of a graph, each after those that it reads; or a loop.
pub fn sorted(alloc: Global, graph: &[Items<usize>]) -> Result<Numbers, OrderError>
    requires { IsGraph graph.now }
    ensures order { IfOk result (λ order. IsOrderBy (length graph.now) (Points graph.now) order) }
    ensures no_order { IfErr result (λ e. IsLoopError (Points graph.now) e) }
{
    let mut search = Search::new(alloc, graph)?;
    for root in 0..graph.len() {
        search.begin(alloc, graph, root)?;
    }
    Ok(search.order)
}
