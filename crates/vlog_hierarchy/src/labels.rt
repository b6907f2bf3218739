//! Labels of modules: the same where modules contain each other, and never lower in a module than round it.
//!
//! They are found in one search, of which nothing is proved but that it ends: whoever uses the labels looks whether they fall.

ghost use Rattle.std.specs.Prelude.{◌≡◌, ◌≤◌, ◌<◌, ◌↔◌, ℕ, List, Some, IsTrue, IfOk, length};
ghost use Rattle.std.specs.List.{All, Any};
ghost use Rattle.vlog_hierarchy.specs.Plain.{plain_outlines};
ghost use Rattle.vlog_hierarchy.specs.Labels.{label_of, HoldsAbove, NeverFall, KeepsLabel};

use crate::outline::{Child, Outline};
use std::alloc::Global;
use vlog_size::vidi_bits::{Items, Memory};

/// A module on the way from where a search began.
#[derive(Clone, Copy)]
struct Step {
    place: usize,
    /// How many of its instances are looked at.
    looked: usize,
    /// Whether no module that it was come by is seen below it.
    is_first: bool,
}

/// A search for the modules that contain each other (Tarjan's algorithm, with one number a module).
#[derive(Drop)]
struct Search {
    /// Of each module 0 before it is come to; then the lowest number that is seen below it; then its label.
    labels: Items<usize>,
    way: Items<Step>,
    /// The modules that are left and contain one that is still on the way.
    waiting: Items<usize>,
    /// The module to begin at next.
    start: usize,
    /// How many modules are come to.
    count: usize,
    /// The next label. Labels go down, and stay above all numbers.
    label: usize,
}

/// A module's label, 0 past the last one.
fn label_at(labels: &[usize], place: usize) -> usize
    ensures { result ≡ label_of labels.now place }
{
    labels.get(place).copied().unwrap_or(0)
}

/// The place of the module of an instance.
fn child_place(outlines: &[Outline<'_>], place: usize, instance: usize) -> Option<usize> {
    let outline = outlines.get(place)?;
    let child = outline.children.get(instance)?;
    Some(child.place)
}

impl Search {
    fn label_at(&self, place: usize) -> usize {
        label_at(self.labels.as_slice(), place)
    }

    fn put(&mut self, place: usize, label: usize) {
        if place < self.labels.len() {
            self.labels.set(place, label);
        }
    }

    /// Comes to a module.
    fn enter(&mut self, place: usize) -> Result<(), Memory> {
        self.count = self.count.saturating_add(1);
        self.put(place, self.count);
        self.way.push(Step {
            place,
            looked: 0,
            is_first: true,
        })
    }

    /// Begins at the next module, unless it was come to.
    fn begin(&mut self) -> Result<(), Memory> {
        let place = self.start;
        if place < self.labels.len() {
            self.start = place + 1;
            if self.label_at(place) == 0 {
                return self.enter(place);
            }
        }
        Ok(())
    }

    /// Goes to a module in the last one on the way, or looks at it if it was come to.
    fn look(&mut self, step: Step, child: usize) -> Result<(), Memory> {
        let seen = self.label_at(child);
        if seen == 0 {
            self.way.push(step)?;
            return self.enter(child);
        }
        let is_lower = seen < self.label_at(step.place);
        if is_lower {
            self.put(step.place, seen);
        }
        self.way.push(Step {
            place: step.place,
            looked: step.looked.saturating_add(1),
            is_first: step.is_first && !is_lower,
        })
    }

    /// The last module that waits, if it was come to after this one.
    fn last_after(&self, place: usize) -> Option<usize> {
        let last = self.waiting.as_slice().last().copied()?;
        if self.label_at(last) >= self.label_at(place) {
            Some(last)
        } else {
            None
        }
    }

    /// Leaves a module: the first of its component labels one that waits in it, or itself at the end.
    fn leave(&mut self, step: Step) -> Result<(), Memory> {
        if !step.is_first {
            return self.waiting.push(step.place);
        }
        match self.last_after(step.place) {
            Some(last) => {
                self.waiting.pop();
                self.put(last, self.label);
                self.way.push(step)
            }
            None => {
                self.put(step.place, self.label);
                self.label = self.label.saturating_sub(1);
                Ok(())
            }
        }
    }

    /// One step. Nothing changes after the last one.
    fn advance(&mut self, outlines: &[Outline<'_>]) -> Result<(), Memory> {
        match self.way.pop() {
            Some(step) => match child_place(outlines, step.place, step.looked) {
                Some(child) => self.look(step, child),
                None => self.leave(step),
            },
            None => self.begin(),
        }
    }

    fn advance_by(&mut self, outlines: &[Outline<'_>], steps: usize) -> Result<(), Memory> {
        for _ in 0..steps {
            self.advance(outlines)?;
        }
        Ok(())
    }
}

/// A label for each module. A search takes at most four steps for each module and one for each instance: to begin there, to
/// come to it, to label it and to leave it, and to look at the instance.
fn labels_of(alloc: Global, outlines: &[Outline<'_>]) -> Result<Items<usize>, Memory> {
    let labels = Items::from_vec(vec![in alloc; 0usize; outlines.len()]?);
    let mut search = Search {
        labels,
        way: Items::new(alloc),
        waiting: Items::new(alloc),
        start: 0,
        count: 0,
        label: usize::MAX,
    };
    for outline in outlines {
        search.advance_by(outlines, outline.children.len().saturating_add(4))?;
    }
    let Search { labels, .. } = search;
    Ok(labels)
}

fn all_hold(labels: &[usize], children: &[Child<'_>], label: usize) -> bool
    ensures { IsTrue result ↔ All (λ c. label ≤ label_of labels.now c.place) children.now }
{
    children.iter().all(|c| label <= label_at(labels, c.place))
}

fn some_keeps(labels: &[usize], children: &[Child<'_>], label: usize) -> bool
    ensures { IsTrue result ↔ Any (λ c. label_of labels.now c.place ≡ label) children.now }
{
    children.iter().any(|c| label_at(labels, c.place) == label)
}

/// Whether no module in a module has a lower label.
fn holds_above(labels: &[usize], outlines: &[Outline<'_>], place: usize) -> bool
    requires within { place < length outlines.now }
    ensures { IsTrue result ↔ HoldsAbove (plain_outlines outlines.now) labels.now place }
{
    all_hold(
        labels,
        outlines[place].children.as_slice(),
        label_at(labels, place),
    )
}

/// Whether some module in a module has its label.
pub fn keeps_label(labels: &[usize], outlines: &[Outline<'_>], place: usize) -> bool
    requires within { place < length outlines.now }
    ensures { IsTrue result ↔ KeepsLabel (plain_outlines outlines.now) labels.now place }
{
    some_keeps(
        labels,
        outlines[place].children.as_slice(),
        label_at(labels, place),
    )
}

/// Whether labels never fall from a module to one in it.
fn never_fall(labels: &[usize], outlines: &[Outline<'_>]) -> bool
    ensures { IsTrue result ↔ NeverFall (plain_outlines outlines.now) labels.now }
{
    for place in 0..outlines.len() {
        if !holds_above(labels, outlines, place) {
            return false;
        }
    }
    true
}

/// Labels that never fall from a module to one in it; none where those of the search do.
pub fn labels(alloc: Global, outlines: &[Outline<'_>]) -> Result<Option<Items<usize>>, Memory>
    ensures { IfOk result (λ found. (labels : List ℕ) → found ≡ Some labels → NeverFall (plain_outlines outlines.now) labels) }
{
    let found = labels_of(alloc, outlines)?;
    if never_fall(found.as_slice(), outlines) {
        Ok(Some(found))
    } else {
        Ok(None)
    }
}
