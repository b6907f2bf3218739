//! E11: modules that contain themselves.

ghost use Rattle.std.specs.Prelude.{◌≡◌, ◌<◌, ◌++◌, ◌↔◌, ℕ, Bool, true, not, List, map, Option, Some, None, IfOk, OnOk};
ghost use Rattle.std.specs.Prelude.{length, slice_set};
ghost use Rattle.vlog_size.specs.vidi_bits.Findings.{told_if};
ghost use Rattle.vlog_tree.specs.Plain.{plain};
ghost use Rattle.vlog_hierarchy.specs.Outlines.{outlines_of, place_of};
ghost use Rattle.vlog_hierarchy.specs.Plain.{plain_outlines};
ghost use Rattle.vlog_hierarchy.specs.Nested.{kids, Below, IsNested, IsFirstNested, IsNestedAnswer};
ghost use Rattle.vlog_hierarchy.specs.Reach.{child_places, is_marked, marked_all, fresh, AreBelow, IsClosed};
ghost use Rattle.vlog_hierarchy.specs.Labels.{NeverFall, IsOpen, IsFirstOpen};

use crate::flags::unmarked;
use crate::labels::{keeps_label, labels};
use crate::outline::{Child, Outline, outlines};
use crate::places::{index_of, place_named};
use std::alloc::Global;
use vlog_size::vidi_bits::{Items, Memory};
use vlog_tree::File;

/// The modules found below a module.
#[derive(Drop)]
struct Reached {
    /// For each module of the file whether it is found.
    marks: Items<bool>,
    /// The places of those that are found, each once.
    found: Items<usize>,
}

impl Reached {
    /// Whether a module is found.
    fn has(&self, place: usize) -> bool
        requires { place < length self.now.marks }
        ensures { result ≡ is_marked self.now.marks place }
    {
        self.marks.as_slice()[place]
    }

    /// Adds a module, unless it is found.
    fn add(&mut self, place: usize) -> Result<(), Memory>
        requires { place < length self.old.marks }
        ensures marks { OnOk result (self.new.marks ≡ slice_set self.old.marks place true) }
        ensures found { OnOk result (self.new.found ≡ self.old.found ++ told_if (not (is_marked self.old.marks place)) place) }
    {
        if !self.has(place) {
            self.found.push(place)?;
        }
        self.marks.set(place, true);
        Ok(())
    }

    /// Adds the modules of these instances.
    fn add_all(&mut self, children: &[Child<'_>]) -> Result<(), Memory>
        requires { AreBelow (length self.old.marks) (child_places children.now) }
        ensures marks { OnOk result (self.new.marks ≡ marked_all self.old.marks (child_places children.now)) }
        ensures found { OnOk result (self.new.found ≡ self.old.found ++ fresh self.old.marks (child_places children.now)) }
    {
        for child in children {
            self.add(child.place)?;
        }
        Ok(())
    }

    /// Adds the modules that are instantiated in a module.
    fn visit(&mut self, outlines: &[Outline<'_>], place: usize) -> Result<(), Memory>
        requires closed { IsClosed (plain_outlines outlines.now) }
        requires long { length self.old.marks ≡ length outlines.now }
        requires within { place < length outlines.now }
        ensures marks { OnOk result (self.new.marks ≡ marked_all self.old.marks (kids (plain_outlines outlines.now) place)) }
        ensures found { OnOk result (self.new.found ≡ self.old.found ++ fresh self.old.marks (kids (plain_outlines outlines.now) place)) }
    {
        self.add_all(outlines[place].children.as_slice())?;
        Ok(())
    }
}

/// The modules below a module.
#[tactic(auto, using(crate::proofs::Reaching::few_found))]
fn walk_from(alloc: Global, outlines: &[Outline<'_>], from: usize) -> Result<Reached, Memory>
    requires closed { IsClosed (plain_outlines outlines.now) }
    requires within { from < length outlines.now }
    ensures long { IfOk result (λ r. length r.marks ≡ length outlines.now) }
    ensures below { IfOk result (λ r. (k : ℕ) → (is_marked r.marks k ≡ true) ↔ Below (plain_outlines outlines.now) from k) }
{
    let marks = unmarked(alloc, outlines.len())?;
    let mut reached = Reached {
        marks,
        found: Items::new(alloc),
    };
    reached.visit(outlines, from)?;
    let mut next = 0;
    while next < reached.found.len() {
        let place = reached.found.as_slice()[next];
        reached.visit(outlines, place)?;
        next += 1;
    }
    Ok(reached)
}

/// Whether a module contains itself.
fn contains_itself(alloc: Global, outlines: &[Outline<'_>], place: usize) -> Result<bool, Memory>
    requires closed { IsClosed (plain_outlines outlines.now) }
    requires within { place < length outlines.now }
    ensures { IfOk result (λ b. (b ≡ true) ↔ Below (plain_outlines outlines.now) place place) }
{
    let reached = walk_from(alloc, outlines, place)?;
    Ok(reached.has(place))
}

/// Whether a module is at fault, where these are the ones below the top.
fn is_nested(
    alloc: Global,
    outlines: &[Outline<'_>],
    top: usize,
    below: &Reached,
    place: usize,
) -> Result<bool, Memory>
    requires closed { IsClosed (plain_outlines outlines.now) }
    requires within { place < length outlines.now }
    requires long { length below.now.marks ≡ length outlines.now }
    requires below { (k : ℕ) → (is_marked below.now.marks k ≡ true) ↔ Below (plain_outlines outlines.now) top k }
    ensures { IfOk result (λ b. (b ≡ true) ↔ IsNested (plain_outlines outlines.now) top place) }
{
    if place == top || below.has(place) {
        contains_itself(alloc, outlines, place)
    } else {
        Ok(false)
    }
}

/// The first module at fault, found by a walk from each.
fn first_by_walks(
    alloc: Global,
    outlines: &[Outline<'_>],
    top: usize,
    below: &Reached,
) -> Result<Option<usize>, Memory>
    requires closed { IsClosed (plain_outlines outlines.now) }
    requires long { length below.now.marks ≡ length outlines.now }
    requires below { (k : ℕ) → (is_marked below.now.marks k ≡ true) ↔ Below (plain_outlines outlines.now) top k }
    requires within { top < length outlines.now }
    ensures { IfOk result (IsFirstNested (plain_outlines outlines.now) top) }
{
    for place in 0..outlines.len() {
        if is_nested(alloc, outlines, top, below, place)? {
            return Ok(Some(place));
        }
    }
    Ok(None)
}

/// Whether labels leave a module open.
fn is_open(
    labels: &[usize],
    outlines: &[Outline<'_>],
    top: usize,
    below: &Reached,
    place: usize,
) -> bool
    requires within { place < length outlines.now }
    requires long { length below.now.marks ≡ length outlines.now }
    requires below { (k : ℕ) → (is_marked below.now.marks k ≡ true) ↔ Below (plain_outlines outlines.now) top k }
    ensures { (result ≡ true) ↔ IsOpen (plain_outlines outlines.now) labels.now top place }
{
    if below.has(place) || place == top {
        keeps_label(labels, outlines, place)
    } else {
        false
    }
}

/// The first module that labels leave open.
fn first_open(
    labels: &[usize],
    outlines: &[Outline<'_>],
    top: usize,
    below: &Reached,
) -> Option<usize>
    requires long { length below.now.marks ≡ length outlines.now }
    requires below { (k : ℕ) → (is_marked below.now.marks k ≡ true) ↔ Below (plain_outlines outlines.now) top k }
    requires within { top < length outlines.now }
    ensures { IsFirstOpen (plain_outlines outlines.now) labels.now top result }
{
    for place in 0..outlines.len() {
        if is_open(labels, outlines, top, below, place) {
            return Some(place);
        }
    }
    None
}

/// The first module at fault, shown by labels and a walk from it; `None` where they don't show it.
fn shown_by(
    alloc: Global,
    labels: &[usize],
    outlines: &[Outline<'_>],
    top: usize,
    below: &Reached,
) -> Result<Option<Option<usize>>, Memory>
    requires closed { IsClosed (plain_outlines outlines.now) }
    requires long { length below.now.marks ≡ length outlines.now }
    requires below { (k : ℕ) → (is_marked below.now.marks k ≡ true) ↔ Below (plain_outlines outlines.now) top k }
    requires within { top < length outlines.now }
    requires fall { NeverFall (plain_outlines outlines.now) labels.now }
    ensures { IfOk result (λ found. (answer : Option ℕ) → found ≡ Some answer → IsFirstNested (plain_outlines outlines.now) top answer) }
{
    match first_open(labels, outlines, top, below) {
        Some(place) => {
            if contains_itself(alloc, outlines, place)? {
                Ok(Some(Some(place)))
            } else {
                Ok(None)
            }
        }
        None => Ok(Some(None)),
    }
}

/// The first module at fault, by the labels of a search; `None` where they don't show it.
fn first_by_labels(
    alloc: Global,
    outlines: &[Outline<'_>],
    top: usize,
    below: &Reached,
) -> Result<Option<Option<usize>>, Memory>
    requires closed { IsClosed (plain_outlines outlines.now) }
    requires long { length below.now.marks ≡ length outlines.now }
    requires below { (k : ℕ) → (is_marked below.now.marks k ≡ true) ↔ Below (plain_outlines outlines.now) top k }
    requires within { top < length outlines.now }
    ensures { IfOk result (λ found. (answer : Option ℕ) → found ≡ Some answer → IsFirstNested (plain_outlines outlines.now) top answer) }
{
    match labels(alloc, outlines)? {
        Some(labels) => shown_by(alloc, labels.as_slice(), outlines, top, below),
        None => Ok(None),
    }
}

/// The first module at fault.
fn first_nested(
    alloc: Global,
    outlines: &[Outline<'_>],
    top: usize,
) -> Result<Option<usize>, Memory>
    requires closed { IsClosed (plain_outlines outlines.now) }
    requires within { top < length outlines.now }
    ensures { IfOk result (IsFirstNested (plain_outlines outlines.now) top) }
{
    let below = walk_from(alloc, outlines, top)?;
    match first_by_labels(alloc, outlines, top, &below)? {
        Some(answer) => Ok(answer),
        None => first_by_walks(alloc, outlines, top, &below),
    }
}

/// E11: the place in the file of the first module that is the top or instantiated below it and contains
/// itself, directly or through other modules. There is none where the top isn't declared (E4).
pub fn nested(alloc: Global, file: &File, top: &[u8]) -> Result<Option<usize>, Memory>
    ensures { IfOk result (IsNestedAnswer (outlines_of (plain file.now).modules) (place_of (plain file.now).modules top.now)) }
{
    let index = index_of(alloc, file.modules.as_slice())?;
    match place_named(&index, top) {
        Some(place) => {
            let outlines = outlines(alloc, &index)?;
            first_nested(alloc, outlines.as_slice(), place)
        }
        None => Ok(None),
    }
}
