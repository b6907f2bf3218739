//! Which nets code needs: those that it may read before it surely writes them. All others may stand as they are before it runs.

ghost use Rattle.std.specs.Prelude.{◌≡◌, ℕ, ◌-◌, ◌^◌, ◌<◌, ◌++◌, ◌∷◌, [], max, true, All, IsTrue, IfOk, OnOk, length, slice_index, get_or, if◌then◌else◌};
ghost use Rattle.net_instr.specs.Needs.{reads, reads_of, with_read, with_reads, with_write, with_instr, with_code, set_places, HasWordsBehind, IsEnough};
ghost use Rattle.net_instr.specs.InPlace.{most_left};

use crate::instr::{Instr, Step};
use crate::places::{is_behind, is_marked, left_out, mark, no_marks, where_they_stand};
use net_design::vidi_bits::{Items, Memory};
use std::alloc::Global;

/// Marks on the nets, one for each.
#[derive(Drop)]
pub struct Marks {
    /// Those that may be read before they are surely written.
    read: Items<bool>,
    /// Those that are surely written.
    done: Items<bool>,
}

/// Marks a slot that is read.
fn mark_read(marks: &mut Marks, a: u32)
    ensures { marks.new ≡ with_read a marks.old }
{
    if !is_marked(marks.done.as_slice(), a) {
        mark(&mut marks.read, a);
    }
}

/// Marks two slots that are read.
fn mark_two(marks: &mut Marks, a: u32, b: u32)
    ensures { marks.new ≡ with_read b (with_read a marks.old) }
{
    mark_read(marks, a);
    mark_read(marks, b);
}

/// Marks three slots that are read.
fn mark_three(marks: &mut Marks, a: u32, b: u32, c: u32)
    ensures { marks.new ≡ with_read c (with_read b (with_read a marks.old)) }
{
    mark_two(marks, a, b);
    mark_read(marks, c);
}

/// Marks the slots that a step reads.
fn mark_step(marks: &mut Marks, step: &Step)
    ensures { marks.new ≡ with_reads (reads step.now) marks.old }
{
    match step {
        Step::Number { .. } => (),
        Step::Copy { from }
        | Step::Slice { from, .. }
        | Step::LogicalNot { from }
        | Step::Unary { from, .. }
        | Step::Repeat { part: from, .. }
        | Step::Word { word: from, .. } => mark_read(marks, *from),
        Step::And { left, right }
        | Step::Or { left, right }
        | Step::Xor { left, right }
        | Step::Add { left, right, .. }
        | Step::Subtract { left, right, .. }
        | Step::Less { left, right }
        | Step::Equal { left, right }
        | Step::Binary { left, right, .. }
        | Step::Join {
            high: left,
            low: right,
            ..
        }
        | Step::Select {
            vector: left,
            at: right,
            ..
        } => mark_two(marks, *left, *right),
        Step::Choose {
            test,
            chosen,
            other,
        } => mark_three(marks, *test, *chosen, *other),
    }
}

/// Marks the slots that an instruction reads.
fn mark_reads(marks: &mut Marks, instr: &Instr)
    ensures { marks.new ≡ with_reads (reads_of instr.now) marks.old }
{
    match instr {
        Instr::Do { step, .. } => mark_step(marks, step),
        Instr::Put { to, from, .. } => mark_two(marks, *to, *from),
        Instr::PutFrom { to, at, from, .. } => mark_three(marks, *to, *at, *from),
        Instr::PutWord { word, from, .. } => mark_two(marks, *word, *from),
        Instr::PutWordFrom { word, at, from, .. } => mark_three(marks, *word, *at, *from),
        Instr::SkipIfZero { test, .. } => mark_read(marks, *test),
        Instr::Skip { .. } => (),
    }
}

/// Marks the slot that an instruction surely writes, of which `left` may be left out.
fn mark_write(marks: &mut Marks, left: usize, instr: &Instr)
    ensures { marks.new ≡ with_write left instr.now marks.old }
{
    if left > 0 {
        return;
    }
    if let Instr::Do { to, .. } = instr {
        mark(&mut marks.done, *to);
    }
}

/// Marks what an instruction reads and writes; answers how many of the next ones may be left out.
fn mark_instr(marks: &mut Marks, left: usize, instr: &Instr) -> usize
    ensures marks { marks.new ≡ with_instr left instr.now marks.old }
    ensures next { result ≡ max (left - 1) (most_left instr.now) }
{
    mark_reads(marks, instr);
    mark_write(marks, left, instr);
    left.saturating_sub(1).max(left_out(instr))
}

/// Marks what code reads and writes.
fn mark_code(marks: &mut Marks, code: &[Instr])
    ensures { marks.new ≡ with_code code.now 0 marks.old }
{
    let mut left: usize = 0;
    for instr in code {
        left = mark_instr(marks, left, instr);
    }
}

/// Marks slots that are read in the end.
fn mark_all(marks: &mut Marks, slots: &[u32])
    ensures { marks.new ≡ with_reads slots.now marks.old }
{
    for slot in slots {
        mark_read(marks, *slot);
    }
}

/// Whether the words that an instruction names stand behind the nets.
fn has_words_behind(places: &[u32], instr: &Instr) -> bool
    ensures { IsTrue result → HasWordsBehind places.now instr.now }
{
    match instr {
        Instr::Do { step, .. } => is_behind(places, step),
        Instr::PutWord { first, .. } => *first as usize >= places.len(),
        Instr::PutWordFrom { first, .. } => *first as usize >= places.len(),
        _ => true,
    }
}

/// Whether all words that code names stand behind the nets.
fn have_words_behind(places: &[u32], code: &[Instr]) -> bool
    ensures { IsTrue result → All (λ i. HasWordsBehind places.now i) code.now }
{
    for instr in code {
        if !has_words_behind(places, instr) {
            return false;
        }
    }
    true
}

/// Adds a place where it is marked.
fn push_marked(nets: &mut Items<u32>, marks: &[bool], k: u32) -> Result<(), Memory>
    requires { k < length marks.now }
    ensures { OnOk result (nets.new ≡ nets.old ++ (if get_or marks.now k true then k ∷ [] else [])) }
{
    if marks[k as usize] {
        nets.push(k)?;
    }
    Ok(())
}

/// The places of marks that are set.
fn places_marked(alloc: Global, marks: &[bool], count: u32) -> Result<Items<u32>, Memory>
    requires { length marks.now ≡ count }
    ensures { IfOk result (λ nets. nets ≡ set_places 0 marks.now) }
{
    let mut nets = Items::new(alloc);
    for k in 0..count {
        push_marked(&mut nets, marks, k)?;
    }
    Ok(nets)
}

/// All nets: what code shows at the places depends on no others.
fn all_nets(alloc: Global, code: &[Instr], places: &[u32], nets: u32) -> Result<Items<u32>, Memory>
    requires { length places.now ≡ nets }
    ensures { IfOk result (λ list. IsEnough places.now code.now list) }
{
    let list = where_they_stand(alloc, nets)?;
    Ok(list)
}

/// The nets that code may read before it surely writes them, or that are seen at the places and not surely written.
fn nets_read(alloc: Global, code: &[Instr], places: &[u32], nets: u32) -> Result<Items<u32>, Memory>
    requires nets { length places.now ≡ nets }
    requires words { All (λ i. HasWordsBehind places.now i) code.now }
    ensures { IfOk result (λ list. IsEnough places.now code.now list) }
{
    let mut marks = Marks {
        read: no_marks(alloc, nets)?,
        done: no_marks(alloc, nets)?,
    };
    mark_code(&mut marks, code);
    mark_all(&mut marks, places);
    let list = places_marked(alloc, marks.read.as_slice(), nets)?;
    Ok(list)
}

/// The nets that code needs, where the first `nets` slots are read at `places`: what it shows there depends on these nets alone, and
/// on what stands behind the nets.
pub fn needed(
    alloc: Global,
    code: &[Instr],
    places: &[u32],
    nets: u32,
) -> Result<Items<u32>, Memory>
    requires { length places.now ≡ nets }
    ensures { IfOk result (λ list. IsEnough places.now code.now list) }
{
    if have_words_behind(places, code) {
        nets_read(alloc, code, places, nets)
    } else {
        all_nets(alloc, code, places, nets)
    }
}
