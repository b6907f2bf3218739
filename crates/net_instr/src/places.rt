//! Nets that only copy another are read in its place, and not copied.

ghost use Rattle.std.specs.Prelude.{◌≡◌, ℕ, ◌<◌, ◌≤◌, ◌++◌, ◌∷◌, [], List, false, true, All, IsTrue, IfOk, OnOk, MatchOption, length, replicate, slice_index, slice_index_or, slice_set};
ghost use Rattle.net_instr.specs.declared.instr.Step.TheVariants.{Copy};
ghost use Rattle.net_instr.specs.declared.instr.Instr.TheVariants.{Do};
ghost use Rattle.net_instr.specs.Machine.{exec, IsInstr};
ghost use Rattle.net_instr.specs.InPlace.{place, through, moved, moved_instr, most_left, IsFree, IsBehind, IsApart, ArePlaces, Follows, IsInPlace};

use crate::instr::{Instr, Step};
use net_design::vidi_bits::{Items, Memory};
use std::alloc::Global;

/// Code whose nets are read where their numbers come from.
#[derive(Drop)]
pub struct InPlace {
    pub settling: Items<Instr>,
    pub clocking: Items<Instr>,
    /// The slot at which each net is read.
    pub places: Items<u32>,
}

/// The slot at which a slot is read.
fn read_at(places: &[u32], a: u32) -> u32
    ensures { result ≡ place places.now a }
{
    let i = a as usize;
    if i < places.len() { places[i] } else { a }
}

/// A step that reads nets at their places.
fn step_at(places: &[u32], step: &Step) -> Step
    ensures { result ≡ moved places.now step.now }
{
    match step {
        Step::Number { number } => Step::Number { number: *number },
        Step::Copy { from } => Step::Copy {
            from: read_at(places, *from),
        },
        Step::Slice { from, low, width } => Step::Slice {
            from: read_at(places, *from),
            low: *low,
            width: *width,
        },
        Step::And { left, right } => Step::And {
            left: read_at(places, *left),
            right: read_at(places, *right),
        },
        Step::Or { left, right } => Step::Or {
            left: read_at(places, *left),
            right: read_at(places, *right),
        },
        Step::Xor { left, right } => Step::Xor {
            left: read_at(places, *left),
            right: read_at(places, *right),
        },
        Step::Add { left, right, width } => Step::Add {
            left: read_at(places, *left),
            right: read_at(places, *right),
            width: *width,
        },
        Step::Subtract { left, right, width } => Step::Subtract {
            left: read_at(places, *left),
            right: read_at(places, *right),
            width: *width,
        },
        Step::Less { left, right } => Step::Less {
            left: read_at(places, *left),
            right: read_at(places, *right),
        },
        Step::Equal { left, right } => Step::Equal {
            left: read_at(places, *left),
            right: read_at(places, *right),
        },
        Step::LogicalNot { from } => Step::LogicalNot {
            from: read_at(places, *from),
        },
        Step::Unary { op, from, width } => Step::Unary {
            op: *op,
            from: read_at(places, *from),
            width: *width,
        },
        Step::Binary {
            op,
            left,
            right,
            width,
        } => Step::Binary {
            op: *op,
            left: read_at(places, *left),
            right: read_at(places, *right),
            width: *width,
        },
        Step::Choose {
            test,
            chosen,
            other,
        } => Step::Choose {
            test: read_at(places, *test),
            chosen: read_at(places, *chosen),
            other: read_at(places, *other),
        },
        Step::Join {
            high,
            low,
            high_width,
            low_width,
        } => Step::Join {
            high: read_at(places, *high),
            low: read_at(places, *low),
            high_width: *high_width,
            low_width: *low_width,
        },
        Step::Repeat { count, part, width } => Step::Repeat {
            count: *count,
            part: read_at(places, *part),
            width: *width,
        },
        Step::Select { vector, at, width } => Step::Select {
            vector: read_at(places, *vector),
            at: read_at(places, *at),
            width: *width,
        },
        Step::Word {
            first,
            length,
            word,
        } => Step::Word {
            first: *first,
            length: *length,
            word: read_at(places, *word),
        },
    }
}

/// An instruction that reads nets at their places.
fn instr_at(places: &[u32], instr: &Instr) -> Instr
    ensures { result ≡ moved_instr places.now instr.now }
{
    match instr {
        Instr::Do { to, step } => Instr::Do {
            to: *to,
            step: step_at(places, step),
        },
        Instr::Put {
            to,
            low,
            width,
            from,
            rest,
        } => Instr::Put {
            to: *to,
            low: *low,
            width: *width,
            from: read_at(places, *from),
            rest: *rest,
        },
        Instr::PutFrom {
            to,
            low,
            size,
            at,
            width,
            from,
            rest,
        } => Instr::PutFrom {
            to: *to,
            low: *low,
            size: *size,
            at: read_at(places, *at),
            width: *width,
            from: read_at(places, *from),
            rest: *rest,
        },
        Instr::PutWord {
            first,
            length,
            word,
            low,
            width,
            from,
            rest,
        } => Instr::PutWord {
            first: *first,
            length: *length,
            word: read_at(places, *word),
            low: *low,
            width: *width,
            from: read_at(places, *from),
            rest: *rest,
        },
        Instr::PutWordFrom {
            first,
            length,
            word,
            size,
            at,
            width,
            from,
            rest,
        } => Instr::PutWordFrom {
            first: *first,
            length: *length,
            word: read_at(places, *word),
            size: *size,
            at: read_at(places, *at),
            width: *width,
            from: read_at(places, *from),
            rest: *rest,
        },
        Instr::SkipIfZero { test, count } => Instr::SkipIfZero {
            test: read_at(places, *test),
            count: *count,
        },
        Instr::Skip { count } => Instr::Skip { count: *count },
    }
}

/// The mark of a slot; past the last one all are marked.
pub fn is_marked(marks: &[bool], a: u32) -> bool
    ensures { result ≡ slice_index_or marks.now a true }
{
    let i = a as usize;
    if i < marks.len() { marks[i] } else { true }
}

/// Whether what is written to a slot is surely seen there alone.
fn is_free(places: &[u32], shared: &[bool], to: u32) -> bool
    requires { ArePlaces places.now shared.now }
    ensures { IsTrue result → IsFree places.now to }
{
    let i = to as usize;
    if i >= places.len() {
        return true;
    }
    places[i] == to && !is_marked(shared, to)
}

/// Whether no word that a step reads is among the nets.
pub fn is_behind(places: &[u32], step: &Step) -> bool
    ensures { IsTrue result → IsBehind places.now step.now }
{
    match step {
        Step::Word { first, .. } => *first as usize >= places.len(),
        _ => true,
    }
}

/// Whether an instruction may read nets at their places.
fn is_apart(places: &[u32], shared: &[bool], instr: &Instr) -> bool
    requires { ArePlaces places.now shared.now }
    ensures { IsTrue result → IsApart places.now instr.now }
{
    match instr {
        Instr::Do { to, step } => is_free(places, shared, *to) && is_behind(places, step),
        Instr::Put { to, .. } => is_free(places, shared, *to),
        Instr::PutFrom { to, .. } => is_free(places, shared, *to),
        Instr::PutWord { first, .. } => *first as usize >= places.len(),
        Instr::PutWordFrom { first, .. } => *first as usize >= places.len(),
        Instr::SkipIfZero { .. } => true,
        Instr::Skip { .. } => true,
    }
}

/// How many of the next instructions may be left out.
pub fn left_out(instr: &Instr) -> usize
    ensures { result ≡ most_left instr.now }
{
    match instr {
        Instr::SkipIfZero { count, .. } => *count as usize,
        Instr::Skip { count } => *count as usize,
        _ => 0,
    }
}

/// The net that an instruction makes a copy, and the one that it copies.
fn nets_of_copy(instr: &Instr, nets: usize) -> Option<(u32, u32)>
    ensures { MatchOption result (Unit {0}) (λ c. (instr.now ≡ Do c.0 (Copy c.1)) × (c.0 < nets) × (c.1 < nets)) }
{
    match instr {
        Instr::Do {
            to,
            step: Step::Copy { from },
        } => {
            if (*to as usize) < nets && (*from as usize) < nets {
                Some((*to, *from))
            } else {
                None
            }
        }
        _ => None,
    }
}

/// Marks a slot.
pub fn mark(marks: &mut Items<bool>, a: u32)
    ensures { marks.new ≡ slice_set marks.old a true }
{
    let i = a as usize;
    if i < marks.len() {
        marks.set(i, true);
    }
}

/// From now on net `to` is read where net `from` is.
#[tactic(auto, using(crate::proofs::InPlaceLaws::places_copy))]
fn read_copy(places: &mut Items<u32>, shared: &mut Items<bool>, to: u32, from: u32)
    requires places { ArePlaces places.old shared.old }
    requires to { to < length places.old }
    requires from { from < length places.old }
    ensures places { places.new ≡ slice_set places.old to (place places.old from) }
    ensures are_places { ArePlaces places.new shared.new }
{
    let place = read_at(places.as_slice(), from);
    places.set(to as usize, place);
    mark(shared, place);
}

/// Leaves out an instruction that copies a net, which is read in place then; answers whether it is one.
fn take_copy(places: &mut Items<u32>, shared: &mut Items<bool>, instr: &Instr) -> bool
    requires { ArePlaces places.old shared.old }
    ensures are_places { ArePlaces places.new shared.new }
    ensures long { length places.new ≡ length places.old }
    ensures kept { (result ≡ false) → places.new ≡ places.old }
    ensures taken { IsTrue result → (first : List ℕ) (code out : List Instr) → Follows first places.old 0 code out
        → Follows first places.new 0 (code ++ instr.now ∷ []) out }
{
    match nets_of_copy(instr, places.len()) {
        Some((to, from)) => {
            read_copy(places, shared, to, from);
            true
        }
        None => false,
    }
}

/// Adds an instruction that reads nets at their places, where it may; answers how many of the next ones may be left out.
fn push_apart(
    out: &mut Items<Instr>,
    places: &[u32],
    shared: &[bool],
    left: usize,
    instr: &Instr,
) -> Result<Option<usize>, Memory>
    requires { ArePlaces places.now shared.now }
    ensures safe { OnOk result (All (λ i. IsInstr i) out.old → IsInstr instr.now → All (λ i. IsInstr i) out.new) }
    ensures follows { IfOk result (λ r. MatchOption r (Unit {0}) (λ next. (first : List ℕ) (code : List Instr)
        → Follows first places.now left code out.old → Follows first places.now next (code ++ instr.now ∷ []) out.new)) }
{
    if !is_apart(places, shared, instr) {
        return Ok(None);
    }
    out.push(instr_at(places, instr))?;
    Ok(Some(left.saturating_sub(1).max(left_out(instr))))
}

/// The same, unless the instruction copies a net, which is read in place then.
fn push_or_take(
    out: &mut Items<Instr>,
    places: &mut Items<u32>,
    shared: &mut Items<bool>,
    left: usize,
    instr: &Instr,
) -> Result<Option<usize>, Memory>
    requires { ArePlaces places.old shared.old }
    ensures are_places { ArePlaces places.new shared.new }
    ensures long { length places.new ≡ length places.old }
    ensures safe { OnOk result (All (λ i. IsInstr i) out.old → IsInstr instr.now → All (λ i. IsInstr i) out.new) }
    ensures follows { IfOk result (λ r. MatchOption r (Unit {0}) (λ next. (first : List ℕ) (code : List Instr)
        → Follows first places.old left code out.old → Follows first places.new next (code ++ instr.now ∷ []) out.new)) }
{
    if left > 0 {
        return push_apart(out, places.as_slice(), shared.as_slice(), left, instr);
    }
    if take_copy(places, shared, instr) {
        return Ok(Some(0));
    }
    push_apart(out, places.as_slice(), shared.as_slice(), left, instr)
}

/// Code without the copies of nets, which are read in place; None where that can't be told to be the same.
fn settles_in_place(
    alloc: Global,
    code: &[Instr],
    places: &mut Items<u32>,
    shared: &mut Items<bool>,
) -> Result<Option<Items<Instr>>, Memory>
    requires places { ArePlaces places.old shared.old }
    requires safe { All (λ i. IsInstr i) code.now }
    ensures are_places { ArePlaces places.new shared.new }
    ensures long { length places.new ≡ length places.old }
    ensures safe { IfOk result (λ made. MatchOption made (Unit {0}) (λ out. All (λ i. IsInstr i) out)) }
    ensures same { IfOk result (λ made. MatchOption made (Unit {0}) (λ out. (s : List ℕ) → length places.old ≤ length s
        → through places.new (exec out 0 s) ≡ exec code.now 0 (through places.old s))) }
{
    let mut out = Items::new(alloc);
    let mut left = 0;
    for instr in code {
        match push_or_take(&mut out, places, shared, left, instr)? {
            Some(next) => left = next,
            None => return Ok(None),
        }
    }
    Ok(Some(out))
}

/// Code that reads nets at their places; None where that can't be told to be the same.
fn clocks_in_place(
    alloc: Global,
    code: &[Instr],
    places: &[u32],
    shared: &[bool],
) -> Result<Option<Items<Instr>>, Memory>
    requires places { ArePlaces places.now shared.now }
    requires safe { All (λ i. IsInstr i) code.now }
    ensures safe { IfOk result (λ made. MatchOption made (Unit {0}) (λ out. All (λ i. IsInstr i) out)) }
    ensures same { IfOk result (λ made. MatchOption made (Unit {0}) (λ out. (s : List ℕ) → length places.now ≤ length s
        → through places.now (exec out 0 s) ≡ exec code.now 0 (through places.now s))) }
{
    let mut out = Items::new(alloc);
    let mut left = 0;
    for instr in code {
        match push_apart(&mut out, places, shared, left, instr)? {
            Some(next) => left = next,
            None => return Ok(None),
        }
    }
    Ok(Some(out))
}

/// Each net read where it stands.
pub fn where_they_stand(alloc: Global, nets: u32) -> Result<Items<u32>, Memory>
    ensures { IfOk result (λ places. (length places ≡ nets) × ((i : ℕ) → i < nets → slice_index places i ≡ i)) }
{
    let mut places = Items::new(alloc);
    for net in 0..nets {
        places.push(net)?;
    }
    Ok(places)
}

/// A mark for each net, not set.
pub fn no_marks(alloc: Global, nets: u32) -> Result<Items<bool>, Memory>
    ensures { IfOk result (λ marks. marks ≡ replicate nets false) }
{
    let marks = Vec::from_elem(alloc, false, nets as usize)?;
    Ok(Items::from_vec(marks))
}

/// Code without the copies of nets among the first `nets` slots, and code that is clocked then: each such net is read where its
/// number comes from. The code as it is, where that can't be told to be the same.
pub fn in_place(
    alloc: Global,
    settling: Items<Instr>,
    clocking: Items<Instr>,
    nets: u32,
) -> Result<InPlace, Memory>
    requires settling { All (λ i. IsInstr i) settling }
    requires clocking { All (λ i. IsInstr i) clocking }
    ensures { IfOk result (λ made. IsInPlace nets settling clocking made.places made.settling made.clocking) }
{
    let mut places = where_they_stand(alloc, nets)?;
    let mut shared = no_marks(alloc, nets)?;
    let settles = settles_in_place(alloc, settling.as_slice(), &mut places, &mut shared)?;
    let clocks = clocks_in_place(
        alloc,
        clocking.as_slice(),
        places.as_slice(),
        shared.as_slice(),
    )?;
    if let (Some(settling), Some(clocking)) = (settles, clocks) {
        return Ok(InPlace {
            settling,
            clocking,
            places,
        });
    }
    let places = where_they_stand(alloc, nets)?;
    Ok(InPlace {
        settling,
        clocking,
        places,
    })
}
