//! Targets as code: the places that an assignment writes.

ghost use Rattle.std.specs.Prelude.{◌≡◌, ℕ, ◌+◌, ◌≤◌, ◌<◌, ◌^◌, ◌/◌, ◌&&◌, ◌||◌, ◌++◌, ◌∷◌};
ghost use Rattle.std.specs.Prelude.{Bool, false, nat_le, nat_lt, [], IfOk, OnOk, IfSome, Some};
ghost use Rattle.std.specs.List.{AllByRecursion};
ghost use Rattle.net_code.specs.Targets.{bit_count};
ghost use Rattle.vlog_size.specs.vidi_bits.Number.{IsWidth, truth};
ghost use Rattle.vlog_tree.specs.Tree.{RefTarget, Index, Last};
ghost use Rattle.vlog_tree.specs.Plain.{plain_expr, plain_target, plain_targets, plain_ref, plain_sel, plain_index, plain_last};
ghost use Rattle.vlog_tree.specs.declared.expr.Ref.{back-Ref-index, back-Ref-sel};
ghost use Rattle.vlog_size.specs.Size.{sizes_of_target, faults};
ghost use Rattle.net_design.specs.declared.values.Values.{Values};
ghost use Rattle.net_design.specs.declared.values.Target as design;
ghost use Rattle.net_design.specs.declared.values.Target.TheVariants as designs;
ghost use Rattle.net_design.specs.Value as code;
ghost use Rattle.net_design.specs.Updates as places;
ghost use Rattle.net_design.specs.Bits as bits;
ghost use Rattle.net_design.specs.Sized.{IsSizedRhs, IsSizedPlace, IsCountable};
ghost use Rattle.vlog_block.specs.declared.source.Source.TheVariants.{Memory as MemorySource};
ghost use Rattle.vlog_block.specs.Sources.{names_of, IsSource};
ghost use Rattle.vlog_block.specs.Fit.{IsFit, IsFitWith, IsFitRef, IsFitIndex, IsFitLast, IsFitSel, IsFitTarget, AreFitTargets};
ghost use Rattle.vlog_block.specs.Value.{width_of, picked, first_index, lowest, low_of, index_value};
ghost use Rattle.vlog_block.specs.Bits.{index_reads, last_reads, lone_reads, bits_from};
ghost use Rattle.vlog_block.specs.Targets.{target_width, targets_width, taken, lone_taken, lone_updates, vector_updates};
ghost use Rattle.vlog_block.specs.Targets.{source_updates, ref_updates, target_updates, targets_updates};
ghost use Rattle.vlog_block.specs.Written.{part_writes, part_adds, net_writes, net_adds, source_writes, source_adds};
ghost use Rattle.vlog_block.specs.Written.{places_read, target_reads, target_writes, target_adds, targets_read, targets_write};
ghost use Rattle.vlog_block.specs.Written.{targets_add};
ghost use Rattle.vlog_block.specs.Naming.{NamesNet, NamesRoom, place_name, place_names, lone_name, source_name};
ghost use Rattle.vlog_block.specs.Naming.{target_names, targets_names, target_count, targets_count};

use crate::bind::{Part, bound_index, bound_sel};
use crate::source::{Source, source_of};
use net_design::{Lhs, Place, Rhs, Room, Span};
use std::alloc::Global;
use std::boxed::Box;
use vlog_size::vidi_bits::{Items, Memory};
use vlog_size::{Scope, checked, target_facts, whole_view};
use vlog_tree::{Expr, Ref, Sel, Target, see_concat_target};

// ---- places

/// A place that takes bits of the value and writes none.
fn no_place(takes: u32) -> Place
    requires { IsWidth takes }
    ensures updates { (x : ℕ) (v : Values) → places.place_updates result x v ≡ [] }
    ensures width { places.place_width result ≡ takes }
    ensures reads { (m k : ℕ) → bits.place_reads result m k ≡ false }
    ensures writes { (m k : ℕ) → bits.place_writes result m k ≡ false }
    ensures adds { (m k : ℕ) → bits.place_adds result m k ≡ false }
    ensures name { place_name result ≡ NamesNet 0 }
    ensures sized { IsSizedPlace result }
{
    let span = Span {
        net: 0,
        low: 0,
        width: 0,
    };
    Place::Bits { span, takes }
}

/// The bits of a vector from a constant place on, as far as it has them: the lowest, and how many there are.
#[derive(Clone, Copy)]
struct Range {
    low: u32,
    width: u32,
}

/// At most `w` bits of a vector of `size` bits from `at` on.
fn range_from(size: u32, at: u128, w: u32) -> Range
    requires size { IsWidth size }
    requires width { IsWidth w }
    ensures updates { (to : design.Target) (x : ℕ) → places.bit_updates to result.low result.width x
        ≡ places.part_updates to 0 size at w x }
    ensures few { result.width ≤ w }
    ensures inside { result.low + result.width ≤ 128 }
    ensures bits { (b : Bool) (k : ℕ) → (b && (nat_le result.low k && nat_lt k (result.low + result.width)))
        ≡ ((b && (nat_le 0 k && nat_lt k (0 + size))) && (nat_le at k && nat_lt k (at + w))) }
{
    if at >= u128::from(size) {
        return Range { low: 0, width: 0 };
    }
    let low = at as u32;
    let width = w.min(size - low);
    Range { low, width }
}

/// A select of a net at a constant place.
fn fixed_bits(span: Span, at: u128, w: u32) -> Place
    requires net { IsWidth span.width × (span.low ≡ 0) }
    requires width { IsWidth w }
    ensures updates { (x : ℕ) (v : Values) → places.place_updates result x v
        ≡ places.part_updates (designs.Net span.net) 0 span.width at w x }
    ensures width { places.place_width result ≡ w }
    ensures reads { (m k : ℕ) → bits.place_reads result m k ≡ false }
    ensures writes { (m k : ℕ) → bits.place_writes result m k ≡ bits_from span at w m k }
    ensures adds { (m k : ℕ) → bits.place_adds result m k ≡ bits_from span at w m k }
    ensures name { place_name result ≡ NamesNet span.net }
    ensures sized { IsSizedPlace result }
{
    let range = range_from(span.width, at, w);
    let span = Span {
        net: span.net,
        low: range.low,
        width: range.width,
    };
    Place::Bits { span, takes: w }
}

/// A whole net.
fn whole_net(span: Span) -> Place
    requires net { IsWidth span.width × (span.low ≡ 0) }
    ensures updates { (x : ℕ) (v : Values) → places.place_updates result x v
        ≡ places.part_updates (designs.Net span.net) 0 span.width 0 span.width x }
    ensures width { places.place_width result ≡ span.width }
    ensures reads { (m k : ℕ) → bits.place_reads result m k ≡ false }
    ensures writes { (m k : ℕ) → bits.place_writes result m k ≡ bits.bits_of span m k }
    ensures adds { (m k : ℕ) → bits.place_adds result m k ≡ bits.bits_of span m k }
    ensures name { place_name result ≡ NamesNet span.net }
    ensures sized { IsSizedPlace result }
{
    Place::Bits {
        span,
        takes: span.width,
    }
}

/// A select of a net.
fn net_part(span: Span, part: Part) -> Place
    requires net { IsWidth span.width × (span.low ≡ 0) }
    requires width { IsWidth part.width }
    requires sized { IsSizedRhs part.low.code.value }
    requires constant { IfSome part.low.constant (λ n. ((v : Values) → code.value part.low.code.value v ≡ n)
        × ((m k : ℕ) → bits.reads part.low.code.value m k ≡ false)) }
    ensures updates { (x : ℕ) (v : Values) → places.place_updates result x v
        ≡ places.part_updates (designs.Net span.net) 0 span.width (code.value part.low.code.value v) part.width x }
    ensures width { places.place_width result ≡ part.width }
    ensures reads { (m k : ℕ) → bits.place_reads result m k ≡ bits.reads part.low.code.value m k }
    ensures writes { (m k : ℕ) → bits.place_writes result m k ≡ part_writes span part.low.constant part.width m k }
    ensures adds { (m k : ℕ) → bits.place_adds result m k ≡ part_adds span part.low.constant part.width m k }
    ensures name { place_name result ≡ NamesNet span.net }
    ensures sized { IsSizedPlace result }
{
    match part.low.constant {
        Some(n) => fixed_bits(span, n, part.width),
        None => Place::BitsFrom {
            whole: span,
            at: Box::into_inner(part.low.code),
            width: part.width,
        },
    }
}

// ---- words

/// A memory, and the index of one of its words, which have `size` bits.
#[derive(Drop)]
struct Word {
    room: Room,
    size: u32,
    index: Box<Rhs>,
}

/// A whole word.
fn whole_word(word: Word) -> Place
    requires size { IsWidth word.size }
    requires room { IsCountable (2 ^ 64) word.room 0 }
    requires index { IsSizedRhs word.index.value }
    ensures updates { (x : ℕ) (v : Values) → places.place_updates result x v
        ≡ places.word_updates word.room (code.value word.index.value v) (λ t. places.part_updates t 0 word.size 0 word.size x) }
    ensures width { places.place_width result ≡ word.size }
    ensures reads { (m k : ℕ) → bits.place_reads result m k ≡ bits.reads word.index.value m k }
    ensures writes { (m k : ℕ) → bits.place_writes result m k ≡ false }
    ensures adds { (m k : ℕ) → bits.place_adds result m k ≡ false }
    ensures name { place_name result ≡ NamesRoom word.room.first }
    ensures sized { IsSizedPlace result }
{
    Place::Word {
        room: word.room,
        word: Box::into_inner(word.index),
        low: 0,
        width: word.size,
        takes: word.size,
    }
}

/// A select of a word at a constant place.
fn fixed_word_bits(word: Word, at: u128, w: u32) -> Place
    requires size { IsWidth word.size }
    requires room { IsCountable (2 ^ 64) word.room 0 }
    requires index { IsSizedRhs word.index.value }
    requires width { IsWidth w }
    ensures updates { (x : ℕ) (v : Values) → places.place_updates result x v
        ≡ places.word_updates word.room (code.value word.index.value v) (λ t. places.part_updates t 0 word.size at w x) }
    ensures width { places.place_width result ≡ w }
    ensures reads { (m k : ℕ) → bits.place_reads result m k ≡ bits.reads word.index.value m k }
    ensures writes { (m k : ℕ) → bits.place_writes result m k ≡ false }
    ensures adds { (m k : ℕ) → bits.place_adds result m k ≡ false }
    ensures name { place_name result ≡ NamesRoom word.room.first }
    ensures sized { IsSizedPlace result }
{
    let range = range_from(word.size, at, w);
    Place::Word {
        room: word.room,
        word: Box::into_inner(word.index),
        low: range.low,
        width: range.width,
        takes: w,
    }
}

/// A select of a word.
fn word_part(word: Word, part: Part) -> Place
    requires size { IsWidth word.size }
    requires room { IsCountable (2 ^ 64) word.room 0 }
    requires index { IsSizedRhs word.index.value }
    requires width { IsWidth part.width }
    requires sized { IsSizedRhs part.low.code.value }
    requires constant { IfSome part.low.constant (λ n. ((v : Values) → code.value part.low.code.value v ≡ n)
        × ((m k : ℕ) → bits.reads part.low.code.value m k ≡ false)) }
    ensures updates { (x : ℕ) (v : Values) → places.place_updates result x v
        ≡ places.word_updates word.room (code.value word.index.value v)
        (λ t. places.part_updates t 0 word.size (code.value part.low.code.value v) part.width x) }
    ensures width { places.place_width result ≡ part.width }
    ensures reads { (m k : ℕ) → bits.place_reads result m k
        ≡ (bits.reads word.index.value m k || bits.reads part.low.code.value m k) }
    ensures writes { (m k : ℕ) → bits.place_writes result m k ≡ false }
    ensures adds { (m k : ℕ) → bits.place_adds result m k ≡ false }
    ensures name { place_name result ≡ NamesRoom word.room.first }
    ensures sized { IsSizedPlace result }
{
    match part.low.constant {
        Some(n) => fixed_word_bits(word, n, part.width),
        None => Place::WordFrom {
            room: word.room,
            word: Box::into_inner(word.index),
            size: word.size,
            at: Box::into_inner(part.low.code),
            width: part.width,
        },
    }
}

// ---- names with their brackets

/// A net, or a select of it.
fn net_place(alloc: Global, scope: &Scope, span: Span, name: &Ref) -> Result<Place, Memory>
    requires net { IsWidth span.width × (span.low ≡ 0) }
    requires last { IsFitLast (names_of scope.now) (plain_last (back-Ref-sel name.now.sel)) }
    ensures updates { IfOk result (λ p. (x : ℕ) (v : Values) → places.place_updates p x v
        ≡ vector_updates (names_of scope.now) span.width (plain_last (back-Ref-sel name.now.sel))
        (lowest (names_of scope.now) v (plain_last (back-Ref-sel name.now.sel))) x (designs.Net span.net)) }
    ensures width { IfOk result (λ p. places.place_width p
        ≡ picked (names_of scope.now) (plain_last (back-Ref-sel name.now.sel)) span.width) }
    ensures reads { IfOk result (λ p. (m k : ℕ) → bits.place_reads p m k
        ≡ last_reads (names_of scope.now) (plain_last (back-Ref-sel name.now.sel)) m k) }
    ensures writes { IfOk result (λ p. (m k : ℕ) → bits.place_writes p m k
        ≡ net_writes (names_of scope.now) span (plain_last (back-Ref-sel name.now.sel)) m k) }
    ensures adds { IfOk result (λ p. (m k : ℕ) → bits.place_adds p m k
        ≡ net_adds (names_of scope.now) span (plain_last (back-Ref-sel name.now.sel)) m k) }
    ensures name { IfOk result (λ p. place_name p ≡ NamesNet span.net) }
    ensures sized { IfOk result IsSizedPlace }
{
    match &name.sel {
        None => Ok(whole_net(span)),
        Some(sel) => {
            let part = bound_sel(alloc, scope, sel)?;
            Ok(net_part(span, part))
        }
    }
}

/// A word at an index.
fn word_at(
    alloc: Global,
    scope: &Scope,
    room: Room,
    size: u32,
    index: &Expr,
) -> Result<Word, Memory>
    requires width { IsWidth (width_of (names_of scope.now) (plain_expr index.now)) }
    requires fit { IsFit (names_of scope.now) (plain_expr index.now) }
    ensures value { IfOk result (λ w. (v : Values) → code.value w.index.value v
        ≡ index_value (names_of scope.now) v (plain_expr index.now)) }
    ensures reads { IfOk result (λ w. (m k : ℕ) → bits.reads w.index.value m k
        ≡ index_reads (names_of scope.now) (Index (plain_expr index.now)) m k) }
    ensures sized { IfOk result (λ w. IsSizedRhs w.index.value) }
    ensures same { IfOk result (λ w. (w.room ≡ room) × (w.size ≡ size)) }
{
    let at = bound_index(alloc, scope, index)?;
    Ok(Word {
        room,
        size,
        index: at.code,
    })
}

/// A select of a memory without the index of a word.
fn no_word(alloc: Global, scope: &Scope, sel: &Sel) -> Result<Place, Memory>
    requires { IsFitSel (names_of scope.now) (plain_sel sel.now) }
    ensures updates { IfOk result (λ p. (x : ℕ) (v : Values) → places.place_updates p x v ≡ []) }
    ensures width { IfOk result (λ p. places.place_width p ≡ picked (names_of scope.now) (Last (plain_sel sel.now)) 0) }
    ensures reads { IfOk result (λ p. (m k : ℕ) → bits.place_reads p m k ≡ false) }
    ensures writes { IfOk result (λ p. (m k : ℕ) → bits.place_writes p m k ≡ false) }
    ensures adds { IfOk result (λ p. (m k : ℕ) → bits.place_adds p m k ≡ false) }
    ensures name { IfOk result (λ p. place_name p ≡ NamesNet 0) }
    ensures sized { IfOk result IsSizedPlace }
{
    let part = bound_sel(alloc, scope, sel)?;
    Ok(no_place(part.width))
}

/// A memory's word whose index stands in a lone bracket.
fn lone_place(
    alloc: Global,
    scope: &Scope,
    room: Room,
    size: u32,
    sel: &Sel,
) -> Result<Place, Memory>
    requires size { IsWidth size }
    requires room { IsCountable (2 ^ 64) room 0 }
    requires fit { IsFitSel (names_of scope.now) (plain_sel sel.now) }
    ensures updates { IfOk result (λ p. (x : ℕ) (v : Values) → places.place_updates p x v
        ≡ lone_updates (names_of scope.now) room size (Last (plain_sel sel.now))
        (Some (low_of (names_of scope.now) v (plain_sel sel.now))) x) }
    ensures width { IfOk result (λ p. places.place_width p ≡ lone_taken (names_of scope.now) (Last (plain_sel sel.now)) size) }
    ensures reads { IfOk result (λ p. (m k : ℕ) → bits.place_reads p m k
        ≡ lone_reads (Last (plain_sel sel.now)) (last_reads (names_of scope.now) (Last (plain_sel sel.now)) m k)) }
    ensures writes { IfOk result (λ p. (m k : ℕ) → bits.place_writes p m k ≡ false) }
    ensures adds { IfOk result (λ p. (m k : ℕ) → bits.place_adds p m k ≡ false) }
    ensures name { IfOk result (λ p. place_name p ≡ lone_name room (Last (plain_sel sel.now))) }
    ensures sized { IfOk result IsSizedPlace }
{
    match sel {
        Sel::Index(i) => {
            let word = word_at(alloc, scope, room, size, i)?;
            Ok(whole_word(word))
        }
        Sel::Part { .. } | Sel::Indexed { .. } => no_word(alloc, scope, sel),
    }
}

/// A memory's word, or a select of it.
fn word_place(
    alloc: Global,
    scope: &Scope,
    room: Room,
    size: u32,
    name: &Ref,
) -> Result<Place, Memory>
    requires size { IsWidth size }
    requires room { IsCountable (2 ^ 64) room 0 }
    requires index { IsFitIndex (names_of scope.now) (plain_index (back-Ref-index name.now.index)) }
    requires last { IsFitLast (names_of scope.now) (plain_last (back-Ref-sel name.now.sel)) }
    ensures updates { IfOk result (λ p. (x : ℕ) (v : Values) → places.place_updates p x v
        ≡ source_updates (names_of scope.now) (MemorySource room size)
        (first_index (names_of scope.now) v (plain_index (back-Ref-index name.now.index)))
        (plain_last (back-Ref-sel name.now.sel)) (lowest (names_of scope.now) v (plain_last (back-Ref-sel name.now.sel))) x) }
    ensures width { IfOk result (λ p. places.place_width p ≡ taken (names_of scope.now) (MemorySource room size)
        (plain_index (back-Ref-index name.now.index)) (plain_last (back-Ref-sel name.now.sel))) }
    ensures reads { IfOk result (λ p. (m k : ℕ) → bits.place_reads p m k ≡ places_read (MemorySource room size)
        (plain_index (back-Ref-index name.now.index)) (plain_last (back-Ref-sel name.now.sel))
        (index_reads (names_of scope.now) (plain_index (back-Ref-index name.now.index)) m k)
        (last_reads (names_of scope.now) (plain_last (back-Ref-sel name.now.sel)) m k)) }
    ensures writes { IfOk result (λ p. (m k : ℕ) → bits.place_writes p m k ≡ false) }
    ensures adds { IfOk result (λ p. (m k : ℕ) → bits.place_adds p m k ≡ false) }
    ensures name { IfOk result (λ p. place_name p ≡ source_name (MemorySource room size)
        (plain_index (back-Ref-index name.now.index)) (plain_last (back-Ref-sel name.now.sel))) }
    ensures sized { IfOk result IsSizedPlace }
{
    match (&name.index, &name.sel) {
        (Some(index), None) => {
            let word = word_at(alloc, scope, room, size, index)?;
            Ok(whole_word(word))
        }
        (Some(index), Some(sel)) => {
            let word = word_at(alloc, scope, room, size, index)?;
            let part = bound_sel(alloc, scope, sel)?;
            Ok(word_part(word, part))
        }
        (None, Some(sel)) => {
            let place = lone_place(alloc, scope, room, size, sel)?;
            Ok(place)
        }
        (None, None) => Ok(no_place(size)),
    }
}

/// What a name stands for, with the name's brackets. It takes `takes` bits.
fn source_place(
    alloc: Global,
    scope: &Scope,
    source: Source,
    name: &Ref,
    takes: u32,
) -> Result<Place, Memory>
    requires countable { IsSource source }
    requires takes { IsWidth takes }
    requires width { takes ≡ taken (names_of scope.now) source (plain_index (back-Ref-index name.now.index))
        (plain_last (back-Ref-sel name.now.sel)) }
    requires fit { IsFitWith source (IsFitIndex (names_of scope.now) (plain_index (back-Ref-index name.now.index))
        × IsFitLast (names_of scope.now) (plain_last (back-Ref-sel name.now.sel))) }
    ensures updates { IfOk result (λ p. (x : ℕ) (v : Values) → places.place_updates p x v
        ≡ source_updates (names_of scope.now) source
        (first_index (names_of scope.now) v (plain_index (back-Ref-index name.now.index)))
        (plain_last (back-Ref-sel name.now.sel)) (lowest (names_of scope.now) v (plain_last (back-Ref-sel name.now.sel))) x) }
    ensures width { IfOk result (λ p. places.place_width p ≡ takes) }
    ensures reads { IfOk result (λ p. (m k : ℕ) → bits.place_reads p m k ≡ places_read source
        (plain_index (back-Ref-index name.now.index)) (plain_last (back-Ref-sel name.now.sel))
        (index_reads (names_of scope.now) (plain_index (back-Ref-index name.now.index)) m k)
        (last_reads (names_of scope.now) (plain_last (back-Ref-sel name.now.sel)) m k)) }
    ensures writes { IfOk result (λ p. (m k : ℕ) → bits.place_writes p m k
        ≡ source_writes (names_of scope.now) source (plain_last (back-Ref-sel name.now.sel)) m k) }
    ensures adds { IfOk result (λ p. (m k : ℕ) → bits.place_adds p m k
        ≡ source_adds (names_of scope.now) source (plain_last (back-Ref-sel name.now.sel)) m k) }
    ensures name { IfOk result (λ p. place_name p ≡ source_name source
        (plain_index (back-Ref-index name.now.index)) (plain_last (back-Ref-sel name.now.sel))) }
    ensures sized { IfOk result IsSizedPlace }
{
    match source {
        Source::Constant(_) | Source::Nothing => Ok(no_place(takes)),
        Source::Net(span) => net_place(alloc, scope, span, name),
        Source::Memory { room, width } => word_place(alloc, scope, room, width, name),
    }
}

/// The self-determined width of a target.
pub fn target_width(scope: &Scope, target: &Target) -> u32
    requires { IsWidth (target_width (names_of scope.now) (plain_target target.now)) }
    ensures { result ≡ target_width (names_of scope.now) (plain_target target.now) }
{
    let names = whole_view(scope);
    target_facts(&checked(&names), target).width as u32
}

/// A name with its brackets, of `takes` bits.
#[tactic(auto, using(crate::proofs::Taken::ref_taken))]
fn ref_place(alloc: Global, scope: &Scope, name: &Ref, takes: u32) -> Result<Place, Memory>
    requires takes { IsWidth takes }
    requires width { takes ≡ target_width (names_of scope.now) (RefTarget (plain_ref name.now)) }
    requires fit { IsFitRef (names_of scope.now) (plain_ref name.now) }
    ensures updates { IfOk result (λ p. (x : ℕ) (v : Values) → places.place_updates p x v
        ≡ ref_updates (names_of scope.now) v (plain_ref name.now) x) }
    ensures width { IfOk result (λ p. places.place_width p ≡ takes) }
    ensures reads { IfOk result (λ p. (m k : ℕ) → bits.place_reads p m k
        ≡ target_reads (names_of scope.now) (RefTarget (plain_ref name.now)) m k) }
    ensures writes { IfOk result (λ p. (m k : ℕ) → bits.place_writes p m k
        ≡ target_writes (names_of scope.now) (RefTarget (plain_ref name.now)) m k) }
    ensures adds { IfOk result (λ p. (m k : ℕ) → bits.place_adds p m k
        ≡ target_adds (names_of scope.now) (RefTarget (plain_ref name.now)) m k) }
    ensures name { IfOk result (λ p. place_name p ∷ [] ≡ target_names (names_of scope.now) (RefTarget (plain_ref name.now))) }
    ensures sized { IfOk result IsSizedPlace }
{
    let source = source_of(scope, name.id.name.as_slice())?;
    source_place(alloc, scope, source, name, takes)
}

// ---- targets

/// Adds a place at the end.
fn push_place(out: &mut Lhs, place: Place) -> Result<(), Memory>
    requires { IsSizedPlace place }
    ensures updates { OnOk result ((x : ℕ) (v : Values) → places.target_updates out.new x v
        ≡ places.target_updates out.old (x / 2 ^ places.place_width place) v ++ places.place_updates place x v) }
    ensures width { OnOk result (places.target_width out.new ≡ places.target_width out.old + places.place_width place) }
    ensures reads { OnOk result ((m k : ℕ) → bits.target_reads out.new m k
        ≡ (bits.target_reads out.old m k || bits.place_reads place m k)) }
    ensures writes { OnOk result ((m k : ℕ) → bits.target_writes out.new m k
        ≡ (bits.target_writes out.old m k || bits.place_writes place m k)) }
    ensures adds { OnOk result ((m k : ℕ) → bits.target_adds out.new m k
        ≡ (bits.target_adds out.old m k || bits.place_adds place m k)) }
    ensures names { OnOk result (place_names out.new ≡ place_names out.old ++ place_name place ∷ []) }
    ensures count { OnOk result ((m k : ℕ) → bit_count out.new m k
        ≡ bit_count out.old m k + truth (bits.place_writes place m k)) }
    ensures sized { OnOk result (AllByRecursion (λ p. IsSizedPlace p) out.old → AllByRecursion (λ p. IsSizedPlace p) out.new) }
{
    out.push(place)
}

/// Adds the places of a target.
#[cycle(target)]
fn push_target(alloc: Global, scope: &Scope, out: &mut Lhs, target: &Target) -> Result<(), Memory>
    requires { IsFitTarget (names_of scope.now) (plain_target target.now) }
    ensures updates { OnOk result ((x : ℕ) (v : Values) → places.target_updates out.new x v
        ≡ places.target_updates out.old (x / 2 ^ target_width (names_of scope.now) (plain_target target.now)) v
        ++ target_updates (names_of scope.now) v (plain_target target.now) x) }
    ensures width { OnOk result (places.target_width out.new
        ≡ places.target_width out.old + target_width (names_of scope.now) (plain_target target.now)) }
    ensures reads { OnOk result ((m k : ℕ) → bits.target_reads out.new m k
        ≡ (bits.target_reads out.old m k || target_reads (names_of scope.now) (plain_target target.now) m k)) }
    ensures writes { OnOk result ((m k : ℕ) → bits.target_writes out.new m k
        ≡ (bits.target_writes out.old m k || target_writes (names_of scope.now) (plain_target target.now) m k)) }
    ensures adds { OnOk result ((m k : ℕ) → bits.target_adds out.new m k
        ≡ (bits.target_adds out.old m k || target_adds (names_of scope.now) (plain_target target.now) m k)) }
    ensures names { OnOk result (place_names out.new
        ≡ place_names out.old ++ target_names (names_of scope.now) (plain_target target.now)) }
    ensures count { OnOk result ((m k : ℕ) → bit_count out.new m k
        ≡ bit_count out.old m k + target_count (names_of scope.now) (plain_target target.now) m k) }
    ensures sized { OnOk result (AllByRecursion (λ p. IsSizedPlace p) out.old → AllByRecursion (λ p. IsSizedPlace p) out.new) }
{
    match target {
        Target::Ref(name) => {
            let takes = target_width(scope, target);
            let place = ref_place(alloc, scope, name, takes)?;
            push_place(out, place)
        }
        Target::Concat { line, parts } => {
            see_concat_target(*line, parts);
            push_targets(alloc, scope, out, parts.as_slice())
        }
    }
}

/// Adds the places of the parts of a target.
#[cycle(target)]
fn push_targets(alloc: Global, scope: &Scope, out: &mut Lhs, parts: &[Target]) -> Result<(), Memory>
    requires { AreFitTargets (names_of scope.now) (plain_targets parts.now) }
    ensures updates { OnOk result ((x : ℕ) (v : Values) → places.target_updates out.new x v
        ≡ places.target_updates out.old (x / 2 ^ targets_width (names_of scope.now) (plain_targets parts.now)) v
        ++ targets_updates (names_of scope.now) v (plain_targets parts.now) x) }
    ensures width { OnOk result (places.target_width out.new
        ≡ places.target_width out.old + targets_width (names_of scope.now) (plain_targets parts.now)) }
    ensures reads { OnOk result ((m k : ℕ) → bits.target_reads out.new m k
        ≡ (bits.target_reads out.old m k || targets_read (names_of scope.now) (plain_targets parts.now) m k)) }
    ensures writes { OnOk result ((m k : ℕ) → bits.target_writes out.new m k
        ≡ (bits.target_writes out.old m k || targets_write (names_of scope.now) (plain_targets parts.now) m k)) }
    ensures adds { OnOk result ((m k : ℕ) → bits.target_adds out.new m k
        ≡ (bits.target_adds out.old m k || targets_add (names_of scope.now) (plain_targets parts.now) m k)) }
    ensures names { OnOk result (place_names out.new
        ≡ place_names out.old ++ targets_names (names_of scope.now) (plain_targets parts.now)) }
    ensures count { OnOk result ((m k : ℕ) → bit_count out.new m k
        ≡ bit_count out.old m k + targets_count (names_of scope.now) (plain_targets parts.now) m k) }
    ensures sized { OnOk result (AllByRecursion (λ p. IsSizedPlace p) out.old → AllByRecursion (λ p. IsSizedPlace p) out.new) }
{
    for part in parts {
        push_target(alloc, scope, out, part)?;
    }
    Ok(())
}

/// The code of the places that an assignment to the target writes, for all numbers that are assigned and all numbers of the
/// scope's nets and words (IEEE 1364-2005, 5.2 and 9.2). Nets and memories are named by their places in the scope's lists.
///
/// By condition nothing is wrong with the target's names, constants and widths.
///
/// # Errors
///
/// `Memory`: there isn't enough memory, or the words of the scope's memories can't be counted in 64 bits.
#[tactic(auto, using(crate::proofs::Fitting::faultless_target_fit))]
pub fn bind_target(alloc: Global, target: &Target, scope: &Scope) -> Result<Lhs, Memory>
    requires { faults (sizes_of_target (names_of scope.now) (plain_target target.now)) ≡ [] }
    ensures updates { IfOk result (λ lhs. (x : ℕ) (v : Values) → places.target_updates lhs x v
        ≡ target_updates (names_of scope.now) v (plain_target target.now) x) }
    ensures width { IfOk result (λ lhs. places.target_width lhs ≡ target_width (names_of scope.now) (plain_target target.now)) }
    ensures reads { IfOk result (λ lhs. (m k : ℕ) → bits.target_reads lhs m k
        ≡ target_reads (names_of scope.now) (plain_target target.now) m k) }
    ensures writes { IfOk result (λ lhs. (m k : ℕ) → bits.target_writes lhs m k
        ≡ target_writes (names_of scope.now) (plain_target target.now) m k) }
    ensures adds { IfOk result (λ lhs. (m k : ℕ) → bits.target_adds lhs m k
        ≡ target_adds (names_of scope.now) (plain_target target.now) m k) }
    ensures names { IfOk result (λ lhs. place_names lhs ≡ target_names (names_of scope.now) (plain_target target.now)) }
    ensures count { IfOk result (λ lhs. (m k : ℕ) → bit_count lhs m k
        ≡ target_count (names_of scope.now) (plain_target target.now) m k) }
    ensures sized { IfOk result (λ lhs. AllByRecursion (λ p. IsSizedPlace p) lhs) }
{
    let mut places = Items::new(alloc);
    push_target(alloc, scope, &mut places, target)?;
    Ok(places)
}
