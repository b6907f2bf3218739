//! The machine that runs instructions.

ghost use Rattle.std.specs.Prelude.{◌≡◌, ◌+◌, ◌/◌, ◌^◌, ◌<◌, ◌≤◌, false, All, length, slice_index, slice_set, take, nat_lt, if◌then◌else◌};
ghost use Rattle.net_design.specs.vidi_bits.Number.{IsWidth};
ghost use Rattle.net_instr.specs.Machine.{number_of, put_at, put_from, changed, skips, exec, IsStep, IsInstr};
ghost use Rattle.net_instr.specs.Needs.{target};

use crate::instr::{Instr, Step};
use net_design::vidi_bits::{
    add_w, binary, joined, put, selected, shr_w, slice, sub_w, times, unary,
};

/// The number of a slot, 0 past the last one.
fn at(slots: &[u128], i: u32) -> u128
    ensures { result ≡ slice_index slots.now i }
{
    let i = i as usize;
    if i < slots.len() { slots[i] } else { 0 }
}

/// A slot set; past the last one nothing changes.
fn set(slots: &mut [u128], i: usize, number: u128)
    ensures { slots.new ≡ slice_set slots.old i number }
{
    if i < slots.len() {
        slots[i] = number;
    }
}

/// Word `word` of a memory.
fn word(slots: &[u128], first: u32, length: u32, word: u128) -> u128
    ensures { result ≡ (if nat_lt word length then slice_index slots.now (first + word) else 0) }
{
    if word >= u128::from(length) {
        return 0;
    }
    let i = first as usize + word as usize;
    if i < slots.len() { slots[i] } else { 0 }
}

/// The number that a step gives.
fn number(step: &Step, slots: &[u128]) -> u128
    requires { IsStep step.now }
    ensures { result ≡ number_of step.now slots.now }
{
    match step {
        Step::Number { number } => *number,
        Step::Copy { from } => at(slots, *from),
        Step::Slice { from, low, width } => slice(at(slots, *from), *low, *width),
        Step::And { left, right } => at(slots, *left) & at(slots, *right),
        Step::Or { left, right } => at(slots, *left) | at(slots, *right),
        Step::Xor { left, right } => at(slots, *left) ^ at(slots, *right),
        Step::Add { left, right, width } => add_w(at(slots, *left), at(slots, *right), *width),
        Step::Subtract { left, right, width } => sub_w(at(slots, *left), at(slots, *right), *width),
        Step::Less { left, right } => u128::from(at(slots, *left) < at(slots, *right)),
        Step::Equal { left, right } => u128::from(at(slots, *left) == at(slots, *right)),
        Step::LogicalNot { from } => u128::from(at(slots, *from) == 0),
        Step::Unary { op, from, width } => unary(*op, at(slots, *from), *width),
        Step::Binary {
            op,
            left,
            right,
            width,
        } => binary(*op, at(slots, *left), at(slots, *right), *width),
        Step::Choose {
            test,
            chosen,
            other,
        } => at(
            slots,
            if at(slots, *test) == 0 {
                *other
            } else {
                *chosen
            },
        ),
        Step::Join {
            high,
            low,
            high_width,
            low_width,
        } => joined(at(slots, *high), at(slots, *low), *high_width, *low_width),
        Step::Repeat { count, part, width } => times(*count, at(slots, *part), *width),
        Step::Select {
            vector,
            at: place,
            width,
        } => selected(at(slots, *vector), at(slots, *place), *width),
        Step::Word {
            first,
            length,
            word: place,
        } => word(slots, *first, *length, at(slots, *place)),
    }
}

/// Bits of a slot replaced.
fn put_bits(slots: &mut [u128], i: usize, low: u32, width: u32, number: u128)
    requires { IsWidth width }
    ensures { slots.new ≡ put_at slots.old i low width number }
{
    if i < slots.len() {
        slots[i] = put(slots[i], low, width, number);
    }
}

/// Bits of a slot from the place `at` on replaced, as far as they are there.
fn put_part(slots: &mut [u128], i: usize, low: u32, size: u32, at: u128, width: u32, number: u128)
    requires bits { low + size ≤ 128 }
    requires width { IsWidth width }
    ensures { slots.new ≡ put_from slots.old i low size at width number }
{
    if at >= u128::from(size) {
        return;
    }
    let at = at as u32;
    put_bits(slots, i, low + at, width.min(size - at), number);
}

/// Bits of a word replaced, where the memory has it.
fn put_word(
    slots: &mut [u128],
    first: u32,
    length: u32,
    word: u128,
    low: u32,
    width: u32,
    number: u128,
)
    requires { IsWidth width }
    ensures { slots.new ≡ (if nat_lt word length then put_at slots.old (first + word) low width number else slots.old) }
{
    if word < u128::from(length) {
        put_bits(slots, first as usize + word as usize, low, width, number);
    }
}

/// Bits of a word from the place `at` on replaced, as far as they are there, where the memory has it.
fn put_word_part(
    slots: &mut [u128],
    first: u32,
    length: u32,
    word: u128,
    size: u32,
    at: u128,
    width: u32,
    number: u128,
)
    requires size { size ≤ 128 }
    requires width { IsWidth width }
    ensures { slots.new ≡ (if nat_lt word length then put_from slots.old (first + word) 0 size at width number else slots.old) }
{
    if word < u128::from(length) {
        put_part(
            slots,
            first as usize + word as usize,
            0,
            size,
            at,
            width,
            number,
        );
    }
}

/// A number without its low bits.
fn high_part(slots: &[u128], from: u32, rest: u32) -> u128
    ensures { result ≡ slice_index slots.now from / 2 ^ rest }
{
    shr_w(at(slots, from), u128::from(rest), 128)
}

/// One instruction; answers how many of the next ones are left out.
fn one(instr: &Instr, slots: &mut [u128]) -> usize
    requires { IsInstr instr.now }
    ensures slots { slots.new ≡ changed instr.now slots.old }
    ensures skip { result ≡ skips instr.now slots.old }
{
    match instr {
        Instr::Do { to, step } => {
            let number = number(step, slots);
            set(slots, *to as usize, number);
            0
        }
        Instr::Put {
            to,
            low,
            width,
            from,
            rest,
        } => {
            let number = high_part(slots, *from, *rest);
            put_bits(slots, *to as usize, *low, *width, number);
            0
        }
        Instr::PutFrom {
            to,
            low,
            size,
            at: place,
            width,
            from,
            rest,
        } => {
            let number = high_part(slots, *from, *rest);
            let place = at(slots, *place);
            put_part(slots, *to as usize, *low, *size, place, *width, number);
            0
        }
        Instr::PutWord {
            first,
            length,
            word,
            low,
            width,
            from,
            rest,
        } => {
            let number = high_part(slots, *from, *rest);
            let word = at(slots, *word);
            put_word(slots, *first, *length, word, *low, *width, number);
            0
        }
        Instr::PutWordFrom {
            first,
            length,
            word,
            size,
            at: place,
            width,
            from,
            rest,
        } => {
            let number = high_part(slots, *from, *rest);
            let word = at(slots, *word);
            let place = at(slots, *place);
            put_word_part(slots, *first, *length, word, *size, place, *width, number);
            0
        }
        Instr::SkipIfZero { test, count } => {
            if at(slots, *test) == 0 {
                *count as usize
            } else {
                0
            }
        }
        Instr::Skip { count } => *count as usize,
    }
}

/// The only slot that an instruction may change.
fn target(instr: &Instr, slots: &[u128]) -> usize
    ensures { result ≡ target instr.now slots.now }
{
    match instr {
        Instr::Do { to, .. } => *to as usize,
        Instr::Put { to, .. } => *to as usize,
        Instr::PutFrom { to, .. } => *to as usize,
        Instr::PutWord {
            first,
            length,
            word,
            ..
        }
        | Instr::PutWordFrom {
            first,
            length,
            word,
            ..
        } => {
            let word = at(slots, *word);
            if word < u128::from(*length) {
                *first as usize + word as usize
            } else {
                0
            }
        }
        Instr::SkipIfZero { .. } | Instr::Skip { .. } => 0,
    }
}

/// A slot, where it is one of the first `limit`; else 0.
fn front(slots: &[u128], limit: usize, i: usize) -> u128
    ensures { result ≡ (if nat_lt i limit then slice_index slots.now i else 0) }
{
    if i < limit && i < slots.len() {
        slots[i]
    } else {
        0
    }
}

/// Whether a change was noted, or a number changed.
fn is_moved(moved: bool, before: u128, after: u128) -> bool
    ensures { (result ≡ false) → (moved ≡ false) × (after ≡ before) }
{
    moved || after != before
}

/// One instruction, as `one`; notes in `moved` whether it changed one of the first `limit` slots.
fn one_noted(instr: &Instr, slots: &mut [u128], limit: usize, moved: &mut bool) -> usize
    requires { IsInstr instr.now }
    ensures slots { slots.new ≡ changed instr.now slots.old }
    ensures skip { result ≡ skips instr.now slots.old }
    ensures kept { (moved.new ≡ false) → (moved.old ≡ false) × (take limit slots.new ≡ take limit slots.old) }
{
    let to = target(instr, slots);
    let before = front(slots, limit, to);
    let skip = one(instr, slots);
    let after = front(slots, limit, to);
    *moved = is_moved(*moved, before, after);
    skip
}

/// Runs code on slots, as `run_code`; answers whether it changed one of the first `limit` in between.
pub fn run_noting(code: &[Instr], slots: &mut [u128], limit: usize) -> bool
    requires { All (λ i. IsInstr i) code.now }
    ensures slots { slots.new ≡ exec code.now 0 slots.old }
    ensures kept { (result ≡ false) → take limit slots.new ≡ take limit slots.old }
{
    let mut at = 0;
    let mut moved = false;
    'go: while at < code.len() {
        let skip = one_noted(&code[at], slots, limit, &mut moved);
        if skip >= code.len() - at {
            return moved;
        }
        at += 1 + skip;
    }
    moved
}

/// Runs code on slots.
pub fn run_code(code: &[Instr], slots: &mut [u128])
    requires { All (λ i. IsInstr i) code.now }
    ensures { slots.new ≡ exec code.now 0 slots.old }
{
    let mut at = 0;
    'go: while at < code.len() {
        let skip = one(&code[at], slots);
        if skip >= code.len() - at {
            return;
        }
        at += 1 + skip;
    }
}
