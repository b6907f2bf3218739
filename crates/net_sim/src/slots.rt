//! The numbers of a design in slots: those that are shown, then the state, then free slots.

ghost use Rattle.std.specs.Prelude.{◌≡◌, ℕ, ◌+◌, ◌<◌, ◌≤◌, List, false, All, IfOk, length, take, drop, replicate, slice_index, if◌then◌else◌};
ghost use Rattle.net_order.specs.Run.{entered};
ghost use Rattle.net_instr.specs.Machine.{exec, IsInstr};
ghost use Rattle.net_instr.specs.InPlace.{through};
ghost use Rattle.net_instr.specs.Needs.{IsEnough};
ghost use Rattle.net_sim.specs.Slots.{copied, AreShown};

use crate::run::enter;
use net_design::{Port, zeros};
use net_instr::{Instr, run_code, run_noting};
use net_order::vidi_bits::{Items, Memory, Numbers};
use std::alloc::Global;

/// What is copied from the state to what is shown: some nets, and all words.
#[derive(Drop)]
pub struct Copies {
    /// The nets.
    pub nets: Items<u32>,
    /// The slot of the first word.
    pub words: usize,
    /// How many numbers nets and words are.
    pub span: usize,
}

/// Some nets become those behind the first `span` numbers.
fn show_nets(slots: &mut [u128], nets: &[u32], span: usize)
    requires long { span + span ≤ length slots.old }
    requires within { All (λ m. m < span) nets.now }
    ensures nets { All (λ m. slice_index slots.new m ≡ slice_index slots.old (span + m)) nets.now }
    ensures behind { (k : ℕ) → span ≤ k → slice_index slots.new k ≡ slice_index slots.old k }
{
    for net in nets {
        let m = *net as usize;
        slots[m] = slots[span + m];
    }
}

/// The words from slot `first` on become those behind the first `span` numbers.
fn show_words(slots: &mut [u128], first: usize, span: usize)
    requires { span + span ≤ length slots.old }
    ensures words { (k : ℕ) → first ≤ k → k < span → slice_index slots.new k ≡ slice_index slots.old (span + k) }
    ensures nets { (k : ℕ) → k < first → slice_index slots.new k ≡ slice_index slots.old k }
    ensures behind { (k : ℕ) → span ≤ k → slice_index slots.new k ≡ slice_index slots.old k }
{
    for i in first..span {
        slots[i] = slots[span + i];
    }
}

/// The state becomes `first`.
fn load_state(slots: &mut [u128], span: usize, first: &[u128])
    requires long { span + span ≤ length slots.old }
    requires first { length first.now ≡ span }
    ensures state { take span (drop span slots.new) ≡ first.now }
    ensures shown { take span slots.new ≡ take span slots.old }
    ensures long { length slots.new ≡ length slots.old }
{
    for (i, number) in first.iter().enumerate() {
        slots[span + i] = *number;
    }
}

/// The state becomes `first`; what is shown stays.
pub fn load_slots(slots: &mut Numbers, span: usize, first: &[u128])
    requires long { span + span ≤ length slots.old }
    requires first { length first.now ≡ span }
    ensures state { take span (drop span slots.new) ≡ first.now }
    ensures shown { take span slots.new ≡ take span slots.old }
    ensures long { length slots.new ≡ length slots.old }
{
    load_state(slots.as_mut_slice(), span, first);
}

/// Runs code.
pub fn run_slots(code: &[Instr], slots: &mut Numbers)
    requires { All (λ i. IsInstr i) code.now }
    ensures { slots.new ≡ exec code.now 0 slots.old }
{
    run_code(code, slots.as_mut_slice());
}

/// Runs code; answers whether it changed one of the first twice `span` numbers.
pub fn run_noted(code: &[Instr], slots: &mut Numbers, span: usize) -> bool
    requires safe { All (λ i. IsInstr i) code.now }
    requires long { span + span ≤ length slots.old }
    ensures slots { slots.new ≡ exec code.now 0 slots.old }
    ensures kept { (result ≡ false) → take (span + span) slots.new ≡ take (span + span) slots.old }
{
    let numbers = slots.as_mut_slice();
    run_noting(code, numbers, span + span)
}

/// `count` slots, in which the state is `first` and all else is 0.
pub fn first_slots(
    alloc: Global,
    count: usize,
    span: usize,
    first: &[u128],
) -> Result<Numbers, Memory>
    requires long { span + span ≤ count }
    requires first { length first.now ≡ span }
    ensures state { IfOk result (λ slots. take span (drop span slots) ≡ first.now) }
    ensures shown { IfOk result (λ slots. take span slots ≡ take span (replicate count 0)) }
    ensures long { IfOk result (λ slots. length slots ≡ count) }
{
    let mut slots = zeros(alloc, count)?;
    load_slots(&mut slots, span, first);
    Ok(slots)
}

/// Some nets and all words of the state are shown.
fn show_slots(slots: &mut Numbers, copies: &Copies)
    requires long { copies.now.span + copies.now.span ≤ length slots.old }
    requires words { copies.now.words ≤ copies.now.span }
    requires within { All (λ m. m < copies.now.words) copies.now.nets }
    ensures { AreShown copies.now.nets copies.now.words copies.now.span slots.old slots.new }
{
    let numbers = slots.as_mut_slice();
    show_nets(numbers, copies.nets.as_slice(), copies.span);
    show_words(numbers, copies.words, copies.span);
}

/// Shows what the state and the pins settle to, at the places of nets, where what is copied is enough.
pub fn settle_slots(
    code: &[Instr],
    ports: &[Port],
    pins: &[u128],
    copies: &Copies,
    slots: &mut Numbers,
)
    requires safe { All (λ i. IsInstr i) code.now }
    requires long { copies.now.span + copies.now.span ≤ length slots.old }
    requires words { copies.now.words ≤ copies.now.span }
    requires within { All (λ m. m < copies.now.words) copies.now.nets }
    ensures { (ps : List ℕ) → length ps ≡ copies.now.words → length ports.now ≤ copies.now.words
        → IsEnough ps code.now copies.now.nets
        → through ps slots.new ≡ through ps (exec code.now 0 (entered ports.now pins.now (copied copies.now.span slots.old))) }
{
    show_slots(slots, copies);
    enter(ports, pins, slots);
    run_slots(code, slots);
}

/// The same, unless that was done.
pub fn settle_again(
    fresh: bool,
    code: &[Instr],
    ports: &[Port],
    pins: &[u128],
    copies: &Copies,
    slots: &mut Numbers,
)
    requires safe { All (λ i. IsInstr i) code.now }
    requires long { copies.now.span + copies.now.span ≤ length slots.old }
    requires words { copies.now.words ≤ copies.now.span }
    requires within { All (λ m. m < copies.now.words) copies.now.nets }
    ensures { (ps : List ℕ) → length ps ≡ copies.now.words → length ports.now ≤ copies.now.words
        → IsEnough ps code.now copies.now.nets
        → through ps slots.new ≡ (if fresh then through ps slots.old
        else through ps (exec code.now 0 (entered ports.now pins.now (copied copies.now.span slots.old)))) }
{
    if !fresh {
        settle_slots(code, ports, pins, copies, slots);
    }
}
