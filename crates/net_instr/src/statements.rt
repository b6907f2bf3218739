//! The code of statements. It is pushed from its last instruction to its first, so that each choice knows how much to leave out.

ghost use Rattle.std.specs.Prelude.{◌≡◌, ℕ, ◌+◌, ◌-◌, ◌*◌, ◌/◌, ◌^◌, ◌<◌, ◌≤◌, ◌++◌, ◌∷◌};
ghost use Rattle.std.specs.Prelude.{[], ◌↔◌, ◌&&◌, not, ◌==◌, List, OnOk, IfOk, IsTrue, length, slice_index};
ghost use Rattle.std.specs.Prelude.{if◌then◌else◌};
ghost use Rattle.net_instr.specs.declared.instr.Step.{Step};
ghost use Rattle.std.specs.List.{AllByRecursion};
ghost use Rattle.net_design.specs.declared.act.Act.{Act};
ghost use Rattle.net_design.specs.declared.act.Timing.{Timing};
ghost use Rattle.net_design.specs.Updates.{target_width};
ghost use Rattle.net_instr.specs.declared.instr.Instr.{Instr};
ghost use Rattle.net_instr.specs.Expressions.{is_whole, slot, step, taken, below, IsRhsThere};
ghost use Rattle.net_instr.specs.Layout.{span, base};
ghost use Rattle.net_instr.specs.Statements.{choice, unary_within, binary_within, within, index_slots};
ghost use Rattle.net_instr.specs.Statements.{all_slots, offset, forced, place_index, index_code};
ghost use Rattle.net_instr.specs.Statements.{place_store, stores, general_code, set_code, test_code, act_code, block_code, guard_code};
ghost use Rattle.net_instr.specs.Statements.{IsPlaceThere, IsActThere, IsBlockThere, AreGuardsThere};

use crate::expressions::{is_whole, lower, more_slots, slot, step, take};
use crate::instr::{Instr, Step};
use net_design::vidi_bits::{BinaryOp, Items, Memory, UnaryOp, shr_w};
use net_design::{Act, Guard, Place, Rhs, Room, Span, place_width};

/// Whether an operator's number has at most `w` bits, whatever its operand has.
fn unary_within(op: UnaryOp, width: u32, w: u32) -> bool
    ensures { result ≡ unary_within op width w }
{
    match op {
        UnaryOp::Negate | UnaryOp::Complement => width <= w,
        _ => 1 <= w,
    }
}

/// Whether an operator's number has at most `w` bits, where it is known whether its operands have.
fn binary_within(op: BinaryOp, left: bool, right: bool, width: u32, w: u32) -> bool
    ensures { result ≡ binary_within op left right width w }
{
    match op {
        BinaryOp::Add | BinaryOp::Subtract | BinaryOp::Multiply => width <= w,
        BinaryOp::ShiftLeft | BinaryOp::ShiftRight | BinaryOp::Xnor => width <= w,
        BinaryOp::And | BinaryOp::Or | BinaryOp::Xor => left && right,
        _ => 1 <= w,
    }
}

/// Whether an expression's number surely has at most `w` bits.
fn within(e: &Rhs, w: u32) -> bool
    ensures { result ≡ within e.now w }
{
    match e {
        Rhs::Number(number) => shr_w(*number, u128::from(w), 128) == 0,
        Rhs::Bits(span) => span.width <= w,
        Rhs::Word { .. } | Rhs::Repeat { .. } => false,
        Rhs::Unary { op, width, .. } => unary_within(*op, *width, w),
        Rhs::Binary {
            op,
            left,
            right,
            width,
        } => binary_within(*op, within(left, w), within(right, w), *width, w),
        Rhs::Choose { chosen, other, .. } => within(chosen, w) && within(other, w),
        Rhs::Join {
            high_width,
            low_width,
            ..
        } => u64::from(*high_width) + u64::from(*low_width) <= u64::from(w),
        Rhs::Select { width, .. } => *width <= w,
    }
}

/// How many slots the indexes of a place take.
fn index_slots(place: &Place) -> u32
    ensures { result ≡ index_slots place.now }
{
    match place {
        Place::Bits { .. } => 0,
        Place::BitsFrom { .. } | Place::Word { .. } => 1,
        Place::WordFrom { .. } => 2,
    }
}

/// The slot after those that the indexes of a target take from `t` on.
fn after_indexes(target: &[Place], t: u32) -> Result<u32, Memory>
    requires { t + 8 < 2 ^ 32 }
    ensures { IfOk result (λ end. (end ≡ t + all_slots target.now) × (end + 8 < 2 ^ 32)) }
{
    let mut end = t;
    for place in target {
        end += index_slots(place);
        more_slots(end)?;
    }
    Ok(end)
}

/// The first free slot.
fn base(widths: &[u32], words: u32) -> u32
    requires { base widths.now words + 16 < 2 ^ 32 }
    ensures { result ≡ base widths.now words }
{
    let span = widths.len() as u32 + words;
    span + span
}

/// Pushes the code that puts an expression into slot `t`.
fn force(code: &mut Items<Instr>, e: &Rhs, t: u32, widths: &[u32], words: u32) -> Result<(), Memory>
    requires sized { IsRhsThere widths.now words e.now }
    requires few { length widths.now + words < 2 ^ 32 }
    requires room { t + 2 < 2 ^ 32 }
    ensures { OnOk result (code.new ≡ code.old ++ forced widths.now words e.now t) }
{
    code.push(Instr::Do {
        to: t,
        step: step(e, t, widths, words),
    })?;
    lower(code, e, t, widths, words)?;
    Ok(())
}

/// Pushes the code of a place's indexes.
fn push_index(
    code: &mut Items<Instr>,
    place: &Place,
    t: u32,
    widths: &[u32],
    words: u32,
) -> Result<(), Memory>
    requires sized { IsPlaceThere widths.now words place.now }
    requires few { length widths.now + words < 2 ^ 32 }
    requires room { t + 8 < 2 ^ 32 }
    ensures { OnOk result (code.new ≡ code.old ++ place_index widths.now words place.now t) }
{
    match place {
        Place::Bits { .. } => Ok(()),
        Place::BitsFrom { at: index, .. } | Place::Word { word: index, .. } => {
            force(code, index, t, widths, words)?;
            Ok(())
        }
        Place::WordFrom { word, at, .. } => {
            force(code, at, t + 1, widths, words)?;
            force(code, word, t, widths, words)?;
            Ok(())
        }
    }
}

/// Pushes the code of the indexes of a target, which take the slots before `end`.
fn push_indexes(
    code: &mut Items<Instr>,
    target: &[Place],
    t: u32,
    end: u32,
    widths: &[u32],
    words: u32,
) -> Result<(), Memory>
    requires sized { AllByRecursion (λ p. IsPlaceThere widths.now words p) target.now }
    requires few { length widths.now + words < 2 ^ 32 }
    requires end { end ≡ t + all_slots target.now }
    requires room { end + 8 < 2 ^ 32 }
    ensures { OnOk result (code.new ≡ code.old ++ index_code widths.now words target.now t) }
{
    let mut t = end;
    let mut i = target.len();
    'places: while i > 0 {
        i -= 1;
        let place = &target[i];
        t -= index_slots(place);
        push_index(code, place, t, widths, words)?;
    }
    Ok(())
}

/// The slots of memory words, from that of the first word of all.
#[derive(Clone, Copy)]
struct Words {
    first: u32,
    length: u32,
}

/// The slots of a memory's words, where the numbers that are changed begin at `offset`.
fn words_of(room: Room, offset: u32, widths: &[u32], words: u32) -> Words
    requires room { room.first + room.length ≤ words }
    requires few { offset + length widths.now + words < 2 ^ 32 }
    ensures first { result.first ≡ offset + length widths.now + room.first }
    ensures length { result.length ≡ room.length }
{
    Words {
        first: offset + widths.len() as u32 + room.first as u32,
        length: room.length as u32,
    }
}

/// The instruction that puts bits of what is assigned into a net.
fn net_store(span: Span, rest: u32, offset: u32, widths: &[u32], words: u32) -> Instr
    requires there { span.net < length widths.now }
    requires few { offset + length widths.now < 2 ^ 32 }
    requires sizes { base widths.now words + 16 < 2 ^ 32 }
    ensures { result ≡ (if is_whole widths.now span then Instr.Do (offset + span.net) (Step.Slice (base widths.now words) rest span.width)
        else Instr.Put (offset + span.net) span.low span.width (base widths.now words) rest) }
{
    let to = offset + span.net as u32;
    let from = base(widths, words);
    if is_whole(span, widths) {
        return Instr::Do {
            to,
            step: Step::Slice {
                from,
                low: rest,
                width: span.width,
            },
        };
    }
    Instr::Put {
        to,
        low: span.low,
        width: span.width,
        from,
        rest,
    }
}

/// Pushes the code that puts bits of what is assigned into a place, whose indexes stand from slot `t` on.
fn push_store(
    code: &mut Items<Instr>,
    place: &Place,
    t: u32,
    rest: u32,
    offset: u32,
    widths: &[u32],
    words: u32,
) -> Result<(), Memory>
    requires sized { IsPlaceThere widths.now words place.now }
    requires few { offset + length widths.now + words < 2 ^ 32 }
    requires sizes { base widths.now words + 16 < 2 ^ 32 }
    requires room { t + 8 < 2 ^ 32 }
    ensures { OnOk result (code.new ≡ code.old ++ place_store widths.now words offset place.now t rest) }
{
    let from = base(widths, words);
    match place {
        Place::Bits { span, .. } => {
            if span.width > 0 {
                code.push(net_store(*span, rest, offset, widths, words))?;
            }
        }
        Place::BitsFrom { whole, width, .. } => {
            let to = offset + whole.net as u32;
            code.push(Instr::PutFrom {
                to,
                low: whole.low,
                size: whole.width,
                at: t,
                width: *width,
                from,
                rest,
            })?;
        }
        Place::Word {
            room,
            low,
            width,
            ..
        } => {
            if *width > 0 {
                let Words { first, length } = words_of(*room, offset, widths, words);
                code.push(Instr::PutWord {
                    first,
                    length,
                    word: t,
                    low: *low,
                    width: *width,
                    from,
                    rest,
                })?;
            }
        }
        Place::WordFrom {
            room,
            size,
            width,
            ..
        } => {
            let Words { first, length } = words_of(*room, offset, widths, words);
            code.push(Instr::PutWordFrom {
                first,
                length,
                word: t,
                size: *size,
                at: t + 1,
                width: *width,
                from,
                rest,
            })?;
        }
    }
    Ok(())
}

/// Pushes the code that puts what is assigned into a target, whose indexes stand before slot `end`.
fn push_stores(
    code: &mut Items<Instr>,
    target: &[Place],
    t: u32,
    end: u32,
    offset: u32,
    widths: &[u32],
    words: u32,
) -> Result<(), Memory>
    requires sized { AllByRecursion (λ p. IsPlaceThere widths.now words p) target.now }
    requires wide { target_width target.now ≤ 128 }
    requires few { offset + length widths.now + words < 2 ^ 32 }
    requires sizes { base widths.now words + 16 < 2 ^ 32 }
    requires end { end ≡ t + all_slots target.now }
    requires room { end + 8 < 2 ^ 32 }
    ensures { OnOk result (code.new ≡ code.old ++ stores widths.now words offset target.now t) }
{
    let mut t = end;
    let mut rest = 0;
    let mut i = target.len();
    'places: while i > 0 {
        i -= 1;
        let place = &target[i];
        t -= index_slots(place);
        push_store(code, place, t, rest, offset, widths, words)?;
        rest += place_width(place);
    }
    Ok(())
}

/// Pushes the code of an assignment, whatever its target is.
fn push_general(
    code: &mut Items<Instr>,
    target: &[Place],
    e: &Rhs,
    offset: u32,
    widths: &[u32],
    words: u32,
) -> Result<(), Memory>
    requires places { AllByRecursion (λ p. IsPlaceThere widths.now words p) target.now }
    requires wide { target_width target.now ≤ 128 }
    requires sized { IsRhsThere widths.now words e.now }
    requires few { offset + length widths.now + words < 2 ^ 32 }
    requires sizes { base widths.now words + 16 < 2 ^ 32 }
    ensures { OnOk result (code.new ≡ code.old ++ general_code widths.now words offset target.now e.now) }
{
    let number = base(widths, words);
    let end = after_indexes(target, number + 1)?;
    push_stores(code, target, number + 1, end, offset, widths, words)?;
    push_indexes(code, target, number + 1, end, widths, words)?;
    force(code, e, number, widths, words)?;
    Ok(())
}

/// Whether bits are a whole net that takes an expression as it is.
fn takes(span: Span, e: &Rhs, widths: &[u32]) -> bool
    requires { span.net < length widths.now }
    ensures { result ≡ (is_whole widths.now span && (not (span.width == 0) && within e.now span.width)) }
{
    is_whole(span, widths) && span.width != 0 && within(e, span.width)
}

/// Pushes the code of an assignment.
fn push_set(
    code: &mut Items<Instr>,
    target: &[Place],
    e: &Rhs,
    offset: u32,
    widths: &[u32],
    words: u32,
) -> Result<(), Memory>
    requires places { AllByRecursion (λ p. IsPlaceThere widths.now words p) target.now }
    requires wide { target_width target.now ≤ 128 }
    requires sized { IsRhsThere widths.now words e.now }
    requires few { offset + length widths.now + words < 2 ^ 32 }
    requires sizes { base widths.now words + 16 < 2 ^ 32 }
    ensures { OnOk result (code.new ≡ code.old ++ set_code widths.now words offset target.now e.now) }
{
    if let [Place::Bits { span, .. }] = target {
        if takes(*span, e, widths) {
            let t = base(widths, words);
            code.push(Instr::Do {
                to: offset + span.net as u32,
                step: step(e, t, widths, words),
            })?;
            lower(code, e, t, widths, words)?;
            return Ok(());
        }
    }
    push_general(code, target, e, offset, widths, words)?;
    Ok(())
}

/// What a choice is, over its lists.
fn see_choice(guards: &Items<Guard>, otherwise: &Items<Act>)
    ensures code { (a : Act) (widths : List ℕ) (words o : ℕ) → a ≡ Act.Branch guards.now otherwise.now
        → act_code widths words o a ≡ guard_code widths words o guards.now (block_code widths words o otherwise.now) }
    ensures sized { (a : Act) (widths : List ℕ) (words : ℕ) → a ≡ Act.Branch guards.now otherwise.now → IsActThere widths words a
        → AreGuardsThere widths words guards.now × IsBlockThere widths words otherwise.now }
{}

/// A count of instructions, as far as it can be written.
fn count_of(instructions: usize) -> Result<u32, Memory>
    ensures { IfOk result (λ count. (count ≡ instructions) × (count + 8 < 2 ^ 32)) }
{
    if instructions > u32::MAX as usize - 8 {
        return Err(Memory);
    }
    Ok(instructions as u32)
}

/// Pushes the instruction that ends a guard's body: it leaves out what was pushed since `start`.
fn push_end(code: &mut Items<Instr>, start: usize) -> Result<(), Memory>
    requires { start ≤ length code.old }
    ensures { OnOk result ((front ys : List Instr) → length front ≡ start → code.old ≡ front ++ ys
        → code.new ≡ front ++ (ys ++ (Instr.Skip (length ys) ∷ []))) }
{
    let count = count_of(code.len() - start)?;
    code.push(Instr::Skip { count })?;
    Ok(())
}

/// Pushes the test of a guard, which leaves out its body where it is 0; the body is what was pushed since `start`.
fn push_test(
    code: &mut Items<Instr>,
    condition: &Rhs,
    start: usize,
    widths: &[u32],
    words: u32,
) -> Result<(), Memory>
    requires start { start ≤ length code.old }
    requires sized { IsRhsThere widths.now words condition.now }
    requires few { length widths.now + words < 2 ^ 32 }
    requires sizes { base widths.now words + 16 < 2 ^ 32 }
    ensures { OnOk result ((front xs : List Instr) → length front ≡ start → code.old ≡ front ++ xs
        → code.new ≡ front ++ (xs ++ (Instr.SkipIfZero (slot widths.now condition.now (base widths.now words)) (length xs + 1)
        ∷ test_code widths.now words condition.now))) }
{
    let count = count_of(code.len() - start)? + 1;
    let t = base(widths, words);
    code.push(Instr::SkipIfZero {
        test: slot(condition, t, widths, words),
        count,
    })?;
    take(code, condition, t, widths, words)?;
    lower(code, condition, t, widths, words)?;
    Ok(())
}

/// Pushes the code of a statement. What it changes begins at slot `offset`.
#[cycle(statement)]
fn push_act(
    code: &mut Items<Instr>,
    act: &Act,
    offset: u32,
    widths: &[u32],
    words: u32,
) -> Result<(), Memory>
    requires sized { IsActThere widths.now words act.now }
    requires few { offset + length widths.now + words < 2 ^ 32 }
    requires sizes { base widths.now words + 16 < 2 ^ 32 }
    ensures { OnOk result (code.new ≡ code.old ++ act_code widths.now words offset act.now) }
{
    match act {
        Act::Set { target, value } => {
            push_set(code, target.as_slice(), value, offset, widths, words)?;
            Ok(())
        }
        Act::Read(_) => Ok(()),
        Act::Branch { guards, otherwise } => {
            see_choice(guards, otherwise);
            let start = code.len();
            push_acts(code, otherwise, offset, widths, words)?;
            push_guards(code, guards, start, offset, widths, words)?;
            Ok(())
        }
    }
}

/// Pushes the code of guards, where what else is done was pushed since `start`.
#[cycle(statement)]
fn push_guards(
    code: &mut Items<Instr>,
    guards: &Items<Guard>,
    start: usize,
    offset: u32,
    widths: &[u32],
    words: u32,
) -> Result<(), Memory>
    requires start { start ≤ length code.old }
    requires sized { AreGuardsThere widths.now words guards.now }
    requires few { offset + length widths.now + words < 2 ^ 32 }
    requires sizes { base widths.now words + 16 < 2 ^ 32 }
    ensures { OnOk result ((front ys : List Instr) → length front ≡ start → code.old ≡ front ++ ys
        → code.new ≡ front ++ guard_code widths.now words offset guards.now ys) }
{
    let guards = guards.as_slice();
    let mut i = guards.len();
    'guards: while i > 0 {
        i -= 1;
        let guard = &guards[i];
        push_end(code, start)?;
        let body = code.len();
        push_acts(code, &guard.body, offset, widths, words)?;
        push_test(code, &guard.condition, body, widths, words)?;
    }
    Ok(())
}

/// Pushes the code of statements.
#[cycle(statement)]
pub fn push_acts(
    code: &mut Items<Instr>,
    acts: &Items<Act>,
    offset: u32,
    widths: &[u32],
    words: u32,
) -> Result<(), Memory>
    requires sized { IsBlockThere widths.now words acts.now }
    requires few { offset + length widths.now + words < 2 ^ 32 }
    requires sizes { base widths.now words + 16 < 2 ^ 32 }
    ensures { OnOk result (code.new ≡ code.old ++ block_code widths.now words offset acts.now) }
{
    let acts = acts.as_slice();
    let mut i = acts.len();
    'acts: while i > 0 {
        i -= 1;
        push_act(code, &acts[i], offset, widths, words)?;
    }
    Ok(())
}
