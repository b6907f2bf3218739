//! What statements write.

ghost use Rattle.std.specs.Prelude.{◌≡◌, ◌++◌, ◌+◌, ◌≤◌, ◌==◌, not, List, OnOk, IfOk, IfSome, All};
ghost use Rattle.std.specs.List.{AllByRecursion};
ghost use Rattle.std.specs.Option.{option_to_list, unwrap_or};
ghost use Rattle.net_design.specs.vidi_bits.Number.{IsWidth};
ghost use Rattle.net_design.specs.Value.{value};
ghost use Rattle.net_design.specs.Sized.{IsSizedRhs, IsSizedPlace, IsSizedAct, IsSizedBlock, AreSizedGuards};
ghost use Rattle.net_design.specs.declared.values.Update.{Update};
ghost use Rattle.net_design.specs.Updates.{written, written_to, apply, bit_updates, part_updates, place_updates};
ghost use Rattle.net_design.specs.Updates.{target_width, target_updates, seen, updates, block_updates, guard_updates};

use crate::expression::{value_of, word_in};
use net_design::vidi_bits::{Items, Memory, Numbers, put, shr_w};
use net_design::{
    Act, Guard, Place, Rhs, Target, Timing, Update, Values, number_at, place_width, see_branch,
};
use std::alloc::Global;

/// A list of updates, in order.
pub type Updates = Items<Update>;

/// The low bits of a number for `width` bits of a target from bit `low` on, where there are some.
fn bit_update(target: Target, low: u32, width: u32, number: u128) -> Option<Update>
    requires { width ≤ 128 }
    ensures same { option_to_list result ≡ bit_updates target low width number }
    ensures sized { IfSome result (λ u. IsWidth u.width) }
{
    if width == 0 {
        return None;
    }
    Some(Update {
        target,
        low,
        width,
        number,
    })
}

/// `width` bits of a target from the place `at` on of its `size` bits from bit `low` on, as far as they are there.
fn part_update(
    target: Target,
    low: u32,
    size: u32,
    at: u128,
    width: u32,
    number: u128,
) -> Option<Update>
    requires bits { low + size ≤ 128 }
    requires width { IsWidth width }
    ensures same { option_to_list result ≡ part_updates target low size at width number }
    ensures sized { IfSome result (λ u. IsWidth u.width) }
{
    if at >= u128::from(size) {
        return None;
    }
    let at = at as u32;
    Some(Update {
        target,
        low: low + at,
        width: width.min(size - at),
        number,
    })
}

/// The update that gives a place a number, where the place is there.
fn place_update(place: &Place, number: u128, values: &Values) -> Option<Update>
    requires { IsSizedPlace place.now }
    ensures same { option_to_list result ≡ place_updates place.now number values.now }
    ensures sized { IfSome result (λ u. IsWidth u.width) }
{
    match place {
        Place::Bits { span, .. } => bit_update(Target::Net(span.net), span.low, span.width, number),
        Place::BitsFrom { whole, at, width } => {
            let at = value_of(at, values);
            part_update(
                Target::Net(whole.net),
                whole.low,
                whole.width,
                at,
                *width,
                number,
            )
        }
        Place::Word {
            room,
            word,
            low,
            width,
            ..
        } => {
            let word = word_in(*room, value_of(word, values))?;
            bit_update(Target::Word(word), *low, *width, number)
        }
        Place::WordFrom {
            room,
            word,
            size,
            at,
            width,
        } => {
            let word = word_in(*room, value_of(word, values))?;
            let at = value_of(at, values);
            part_update(Target::Word(word), 0, *size, at, *width, number)
        }
    }
}

fn total_width(places: &[Place]) -> u32
    requires { target_width places.now ≤ 128 }
    ensures { result ≡ target_width places.now }
{
    let mut width = 0;
    for place in places {
        width += place_width(place);
    }
    width
}

/// Adds an update where there is one.
fn push_some(out: &mut Updates, update: Option<Update>) -> Result<(), Memory>
    requires width { IfSome update (λ u. IsWidth u.width) }
    requires old { All (λ u. IsWidth u.width) out.old }
    ensures same { OnOk result (out.new ≡ out.old ++ option_to_list update) }
    ensures sized { All (λ u. IsWidth u.width) out.new }
{
    if let Some(update) = update {
        out.push(update)?;
    }
    Ok(())
}

/// Bits of one number of a list replaced.
fn write(update: Update, i: usize, list: &mut Numbers)
    requires { IsWidth update.width }
    ensures { list.new ≡ written update i list.old }
{
    let old = number_at(list, i);
    if i < list.len() {
        list.set(i, put(old, update.low, update.width, update.number));
    }
}

/// One update made.
fn apply_one(update: Update, values: &mut Values)
    requires { IsWidth update.width }
    ensures { values.new ≡ written_to update.target update values.old }
{
    match update.target {
        Target::Net(i) => write(update, i, &mut values.nets),
        Target::Word(i) => write(update, i, &mut values.words),
    }
}

/// Updates made in order.
pub fn apply(updates: &[Update], values: &mut Values)
    requires { All (λ u. IsWidth u.width) updates.now }
    ensures { values.new ≡ apply updates.now values.old }
{
    for update in updates {
        apply_one(*update, values);
    }
}

/// What the next statement sees.
fn see(timing: Timing, updates: &[Update], values: &mut Values)
    requires { All (λ u. IsWidth u.width) updates.now }
    ensures { values.new ≡ seen timing updates.now values.old }
{
    match timing {
        Timing::Blocking => apply(updates, values),
        Timing::Nonblocking => (),
    }
}

/// The updates of a target that is given a number.
fn target_updates(
    alloc: Global,
    places: &[Place],
    number: u128,
    values: &Values,
) -> Result<Updates, Memory>
    requires wide { target_width places.now ≤ 128 }
    requires places { AllByRecursion (λ p. IsSizedPlace p) places.now }
    ensures same { IfOk result (λ us. us ≡ target_updates places.now number values.now) }
    ensures sized { IfOk result (λ us. All (λ u. IsWidth u.width) us) }
{
    let mut out = Items::new(alloc);
    let mut rest = total_width(places);
    for place in places {
        rest -= place_width(place);
        let part = shr_w(number, u128::from(rest), 128);
        push_some(&mut out, place_update(place, part, values))?;
    }
    Ok(out)
}

/// Adds updates at the end.
fn append(out: &mut Updates, more: &[Update]) -> Result<(), Memory>
    requires old { All (λ u. IsWidth u.width) out.old }
    requires more { All (λ u. IsWidth u.width) more.now }
    ensures same { OnOk result (out.new ≡ out.old ++ more.now) }
    ensures sized { All (λ u. IsWidth u.width) out.new }
{
    for update in more {
        out.push(*update)?;
    }
    Ok(())
}

/// The same numbers, in memory of their own.
pub fn copy(alloc: Global, values: &Values) -> Result<Values, Memory>
    ensures { IfOk result (λ v. v ≡ values.now) }
{
    let nets = Vec::from_slice(alloc, values.nets.as_slice())?;
    let words = Vec::from_slice(alloc, values.words.as_slice())?;
    Ok(Values {
        nets: Items::from_vec(nets),
        words: Items::from_vec(words),
    })
}

/// The updates of a statement.
#[cycle(statements)]
fn act_updates(alloc: Global, timing: Timing, act: &Act, values: &Values) -> Result<Updates, Memory>
    requires { IsSizedAct act.now }
    ensures same { IfOk result (λ us. us ≡ updates timing act.now values.now) }
    ensures sized { IfOk result (λ us. All (λ u. IsWidth u.width) us) }
{
    match act {
        Act::Set { target, value } => {
            let number = value_of(value, values);
            target_updates(alloc, target.as_slice(), number, values)
        }
        Act::Read(_) => Ok(Items::new(alloc)),
        Act::Branch { guards, otherwise } => {
            see_branch(guards, otherwise);
            if let Some(made) = first_true(alloc, timing, guards, values)? {
                return Ok(made);
            }
            acts_updates(alloc, timing, otherwise, values)
        }
    }
}

/// Whether a condition is true: its number isn't 0.
fn is_true(condition: &Rhs, values: &Values) -> bool
    requires { IsSizedRhs condition.now }
    ensures { result ≡ not (value condition.now values.now == 0) }
{
    value_of(condition, values) != 0
}

/// The updates of the first guard that is true, where one is.
#[cycle(statements)]
fn first_true(
    alloc: Global,
    timing: Timing,
    guards: &Items<Guard>,
    values: &Values,
) -> Result<Option<Updates>, Memory>
    requires { AreSizedGuards guards.now }
    ensures same { IfOk result (λ made. (us : List Update) → unwrap_or made us ≡ guard_updates timing guards.now us values.now) }
    ensures sized { IfOk result (λ made. IfSome made (λ us. All (λ u. IsWidth u.width) us)) }
{
    for guard in guards.as_slice() {
        if is_true(&guard.condition, values) {
            let made = acts_updates(alloc, timing, &guard.body, values)?;
            return Ok(Some(made));
        }
    }
    Ok(None)
}

/// The updates of a block.
#[cycle(statements)]
pub fn acts_updates(
    alloc: Global,
    timing: Timing,
    acts: &Items<Act>,
    values: &Values,
) -> Result<Updates, Memory>
    requires { IsSizedBlock acts.now }
    ensures same { IfOk result (λ us. us ≡ block_updates timing acts.now values.now) }
    ensures sized { IfOk result (λ us. All (λ u. IsWidth u.width) us) }
{
    let mut now = copy(alloc, values)?;
    let mut out = Items::new(alloc);
    for act in acts.as_slice() {
        let made = act_updates(alloc, timing, act, &now)?;
        see(timing, made.as_slice(), &mut now);
        append(&mut out, made.as_slice())?;
    }
    Ok(out)
}
