//! Places in the steps of channels.

ghost use Rattle.std.specs.Prelude.{◌≡◌, ◌<◌, ◌+◌, ◌^◌, ◌≤◌, ℕ, List, length, slice_index, if◌then◌else◌};
ghost use Rattle.run_model.specs.vidi_bits.Number.{has};
ghost use Rattle.run_model.specs.trace_model.declared.row.Row.{Row};
ghost use Rattle.env_script.specs.Fits.{steps_of};
ghost use Rattle.env_script.specs.Places.{over_now, ReadsWithin, AllReadWithin, AreCounts, IsAt, Waited, ArePlaces, IsMoved};

use crate::{Script, Step};
use run_model::trace_model::names;

/// A channel's place in its steps.
#[derive(Clone, Copy, Drop)]
pub struct Place {
    /// The step's number, that of the end where no step is left.
    pub step: usize,
    /// The cycle in which the step was reached.
    pub reached: u32,
    /// How often the channel had completed before that cycle.
    pub before: u32,
}

/// Adds a row's ends to the completions of the channels.
pub fn count_ends(done: &mut [u32], ends: u128)
    requires { (c : ℕ) → slice_index done.old c + 1 < 2 ^ 32 }
    ensures { (c : ℕ) → c < length done.old → slice_index done.new c ≡ slice_index done.old c + (if has ends c then 1 else 0) }
{
    for c in 0..done.len() {
        if names(ends, c) {
            done[c] += 1;
        }
    }
}

/// Whether the step at a channel's place is over in this cycle.
fn is_over(done: &[u32], c: usize, cycle: u32, step: &Step, place: Place) -> bool
    requires channel { c < length done.now }
    requires reads { ReadsWithin (length done.now) step.now }
    ensures { result ≡ over_now done.now c cycle step.now place }
{
    match step {
        Step::Send { .. } => place.before < done[c],
        Step::Take { count } => *count <= done[c].saturating_sub(place.before),
        Step::TakeAll => false,
        Step::Wait { cycles } => *cycles <= cycle.saturating_sub(place.reached),
        Step::After { channel, count } => *count <= done[*channel],
    }
}

/// A channel's place once it has moved past each step that is over in this cycle.
fn moved(steps: &[Step], done: &[u32], c: usize, cycle: u32, from: Place) -> Place
    requires channel { c < length done.now }
    requires reads { AllReadWithin (length done.now) steps.now }
    ensures { (rows : List Row) → AreCounts rows done.now cycle → IsAt rows c steps.now from → Waited rows c steps.now from cycle
        → IsMoved rows c steps.now cycle result }
{
    let mut place = from;
    for at in from.step..steps.len() {
        if !is_over(done, c, cycle, &steps[at], place) {
            return place;
        }
        place = Place {
            step: at + 1,
            reached: cycle,
            before: done[c],
        };
    }
    place
}

/// Moves each channel's place past each step that is over in this cycle.
pub fn move_on(script: &Script, done: &[u32], cycle: u32, places: &mut [Place])
    requires places { length places.old ≡ length done.now }
    requires lists { length script.now.steps ≡ length done.now }
    requires reads { (c : ℕ) → AllReadWithin (length done.now) (steps_of script.now c) }
    ensures { (rows : List Row) → AreCounts rows done.now cycle → ArePlaces rows script.now places.old cycle
        → ArePlaces rows script.now places.new (cycle + 1) }
{
    let lists = script.steps.as_slice();
    for c in 0..places.len() {
        places[c] = moved(lists[c].as_slice(), done, c, cycle, places[c]);
    }
}
