//! The loop that a path closes.

ghost use Rattle.std.specs.Prelude.{◌≡◌, ℕ, ◌+◌, ◌-◌, ◌<◌, ◌≤◌, ◌++◌, OnOk, IfOk, length, slice_index};
ghost use Rattle.std.specs.List.{Contains};
ghost use Rattle.net_order.specs.Turn.{down, IsTurned};

use std::alloc::Global;
use vidi_bits::{Items, Memory, Numbers};

/// The place of a number that is on the path.
fn place_of(path: &[usize], number: usize) -> usize
    requires { Contains path.now number }
    ensures within { result < length path.now }
    ensures there { slice_index path.now result ≡ number }
{
    let mut place = 0;
    while path[place] != number {
        place += 1;
    }
    place
}

/// The place of the least number from a place on.
fn least_from(path: &[usize], from: usize) -> usize
    requires { from < length path.now }
    ensures from { from ≤ result }
    ensures within { result < length path.now }
    ensures least { (t : ℕ) → from ≤ t → t < length path.now → slice_index path.now result ≤ slice_index path.now t }
{
    let mut least = from;
    for place in from..path.len() {
        if path[place] < path[least] {
            least = place;
        }
    }
    least
}

/// Adds the numbers at the places below `high` down to `low`.
fn push_down(out: &mut Numbers, path: &[usize], low: usize, high: usize) -> Result<(), Memory>
    requires order { low ≤ high }
    requires within { high ≤ length path.now }
    ensures { OnOk result (out.new ≡ out.old ++ down path.now low (high - low)) }
{
    let mut place = high;
    while place > low {
        place -= 1;
        out.push(path[place] as u128)?;
    }
    Ok(())
}

/// The path from `number` on, backwards, turned so that the least is first.
pub fn turned(alloc: Global, path: &[usize], number: usize) -> Result<Numbers, Memory>
    requires { Contains path.now number }
    ensures { IfOk result (λ ds. IsTurned path.now number ds) }
{
    let first = place_of(path, number);
    let least = least_from(path, first);
    let mut out = Items::new(alloc);
    push_down(&mut out, path, first, least + 1)?;
    push_down(&mut out, path, least + 1, path.len())?;
    Ok(out)
}
