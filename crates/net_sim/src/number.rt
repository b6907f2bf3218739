//! Numbers of a list.

ghost use Rattle.std.specs.Prelude.{◌≡◌, ◌≤◌, length, slice_index};
ghost use Rattle.net_instr.specs.InPlace.{place, through};

use net_design::number_at;
use net_order::vidi_bits::{Items, Numbers};

/// The slot at which slot `i` is read.
fn place_of_slot(places: &Items<u32>, i: usize) -> usize
    ensures { result ≡ place places.now i }
{
    let places = places.as_slice();
    if i < places.len() {
        places[i] as usize
    } else {
        i
    }
}

/// The number that is seen at slot `i`.
pub fn number_seen(places: &Items<u32>, slots: &Numbers, i: usize) -> u128
    requires { length places.now ≤ length slots.now }
    ensures { result ≡ slice_index (through places.now slots.now) i }
{
    number_at(slots, place_of_slot(places, i))
}
