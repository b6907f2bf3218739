//! Input pins, and numbers copied.

ghost use Rattle.std.specs.Prelude.{◌≡◌, IsTrue, ◌≤◌, ◌<◌, ◌+◌, ◌^◌, length, slice_index, slice_set, if◌then◌else◌};
ghost use Rattle.net_order.specs.Run.{enters, entered};

use net_design::{Direction, Port};
use net_order::vidi_bits::Numbers;

/// Number `i` of some pins, 0 past the last one.
fn pin_at(pins: &[u128], i: usize) -> u128
    ensures { result ≡ slice_index pins.now i }
{
    if i < pins.len() { pins[i] } else { 0 }
}

/// Enters the pin `next` at net `k`, where port `k` is an input; answers which pin is next then.
fn enter_one(port: &Port, pins: &[u128], next: usize, k: usize, nets: &mut Numbers) -> usize
    requires few { next + 1 < 2 ^ 64 }
    requires within { k < length nets.old }
    ensures next { result ≡ (if enters port.now then next + 1 else next) }
    ensures nets { nets.new ≡ slice_set nets.old k (if enters port.now then slice_index pins.now next else slice_index nets.old k) }
{
    match port.direction {
        Direction::Input => {
            nets.set(k, pin_at(pins, next));
            next + 1
        }
        Direction::Output => next,
    }
}

/// Enters the input pins at the nets of their ports.
pub fn enter(ports: &[Port], pins: &[u128], nets: &mut Numbers)
    ensures { nets.new ≡ entered ports.now pins.now nets.old }
{
    let mut next = 0;
    for (k, port) in ports.iter().enumerate() {
        if k >= nets.len() {
            return;
        }
        next = enter_one(port, pins, next, k, nets);
    }
}

/// Numbers copied over others.
pub fn copy_numbers(from: &[u128], to: &mut Numbers)
    requires { length to.old ≡ length from.now }
    ensures { to.new ≡ from.now }
{
    for (i, number) in from.iter().enumerate() {
        to.set(i, *number);
    }
}

/// Whether something is known of pins, and other pins are the same.
pub fn is_done(known: bool, pins: &[u128], given: &[u128]) -> bool
    ensures { IsTrue result → IsTrue known × (given.now ≡ pins.now) }
{
    known && given == pins
}
