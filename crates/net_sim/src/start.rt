//! What a simulator begins with.

ghost use Rattle.std.specs.Prelude.{◌≡◌, ◌+◌, ◌<◌, ◌^◌, ◌++◌, ◌∷◌, [], OnOk, IfOk, length, replicate, if◌then◌else◌};
ghost use Rattle.net_design.specs.Settled.{initial, same_direction, word_count};
ghost use Rattle.net_design.specs.declared.design.Direction.TheVariants.{Input};
ghost use Rattle.net_sim.specs.Places.{port_places};

use net_design::{Design, Direction, Port, count_words, initial_numbers, zeros};
use net_order::vidi_bits::{Items, Memory, Numbers};
use std::alloc::Global;

/// Adds `count` zeros.
fn push_zeros(numbers: &mut Numbers, count: usize) -> Result<(), Memory>
    ensures { OnOk result (numbers.new ≡ numbers.old ++ replicate count 0) }
{
    for _done in 0..count {
        numbers.push(0)?;
    }
    Ok(())
}

/// The numbers of the initial state: those of the nets, then those of the words (IEEE 1364-2005, 6.2.1).
pub fn first_numbers(alloc: Global, design: &Design) -> Result<Numbers, Memory>
    requires { word_count design.now < 2 ^ 64 }
    ensures { IfOk result (λ numbers. numbers ≡ (initial design.now).nets ++ (initial design.now).words) }
{
    let mut numbers = initial_numbers(alloc, design)?;
    push_zeros(&mut numbers, count_words(design))?;
    Ok(numbers)
}

/// All numbers made 0.
pub fn clear(numbers: &mut Numbers)
    ensures { numbers.new ≡ replicate (length numbers.old) 0 }
{
    for i in 0..numbers.len() {
        numbers.set(i, 0);
    }
}

/// Adds a place where a port has this direction.
fn push_place(
    out: &mut Items<usize>,
    direction: Direction,
    port: &Port,
    place: usize,
) -> Result<(), Memory>
    ensures { OnOk result (out.new ≡ out.old ++ (if same_direction direction port.now.direction then place ∷ [] else [])) }
{
    if port.direction == direction {
        out.push(place)?;
    }
    Ok(())
}

/// The places of the ports of one direction.
pub fn places_of(
    alloc: Global,
    direction: Direction,
    ports: &[Port],
) -> Result<Items<usize>, Memory>
    ensures { IfOk result (λ places. places ≡ port_places direction 0 ports.now) }
{
    let mut out = Items::new(alloc);
    for (k, port) in ports.iter().enumerate() {
        push_place(&mut out, direction, port, k)?;
    }
    Ok(out)
}

/// A 0 for each input port.
pub fn zero_pins(alloc: Global, ports: &[Port]) -> Result<Numbers, Memory>
    ensures { IfOk result (λ pins. pins ≡ replicate (length (port_places Input 0 ports.now)) 0) }
{
    let inputs = places_of(alloc, Direction::Input, ports)?;
    Ok(zeros(alloc, inputs.len())?)
}
