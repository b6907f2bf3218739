//! The numbers that a design begins with.

ghost use Rattle.std.specs.Prelude.{◌≡◌, IfOk, replicate};
ghost use Rattle.net_design.specs.Settled.{initial};

use crate::design::Design;
use std::alloc::Global;
use vidi_bits::{Items, Memory, Numbers};

/// `count` zeros.
pub fn zeros(alloc: Global, count: usize) -> Result<Numbers, Memory>
    ensures { IfOk result (λ xs. xs ≡ replicate count 0) }
{
    let numbers = Vec::from_elem(alloc, 0, count)?;
    Ok(Items::from_vec(numbers))
}

/// The initial numbers of the nets (IEEE 1364-2005, 6.2.1): a net has that of its register, the first where it has more, else 0.
pub fn initial_numbers(alloc: Global, design: &Design) -> Result<Numbers, Memory>
    ensures { IfOk result (λ numbers. numbers ≡ (initial design.now).nets) }
{
    let mut numbers = zeros(alloc, design.nets.len())?;
    let registers = design.registers.as_slice();
    let mut i = registers.len();
    'registers: while i > 0 {
        i -= 1;
        let register = &registers[i];
        if register.net < numbers.len() {
            numbers.set(register.net, register.initial);
        }
    }
    Ok(numbers)
}
