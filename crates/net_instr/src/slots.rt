//! How many slots code takes.

ghost use Rattle.std.specs.Prelude.{ℕ, ◌≤◌};
ghost use Rattle.net_instr.specs.Machine.{IsBelow, AreBelow};

use crate::instr::Instr;

/// How many slots an instruction takes for a step's number.
fn slots_for(instr: &Instr) -> usize
    ensures { (limit : ℕ) → result ≤ limit → IsBelow limit instr.now }
{
    match instr {
        Instr::Do { to, .. } => *to as usize + 1,
        _ => 0,
    }
}

/// How many slots code takes, `least` or more.
pub fn slots_of(code: &[Instr], least: usize) -> usize
    ensures below { AreBelow result code.now }
    ensures least { least ≤ result }
{
    let mut slots = least;
    for instr in code {
        slots = slots.max(slots_for(instr));
    }
    slots
}
