//! Laws of the definitions, as contracts of functions that do nothing.

ghost use Rattle.flat_clock.specs.Clock.{ClockIsInput, ClockIsPort};

/// Where no reason against a file and its top holds, the clock of the file's meaning is the 1-bit input of the top to which the name of
/// the first clocked block is joined, and there is none where there is no clocked block; and the port of the flat design that has a
/// clock's name is the first port of that name.
pub fn clock_is_joined_input()
    ensures input { ClockIsInput }
    ensures port { ClockIsPort }
{}
