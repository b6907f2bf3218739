//! Laws of the definitions, as contracts of a function that does nothing.

ghost use Rattle.flat_registers.specs.Laws.{HeldWhereOneSeat, InitialWhereOneSeat};

/// The flat design's registers hold the bits that the file's state does, and begin with its initial numbers, where each net of the
/// design is that of one instance.
pub fn registers_are_state()
    ensures held { HeldWhereOneSeat }
    ensures initial { InitialWhereOneSeat }
{}
