//! Laws of the definitions.

ghost use Rattle.net_drive.specs.Laws.{NoneFoundAllDriven, NoneFoundMemoriesOnce};

/// Where nothing is found, no driver writes a bit of a pin, each bit of a wire is written by exactly one, which names it once, and
/// each reg is named by at most one always block.
pub fn none_found_all_driven()
    ensures { NoneFoundAllDriven }
{}

/// Where nothing is found, each memory is named by at most one always block.
pub fn none_found_memories_once()
    ensures { NoneFoundMemoriesOnce }
{}
