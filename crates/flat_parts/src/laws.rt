//! Laws of the definitions.

ghost use Rattle.flat_parts.specs.Laws.{InstancesAreAll, PathsDiffer, FirstIsTop, BuiltNumbers, SeatsStand, NetsHaveSeats, InitialAlike};
ghost use Rattle.flat_parts.specs.Settled.{NarrowByLaws, SettledByLaws};
ghost use Rattle.flat_parts.specs.Next.{NextAlike, InitialStateAlike};

/// Where no reason against a file and its top holds, the instances that elaboration lists are exactly those that stand at a path below
/// the top, each path once, and the first of them is the top.
pub fn instances_are_paths()
    ensures all { InstancesAreAll }
    ensures differ { PathsDiffer }
    ensures first { FirstIsTop }
{}

/// Where no reason holds, and no word of a memory has more than 128 bits, a map from full names to numbers is settled for the file exactly
/// where its list is for the flat design that has the parts of the file's instances. Words that fit their memories have no more bits.
pub fn settled_alike()
    ensures settled { SettledByLaws }
    ensures narrow { NarrowByLaws }
{}

/// Where the parts' laws hold, the next state of the design is the file's, and so is its initial state.
pub fn state_alike()
    ensures next { InstancesAreAll → BuiltNumbers → SeatsStand → NextAlike }
    ensures initial { InstancesAreAll → BuiltNumbers → SeatsStand → NetsHaveSeats → InitialAlike → InitialStateAlike }
{}
