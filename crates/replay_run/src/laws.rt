//! Laws of the definitions.

ghost use Rattle.replay_run.specs.Laws.{OneOutcome};

/// Of recorded packets a design with a map has exactly one replay of at most so many cycles, in exactly one list of stretches, and it ends in
/// one way.
pub fn one_outcome()
    ensures { OneOutcome }
{}
