//! Laws of the definitions.

ghost use Rattle.vidi_recorder.specs.Laws.{DrainedRunIsPlain, NoHiddenGate, OneRecordedRun, TheRunIsKept};

/// A design with its map, in an environment and under a plan of stalls, has exactly one run of each number of rows, and exactly one run
/// of so many cycles, which ends in one way.
pub fn one_recorded_run()
    ensures { OneRecordedRun }
{}

/// The trace of a run records each transaction once and in order, with its content, and its completion, and has an encoding.
pub fn the_run_is_kept()
    ensures { TheRunIsKept }
{}

/// A gate is down in a row only where bytes wait in the store.
pub fn no_hidden_gate()
    ensures { NoHiddenGate }
{}

/// Where everything drains in each cycle, the run is the one without a store.
pub fn drained_run_is_plain()
    ensures { DrainedRunIsPlain }
{}
