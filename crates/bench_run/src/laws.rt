//! Laws of the definitions.

ghost use Rattle.bench_run.specs.Laws.{OnePlainRun, PlainRunKeepsContents};

/// A design with its map, in an environment, has exactly one plain run of each number of cycles, which ends in one way.
pub fn one_plain_run()
    ensures { OnePlainRun }
{}

/// In a plain run each transaction completes with the content of its start.
pub fn plain_run_keeps_contents()
    ensures { PlainRunKeepsContents }
{}
