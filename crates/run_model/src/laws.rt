//! Laws of the definitions.

ghost use Rattle.run_model.specs.Laws.{BoundIsMapOf, NoCircle, OneReplay, OneRun, OrderInTheOutput, ReplayKeepsContents, RunKeepsContents};

/// A map that was bound to a design is a map of it.
pub fn bound_is_map_of()
    ensures { BoundIsMapOf }
{}

/// For a design, its map, an environment and a plan of gates there is exactly one run of each number of rows, and exactly one run of
/// each number of cycles, which ends in one way.
pub fn one_run()
    ensures { OneRun }
{}

/// For a design, its map and recorded packets there is exactly one replay of each number of rows.
pub fn one_replay()
    ensures { OneReplay }
{}

/// In a stable run each transaction completes with the content of its start, and the trace of fewer than 65,536 rows is
/// well-formed, where offers stay until they are taken and gates go down only at completions.
pub fn run_keeps_contents()
    ensures { RunKeepsContents }
{}

/// The same of a stable replay.
pub fn replay_keeps_contents()
    ensures { ReplayKeepsContents }
{}

/// In what a stable replay records, each event that the replayers control is a recorded one, with its content, and comes after
/// every completion that was recorded before it; the contents of an inward channel are a prefix of those recorded.
pub fn order_in_the_output()
    ensures { OrderInTheOutput }
{}

/// Where a stable replay of a trace without resets hasn't ended, no event of the first packet that it hasn't shown whole is held back, and some event of
/// it is waited for: the replayers never wait for one another in a circle.
pub fn no_circle()
    ensures { NoCircle }
{}
