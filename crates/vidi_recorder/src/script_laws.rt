//! Laws of the definitions.

ghost use Rattle.vidi_recorder.specs.ScriptLaws.{FullPlanDrains, OneScriptRun, ScriptRunIsKept};

/// A design with its map and a script, behind a store, has exactly one run, which ends in one way.
pub fn one_script_run()
    ensures { OneScriptRun }
{}

/// Whatever the design, the script and the plan of stalls, the trace of the run records each transaction once and in order, with its
/// content, and its completion; a content stays until it is taken; and the trace has an encoding.
pub fn script_run_is_kept()
    ensures { ScriptRunIsKept }
{}

/// Under a plan each of whose lines lets out all that the store can hold, everything drains after each row.
pub fn full_plan_drains()
    ensures { FullPlanDrains }
{}
