//! Laws of the definitions.

ghost use Rattle.run_model.specs.AlikeLaws.{DrivenAlike, MapsAlike, OneEnd, RunsAlike};

/// To designs that are alike the lines of a map are bound with the same answer.
pub fn maps_alike()
    ensures { MapsAlike }
{}

/// Designs that are alike show the same rows, so that they have the same runs and replays.
pub fn driven_alike()
    ensures { DrivenAlike }
{}

/// Designs that are alike have the same run of n cycles, under any plan of gates, which ends in the same way.
pub fn runs_alike()
    ensures { RunsAlike }
{}

/// A design with a map has one run of n cycles, which ends in one way.
pub fn one_end()
    ensures { OneEnd }
{}
