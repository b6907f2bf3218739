//! Laws of the definitions.

ghost use Rattle.env_script.specs.ScriptLaws.{ReachIsAsSaid, TheGreatestDecides};

/// Each step of a script is reached as its kind says: behind a `send` 1 plus the first cycle in which the channel
/// completes, behind `take n` 1 plus that of the n-th completion, behind `wait n` n cycles later, behind `after x n` in the
/// least cycle before which x has completed n times, and behind `take all` never.
pub fn reach_is_as_said()
    ensures { ReachIsAsSaid }
{}

/// The step that decides is the last one that is reached by the present cycle.
pub fn the_greatest_decides()
    ensures { TheGreatestDecides }
{}
