//! What holds of every reading of a script and of a plan of stalls.

ghost use Rattle.env_script.specs.OneReading.{OnePlan, OneScript};

/// The text of a script has one reading, and where it is refused one reason.
pub fn one_script()
    ensures { OneScript }
{}

/// The text of a plan of stalls has one reading, and where it is refused one reason.
pub fn one_plan()
    ensures { OnePlan }
{}
