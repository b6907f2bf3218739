//! Laws of the definitions.

ghost use Rattle.env_script.specs.Laws.{LastingOffers, ScriptLasts};

/// Where each offer fits its channel and stays until it is taken, so do the offers of a run.
pub fn lasting_offers()
    ensures { LastingOffers }
{}

/// The offers of a script that fits its channels fit them, whatever the rows, and stay until they are taken.
pub fn script_lasts()
    ensures { ScriptLasts }
{}
