//! Laws of the samples' files.

ghost use Rattle.sample_gen.specs.Accepted.{CapacitiesSuffice, MapIsBound, MapIsRead, PlansAreRead, ScriptsAreRead};

/// The map of every sample is read: no line of it is at fault (M1).
pub fn map_is_read()
    ensures { MapIsRead }
{}

/// The map is bound to every design with the ports and the clock of the pipe (M2 to M4), with the channels `a` and `b`.
pub fn map_is_bound()
    ensures { MapIsBound }
{}

/// The plan of every sample is read: no line of it is at fault (P1).
pub fn plans_are_read()
    ensures { PlansAreRead }
{}

/// The script of every sample is read: no line of it is at fault (S1), and with the channels `a` and `b` of the map no channel (S2) and no
/// number (S3).
pub fn scripts_are_read()
    ensures { ScriptsAreRead }
{}

/// The store of every sample has the room that its channels need.
pub fn capacities_suffice()
    ensures { CapacitiesSuffice }
{}
