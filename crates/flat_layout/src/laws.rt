//! Laws of the definitions, as contracts of functions that do nothing.

ghost use Rattle.flat_parts.specs.Laws.{BuiltNumbers, SeatsStand, NetsHaveSeats, NetsHaveOneSeat, NetsAreThose};
ghost use Rattle.flat_layout.specs.Laws.{NamesDifferByPaths, NetsAreCounted, WordsAreCounted};

/// Each instance's numbers stand in the list of all numbers from its seat's places on.
pub fn seats_stand()
    ensures { SeatsStand }
{}

/// The list of a map for the design has the numbers of all instances, one behind the other.
pub fn built_numbers()
    ensures { BuiltNumbers }
{}

/// Each net of the design is a net of exactly one instance, and it has that net's name and width.
pub fn nets_have_seats()
    ensures seats { NetsHaveSeats }
    ensures one { NetsHaveOneSeat }
    ensures those { NetsAreThose }
{}

/// No two nets of the design have the same full name, where no two instances have the same path: a scope has each name once.
pub fn names_differ()
    ensures { NamesDifferByPaths }
{}

/// The design has as many nets, and as many words of memories, as the instances have together.
pub fn parts_are_counted()
    ensures nets { NetsAreCounted }
    ensures words { WordsAreCounted }
{}
