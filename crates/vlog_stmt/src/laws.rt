//! Laws of the definitions.

ghost use Rattle.std.specs.Prelude.{ℕ};
ghost use Rattle.vlog_stmt.specs.Laws.{BodiesAreRead, ReadBodiesAreSpelled, BodyLinesDontCount};

/// What is spelled is read.
pub fn spelled_is_read()
    ensures { BodiesAreRead }
{}

/// What is read is spelled.
pub fn read_is_spelled()
    ensures { ReadBodiesAreSpelled ℕ }
{}

/// Lines change nothing but lines.
pub fn lines_dont_count()
    ensures { BodyLinesDontCount ℕ }
{}
