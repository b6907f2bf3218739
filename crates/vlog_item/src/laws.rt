//! Laws of the definitions.

ghost use Rattle.std.specs.Prelude.{ℕ};
ghost use Rattle.vlog_item.specs.Laws.{ItemsAreRead, ReadItemsAreSpelled, ItemLinesDontCount};

/// What is spelled is read.
pub fn spelled_is_read()
    ensures { ItemsAreRead }
{}

/// What is read is spelled.
pub fn read_is_spelled()
    ensures { ReadItemsAreSpelled ℕ }
{}

/// Lines change nothing but lines.
pub fn lines_dont_count()
    ensures { ItemLinesDontCount ℕ }
{}
