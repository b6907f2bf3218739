//! Laws of the printed text.

ghost use Rattle.vlog_print.specs.Printed.{PrintedIsSpelled, PrintedIsRead};

/// The printed text of a tree of good shape has the tree's tokens.
pub fn printed_is_spelled()
    ensures { PrintedIsSpelled }
{}

/// What is read of the printed text of a tree of good shape, where no limit is passed, is this tree, lines aside.
pub fn printed_is_read()
    ensures { PrintedIsRead }
{}
