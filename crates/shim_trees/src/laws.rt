//! What holds of wrapped trees, as a contract of a function that does nothing.

ghost use Rattle.shim_trees.specs.Laws.{WrappedIsGood};

/// The wrapped tree of a file of good shape and a map of one of its modules has good shape.
pub fn wrapped_is_good()
    ensures { WrappedIsGood }
{}
