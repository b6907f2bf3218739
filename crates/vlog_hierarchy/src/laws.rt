//! Laws of the definitions.

ghost use Rattle.vlog_hierarchy.specs.Laws.{MoreLevelsChangeNothing, ScopesAreNodes};

/// Where a top has fewer instances than levels are looked at, looking at more levels finds the same ones. So the
/// instances at 4,097 levels are all instances, unless there are more than 4,096.
pub fn more_levels_change_nothing()
    ensures { MoreLevelsChangeNothing }
{}

/// The instances whose clocks are looked at are those of `nodes_of`, in its order.
pub fn clocks_are_of_all_nodes()
    ensures { ScopesAreNodes }
{}
