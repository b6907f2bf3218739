//! Laws of the definitions, as contracts of functions that do nothing.

ghost use Rattle.vlog_driver.specs.Held.{DriversDoDuties, ItemsAreDuties, ConnsAreDuties};

/// Drivers that do what an item lists hold of a flat design's numbers exactly where the item holds of the numbers by full name, where the
/// instance's numbers stand from its first places on.
pub fn drivers_are_items()
    ensures drivers { DriversDoDuties }
    ensures items { ItemsAreDuties }
    ensures conns { ConnsAreDuties }
{}
