//! Laws of the definitions, as contracts of functions that do nothing.

ghost use Rattle.flat_drivers.specs.Laws.{InstancesAreDeclared, InstancesAreFaultless};

/// The table of a file's modules has at the place of each instance's module what that module declares: a condition of `drivers_of`.
pub fn instances_are_declared()
    ensures { InstancesAreDeclared }
{}

/// Each instance has a lawful scope, where E5 and E6 find nothing in any: a condition of `drivers_of`.
pub fn instances_are_faultless()
    ensures { InstancesAreFaultless }
{}
