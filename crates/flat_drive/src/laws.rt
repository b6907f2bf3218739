//! Laws of the definitions.

ghost use Rattle.flat_drive.specs.Laws.{FindingsAreTheFiles};

/// What is found in the flat design, with drivers and clocked blocks that do what the instances' items say, is what is found in the
/// instances.
pub fn findings_are_the_files()
    ensures { FindingsAreTheFiles }
{}
