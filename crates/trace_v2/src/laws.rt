//! Laws of the definitions.

ghost use Rattle.trace_v2.specs.Migration.{MigrationKeeps, VersionsDiffer};
ghost use Rattle.trace_v2.specs.OldDecoding.{OneOldPlace, OneOldReading, OneOldSalvage};

/// No bytes are the old encoding of two traces.
pub fn one_old_reading()
    ensures { OneOldReading }
{}

/// The fault in bytes that are no old encoding has one place.
pub fn one_old_place()
    ensures { OneOldPlace }
{}

/// No bytes are salvaged by version 1 in two ways, unless memory runs out.
pub fn one_old_salvage()
    ensures { OneOldSalvage }
{}

/// What is read of a migrated trace is what the old bytes encode.
pub fn migration_keeps()
    ensures { MigrationKeeps }
{}

/// What begins with an old header begins as an old trace does, and what begins with one of today doesn't.
pub fn versions_differ()
    ensures { VersionsDiffer }
{}
