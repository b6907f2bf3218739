//! A file written whole.

ghost use Rattle.std.specs.Prelude.{◌≡◌, true, OnOk, OnErr};
ghost use Rattle.vidi_io.specs.Cause.{Rose};
ghost use Rattle.vidi_io.specs.Shelf.{HasStarted, Later, holding};
ghost use Rattle.vidi_io.specs.Writing.{IsCutOff};

use crate::shelf::Shelf;
use crate::sink::Failed;

/// Makes the file of this name hold these bytes, which are added in one append; it is started exactly once. After `Failed` it is as
/// before or empty, where its start failed, or was started once and holds a front of them.
pub fn write_whole<S: Shelf>(shelf: &mut S, name: &str, bytes: &[u8]) -> Result<(), Failed>
    ensures ok { OnOk result (S.files shelf.new ≡ holding (S.files shelf.old) name.now bytes.now) }
    ensures started { OnOk result (HasStarted (S.starts shelf.old) (S.starts shelf.new) true) }
    ensures err { OnErr result (IsCutOff (S.files shelf.old) name.now bytes.now
        (HasStarted (S.starts shelf.old) (S.starts shelf.new)) (S.files shelf.new)) }
    ensures failed { OnErr result (Rose (S.write_faults shelf.old) (S.write_faults shelf.new)) }
    ensures counts { Later (S.read_faults shelf.old) (S.read_faults shelf.new) (S.write_faults shelf.old) (S.write_faults shelf.new) }
{
    shelf.start(name)?;
    shelf.append(name, bytes)
}
