//! Laws of the definitions.

ghost use Rattle.room_ledger.specs.Laws.{RoomKeepsGates, DownOnlyWhileBytesWait, PermitDownOnlyWhileBytesWait};
ghost use Rattle.room_ledger.specs.Laws.{AllStayUp, OneSetOfGates, SameLength};

/// Over every list of rows, `emit`, `reset` before each fresh row, `drain` and `regrant` after each row keep the room at *Gates*.
pub fn room_keeps_gates()
    ensures { RoomKeepsGates }
{}

/// A gate is down only while bytes wait in the store.
pub fn down_only_while_bytes_wait()
    ensures { DownOnlyWhileBytesWait }
{}

/// The permit to reset is down only while bytes wait in the store.
pub fn permit_down_only_while_bytes_wait()
    ensures { PermitDownOnlyWhileBytesWait }
{}

/// Where everything drains in each cycle, all gates stay up.
pub fn all_stay_up()
    ensures { AllStayUp }
{}

/// Each row has exactly one set of gates.
pub fn one_set_of_gates()
    ensures { OneSetOfGates }
{}

/// The length of a packet by the sizes of the contents is that by the channels.
pub fn same_length()
    ensures { SameLength }
{}
