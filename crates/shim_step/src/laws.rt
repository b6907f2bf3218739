//! Laws of the shims' Verilog and of what they rest on, as contracts of functions that do nothing.

ghost use Rattle.shim_step.specs.Part.{PartIsSettled, PartIsNext, PartIsInitial};
ghost use Rattle.shim_step.specs.FlatPart.{PartSettles, PartGoesOn, PartBegins};
ghost use Rattle.shim_step.specs.Maps.{ListsAreMaps, MemoriesDiffer};
ghost use Rattle.shim_step.specs.Nets.{NetIsRead, NetIsAssigned, NetsAreJoined, NetsStand, RegsAreHeld, NetsBegin};
ghost use Rattle.shim_step.specs.Recording.{RecordsRows, RecordsResets, RecordsBegin};
ghost use Rattle.shim_step.specs.Replaying.{ReplaysRows, ReplaysResets, ReplaysBegin};
ghost use Rattle.shim_step.specs.OneRow.{OneRecordedRow, OneReplayedRow, OrderedSettleOnce, RecordsEach, ReplaysEach, StatesSettleOnce};

/// An instance means its module: where a map is settled for a file with a top, what it has below an instance of which no parameter is
/// overridden is settled for the instance's module as top, at the pins that the instance has, and so for the next state and the initial
/// one.
pub fn parts_are_designs()
    ensures settled { PartIsSettled }
    ensures next { PartIsNext }
    ensures initial { PartIsInitial }
{}

/// The same at flat designs, by what each of them means.
pub fn flat_parts_are_designs()
    ensures settles { PartSettles }
    ensures goes_on { PartGoesOn }
    ensures begins { PartBegins }
{}

/// Each list of numbers of a design's nets and words is the list of a map, where no two nets and no two memories have the same full name;
/// no two memories of an accepted file's design have.
pub fn lists_are_maps()
    ensures maps { ListsAreMaps }
    ensures differ { MemoriesDiffer }
{}

/// What reading, assigning and joining whole nets asks of their numbers.
pub fn nets_are_named()
    ensures read { NetIsRead }
    ensures assigned { NetIsAssigned }
    ensures joined { NetsAreJoined }
{}

/// The nets of an instance of a plain module are nets by their names; without `always @*` its registers have what the state holds, and
/// without initialisers they begin with 0.
pub fn nets_stand()
    ensures nets { NetsStand }
    ensures held { RegsAreHeld }
    ensures begin { NetsBegin }
{}

/// In each cycle of a wrapped file with the top that records, whatever the offers and gates on its ports, the outputs show the row that
/// monitors round the design fill, the design makes its step, and the monitors keep what is in flight. So in reset cycles, with all gates
/// down, and in the initial state.
pub fn recording_steps()
    ensures rows { RecordsRows }
    ensures resets { RecordsResets }
    ensures begin { RecordsBegin }
{}

/// In each cycle of a wrapped file with the top that replays, after at most `MOST_CYCLES` others since a reset, whatever the feed on its ports,
/// the outputs and wires show the row that replayers round the design fill, the design makes its step, and the counters have the
/// completions. So in reset cycles, in which no replayer has a next event, and in the initial state.
pub fn replaying_steps()
    ensures rows { ReplaysRows }
    ensures resets { ReplaysResets }
    ensures begin { ReplaysBegin }
{}

/// Where a design settles in at most one way, the row that monitors round it fill for given offers and gates, after a given row, is one
/// row, all of its parts but its mark determined, and so is the row that replayers round it fill under a given feed, after given rows. A design with one
/// settled map settles so in each of its states, and a lawful one whose drivers have an order in whatever state.
pub fn one_shown_row()
    ensures recorded { OneRecordedRow }
    ensures replayed { OneReplayedRow }
    ensures states { StatesSettleOnce }
    ensures ordered { OrderedSettleOnce }
{}

/// So the wrapped file with the top that records shows whatever row monitors round such a design fill, and with the top that replays
/// whatever row replayers round it fill.
pub fn shown_rows_stand()
    ensures records { RecordsEach }
    ensures replays { ReplaysEach }
{}
