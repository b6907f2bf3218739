//! Laws of runs and of the replay: they exist, they are one, and what holds of them.

ghost use Rattle.vidi_laws.specs.Headline.{BrokenRecordingIsSalvaged, PrintedRunKeepsContents, RecordedTraceIsReplayable, RecordedTraceIsShort, RecordingHidesNoGate, SalvagedTraceIsReplayable, WidePlanDrains};
ghost use Rattle.vidi_laws.specs.Migrated.{MigratedTraceIsReplayed};
ghost use Rattle.vidi_laws.specs.OneRun.{OnePrintedRun, OneRecording, OneReplayOfFiles};

use vidi_commands::trace_code::{front_is_salvaged, one_reading};

/// For accepted files there is exactly one run of each number of rows behind the store, and exactly one run that `record` writes.
pub fn one_recording()
    ensures { OneRecording }
{}

/// For accepted files there is exactly one run of each number of rows with all gates up, and exactly one that `run` prints.
pub fn one_printed_run()
    ensures { OnePrintedRun }
{}

/// For accepted files there is exactly one replay of at most so many cycles, which ends in one way.
pub fn one_replay_of_files()
    ensures { OneReplayOfFiles }
{}

/// The trace of the run that `record` writes isn't longer than a trace that is read.
pub fn recorded_trace_is_short()
    ensures { RecordedTraceIsShort }
{}

/// The trace of the run that `record` writes is one that `replay` accepts, of the same design and map.
pub fn recorded_trace_is_replayable()
    ensures { RecordedTraceIsReplayable }
{}

/// Of what is left of a recording that broke off, the header of its trace at least, `salvage` keeps exactly the packets of the run that lie
/// whole in it.
pub fn broken_recording_is_salvaged()
    ensures { BrokenRecordingIsSalvaged }
{
    front_is_salvaged()
}

/// What `salvage` leaves of the trace of the run that `record` writes is one that `replay` accepts, of the same design and map.
pub fn salvaged_trace_is_replayable()
    ensures { SalvagedTraceIsReplayable }
{}

/// `replay` accepts what `migrate` writes of an old trace, on each design with its channels, and what is replayed is the old trace itself.
pub fn migrated_trace_is_replayed()
    ensures { MigratedTraceIsReplayed }
{
    one_reading()
}

/// In a recording a gate is down only while bytes wait in the store.
pub fn recording_hides_no_gate()
    ensures { RecordingHidesNoGate }
{}

/// Under a plan each of whose lines lets out all that the store can hold, everything drains after each row.
pub fn wide_plan_drains()
    ensures { WidePlanDrains }
{}

/// In the run that `run` prints each transaction completes with the content of its start.
pub fn printed_run_keeps_contents()
    ensures { PrintedRunKeepsContents }
{}
