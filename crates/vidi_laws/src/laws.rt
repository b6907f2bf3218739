//! Laws of the definitions.

ghost use Rattle.vidi_laws.specs.Alike.{BuiltAlike};
ghost use Rattle.vidi_laws.specs.Headline.{DrainedRecordingIsTheRun, RecordedRunIsKept, ReplayIsFaithful, WrappedIsReadBack};
ghost use Rattle.vidi_laws.specs.OneAnswer.{OneAnswer};

use vidi_commands::chan_map::{one_binding, one_map_text};
use vidi_commands::env_script::{one_plan, one_script};
use vidi_commands::net_order::one_settled_map;
use vidi_commands::replay_run::one_outcome;
use vidi_commands::run_model::{bound_is_map_of, driven_alike, maps_alike};
use vidi_commands::trace_code::{one_place, one_reading, one_salvage};
use vidi_commands::trace_edit::one_move;
use vidi_commands::trace_v2::{one_old_place, one_old_reading, one_old_salvage};

/// Lawful designs that have the parts of one file's instances are alike.
pub fn built_alike()
    ensures { BuiltAlike }
{}

/// Of what a shelf tells, with no failed read, words earn one answer with one text, which leaves the same files,
/// or want of memory, or refuse the design for a loop, of which any may be named.
pub fn one_answer()
    ensures { OneAnswer }
{
    one_reading();
    one_place();
    one_salvage();
    one_old_reading();
    one_old_place();
    one_old_salvage();
    one_move();
    vidi_commands::vlog_lex::one_reading();
    vidi_commands::vlog_lex::read_or_stuck();
    vidi_commands::vlog_lex::one_stuck_line();
    vidi_commands::vlog_parse::one_lined_file();
    vidi_commands::vlog_parse::lined_files_are_files();
    vidi_commands::vlog_parse::one_item_line();
    vidi_commands::vlog_parse::one_depth();
    vidi_commands::vlog_design::loops_alike();
    built_alike();
    maps_alike();
    driven_alike();
    one_settled_map();
    bound_is_map_of();
    one_map_text();
    one_binding();
    one_script();
    one_plan();
    one_outcome()
}

/// Whatever the accepted design, script and plan of stalls, the trace of the run that `record` writes holds each channel's started and
/// completed transactions, with contents, once and in order.
pub fn recorded_run_is_kept()
    ensures { RecordedRunIsKept }
{}

/// Where everything drains after each row, `record` plays the run that `run` prints.
pub fn drained_recording_is_the_run()
    ensures { DrainedRecordingIsTheRun }
{}

/// Whatever the accepted design, and whatever the trace of its channels: in the trace of the replay that `replay` writes each inward
/// channel has its recorded contents in order, and no event that the replayers hold comes before a completion recorded before it.
pub fn replay_is_faithful()
    ensures { ReplayIsFaithful }
{}

/// What is read of the text that `wrap` writes is the wrapped tree: the design's modules, the monitors, the replayers and the tops. Lines
/// don't count.
pub fn wrapped_is_read_back()
    ensures { WrappedIsReadBack }
{
    vidi_commands::vlog_lex::one_reading();
    vidi_commands::vlog_parse::one_file();
    vidi_commands::vlog_parse::lined_files_are_files()
}
