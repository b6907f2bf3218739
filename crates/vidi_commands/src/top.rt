//! The one public call.

ghost use Rattle.std.specs.Prelude.{◌≡◌, ℕ, ◌≤◌, Bool, List};
ghost use Rattle.wrap_command.specs.vidi_io.Cause.{Rose};
ghost use Rattle.wrap_command.specs.vidi_io.Shelf.{HasStarted, Later};
ghost use Rattle.wrap_command.specs.vidi_io.Sink.{Frame};
ghost use Rattle.wrap_command.specs.vidi_io.Writing.{IsKept};
ghost use Rattle.vidi_commands.specs.Answer.{Answers, Earns, Says, StartsNone, Stops};
ghost use Rattle.wrap_command.specs.vidi_bench.AnswerText.{text_of};
ghost use Rattle.wrap_command.specs.vidi_bench.Ended.{Owes};
ghost use Rattle.vidi_commands.specs.Said as said;

use crate::command::Command;
use sample_command::replay_command::replay;
use sample_command::run_commands::{check, record, run};
use sample_command::sample;
use std::alloc::Global;
use trace_commands::{bursts, compare, dump, migrate, move_completion, salvage};
use wrap_command::vidi_bench::{Answer, Ended, Status, usage};
use wrap_command::vidi_io::{Failed, Shelf, Sink, Words};
use wrap_command::wrap;

/// Does what the words ask for: reads and writes files of the shelf, and says its text to `out`.
///
/// - `dump TRACE` prints a trace.
/// - `check DESIGN TOP` reads a design text and prints how many modules and items it has, or why it is refused.
/// - `run DESIGN MAP SCRIPT` plays a design in the environment of a script, and prints what starts and ends on its channels.
/// - `record DESIGN MAP SCRIPT STALLS TRACE` does so behind a store that drains as the stalls say, and writes the trace of the run.
/// - `replay DESIGN MAP TRACE CYCLES OUT` plays a trace again on a design, writes the trace of the replay, and prints what is missing,
///   extra, different or early in it, or what a replay that is short holds back and waits for.
/// - `compare TRACE OTHER` prints what is missing, extra, different or early in the second trace.
/// - `salvage TRACE OUT` writes what is whole of a trace that was cut off.
/// - `migrate TRACE OUT` writes an old trace, one of version 1, in the bytes of today.
/// - `bursts TRACE AXI` groups the transactions of a trace into the bursts of AMBA AXI4, by a file that says which channels are whose.
/// - `move TRACE CH J before CH K OUT`, and the same with `after`, writes a trace with the J-th completion of one channel next to the K-th
///   of another.
/// - `wrap DESIGN MAP OUT` writes a design with the monitors and replayers of the map's channels round it, as Verilog.
/// - `sample NUMBER` makes a design and its files from a number, records and replays them in memory, and prints what is missing, extra,
///   different or early in the replay.
///
/// The clause `answers` has the cause of each answer: `Usage` where the words give no command, else
/// what the command owes for the files that the shelf tells, with the files that are left. Reads and writes that
/// fail are answered only where a count of faults rose: `WriteFault` is a failed push to `out`, with a front of the
/// text said, or a failed write of the shelf, with a file's writing stopped. Want of memory alone is free.
/// At most one file is started, and that once, so nothing that was written to it is taken back; `Usage`,
/// `ReadFault`, `Refused` and `Memory` start none.
pub fn vidi<S: Shelf, O: Sink>(alloc: Global, words: &Words, shelf: &mut S, out: &mut O) -> Status
    // Each answer with its cause, and what was said.
    ensures answers { Answers
        (Earns words.now (S.files shelf.old) (λ name. Rose (S.read_faults shelf.old name) (S.read_faults shelf.new name))
        (HasStarted (S.starts shelf.old) (S.starts shelf.new)))
        (Stops words.now (S.files shelf.old) (HasStarted (S.starts shelf.old) (S.starts shelf.new)))
        (Rose (S.write_faults shelf.old) (S.write_faults shelf.new)) (Rose (O.faults out.old) (O.faults out.new))
        (O.told out.old) (O.told out.new) (S.files shelf.new) result }

    // Where no count rose, the answer is that of a call in which nothing fails.
    ensures complete { ((name : List ℕ) → ¬ Rose (S.read_faults shelf.old name) (S.read_faults shelf.new name))
        → ¬ Rose (S.write_faults shelf.old) (S.write_faults shelf.new)
        → ¬ Rose (O.faults out.old) (O.faults out.new)
        → Answers (Earns words.now (S.files shelf.old) (λ name. ⊥) (HasStarted (S.starts shelf.old) (S.starts shelf.new))) (λ left. ⊥) ⊥ ⊥
        (O.told out.old) (O.told out.new) (S.files shelf.new) result }

    // At most one file was started, and that once: none before an answer that refuses.
    ensures starts { (once : Bool) × HasStarted (S.starts shelf.old) (S.starts shelf.new) once }
    ensures unstarted { StartsNone result → S.starts shelf.new ≡ S.starts shelf.old }

    // What every answer leaves.
    ensures counts { Later (S.read_faults shelf.old) (S.read_faults shelf.new) (S.write_faults shelf.old) (S.write_faults shelf.new) }
    ensures faults { O.faults out.old ≤ O.faults out.new }
    ensures place { O.place out.new ≡ O.place out.old }
    ensures frame { (f : Frame) → O.has_frame out.old f → O.has_frame out.new f }
{
    match answer_to(alloc, words, shelf) {
        Ok(answer) => say(out, answer),
        Err(Ended::Refused(answer)) => say(out, answer),
        Err(Ended::Memory) => say_memory(out),
        Err(Ended::WriteFault) => Status::WriteFault,
    }
}

/// What these words are answered, before anything is said.
fn answer_to<S: Shelf>(alloc: Global, words: &Words, shelf: &mut S) -> Result<Answer, Ended>
    ensures owed { Owes (Earns words.now (S.files shelf.old)
        (λ name. Rose (S.read_faults shelf.old name) (S.read_faults shelf.new name)) (HasStarted (S.starts shelf.old) (S.starts shelf.new)))
        (Stops words.now (S.files shelf.old) (HasStarted (S.starts shelf.old) (S.starts shelf.new)))
        (Rose (S.write_faults shelf.old) (S.write_faults shelf.new))
        (IsKept (S.files shelf.old) (HasStarted (S.starts shelf.old) (S.starts shelf.new))) (S.files shelf.new) result }
    ensures counts { Later (S.read_faults shelf.old) (S.read_faults shelf.new) (S.write_faults shelf.old) (S.write_faults shelf.new) }
{
    match Command::of(words) {
        Some(Command::Dump { trace }) => dump(alloc, trace, shelf),
        Some(Command::Check { design, top }) => check(alloc, design, top, shelf),
        Some(
            Command::Run {
                design,
                map,
                script,
            },
        ) => run(alloc, design, map, script, shelf),
        Some(
            Command::Record {
                design,
                map,
                script,
                stalls,
                trace,
            },
        ) => record(alloc, design, map, script, stalls, trace, shelf),
        Some(
            Command::Replay {
                design,
                map,
                trace,
                cycles,
                out,
            },
        ) => replay(alloc, design, map, trace, cycles, out, shelf),
        Some(Command::Compare { trace, other }) => compare(alloc, trace, other, shelf),
        Some(Command::Salvage { trace, out }) => salvage(alloc, trace, out, shelf),
        Some(Command::Migrate { trace, out }) => migrate(alloc, trace, out, shelf),
        Some(Command::Bursts { trace, axi }) => bursts(alloc, trace, axi, shelf),
        Some(Command::Move { trace, wish, out }) => move_completion(alloc, trace, wish, out, shelf),
        Some(Command::Wrap { design, map, out }) => wrap(alloc, design, map, out, shelf),
        Some(Command::Sample { number }) => sample(alloc, number),
        None => Ok(usage(alloc)?),
    }
}

/// Writes the text of an answer. Where that fails, the answer is `WriteFault` in its place.
fn say<O: Sink>(out: &mut O, answer: Answer) -> Status
    ensures said { Says answer.status (text_of answer.text) (Rose (O.faults out.old) (O.faults out.new)) (O.told out.old)
        (O.told out.new) result }
    ensures faults { O.faults out.old ≤ O.faults out.new }
    ensures place { O.place out.new ≡ O.place out.old }
    ensures frame { (f : Frame) → O.has_frame out.old f → O.has_frame out.new f }
{
    let Answer { status, text } = answer;
    match text.push(out) {
        Ok(()) => status,
        Err(Failed) => Status::WriteFault,
    }
}

/// Writes that no memory was found, for which none is taken.
fn say_memory<O: Sink>(out: &mut O) -> Status
    ensures said { Says Status.Memory said.memory_line (Rose (O.faults out.old) (O.faults out.new)) (O.told out.old)
        (O.told out.new) result }
    ensures faults { O.faults out.old ≤ O.faults out.new }
    ensures place { O.place out.new ≡ O.place out.old }
    ensures frame { (f : Frame) → O.has_frame out.old f → O.has_frame out.new f }
{
    if out.push(b"vidi: out of memory\n").is_err() {
        return Status::WriteFault;
    }
    Status::Memory
}
