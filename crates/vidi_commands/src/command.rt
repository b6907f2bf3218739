//! The words of a command line.

ghost use Rattle.std.specs.Prelude.{◌≡◌, ◌≢◌, Bool, ℕ, [], ◌∷◌, MatchOption, codes};
ghost use Rattle.trace_commands.specs.Moves.{wanted, Wanted};
ghost use Rattle.vidi_commands.specs.Command as spec;

use sample_command::sample_gen::LARGEST;
use sample_command::trace_code::trace_model::MOST_CYCLES;
use trace_commands::{Completion, Wish};
use wrap_command::vidi_io::Words;
use wrap_command::vidi_lines::number;

/// A command with its parts.
#[derive(Clone, Copy)]
pub enum Command<'a> {
    Dump {
        trace: &'a str,
    },
    /// `top` is the name of a module.
    Check {
        design: &'a str,
        top: &'a str,
    },
    /// The design is played as the map and the script say.
    Run {
        design: &'a str,
        map: &'a str,
        script: &'a str,
    },
    /// The design is played as the map and the script say, behind a store that drains as the stalls say, and `trace` gets its trace.
    Record {
        design: &'a str,
        map: &'a str,
        script: &'a str,
        stalls: &'a str,
        trace: &'a str,
    },
    /// The trace is replayed on the design for at most so many cycles, 1 to 50,000, and `out` gets the trace of the replay.
    Replay {
        design: &'a str,
        map: &'a str,
        trace: &'a str,
        cycles: u32,
        out: &'a str,
    },
    /// `other` is compared with `trace`.
    Compare {
        trace: &'a str,
        other: &'a str,
    },
    /// `out` gets what is whole of `trace`.
    Salvage {
        trace: &'a str,
        out: &'a str,
    },
    /// `out` gets today's bytes of the old trace.
    Migrate {
        trace: &'a str,
        out: &'a str,
    },
    /// The transactions of `trace` are grouped into bursts, by what `axi` says of its channels.
    Bursts {
        trace: &'a str,
        axi: &'a str,
    },
    /// `out` gets `trace` with a completion moved.
    Move {
        trace: &'a str,
        wish: Wish<'a>,
        out: &'a str,
    },
    /// `out` gets the design with the shims of the map round it.
    Wrap {
        design: &'a str,
        map: &'a str,
        out: &'a str,
    },
    /// The sample of this number, 0 to 6,000, is recorded and replayed.
    Sample {
        number: u32,
    },
}

impl<'a> Command<'a> {
    /// The command that the words give, if they give one.
    pub fn of(words: &'a Words) -> Option<Command<'a>>
        ensures { MatchOption result ((c : spec.Command) → ¬ spec.IsGiven words.now c) (λ c. spec.IsGiven words.now (spec.plain c)) }
    {
        match words.as_slice() {
            [name, part] => of_one(name.as_str(), part.as_str()),
            [name, first, second, third] => of_three(
                name.as_str(),
                first.as_str(),
                second.as_str(),
                third.as_str(),
            ),
            [name, first, second] => of_two(name.as_str(), first.as_str(), second.as_str()),
            [name, design, map, script, stalls, trace] => of_five(
                name.as_str(),
                design.as_str(),
                map.as_str(),
                script.as_str(),
                stalls.as_str(),
                trace.as_str(),
            ),
            [name, trace, channel, index, side, other, other_index, out] => {
                let words = MoveWords {
                    channel: channel.as_str(),
                    index: index.as_str(),
                    side: side.as_str(),
                    other: other.as_str(),
                    other_index: other_index.as_str(),
                };
                of_seven(name.as_str(), trace.as_str(), words, out.as_str())
            }
            _ => None,
        }
    }
}

/// The words that say which completion is moved, and where.
#[derive(Clone, Copy)]
struct MoveWords<'a> {
    channel: &'a str,
    index: &'a str,
    side: &'a str,
    other: &'a str,
    other_index: &'a str,
}

/// The command of this name with seven parts. The file that is written isn't the one that is read.
fn of_seven<'a>(
    name: &str,
    trace: &'a str,
    words: MoveWords<'a>,
    out: &'a str,
) -> Option<Command<'a>>
    ensures { MatchOption result ((c : spec.Command) → ¬ spec.IsGiven (name.now ∷ trace.now ∷ words.entry.channel.now ∷ words.entry.index.now
        ∷ words.entry.side.now ∷ words.entry.other.now ∷ words.entry.other_index.now ∷ out.now ∷ []) c)
        (λ c. spec.IsGiven (name.now ∷ trace.now ∷ words.entry.channel.now ∷ words.entry.index.now
        ∷ words.entry.side.now ∷ words.entry.other.now ∷ words.entry.other_index.now ∷ out.now ∷ []) (spec.plain c)) }
{
    if name != "move" || trace == out {
        return None;
    }
    let wish = wish_of(words)?;
    Some(Command::Move { trace, wish, out })
}

/// What these words wish.
fn wish_of<'a>(words: MoveWords<'a>) -> Option<Wish<'a>>
    ensures { MatchOption result ((w : Wanted) → ¬ spec.IsWanted words.entry.channel.now words.entry.index.now words.entry.side.now
        words.entry.other.now words.entry.other_index.now w)
        (λ wish. spec.IsWanted words.entry.channel.now words.entry.index.now words.entry.side.now words.entry.other.now
        words.entry.other_index.now (wanted wish)) }
{
    let index = index_of(words.index)?;
    let after = is_after(words.side)?;
    let other_index = index_of(words.other_index)?;
    Some(Wish {
        end: Completion {
            channel: words.channel,
            index,
        },
        after,
        other: Completion {
            channel: words.other,
            index: other_index,
        },
    })
}

/// The number of a completion that a word writes.
fn index_of(word: &str) -> Option<u32>
    ensures { MatchOption result ((n : ℕ) → ¬ spec.IsIndex word.now n) (λ n. spec.IsIndex word.now n) }
{
    let number = number(word.as_bytes())?;
    u32::try_from(number).ok()
}

/// Whether a word says after or before.
fn is_after(word: &str) -> Option<bool>
    ensures { MatchOption result ((after : Bool) → word.now ≢ spec.side_word after) (λ after. word.now ≡ spec.side_word after) }
{
    if word == "after" {
        return Some(true);
    }
    if word == "before" {
        return Some(false);
    }
    None
}

/// The command of this name with one part.
fn of_one<'a>(name: &str, part: &'a str) -> Option<Command<'a>>
    ensures { MatchOption result ((c : spec.Command) → ¬ spec.IsGiven (name.now ∷ part.now ∷ []) c)
        (λ c. spec.IsGiven (name.now ∷ part.now ∷ []) (spec.plain c)) }
{
    if name == "dump" {
        return Some(Command::Dump { trace: part });
    }
    if name == "sample" {
        return sample_of(part);
    }
    None
}

/// The sample of this word.
fn sample_of<'a>(word: &str) -> Option<Command<'a>>
    ensures { MatchOption result ((c : spec.Command) → ¬ spec.IsGiven (codes "sample" ∷ word.now ∷ []) c)
        (λ c. spec.IsGiven (codes "sample" ∷ word.now ∷ []) (spec.plain c)) }
{
    let number = sample_number(word)?;
    Some(Command::Sample { number })
}

/// The number that a word writes, if there is a sample of it.
fn sample_number(word: &str) -> Option<u32>
    ensures { MatchOption result ((n : ℕ) → ¬ spec.IsSampleNumber word.now n) (λ n. spec.IsSampleNumber word.now n) }
{
    let number = number(word.as_bytes())?;
    if number > u128::from(LARGEST) {
        return None;
    }
    Some(number as u32)
}

/// The command of this name with three parts. A file that is written isn't one that is read.
fn of_three<'a>(name: &str, design: &'a str, map: &'a str, third: &'a str) -> Option<Command<'a>>
    ensures { MatchOption result ((c : spec.Command) → ¬ spec.IsGiven (name.now ∷ design.now ∷ map.now ∷ third.now ∷ []) c)
        (λ c. spec.IsGiven (name.now ∷ design.now ∷ map.now ∷ third.now ∷ []) (spec.plain c)) }
{
    if name == "run" {
        return Some(Command::Run {
            design,
            map,
            script: third,
        });
    }
    if name == "wrap" && design != third && map != third {
        return Some(Command::Wrap {
            design,
            map,
            out: third,
        });
    }
    None
}

/// The command of this name with five parts.
fn of_five<'a>(
    name: &str,
    design: &'a str,
    map: &'a str,
    third: &'a str,
    fourth: &'a str,
    fifth: &'a str,
) -> Option<Command<'a>>
    ensures { MatchOption result
        ((c : spec.Command) → ¬ spec.IsGiven (name.now ∷ design.now ∷ map.now ∷ third.now ∷ fourth.now ∷ fifth.now ∷ []) c)
        (λ c. spec.IsGiven (name.now ∷ design.now ∷ map.now ∷ third.now ∷ fourth.now ∷ fifth.now ∷ []) (spec.plain c)) }
{
    if name == "record" {
        return record_of(design, map, third, fourth, fifth);
    }
    if name == "replay" {
        return replay_of(design, map, third, fourth, fifth);
    }
    None
}

/// The recording of these words. The file that is written isn't one that is read.
fn record_of<'a>(
    design: &'a str,
    map: &'a str,
    script: &'a str,
    stalls: &'a str,
    trace: &'a str,
) -> Option<Command<'a>>
    ensures { MatchOption result
        ((c : spec.Command) → ¬ spec.IsGiven (codes "record" ∷ design.now ∷ map.now ∷ script.now ∷ stalls.now ∷ trace.now ∷ []) c)
        (λ c. spec.IsGiven (codes "record" ∷ design.now ∷ map.now ∷ script.now ∷ stalls.now ∷ trace.now ∷ []) (spec.plain c)) }
{
    if design == trace || map == trace || script == trace || stalls == trace {
        return None;
    }
    Some(Command::Record {
        design,
        map,
        script,
        stalls,
        trace,
    })
}

/// The replay of these words. The file that is written isn't one that is read.
fn replay_of<'a>(
    design: &'a str,
    map: &'a str,
    trace: &'a str,
    word: &str,
    out: &'a str,
) -> Option<Command<'a>>
    ensures { MatchOption result
        ((c : spec.Command) → ¬ spec.IsGiven (codes "replay" ∷ design.now ∷ map.now ∷ trace.now ∷ word.now ∷ out.now ∷ []) c)
        (λ c. spec.IsGiven (codes "replay" ∷ design.now ∷ map.now ∷ trace.now ∷ word.now ∷ out.now ∷ []) (spec.plain c)) }
{
    let cycles = cycles_of(word)?;
    if design == out || map == out || trace == out {
        return None;
    }
    Some(Command::Replay {
        design,
        map,
        trace,
        cycles,
        out,
    })
}

/// The number of cycles that a word writes, if it is one that a command can play.
fn cycles_of(word: &str) -> Option<u32>
    ensures { MatchOption result ((n : ℕ) → ¬ spec.IsCycles word.now n) (λ n. spec.IsCycles word.now n) }
{
    let cycles = number(word.as_bytes())?;
    if cycles < 1 || cycles > u128::from(MOST_CYCLES) {
        return None;
    }
    Some(cycles as u32)
}

/// The command of this name with two parts. A file that is written isn't one that is read.
fn of_two<'a>(name: &str, first: &'a str, second: &'a str) -> Option<Command<'a>>
    ensures { MatchOption result ((c : spec.Command) → ¬ spec.IsGiven (name.now ∷ first.now ∷ second.now ∷ []) c)
        (λ c. spec.IsGiven (name.now ∷ first.now ∷ second.now ∷ []) (spec.plain c)) }
{
    if name == "check" {
        return Some(Command::Check {
            design: first,
            top: second,
        });
    }
    if name == "compare" {
        return Some(Command::Compare {
            trace: first,
            other: second,
        });
    }
    if name == "salvage" && first != second {
        return Some(Command::Salvage {
            trace: first,
            out: second,
        });
    }
    if name == "bursts" {
        return Some(Command::Bursts {
            trace: first,
            axi: second,
        });
    }
    if name == "migrate" && first != second {
        return Some(Command::Migrate {
            trace: first,
            out: second,
        });
    }
    None
}
