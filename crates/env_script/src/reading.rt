//! Reads a script.

ghost use Rattle.std.specs.Prelude.{◌≡◌, ◌+◌, ◌<◌, ◌^◌, length, List};
ghost use Rattle.run_model.specs.trace_model.declared.channel.Channel.{Channel};
ghost use Rattle.env_script.specs.declared.said.ScriptLine.{ScriptLine};
ghost use Rattle.env_script.specs.Reasons.{read_lines};
ghost use Rattle.env_script.specs.Reads.{Gathers, IsGathered, Finishes, ReadsScript};

use crate::error::ScriptError;
use crate::gathered::Gathered;
use crate::lawful::between;
use crate::script::Script;
use crate::used::{blank_lines, number_in};
use run_model::chan_map::Map;
use run_model::trace_model::{Channel, MOST_CYCLES};
use run_model::vidi_lines::{Line, each_line};
use std::alloc::Global;

/// Gathers what lines say, the first having this number.
fn gathered(
    alloc: Global,
    channels: &[Channel],
    first: u32,
    lines: &[Option<Line>],
) -> Result<Gathered, ScriptError>
    requires { first + length lines.now < 2 ^ 32 }
    ensures { Gathers channels.now first lines.now result }
{
    let mut gathered = Gathered::new(alloc, channels)?;
    let mut number = first;
    for line in lines {
        gathered.read(alloc, channels, number, line)?;
        number += 1;
    }
    Ok(gathered)
}

/// The script of what was gathered, where the line with this number says how many cycles it has.
fn finished(line: u32, cycles: u128, gathered: Gathered) -> Result<Script, ScriptError>
    ensures { (channels : List Channel) (said : List ScriptLine) → IsGathered channels said gathered
        → Finishes channels line cycles said result }
{
    let Gathered {
        steps,
        resets,
        channel,
        number,
        ..
    } = gathered;
    if let Some(line) = channel {
        return Err(ScriptError::Channel { line });
    }
    if !between(1, u128::from(MOST_CYCLES), cycles) {
        return Err(ScriptError::Number { line });
    }
    if let Some(line) = number {
        return Err(ScriptError::Number { line });
    }
    Ok(Script {
        cycles: cycles as u32,
        steps,
        resets,
    })
}

/// Reads a script over the channels of a map.
///
/// `Line` comes exactly where S1 holds, with the first line that is bad by its bytes or of no form, or the number
/// behind the last line's where no line has words; else `Channel` exactly where S2 holds, with the first such line;
/// else `Number` exactly where S3 holds, likewise. `Memory` comes where no memory was found. The time is linear in the
/// length.
pub fn read_script(alloc: Global, bytes: &[u8], map: &Map) -> Result<Script, ScriptError>
    requires { length bytes.now < 2 ^ 31 }
    ensures { ReadsScript map.now.channels (read_lines bytes.now) result }
{
    let channels = map.channels().as_slice();
    let lines = each_line(alloc, bytes)?;
    let blank = blank_lines(lines.as_slice());
    let number = blank as u32 + 1;
    let Some((head, others)) = lines.as_slice()[blank..].split_first() else {
        return Err(ScriptError::Line { line: number });
    };
    let Some(cycles) = number_in(b"cycles", head) else {
        return Err(ScriptError::Line { line: number });
    };
    let gathered = gathered(alloc, channels, number + 1, others)?;
    finished(number, cycles, gathered)
}
