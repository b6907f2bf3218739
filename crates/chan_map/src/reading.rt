//! Reads a map's text.

ghost use Rattle.std.specs.Prelude.{◌≡◌, ◌<◌, ◌^◌, OnOk, length};
ghost use Rattle.chan_map.specs.Seen.{IsSeen, AreLawful};
ghost use Rattle.chan_map.specs.Follow.{entries};
ghost use Rattle.chan_map.specs.Text.{TakesLine, ReadsMap};

use crate::error::MapError;
use crate::forms::entry_of;
use crate::map_text::{MapLine, MapLines};
use crate::seen::Seen;
use crate::text::MapText;
use std::alloc::Global;
use vidi_lines::{Line, lines_of};

/// Reads the line with this number: adds what it says to what the lines before said.
fn read_line(
    alloc: Global,
    seen: &mut Seen,
    said: &mut MapLines,
    number: u32,
    line: &Line,
) -> Result<(), MapError>
    requires seen { IsSeen seen.old (entries said.old) }
    requires lawful { AreLawful (entries said.old) }
    ensures taken { TakesLine said.old said.new number line.now result }
    ensures seen { OnOk result (IsSeen seen.new (entries said.new)) }
    ensures lawful { OnOk result (AreLawful (entries said.new)) }
{
    if line.words.is_empty() {
        return Ok(());
    }
    let Some(entry) = entry_of(alloc, line.words.as_slice())? else {
        return Err(MapError::Line { line: number });
    };
    if !seen.allows(&entry) {
        return Err(MapError::Line { line: number });
    }
    seen.note(alloc, &entry)?;
    said.push(MapLine {
        line: number,
        entry,
    })?;
    Ok(())
}

/// Reads a map's text.
///
/// `Line` comes exactly where M1 holds, with the first line that is bad by its bytes; else with the first that has no
/// listed form, or follows wrongly; else, where `top` or `clock` is missing, with the number behind the last line's.
/// `Memory` comes where no memory was found. The time is linear in the length.
pub fn read_map(alloc: Global, bytes: &[u8]) -> Result<MapText, MapError>
    requires { length bytes.now < 2 ^ 31 }
    ensures { ReadsMap bytes.now result }
{
    let lines = lines_of(alloc, bytes)?;
    let mut seen = Seen::new(alloc);
    let mut said = MapLines::new(alloc);
    let mut number: u32 = 1;
    for line in lines.as_slice() {
        read_line(alloc, &mut seen, &mut said, number, line)?;
        number += 1;
    }
    let Seen { top, clock, .. } = seen;
    match (top, clock) {
        (Some(top), Some(clock)) => Ok(MapText {
            top,
            clock,
            lines: said,
        }),
        _ => Err(MapError::Line { line: number }),
    }
}
