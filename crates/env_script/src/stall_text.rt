//! Reads a stall plan.

ghost use Rattle.std.specs.Prelude.{◌≡◌, ◌<◌, ◌≤◌, ◌^◌, length, IfOk};
ghost use Rattle.env_script.specs.Reasons.{read_lines};
ghost use Rattle.env_script.specs.Plan.{ends_from};
ghost use Rattle.env_script.specs.Stalls.{ReadsStalls};

use crate::error::StallError;
use crate::stall_lines::{capacity_in, read_drains};
use crate::stalls::{Drain, Stalls};
use crate::used::blank_lines;
use run_model::vidi_bits::Memory;
use run_model::vidi_lines::each_line;
use std::alloc::Global;

/// How many cycles lie before and in each line.
fn ends_of(alloc: Global, drains: &[Drain]) -> Result<Vec<u64>, Memory>
    requires { length drains.now < 2 ^ 31 }
    ensures { IfOk result (λ ends. ends.items ≡ ends_from 0 drains.now) }
{
    let mut ends = Vec::new(alloc);
    let mut end: u64 = 0;
    for drain in drains {
        end += u64::from(drain.cycles);
        ends.push(end)?;
    }
    Ok(ends)
}

/// Reads a stall plan.
///
/// `Line` comes exactly where P1 holds, with the first line that is bad by its bytes, has no form or a number out of
/// range, or the number behind the last line's where no line has words. `Memory` comes where no memory was found. The
/// time is linear in the length.
pub fn read_stalls(alloc: Global, bytes: &[u8]) -> Result<Stalls, StallError>
    requires { length bytes.now < 2 ^ 31 }
    ensures { ReadsStalls (read_lines bytes.now) result }
{
    let lines = each_line(alloc, bytes)?;
    let blank = blank_lines(lines.as_slice());
    let number = blank as u32 + 1;
    let Some((head, others)) = lines.as_slice()[blank..].split_first() else {
        return Err(StallError::Line { line: number });
    };
    let Some(capacity) = capacity_in(head) else {
        return Err(StallError::Line { line: number });
    };
    let drains = read_drains(alloc, number + 1, others)?;
    let ends = ends_of(alloc, drains.as_slice())?;
    Ok(Stalls {
        capacity,
        drains,
        ends,
    })
}
