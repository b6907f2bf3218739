//! The times of resets in mid-run.

ghost use Rattle.std.specs.Prelude.{◌≡◌, ◌<◌, ◌^◌, IfOk, length};
ghost use Rattle.env_script.specs.Reasons.{read_lines};
ghost use Rattle.env_script.specs.Resets.{is_due, begins_reset, first_reset};

use crate::forms::is_reset;
use run_model::vidi_bits::Memory;
use run_model::vidi_lines::{Line, each_line};
use std::alloc::Global;

/// Whether of these times there is the one with number `done`, counted from 0, and it is at most `cycle`.
pub fn is_due(resets: &[u128], done: usize, cycle: u32) -> bool
    ensures { result ≡ is_due resets.now done cycle }
{
    match resets.get(done) {
        Some(time) => *time <= u128::from(cycle),
        None => false,
    }
}

/// Whether a line begins as a reset line does.
fn begins_reset(line: &Option<Line>) -> bool
    ensures { result ≡ begins_reset line.now }
{
    match line {
        Some(line) => is_reset(line.words.as_slice()),
        None => false,
    }
}

/// The number, counted from 1, of the first line of a script's text that begins as a reset line does, where there is
/// one.
///
/// `Memory` comes where no memory was found. The time is linear in the length.
pub fn first_reset_line(alloc: Global, bytes: &[u8]) -> Result<Option<u32>, Memory>
    requires { length bytes.now < 2 ^ 31 }
    ensures { IfOk result (λ line. line ≡ first_reset 1 (read_lines bytes.now)) }
{
    let lines = each_line(alloc, bytes)?;
    let mut number = 1;
    for line in lines.as_slice() {
        if begins_reset(line) {
            return Ok(Some(number));
        }
        number += 1;
    }
    Ok(None)
}
