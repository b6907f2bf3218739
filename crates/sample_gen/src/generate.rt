//! The sample of a number.

ghost use Rattle.std.specs.Prelude.{◌≡◌, ◌≤◌, IfOk};
ghost use Rattle.sample_gen.specs.Sample as said;
ghost use Rattle.sample_gen.specs.declared.generate.TheConstants.{LARGEST};

use crate::design::{design, map};
use crate::files::Sample;
use crate::script::{script, stalls};
use crate::sequence::Sequence;
use room_ledger::vidi_bits::Memory;
use std::alloc::Global;

/// The largest number of a sample.
pub const LARGEST: u32 = 6_000;

/// How many lines of a plan drain.
const DRAINS: u32 = 8;

/// The files of sample `number` (this project's profile).
pub fn sample(alloc: Global, number: u32) -> Result<Sample, Memory>
    requires { number ≤ LARGEST }
    ensures { IfOk result (λ files. files ≡ said.sample number) }
{
    let stages = 1 + number % 8;
    let cycles = 100 + 8 * number;
    let mut sequence = Sequence::new(number);
    let script = script(alloc, cycles, number, &mut sequence)?;
    let stalls = stalls(alloc, 22 + number % 32, DRAINS, &mut sequence)?;
    let design = design(alloc, stages)?;
    let map = map(alloc)?;
    Ok(Sample {
        design,
        map,
        script,
        stalls,
        stages,
        sends: number,
        cycles,
    })
}
