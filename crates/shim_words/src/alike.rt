//! Whether two stages have the same rows, and how it is said.

ghost use Rattle.std.specs.Prelude.{◌≤◌, IfOk};
ghost use Rattle.shim_runs.specs.trace_model.declared.packet.TheConstants.{MOST_CYCLES};

use shim_runs::report_text::{put, put_number};
use shim_runs::trace_model::Row;
use shim_runs::vidi_io::Text;
use shim_runs::{Ended, cycles_of};
use std::alloc::Global;

/// What stands round a design.
#[derive(Clone, Copy, Drop)]
pub(crate) enum Around {
    Monitors,
    Replayers,
}

/// Which stages are compared, for how long, and which seed begins what they are given.
#[derive(Clone, Copy, Drop)]
pub(crate) struct Course {
    pub around: Around,
    pub seed: u64,
    pub cycles: u32,
}

/// The course that two words write.
pub(crate) fn course_of(around: Around, seed: &Text, cycles: &Text) -> Result<Course, Ended>
    ensures { IfOk result (λ course. course.cycles ≤ MOST_CYCLES) }
{
    let cycles = cycles_of(cycles)?;
    match seed.as_str().parse::<u64>() {
        Ok(seed) => Ok(Course {
            around,
            seed,
            cycles,
        }),
        Err(_) => Err(Ended::Usage),
    }
}

/// The file whose wrapped design is compared: the design's own, or that of one word more.
pub(crate) fn other_of<'a>(design: &'a Text, rest: &'a [Text]) -> Result<&'a Text, Ended> {
    match rest {
        [] => Ok(design),
        [other] => Ok(other),
        _ => Err(Ended::Usage),
    }
}

/// Whether both rows are the same.
pub(crate) fn are_same(a: &Row, b: &Row) -> bool {
    let masks = a.gates == b.gates && a.valids == b.valids && a.readies == b.readies;
    let events = a.starts == b.starts && a.ends == b.ends;
    a.fresh == b.fresh && masks && events && a.contents.as_slice() == b.contents.as_slice()
}

/// `alike CYCLES`, or `differs at CYCLE` with the first cycle in which the rows aren't the same.
pub(crate) fn said(alloc: Global, cycles: u32, differ: Option<u32>) -> Result<Vec<u8>, Ended> {
    let mut text = Vec::new(alloc);
    match differ {
        None => {
            put(&mut text, b"alike ")?;
            put_number(&mut text, cycles)?;
        }
        Some(cycle) => {
            put(&mut text, b"differs at ")?;
            put_number(&mut text, cycle)?;
        }
    }
    put(&mut text, b"\n")?;
    Ok(text)
}
