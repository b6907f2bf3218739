//! The rows of this cycle and of the one before.

ghost use Rattle.std.specs.Prelude.{◌≡◌, IfOk};
ghost use Rattle.chan_replayer.specs.trace_model.Row.{IsOver};
ghost use Rattle.run_stage.specs.Playing.{AreOver};

use chan_replayer::run_model::trace_model::{Channels, Row, row_over};
use chan_replayer::run_model::vidi_bits::Memory;
use std::alloc::Global;

/// The rows of this cycle and of the one before, which take turns.
#[derive(Drop)]
pub struct TwoRows {
    /// The row of this cycle, to be driven.
    pub row: Row,
    /// The row of the cycle before; where there is none, a row in which no valid is up.
    pub last: Row,
}

/// A row in which nothing is up.
#[tactic(auto, using(crate::proofs::Silent::silent_over))]
fn silent_row(alloc: Global, channels: &Channels) -> Result<Row, Memory>
    ensures { IfOk result (λ row. (row.valids ≡ 0) × IsOver channels.now row) }
{
    row_over(alloc, channels)
}

impl TwoRows {
    /// Two rows over these channels, before the first cycle. Only this call takes memory.
    pub fn new(alloc: Global, channels: &Channels) -> Result<TwoRows, Memory>
        ensures over { IfOk result (AreOver channels.now) }
        ensures silent { IfOk result (λ rows. rows.last.valids ≡ 0) }
    {
        let row = row_over(alloc, channels)?;
        let last = silent_row(alloc, channels)?;
        Ok(TwoRows { row, last })
    }
}
