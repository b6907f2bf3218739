//! What a replay answers.

use run_stage::run_model::Helds;
use trace_code::trace_model::Events;
use trace_code::vidi_bits::Bytes;

/// How a replay ends.
#[derive(Drop)]
pub enum ReplayOutcome {
    /// The trace has ended after so many cycles.
    Ended { cycles: u32 },
    /// All cycles were used and the trace hasn't ended: what is held back, and what is waited for.
    Short { held: Helds, waits: Events },
    /// The row of this cycle is unstable; the lowest channel on which it is is named.
    Unstable { channel: usize, cycle: u32 },
}

/// What a replay answers.
#[derive(Drop)]
pub struct Replayed {
    pub outcome: ReplayOutcome,
    /// The encoding of the trace of its rows.
    pub out: Bytes,
}
