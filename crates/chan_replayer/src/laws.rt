//! Laws of the definitions.

ghost use Rattle.chan_replayer.specs.Laws.{FedRowsReplay};

/// A row that is shown under a feed of packets and isn't fresh is the next row of their replay.
pub fn fed_rows_replay()
    ensures { FedRowsReplay }
{}
