//! How cycles end.

/// How the cycles of a player end, where nothing failed.
#[derive(Clone, Copy, Debug, PartialEq, Eq, Drop)]
pub enum Ending {
    /// All cycles were played.
    Whole,
    /// The player was done behind so many cycles.
    Done { cycles: u32 },
    /// The row of this cycle is unstable, on this channel and on none below it. It isn't committed.
    Unstable { channel: usize, cycle: u32 },
}
