//! What a line of a script says.

use run_model::vidi_bits::Numbers;

/// What a line says behind its channel's name. A channel is given by its number in the map, `None` where the map has
/// none of that name.
#[derive(Drop)]
pub enum Said {
    Send { content: Numbers },
    Take { count: u128 },
    TakeAll,
    Wait { cycles: u128 },
    After { channel: Option<usize>, count: u128 },
}

/// What the line with this number, counted from 1, says, and of which channel.
#[derive(Drop)]
pub struct StepLine {
    pub line: u32,
    pub channel: Option<usize>,
    pub said: Said,
}

/// What a line of a script behind the first one with words says: a step of a channel, or a reset in mid-run.
#[derive(Drop)]
pub enum ScriptLine {
    Step(StepLine),
    /// In the line with this number, counted from 1: a reset before the row with number `time`.
    Reset { line: u32, time: u128 },
}
