//! A script: what the environment does on each channel.

ghost use Rattle.std.specs.Prelude.{◌≡◌};

use run_model::trace_model::MOST_CYCLES;
use run_model::vidi_bits::{Items, Numbers};

/// A step of a channel's environment.
#[derive(Drop)]
pub enum Step {
    /// Offers a content, one number for each content port in port order, until it is taken.
    Send { content: Numbers },
    /// Is ready for so many completions of the channel.
    Take { count: u32 },
    /// Is ready from now on.
    TakeAll,
    /// Offers nothing for so many cycles.
    Wait { cycles: u32 },
    /// Offers nothing until the channel with this number has completed so often since the first cycle.
    After { channel: usize, count: u32 },
}

/// The steps of a channel, in order.
pub type Steps = Items<Step>;

/// The steps of each channel, in channel order.
pub type StepLists = Items<Steps>;

/// The greatest time of a reset: the number of the last row of the longest run.
pub const LATEST_RESET: u32 = MOST_CYCLES - 1;

/// A script: for how many cycles it runs, the steps of each channel, and the times of resets in mid-run.
#[derive(Drop)]
pub struct Script {
    pub cycles: u32,
    pub steps: StepLists,
    pub resets: Numbers,
}

impl Script {
    /// The number of cycles, 1 to `MOST_CYCLES`.
    pub fn cycles(&self) -> u32
        ensures { result ≡ self.now.cycles }
    {
        self.cycles
    }

    /// The times of resets, increasing, 1 to `LATEST_RESET`: a reset at `t` is asked for between rows `t - 1` and `t`.
    pub fn resets(&self) -> &Numbers
        ensures { result.now ≡ self.now.resets }
    {
        &self.resets
    }
}
