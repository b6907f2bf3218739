//! How a command ends.

ghost use Rattle.std.specs.Prelude.{◌≡◌};
ghost use Rattle.vidi_answer.specs.Exit as exit;

use report_text::run_model::Helds;
use report_text::run_model::trace_model::Events;
pub use report_text::{Reason, Word};

/// What a call of `vidi` answers.
#[derive(Drop)]
pub enum Status {
    /// The command did what it does, and its whole text was written.
    Done,
    /// The words are no command.
    Usage,
    /// The file isn't there, or a read of it failed.
    ReadFault { word: Word },
    /// A write failed.
    WriteFault,
    /// The file isn't accepted.
    Refused { word: Word, reason: Reason },
    /// On this channel, by its place in the map, the design takes back in this cycle what it offered.
    Unstable { channel: usize, cycle: u32 },
    /// The cycles didn't suffice for the trace: what the replay holds back, and what it waits for.
    Short { held: Helds, waits: Events },
    /// The second trace has findings against the first.
    Diverged,
    /// No memory was found.
    Memory,
}

impl Status {
    /// The number with which the program ends.
    pub fn exit_number(&self) -> u8
        ensures { result ≡ exit.exit_number self.now }
    {
        match self {
            Status::Done => 0,
            Status::Usage => 1,
            Status::ReadFault { word: _ } => 2,
            Status::WriteFault => 3,
            Status::Refused { word: _, reason: _ } => 4,
            Status::Unstable {
                channel: _,
                cycle: _,
            } => 5,
            Status::Short { held: _, waits: _ } => 6,
            Status::Diverged => 7,
            Status::Memory => 8,
        }
    }
}
