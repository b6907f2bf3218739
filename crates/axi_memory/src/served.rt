//! What a memory serves.

use axi_burst::{DataPorts, Reads, Writes};
use env_script::trace_model::Channels;

/// The size of a memory, and the channels of the port that it answers.
#[derive(Clone, Copy)]
pub struct Ports {
    /// The bytes of a word and of the data bus.
    pub beat: u32,
    /// How many words there are.
    pub words: u32,
    pub writes: Writes,
    pub reads: Reads,
    pub places: DataPorts,
}

/// What a memory serves, as plain data: the channels of a design, and which of them are those of the port.
#[derive(Drop)]
pub struct Served {
    pub channels: Channels,
    pub ports: Ports,
}
