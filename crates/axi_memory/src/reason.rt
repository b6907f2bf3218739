//! Why no memory serves a port.

/// Why no memory serves a port.
#[derive(Clone, Copy, Debug, PartialEq, Eq)]
pub enum Lack {
    /// The file has no line `memory`.
    Words,
    /// The file has no line `data`.
    Places,
    /// The file doesn't name each channel.
    Channels,
    /// The design takes the requests, in place of making them.
    Side,
}
