//! How many bytes packets have.

ghost use Rattle.std.specs.Prelude.{◌≡◌, ◌+◌, ◌<◌, ◌≤◌, ◌^◌, length, sum_by, if◌then◌else◌};
ghost use Rattle.trace_model.specs.declared.packet.TheConstants.{LONGEST_PACKET};
ghost use Rattle.trace_model.specs.Channel.{content_bytes, IsTable};
ghost use Rattle.trace_model.specs.Length.{head_len, longest_packet};
ghost use Rattle.trace_model.specs.Recording.{has_event};

use crate::channel::Channel;
use crate::row::Row;

/// The bytes of a packet of so many channels without contents.
pub fn head_len(channels: usize) -> usize
    ensures { result ≡ head_len channels }
{
    3 + 2 * channels.div_ceil(8)
}

/// The bytes of a channel's content.
pub fn content_len(channel: &Channel) -> usize
    requires { content_bytes channel.now < 2 ^ 64 }
    ensures { result ≡ content_bytes channel.now }
{
    let mut total = 0;
    for width in channel.widths.as_slice() {
        total += usize::from(*width).div_ceil(8);
    }
    total
}

/// The bytes of the contents of all channels.
pub fn all_contents_len(channels: &[Channel]) -> usize
    requires { sum_by content_bytes channels.now < 2 ^ 64 }
    ensures { result ≡ sum_by content_bytes channels.now }
{
    let mut total = 0;
    for channel in channels {
        total += content_len(channel);
    }
    total
}

/// The bytes of the longest packet of a table's channels, in which all of them start.
pub fn longest_packet(channels: &[Channel]) -> usize
    requires { IsTable channels.now }
    ensures value { result ≡ longest_packet channels.now }
    ensures most { result ≤ LONGEST_PACKET }
{
    head_len(channels.len()) + all_contents_len(channels)
}

/// How many packets a row has: a reset where it is fresh, and one more where it has an event.
pub fn packets_in(row: &Row) -> u32
    ensures { result ≡ (if row.now.fresh then 1 else 0) + (if has_event row.now then 1 else 0) }
{
    u32::from(row.fresh) + u32::from(row.starts != 0 || row.ends != 0)
}
