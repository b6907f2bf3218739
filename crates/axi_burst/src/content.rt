//! The content of a channel in a packet.

ghost use Rattle.std.specs.Prelude.{◌≡◌, ◌<◌, [], length, drop, if◌then◌else◌};
ghost use Rattle.trace_model.specs.Packet.{content_of};

use trace_model::{Channel, Packet, names, split_content};

/// The contents behind those of a channel, which has none where it doesn't start.
fn behind<'a>(starts: bool, channel: &Channel, contents: &'a [u128]) -> &'a [u128]
    ensures { result.now ≡ drop (length (if starts then channel.now.widths else [])) contents.now }
{
    if starts {
        let (_, rest) = split_content(channel, contents);
        rest
    } else {
        contents
    }
}

/// The content of a channel in a packet in which it starts: its numbers stand behind those of the starting channels below it.
pub(crate) fn content<'a>(channels: &[Channel], packet: &'a Packet, channel: usize) -> &'a [u128]
    requires { channel < length channels.now }
    ensures { result.now ≡ content_of channels.now packet.now channel }
{
    let mut rest = packet.contents.as_slice();
    for c in 0..channel {
        rest = behind(names(packet.starts, c), &channels[c], rest);
    }
    let (front, _) = split_content(&channels[channel], rest);
    front
}
