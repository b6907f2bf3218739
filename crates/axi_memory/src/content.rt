//! The content of a channel in a row.

ghost use Rattle.std.specs.Prelude.{◌≡◌, ◌<◌, length, slice_index};
ghost use Rattle.env_script.specs.trace_model.Row.{content_at};

use env_script::trace_model::{Channel, split_content};

/// The numbers of a channel among the contents of all channels: they stand behind those of the channels below it.
pub(crate) fn content_at<'a>(
    channels: &[Channel],
    contents: &'a [u128],
    channel: usize,
) -> &'a [u128]
    requires { channel < length channels.now }
    ensures { result.now ≡ content_at channels.now contents.now channel }
{
    let mut rest = contents;
    for c in 0..channel {
        let (_, behind) = split_content(&channels[c], rest);
        rest = behind;
    }
    let (front, _) = split_content(&channels[channel], rest);
    front
}

/// The number of a port, 0 where there is none.
pub(crate) fn number_at(content: &[u128], port: usize) -> u128
    ensures { result ≡ slice_index content.now port }
{
    match content.get(port) {
        Some(number) => *number,
        None => 0,
    }
}
