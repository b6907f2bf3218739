//! Whether what a line says goes with its channel, and its numbers are in range.

ghost use Rattle.std.specs.Prelude.{◌≡◌, true, is_some};
ghost use Rattle.std.specs.Option.{option_copied};
ghost use Rattle.run_model.specs.trace_model.Channel.{between};
ghost use Rattle.env_script.specs.Reasons.{channel_at, suits, names_channels, fits_ports, fits_content, is_small, fits_numbers, is_time};
ghost use Rattle.env_script.specs.Steps.{made};

use crate::said::{Said, StepLine};
use crate::script::{LATEST_RESET, Step};
use run_model::trace_model::{Channel, Dir, MOST_CYCLES, fits};

/// Whether a number is in a range, its ends with it.
pub fn between(low: u128, high: u128, n: u128) -> bool
    ensures { result ≡ between low high n }
{
    low <= n && n <= high
}

/// The channel with this number, where one is named and there is one.
fn channel_at(channels: &[Channel], place: Option<usize>) -> Option<&Channel>
    ensures { option_copied result ≡ channel_at channels.now place }
{
    match place {
        Some(c) => channels.get(c),
        None => None,
    }
}

fn is_there(channels: &[Channel], place: Option<usize>) -> bool
    ensures { result ≡ is_some (channel_at channels.now place) }
{
    channel_at(channels, place).is_some()
}

/// Whether the step goes with a channel of this direction.
fn suits(channels: &[Channel], dir: Dir, said: &Said) -> bool
    ensures { result ≡ suits channels.now dir said.now }
{
    match said {
        Said::Send { .. } => dir == Dir::Inward,
        Said::Take { .. } | Said::TakeAll => dir == Dir::Outward,
        Said::Wait { .. } => true,
        Said::After { channel, .. } => is_there(channels, *channel),
    }
}

/// Whether the channels that a line names are there, and its step goes with the direction.
pub fn names_channels(channels: &[Channel], line: &StepLine) -> bool
    ensures { result ≡ names_channels channels.now line.now }
{
    match channel_at(channels, line.channel) {
        Some(channel) => suits(channels, channel.dir, &line.said),
        None => false,
    }
}

/// Whether there is one number for each port, which fits it.
fn fits_ports(widths: &[u8], content: &[u128]) -> bool
    ensures { result ≡ fits_ports widths.now content.now }
{
    if widths.len() != content.len() {
        return false;
    }
    for (i, x) in content.iter().enumerate() {
        if !fits(*x, usize::from(widths[i])) {
            return false;
        }
    }
    true
}

/// Whether a content that is sent fits these ports.
fn fits_content(widths: &[u8], said: &Said) -> bool
    ensures { result ≡ fits_content widths.now said.now }
{
    match said {
        Said::Send { content } => fits_ports(widths, content.as_slice()),
        _ => true,
    }
}

/// Whether the counts and the cycles are in range.
fn is_small(said: &Said) -> bool
    ensures { result ≡ is_small said.now }
{
    match said {
        Said::Take { count } | Said::After { count, .. } => between(1, 4_294_967_295, *count),
        Said::Wait { cycles } => between(1, u128::from(MOST_CYCLES), *cycles),
        _ => true,
    }
}

/// Whether the numbers of a line are in range, and fit the channel's ports.
pub fn fits_numbers(channels: &[Channel], line: &StepLine) -> bool
    ensures { result ≡ fits_numbers channels.now line.now }
{
    if !is_small(&line.said) {
        return false;
    }
    match channel_at(channels, line.channel) {
        Some(channel) => fits_content(channel.widths.as_slice(), &line.said),
        None => true,
    }
}

/// Whether a reset may have this time, where the reset line before it has the time `before`, or 0 stands for none.
pub fn is_time(before: u128, time: u128) -> bool
    ensures { result ≡ is_time before time }
{
    between(1, u128::from(LATEST_RESET), time) && before < time
}

/// The step that is said, `None` where it waits for no channel.
pub fn made(said: Said) -> Option<Step>
    requires { is_small said ≡ true }
    ensures { result ≡ made said }
{
    match said {
        Said::Send { content } => Some(Step::Send { content }),
        Said::Take { count } => Some(Step::Take {
            count: count as u32,
        }),
        Said::TakeAll => Some(Step::TakeAll),
        Said::Wait { cycles } => Some(Step::Wait {
            cycles: cycles as u32,
        }),
        Said::After { channel, count } => {
            let channel = channel?;
            Some(Step::After {
                channel,
                count: count as u32,
            })
        }
    }
}
