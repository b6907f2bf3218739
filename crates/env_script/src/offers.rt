//! Offers, channel by channel.

ghost use Rattle.std.specs.Prelude.{◌≡◌, ◌<◌, ◌+◌, ◌≤◌, length, replicate, slice_get, IfOk};
ghost use Rattle.run_model.specs.trace_model.Packet.{widths_of};
ghost use Rattle.run_model.specs.trace_model.Row.{all_widths, replaced};
ghost use Rattle.run_model.specs.Building.{joined, mask_of};
ghost use Rattle.env_script.specs.Offered.{numbers_on, offers_on, port_numbers, AllFit};

use crate::Env;
use run_model::trace_model::{Channel, Channels, Offers, row_over, with_bit};
use run_model::vidi_bits::Memory;
use std::alloc::Global;

/// The channels on which a content is offered.
fn valids<E: Env>(env: &E, channels: usize) -> u128
    requires all { channels ≡ length (E.channels env.now) }
    requires few { channels ≤ 128 }
    ensures { result ≡ mask_of (λ c. (E.current env.now c).valid) channels }
{
    let mut mask = 0;
    for c in 0..channels {
        let up = env.valid(c);
        mask = with_bit(mask, c, up);
    }
    mask
}

/// The channels on which a content would be taken.
fn readies<E: Env>(env: &E, channels: usize) -> u128
    requires all { channels ≡ length (E.channels env.now) }
    requires few { channels ≤ 128 }
    ensures { result ≡ mask_of (λ c. (E.current env.now c).ready) channels }
{
    let mut mask = 0;
    for c in 0..channels {
        let up = env.ready(c);
        mask = with_bit(mask, c, up);
    }
    mask
}

/// Writes what is offered on a channel, a number for each of its ports, from place `at` on.
fn fill_content<E: Env>(env: &E, channel: usize, ports: usize, contents: &mut [u128], at: usize)
    requires channel { channel < length (E.channels env.now) }
    requires ports { ports ≡ length (widths_of (slice_get (E.channels env.now) channel)) }
    requires room { at + ports ≤ length contents.old }
    ensures { contents.new ≡ replaced contents.old at (port_numbers ports (E.current env.now channel).content) }
{
    for port in 0..ports {
        contents[at + port] = env.content(channel, port);
    }
}

/// Makes the contents those that are offered on the channels.
fn fill_contents<E: Env>(env: &E, channels: &[Channel], contents: &mut [u128])
    requires channels { E.channels env.now ≡ channels.now }
    requires fits { AllFit channels.now (E.current env.now) }
    requires places { length contents.old ≡ length (all_widths channels.now) }
    ensures { contents.new ≡ joined (numbers_on channels.now (E.current env.now)) 0 channels.now }
{
    let mut at = 0;
    for (c, channel) in channels.iter().enumerate() {
        let ports = channel.widths.len();
        fill_content(env, c, ports, contents, at);
        at += ports;
    }
}

/// Makes the offers those of the environment now. They have a place for each port's number, as `offers_over` makes them.
pub fn gather<E: Env>(env: &E, channels: &Channels, offers: &mut Offers)
    requires channels { E.channels env.now ≡ channels.now }
    requires few { length channels.now ≤ 128 }
    requires fits { AllFit channels.now (E.current env.now) }
    requires places { length offers.old.contents ≡ length (all_widths channels.now) }
    ensures { offers.new ≡ offers_on channels.now (E.current env.now) }
{
    offers.valids = valids(env, channels.len());
    offers.readies = readies(env, channels.len());
    fill_contents(env, channels.as_slice(), offers.contents.as_mut_slice());
}

/// Offers with a place for each port's number, of which nothing is up and each number is 0.
pub fn offers_over(alloc: Global, channels: &Channels) -> Result<Offers, Memory>
    ensures { IfOk result (λ offers. offers ≡ record {
      valids = 0;
      readies = 0;
      contents = replicate (length (all_widths channels.now)) 0;
    }) }
{
    let row = row_over(alloc, channels)?;
    Ok(Offers {
        valids: 0,
        readies: 0,
        contents: row.contents,
    })
}
