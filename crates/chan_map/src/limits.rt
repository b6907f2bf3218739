//! The limits of a map (M4).

ghost use Rattle.std.specs.Prelude.{◌≡◌, sum_by};
ghost use Rattle.trace_model.specs.Channel.{byte_count, content_bytes};
ghost use Rattle.chan_map.specs.Reasons.{capped, count_faults, width_faults, byte_faults, limit_faults};
ghost use Rattle.vidi_lines.specs.vidi_bits.Findings.{Judged};
ghost use Rattle.chan_map.specs.Told.{map_told};

use crate::error::{MapError, MapLimit};
use trace_model::{Channel, MOST_CHANNELS, MOST_CONTENT_BYTES};

/// A count, up to the end of its type.
fn capped(n: usize) -> u32
    ensures { result ≡ capped n }
{
    u32::try_from(n).unwrap_or(u32::MAX)
}

/// The bytes of a channel's content, up to the end of their type.
fn content_bytes(c: &Channel) -> u32
    ensures { result ≡ capped (content_bytes c.now) }
{
    let mut total: u32 = 0;
    for width in c.widths.as_slice() {
        total = total.saturating_add((u32::from(*width) + 7) / 8);
    }
    total
}

/// The bytes of the contents of all channels, up to the end of their type.
fn all_bytes(channels: &[Channel]) -> u32
    ensures { result ≡ capped (sum_by content_bytes channels.now) }
{
    let mut total: u32 = 0;
    for c in channels {
        total = total.saturating_add(content_bytes(c));
    }
    total
}

fn check_count(channels: &[Channel]) -> Result<(), MapError>
    ensures { Judged map_told result (count_faults channels.now) }
{
    let n = channels.len();
    if n < 1 || n > MOST_CHANNELS {
        return Err(MapError::Limit {
            what: MapLimit::Channels,
            got: capped(n),
        });
    }
    Ok(())
}

fn check_widths(channels: &[Channel]) -> Result<(), MapError>
    ensures { Judged map_told result (width_faults channels.now) }
{
    for c in channels {
        let n = c.widths.len();
        if n > 16 {
            return Err(MapError::Limit {
                what: MapLimit::Ports,
                got: capped(n),
            });
        }
    }
    Ok(())
}

fn check_bytes(channels: &[Channel]) -> Result<(), MapError>
    ensures { Judged map_told result (byte_faults channels.now) }
{
    let got = all_bytes(channels);
    if got as usize > MOST_CONTENT_BYTES {
        return Err(MapError::Limit {
            what: MapLimit::Bytes,
            got,
        });
    }
    Ok(())
}

/// `Limit`, with the first limit that the table passes.
pub fn check_limits(channels: &[Channel]) -> Result<(), MapError>
    ensures { Judged map_told result (limit_faults channels.now) }
{
    check_count(channels)?;
    check_widths(channels)?;
    check_bytes(channels)
}
