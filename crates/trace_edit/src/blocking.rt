//! What a completion can't be moved over.

ghost use Rattle.std.specs.Prelude.{◌≡◌, ◌<◌, ◌≤◌, IfSome, MatchOption, length};
ghost use Rattle.trace_model.specs.declared.event.Kind.TheVariants as kinds;
ghost use Rattle.trace_edit.specs.Moved.{does_at, stays, IsBlockedBy, IsFree};
ghost use Rattle.trace_edit.specs.Found.{IsFirstOf, IsLastOf, lower};

use crate::place::Move;
use trace_model::{Packet, names};

/// The first packet from `low` up to before `high` in which a channel starts.
fn first_start(packets: &[Packet], channel: usize, low: usize, high: usize) -> Option<usize>
    requires { high ≤ length packets.now }
    ensures { IsFirstOf (does_at kinds.Start channel packets.now) low high result }
{
    for s in low..high {
        if names(packets[s].starts, channel) {
            return Some(s);
        }
    }
    None
}

/// The last packet from `low` up to before `high` in which a channel starts.
fn last_start(packets: &[Packet], channel: usize, low: usize, high: usize) -> Option<usize>
    requires order { low ≤ high }
    requires within { high ≤ length packets.now }
    ensures { IsLastOf (does_at kinds.Start channel packets.now) low high result }
{
    let mut last = None;
    for s in low..high {
        if names(packets[s].starts, channel) {
            last = Some(s);
        }
    }
    last
}

/// The first reset from packet `low` up to before packet `high`.
fn first_reset(packets: &[Packet], low: usize, high: usize) -> Option<usize>
    requires { high ≤ length packets.now }
    ensures { IsFirstOf (does_at kinds.Reset 0 packets.now) low high result }
{
    for s in low..high {
        if packets[s].reset {
            return Some(s);
        }
    }
    None
}

/// The lower of two numbers, of those that are there.
fn lower(a: Option<usize>, b: Option<usize>) -> Option<usize>
    ensures { result ≡ lower a b }
{
    match (a, b) {
        (Some(x), Some(y)) => Some(x.min(y)),
        (Some(x), None) => Some(x),
        (None, y) => y,
    }
}

/// Whether the completion stands on that side of the other one already.
pub(crate) fn stays(m: Move) -> bool
    ensures { result ≡ stays m }
{
    if m.after {
        m.to < m.from
    } else {
        m.from < m.to
    }
}

/// The lowest packet that stands against a move, or None where there is none.
pub(crate) fn blocked_by(packets: &[Packet], m: Move) -> Option<usize>
    requires from { m.from < length packets.now }
    requires to { m.to < length packets.now }
    ensures blocked { MatchOption result (IsFree packets.now m) (IsBlockedBy packets.now m) }
    ensures within { IfSome result (λ s. s < length packets.now) }
{
    if stays(m) {
        return None;
    }
    if m.after {
        let start = first_start(packets, m.channel, m.from + 1, m.to + 1);
        let reset = first_reset(packets, m.from + 1, m.to);
        lower(start, reset)
    } else {
        let start = last_start(packets, m.channel, m.to, m.from + 1);
        let reset = first_reset(packets, m.to + 1, m.from);
        lower(start, reset)
    }
}
