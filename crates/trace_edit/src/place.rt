//! Where completions stand.

ghost use Rattle.std.specs.Prelude.{◌≡◌, ◌≤◌, ◌<◌, IfSome, MatchOption, length};
ghost use Rattle.trace_edit.specs.Moved.{EndsAt, HasNoEnd};

use trace_model::{Event, Packet, names};

/// A completion and the packets that it is moved between.
#[derive(Clone, Copy)]
pub struct Move {
    pub channel: usize,
    /// The packet that it stands in.
    pub from: usize,
    /// The packet of the other completion.
    pub to: usize,
    /// Whether it comes right after the other one, and not right before.
    pub after: bool,
}

/// The packet in which a completion stands, or None where there is none.
#[tactic(auto, using(crate::proofs::Places::below_width))]
pub(crate) fn place_of(packets: &[Packet], end: Event) -> Option<usize>
    ensures place { MatchOption result (HasNoEnd packets.now end) (EndsAt packets.now end) }
    ensures within { IfSome result (λ p. p < length packets.now) }
    ensures channel { IfSome result (λ p. end.channel < 128) }
{
    let mut left = end.index;
    for (at, p) in packets.iter().enumerate() {
        if names(p.ends, end.channel) {
            if left == 0 {
                return Some(at);
            }
            left -= 1;
        }
    }
    None
}
