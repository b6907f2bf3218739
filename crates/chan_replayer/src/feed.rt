//! What replayers are fed.

ghost use Rattle.std.specs.Prelude.{◌≡◌};
ghost use Rattle.chan_replayer.specs.Feed.{kind_of};

use crate::needs::Needs;
use vec_clock::trace_model::{Dir, Kind};
use vec_clock::vidi_bits::Numbers;

/// What replayers are told of the next event on each channel that they control: a start on an inward channel, a completion on
/// an outward one.
#[derive(Drop)]
pub struct Feed {
    /// The channels that have one: bit c is channel c.
    pub more: u128,
    /// The clock of that of channel 0, one number a channel, then that of channel 1, and so on.
    pub needs: Needs,
    /// The numbers of all channels' ports, in channel order and then in port order. Those of outward channels are passed over.
    pub contents: Numbers,
}

/// The events of a channel of this direction that replayers control.
pub fn kind_of(dir: Dir) -> Kind
    ensures { result ≡ kind_of dir }
{
    match dir {
        Dir::Inward => Kind::Start,
        Dir::Outward => Kind::End,
    }
}
