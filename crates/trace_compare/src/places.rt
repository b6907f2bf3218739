//! Where the events of a channel stand.

ghost use Rattle.std.specs.Prelude.{◌≡◌, [], ◌∷◌, ◌++◌, OnOk, if◌then◌else◌};
ghost use Rattle.vec_clock.specs.trace_model.declared.event.Kind.TheVariants.{Start, End};
ghost use Rattle.trace_compare.specs.Walking.{places};

use std::alloc::Global;
use vec_clock::trace_model::{Packet, names};
use vec_clock::vidi_bits::Memory;

/// The places of the packets that have a start, and of those that have an end, of a channel.
#[derive(Drop)]
pub(crate) struct Places {
    pub(crate) starts: Vec<usize>,
    pub(crate) ends: Vec<usize>,
}

/// Adds a place, where there is an event.
fn push_where(places: &mut Vec<usize>, is_event: bool, at: usize) -> Result<(), Memory>
    ensures { OnOk result (places.new.items ≡ places.old.items ++ (if is_event then at ∷ [] else [])) }
{
    if is_event {
        places.push(at)?;
    }
    Ok(())
}

impl Places {
    /// No places, with room for those of this many packets.
    pub(crate) fn new(alloc: Global, packets: usize) -> Result<Places, Memory> {
        let starts = Vec::with_capacity(alloc, packets)?;
        let ends = Vec::with_capacity(alloc, packets)?;
        Ok(Places { starts, ends })
    }

    /// Takes the places of a channel's events instead, in one walk over the packets.
    pub(crate) fn find(&mut self, packets: &[Packet], channel: usize) -> Result<(), Memory>
        ensures starts { OnOk result (self.new.starts.items ≡ places Start channel packets.now) }
        ensures ends { OnOk result (self.new.ends.items ≡ places End channel packets.now) }
    {
        self.starts.clear();
        self.ends.clear();
        for (at, packet) in packets.iter().enumerate() {
            push_where(&mut self.starts, names(packet.starts, channel), at)?;
            push_where(&mut self.ends, names(packet.ends, channel), at)?;
        }
        Ok(())
    }
}
