//! The ledger of the store's bytes and of what the channels have reserved.

ghost use Rattle.room_ledger.specs.declared.room.TheConstants.{ROOM_CONTENT_BYTES};
ghost use Rattle.std.specs.Prelude.{◌≡◌, ◌<◌, ◌≤◌, ◌^◌, ◌↔◌, IsTrue, true, IfOk, IfErr, length, map, sum_by};
ghost use Rattle.trace_model.specs.vidi_bits.Number.{has};
ghost use Rattle.trace_model.specs.Channel.{content_bytes};
ghost use Rattle.room_ledger.specs.Reservation.{least, event_len, reset_len};
ghost use Rattle.room_ledger.specs.Gates.{drained, left};
ghost use Rattle.room_ledger.specs.Ledger.{empty, claimed, may_reset, MayEmit, Emitted, IsReset, Regranted};
ghost use Rattle.room_ledger.specs.Refusal.{Refuses};

use crate::error::RoomError;
use crate::sums::{event_len, head_of, least, permit_room, raised, reserved, sizes_of};
use std::alloc::Global;
use std::marker::Model;
use trace_model::{Channels, RESET_LEN, all_up, names};

/// The most content bytes of all channels of a room together, at least as many as those of a table.
pub const ROOM_CONTENT_BYTES: u32 = 2_048;

/// How many bytes of the store are used, which channels have their gate up, and whether there is a permit to
/// reset the design, so that whatever they start, and the packet of a reset, can still be put. In each cycle
/// come `emit`, `reset` where the design is reset behind the cycle, `drain` and `regrant`, in this order. A
/// contract sees it as a `Ledger`. Waiting bytes and reservations together are never more than the capacity.
/// Only `new` takes memory.
#[derive(Drop)]
pub struct Room {
    /// The content bytes of each channel.
    sizes: Vec<u32>,
    /// Whether there may be resets.
    resets: bool,
    capacity: u32,
    used: u32,
    /// Whether there is a permit to reset.
    permit: bool,
    /// The channels whose gate is up.
    gates: u128,
    /// The channels in flight.
    flying: u128,
}

impl Model for Room {
    ghost use Rattle.room_ledger.specs.Ledger.{Ledger, ledger, IsSound};

    ghost Value = { Ledger };

    ghost view = { λ r. ledger r.sizes.items r.resets r.capacity r.used r.permit r.gates r.flying };

    ghost invariant = { λ r. IsSound (ledger r.sizes.items r.resets r.capacity r.used r.permit r.gates r.flying) };
}

impl Room {
    /// An empty store of `capacity` bytes, with all gates and the permit up. The channels are 1 to 128 with at
    /// most 2,048 content bytes in all. `TooSmall` exactly where the capacity is below what all channels need
    /// together, and 3 bytes more where there may be resets.
    pub fn new(
        alloc: Global,
        channels: &Channels,
        resets: bool,
        capacity: u32,
    ) -> Result<Room, RoomError>
        requires some { 1 ≤ length channels.now }
        requires few { length channels.now ≤ 128 }
        requires content { sum_by content_bytes channels.now ≤ ROOM_CONTENT_BYTES }
        ensures made { IfOk result (λ room. (room ≡ empty (map content_bytes channels.now) resets capacity)
            × (least (map content_bytes channels.now) resets ≤ capacity)) }
        ensures room { IfOk result (λ room. claimed room ≤ room.capacity) }
        ensures refused { IfErr result (Refuses (map content_bytes channels.now) resets capacity) }
    {
        let sizes = sizes_of(alloc, channels.as_slice())?;
        let need = least(sizes.as_slice(), resets);
        if capacity < need {
            return Err(RoomError::TooSmall {
                need,
                given: capacity,
            });
        }
        let gates = all_up(sizes.len());
        Ok(Room {
            sizes,
            resets,
            capacity,
            used: 0,
            permit: true,
            gates,
            flying: 0,
        })
    }

    /// Takes a cycle's starts and ends into the books, and gives the length of its packet in bytes, 0 where
    /// there is no event. Each start is of an idle channel with its gate up, and each end of a channel in
    /// flight or starting: `fits` tests it.
    pub fn emit(&mut self, starts: u128, ends: u128) -> u32
        requires { MayEmit self.old starts ends }
        ensures len { result ≡ event_len self.old.sizes starts ends }
        ensures next { Emitted self.old starts ends self.new }
        ensures room { claimed self.new ≤ self.new.capacity }
    {
        let len = event_len(self.sizes.as_slice(), starts, ends);
        self.used += len;
        self.gates &= !ends;
        self.flying = (self.flying | starts) & !ends;
        len
    }

    /// Whether the design may be reset behind this cycle.
    pub fn may_reset(&self) -> bool
        ensures { result ≡ may_reset self.now }
    {
        self.resets && self.permit
    }

    /// Takes a reset of the design behind a cycle into the books, and gives the length of its packet in bytes: `may_reset` tests
    /// that it may be. The permit goes, and so do the gates of the channels in flight, of which there are none then.
    pub fn reset(&mut self) -> u32
        requires { may_reset self.old ≡ true }
        ensures len { result ≡ reset_len }
        ensures next { IsReset self.old self.new }
        ensures room { claimed self.new ≤ self.new.capacity }
    {
        self.used += RESET_LEN as u32;
        self.permit = false;
        self.gates &= !self.flying;
        self.flying = 0;
        RESET_LEN as u32
    }

    /// Takes out the bytes that drain, and gives their number: at most the allowance, None for all.
    pub fn drain(&mut self, allowance: Option<u32>) -> u32
        ensures bytes { result ≡ drained allowance self.old.used }
        ensures next { self.new ≡ record self.old { used = left allowance self.old.used } }
        ensures room { claimed self.new ≤ self.new.capacity }
    {
        let bytes = match allowance {
            Some(most) => most.min(self.used),
            None => self.used,
        };
        self.used -= bytes;
        bytes
    }

    /// Puts the permit up where there is room for it. Then takes each gate that is down, in channel order, and puts it up where there is
    /// room for its channel.
    pub fn regrant(&mut self)
        ensures next { Regranted self.old self.new }
        ensures room { claimed self.new ≤ self.new.capacity }
    {
        let sizes = self.sizes.as_slice();
        let head = head_of(sizes);
        let claimed = self.used + reserved(sizes, head, self.gates, self.flying);
        // A permit that is up has its room.
        self.permit = permit_room(self.resets, true) <= self.capacity - claimed;
        let claimed = claimed + permit_room(self.resets, self.permit);
        self.gates = raised(sizes, head, self.capacity, claimed, self.gates);
    }

    /// Whether a channel's gate is up.
    pub fn gate(&self, c: usize) -> bool
        ensures { result ≡ has self.now.gates c }
    {
        names(self.gates, c)
    }

    /// The channels whose gate is up: bit c is channel c.
    pub fn gates(&self) -> u128
        ensures mask { result ≡ self.now.gates }
        ensures channels { result < 2 ^ length self.now.sizes }
    {
        self.gates
    }

    /// How many bytes of the store are used.
    pub fn used(&self) -> u32
        ensures { result ≡ self.now.used }
    {
        self.used
    }

    /// Whether a cycle may have these starts and ends.
    pub fn fits(&self, starts: u128, ends: u128) -> bool
        ensures { IsTrue result ↔ MayEmit self.now starts ends }
    {
        starts & !(self.gates & !self.flying) == 0 && ends & !(self.flying | starts) == 0
    }
}
