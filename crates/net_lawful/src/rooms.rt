//! The memories of a design, found by their first words.

ghost use Rattle.std.specs.Prelude.{◌≡◌, ℕ, ◌==◌, ◌≤◌, ◌↔◌, if◌then◌else◌, All, Some, IsTrue, false, OnOk, IfOk};
ghost use Rattle.std.specs.List.{list_any};
ghost use Rattle.net_design.specs.declared.rhs.Room.{Room};
ghost use Rattle.net_design.specs.declared.design.DesignMemory.{DesignMemory};
ghost use Rattle.net_lawful.specs.Frame.{HaveRooms, IsFramed};
ghost use Rattle.net_lawful.specs.Coded.{AreRooms};
ghost use Rattle.net_lawful.specs.Rooms.{extent_at, extent_of, has_room, is_room_of};

use net_code::vidi_bits::Memory;
use net_design::{Design, DesignMemory, Room};
use std::alloc::Global;
use std::collections::BTreeMap;

/// How many words a memory has, and the width of each.
#[derive(Clone, Copy)]
struct Extent {
    length: usize,
    width: u32,
}

/// The memories of a design, by their first words.
#[derive(Drop)]
pub struct Rooms {
    extents: BTreeMap<usize, Extent>,
}

impl Rooms {
    /// No memory.
    fn new(alloc: Global) -> Rooms
        ensures { (r : Room) (n : ℕ) → has_room result r n ≡ false }
    {
        Rooms {
            extents: BTreeMap::new(alloc),
        }
    }

    /// Adds a memory.
    fn add(&mut self, memory: &DesignMemory) -> Result<(), Memory>
        ensures { OnOk result ((first : ℕ) → extent_at self.new first
            ≡ (if memory.now.room.first == first then Some (extent_of memory.now) else extent_at self.old first)) }
    {
        let extent = Extent {
            length: memory.room.length,
            width: memory.width,
        };
        self.extents.insert(memory.room.first, extent)?;
        Ok(())
    }

    /// Whether these are the words of a memory, which have `n` bits or more.
    #[tactic(auto, unfolding(crate::specs::Rooms::has_room))]
    pub fn has(&self, room: Room, n: u64) -> bool
        ensures { result ≡ has_room self.now room n }
    {
        match self.extents.get(&room.first) {
            None => false,
            Some(extent) => extent.length == room.length && n <= u64::from(extent.width),
        }
    }
}

/// Memories whose words stand one memory after the other.
fn rooms_of(alloc: Global, memories: &[DesignMemory]) -> Result<Rooms, Memory>
    requires rooms { HaveRooms memories.now }
    requires some { All (λ a. 1 ≤ a.room.length) memories.now }
    ensures { IfOk result (λ rooms. (r : Room) (n : ℕ) → has_room rooms r n ≡ list_any (is_room_of r n) memories.now) }
{
    let mut rooms = Rooms::new(alloc);
    for memory in memories {
        rooms.add(memory)?;
    }
    Ok(rooms)
}

/// The memories of a design.
pub fn design_rooms(alloc: Global, design: &Design) -> Result<Rooms, Memory>
    requires { IsFramed design.now }
    ensures { IfOk result (λ rooms. AreRooms design.now rooms) }
{
    rooms_of(alloc, design.memories.as_slice())
}
