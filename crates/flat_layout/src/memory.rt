//! The memories of the flat design.

ghost use Rattle.std.specs.Prelude.{◌≡◌, ◌<◌, ◌+◌, ◌++◌, IfOk, OnOk, length, slice_get, Some};
ghost use Rattle.std.specs.Option.{option_map};
ghost use Rattle.flat_parts.specs.vlog_scope.Scope.{words_of};
ghost use Rattle.flat_parts.specs.vlog_elab.Plain.{plain_instances};
ghost use Rattle.flat_parts.specs.Seats.{seats_of};
ghost use Rattle.flat_parts.specs.Nets.{memories_from, flat_memories};
ghost use Rattle.flat_layout.specs.Layout.{memory_of};

use flat_parts::vidi_bits::{Items, Memory, copied};
use flat_parts::vlog_elab::ModuleInstance;
use flat_parts::vlog_size::ScopeMemories;
use net_design::{DesignMemory, Room};
use std::alloc::Global;

/// The memory at a place of an instance's memories, whose first word is this word of the design.
fn memory_at(
    alloc: Global,
    number: usize,
    word: usize,
    list: &ScopeMemories,
    place: usize,
) -> Result<DesignMemory, Memory>
    requires { place < length list.now }
    ensures { IfOk result (λ m. option_map (memory_of number word) (slice_get list.now place) ≡ Some m) }
{
    let Some(name) = list.name_at(place) else {
        unreachable!();
    };
    let Some(memory) = list.value_at(place) else {
        unreachable!();
    };
    let width = memory.width;
    let length = memory.length as usize;
    let name = copied(alloc, name)?;
    Ok(DesignMemory {
        instance: number,
        name,
        width,
        room: Room {
            first: word,
            length,
        },
    })
}

/// The word behind so many words.
fn behind(word: usize, length: usize) -> Result<usize, Memory>
    ensures { IfOk result (λ n. n ≡ word + length) }
{
    Ok(word.checked_add(length).ok_or(Memory)?)
}

/// Adds the memories of the instance of this number, whose first word is this one, and answers the word behind them.
fn add_memories(
    alloc: Global,
    number: usize,
    first: usize,
    list: &ScopeMemories,
    memories: &mut Items<DesignMemory>,
) -> Result<usize, Memory>
    ensures words { IfOk result (λ n. n ≡ first + words_of list.now) }
    ensures value { OnOk result (memories.new ≡ memories.old ++ memories_from number first list.now) }
{
    let mut word = first;
    for place in 0..list.len() {
        let memory = memory_at(alloc, number, word, list, place)?;
        word = behind(word, memory.room.length)?;
        memories.push(memory)?;
    }
    Ok(word)
}

/// The memories of all instances, in their order and within one in text order, each behind the words of those before it.
pub fn memories(
    alloc: Global,
    instances: &[ModuleInstance<'_>],
) -> Result<Items<DesignMemory>, Memory>
    ensures { IfOk result (λ ms. ms ≡ flat_memories (seats_of (plain_instances instances.now))) }
{
    let mut memories = Items::new(alloc);
    let mut word = 0;
    for (number, instance) in instances.iter().enumerate() {
        word = add_memories(alloc, number, word, &instance.scope.memories, &mut memories)?;
    }
    Ok(memories)
}
