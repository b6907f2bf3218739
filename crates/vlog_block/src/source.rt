//! What the names of a scope are in code.

ghost use Rattle.std.specs.Prelude.{◌≡◌, ◌<◌, ◌+◌, ◌^◌, IfOk, IfSome};
ghost use Rattle.net_design.specs.Sized.{IsCountable};
ghost use Rattle.vlog_block.specs.Sources.{names_of, source_of, memory_named, words_before, IsSource};

use net_design::{Room, Span};
use vlog_size::vidi_bits::Memory;
use vlog_size::{Const, Scope, ScopeMemories};

/// What a name is in code.
#[derive(Clone, Copy)]
pub enum Source {
    Constant(Const),
    /// A whole net.
    Net(Span),
    /// A memory, whose words have `width` bits.
    Memory { room: Room, width: u32 },
    Nothing,
}

/// The number of words of the first `count` memories, where it can be counted.
#[tactic(auto, using(crate::proofs::Words::words_step))]
fn words_before(memories: &ScopeMemories, count: usize) -> Option<usize>
    ensures { IfSome result (λ n. n ≡ words_before memories.now count) }
{
    let mut words: usize = 0;
    for k in 0..count {
        let memory = memories.value_at(k)?;
        words = words.checked_add(memory.length as usize)?;
    }
    Some(words)
}

/// The words of the memory at this place.
fn room_of(memories: &ScopeMemories, place: usize, length: u32) -> Result<Room, Memory>
    ensures value { IfOk result (λ r. (r.first ≡ words_before memories.now place) × (r.length ≡ length)) }
    ensures countable { IfOk result (λ r. IsCountable (2 ^ 64) r 0) }
{
    let first = words_before(memories, place).ok_or(Memory)?;
    let length = length as usize;
    let _end = first.checked_add(length).ok_or(Memory)?;
    Ok(Room { first, length })
}

/// What the name of a memory is.
fn memory_named(memories: &ScopeMemories, name: &[u8]) -> Result<Source, Memory>
    ensures value { IfOk result (λ s. s ≡ memory_named memories.now name.now) }
    ensures sized { IfOk result IsSource }
{
    match memories.get(name) {
        Some(memory) => {
            let place = memories.place(name).unwrap_or(0);
            let room = room_of(memories, place, memory.length)?;
            Ok(Source::Memory {
                room,
                width: memory.width,
            })
        }
        None => Ok(Source::Nothing),
    }
}

/// What a name is: a parameter, else a net, else a memory. Words that can't be counted are more than there is memory for.
pub fn source_of(scope: &Scope, name: &[u8]) -> Result<Source, Memory>
    ensures value { IfOk result (λ s. s ≡ source_of (names_of scope.now) name.now) }
    ensures sized { IfOk result IsSource }
{
    if let Some(param) = scope.params.get(name) {
        return Ok(Source::Constant(param.value));
    }
    match scope.nets.get(name) {
        Some(net) => Ok(Source::Net(Span {
            net: scope.nets.place(name).unwrap_or(0),
            low: 0,
            width: net.width,
        })),
        None => memory_named(&scope.memories, name),
    }
}
