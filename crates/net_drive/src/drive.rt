//! E8: the first net or memory that isn't driven as it has to be.

ghost use Rattle.std.specs.Prelude.{◌≡◌, ◌++◌, List, ℕ, ◌+◌, ◌^◌, ◌≤◌, ◌<◌, ◌==◌, not, min, Some, None, IfOk};
ghost use Rattle.net_code.specs.Tally.{IsLowTally, IsKeyTally};
ghost use Rattle.net_code.specs.vidi_bits.Findings.{first};
ghost use Rattle.net_code.specs.vidi_bits.Number.{has, truth};
ghost use Rattle.net_design.specs.Bits.{bits_of, place_writes};
ghost use Rattle.net_code.specs.BitMap.{in_map, is_among};
ghost use Rattle.net_drive.specs.declared.findings.Misdriven.{Misdriven};
ghost use Rattle.net_code.specs.Targets.{plain_places, nets_named, rooms_named, bit_count};
ghost use Rattle.net_drive.specs.Drive.{block_count, bit_faults, reg_faults, kind_faults, kind_at, nets_from};
ghost use Rattle.net_drive.specs.Drive.{memory_at, memories_from, net_faults, memory_faults, drive_faults, wire_places, block_names};
ghost use Rattle.net_drive.specs.Tallied.{exact};

use crate::blocks::{named_by, wire_places};
use crate::findings::{Misdriven, NetKind};
use crate::tally::{capped, net_span, tally_blocks, tally_places};
use net_code::Tally;
use net_code::vidi_bits::{Items, Memory, slice};
use net_design::{Code, DesignMemory, Driver, Net, Place, Span};
use std::alloc::Global;

/// Bit `k` of a number.
fn has_bit(x: u128, k: u32) -> bool
    ensures { result ≡ has x k }
{
    slice(x, k, 1) == 1
}

/// Whether a bit has exactly one driver, where it is named at least once, or more than once, and where the pins drive it.
fn is_exact(pin: bool, once: bool, more: bool) -> bool
    ensures { result ≡ exact pin once more }
{
    if pin { !once } else { once && !more }
}

/// Whether bit `k` of a net hasn't, where masks tell which bits are named at least once, and more than once.
fn is_wrong(pin: bool, once: u128, more: u128, k: u32) -> bool
    ensures { result ≡ not (exact pin (has once k) (has more k)) }
{
    !is_exact(pin, has_bit(once, k), has_bit(more, k))
}

/// Whether a span has a bit.
fn is_bit_of(span: Span, net: usize, k: u32) -> bool
    ensures { result ≡ bits_of span net k }
{
    span.net == net && (span.low <= k && u64::from(k) < u64::from(span.low) + u64::from(span.width))
}

/// Whether a place names a bit.
fn names_bit(place: &Place, net: usize, k: u32) -> bool
    ensures { result ≡ place_writes place.now net k }
{
    match net_span(place) {
        Some(span) => is_bit_of(span, net, k),
        None => false,
    }
}

/// How often places name a bit.
fn count_bit(places: &[&Place], net: usize, k: u32) -> u128
    ensures value { result ≡ bit_count (plain_places places.now) net k }
    ensures few { result ≤ 2 ^ 64 }
{
    let mut count = 0;
    for place in places {
        if names_bit(place, net, k) {
            count += 1;
        }
    }
    count
}

/// Whether a number is among these.
fn is_among(key: usize, keys: &[usize]) -> bool
    ensures { result ≡ is_among key keys.now }
{
    for other in keys {
        if *other == key {
            return true;
        }
    }
    false
}

/// How many blocks name a number.
fn count_blocks(blocks: &[Items<usize>], key: usize) -> u128
    ensures { result ≡ block_count blocks.now key }
{
    let mut count = 0;
    for keys in blocks {
        if is_among(key, keys.as_slice()) {
            count += 1;
        }
    }
    count
}

/// The finding at a bit.
fn bit_fault(places: &[&Place], net: usize, pin: bool, k: u32) -> Misdriven
    ensures { result ≡ Misdriven.Net net k (truth pin + bit_count (plain_places places.now) net k) }
{
    let count = count_bit(places, net, k);
    let pins = u128::from(pin);
    Misdriven::Net {
        net,
        bit: k,
        drivers: pins + count,
    }
}

/// The lowest bit of a net that hasn't exactly one driver.
fn first_bit(
    places: &[&Place],
    tally: &Tally,
    net: usize,
    pin: bool,
    width: u32,
) -> Option<Misdriven>
    requires { IsLowTally tally.now (bit_count (plain_places places.now)) }
    ensures { result ≡ first (bit_faults (plain_places places.now) net (truth pin) 0 (min width 128)) }
{
    let once = tally.once.mask(net);
    let more = tally.more.mask(net);
    let width = capped(width);
    for k in 0..width {
        if is_wrong(pin, once, more, k) {
            return Some(bit_fault(places, net, pin, k));
        }
    }
    None
}

/// Whether more than one block names a number.
fn is_shared(tally: &Tally, key: usize) -> bool
    ensures { result ≡ in_map tally.now.more key 0 }
{
    has_bit(tally.more.mask(key), 0)
}

/// The finding at a reg.
fn reg_fault(blocks: &[Items<usize>], tally: &Tally, net: usize) -> Option<Misdriven>
    requires { IsKeyTally tally.now (block_count blocks.now) }
    ensures { result ≡ first (reg_faults blocks.now net) }
{
    if is_shared(tally, net) {
        return Some(Misdriven::Net {
            net,
            bit: 0,
            drivers: count_blocks(blocks, net),
        });
    }
    None
}

/// The kind of a net.
fn kind_at(kinds: &[NetKind], net: usize) -> NetKind
    ensures { result ≡ kind_at kinds.now net }
{
    match kinds.get(net) {
        Some(kind) => *kind,
        None => NetKind::Wire,
    }
}

/// What names nets: the places that are written, and what each always block names, with how often each is named.
#[derive(Drop)]
struct Writers<'a> {
    places: Items<&'a Place>,
    wires: Tally,
    blocks: Items<Items<usize>>,
    regs: Tally,
}

impl Writers<'_> {
    /// The first finding at a net.
    fn net_fault(&self, net: usize, width: u32, kind: NetKind) -> Option<Misdriven>
        requires wires { IsLowTally self.now.wires (bit_count (plain_places self.now.places)) }
        requires regs { IsKeyTally self.now.regs (block_count self.now.blocks) }
        ensures { result ≡ first (kind_faults (plain_places self.now.places) self.now.blocks net width kind) }
    {
        match kind {
            NetKind::Pin => first_bit(self.places.as_slice(), &self.wires, net, true, width),
            NetKind::Wire => first_bit(self.places.as_slice(), &self.wires, net, false, width),
            NetKind::Reg => reg_fault(self.blocks.as_slice(), &self.regs, net),
        }
    }

    /// The first finding at nets.
    fn first_net(&self, nets: &[Net], kinds: &[NetKind]) -> Option<Misdriven>
        requires wires { IsLowTally self.now.wires (bit_count (plain_places self.now.places)) }
        requires regs { IsKeyTally self.now.regs (block_count self.now.blocks) }
        ensures { result ≡ first (nets_from (plain_places self.now.places) self.now.blocks kinds.now 0 nets.now) }
    {
        for (place, net) in nets.iter().enumerate() {
            let found = self.net_fault(place, net.width, kind_at(kinds, place));
            if found.is_some() {
                return found;
            }
        }
        None
    }
}

/// The finding at a memory.
fn memory_fault(
    blocks: &[Items<usize>],
    tally: &Tally,
    place: usize,
    first_word: usize,
) -> Option<Misdriven>
    requires { IsKeyTally tally.now (block_count blocks.now) }
    ensures { result ≡ first (memory_at blocks.now place first_word) }
{
    if is_shared(tally, first_word) {
        return Some(Misdriven::Memory {
            memory: place,
            drivers: count_blocks(blocks, first_word),
        });
    }
    None
}

/// The first finding at memories.
fn first_memory(
    blocks: &[Items<usize>],
    tally: &Tally,
    memories: &[DesignMemory],
) -> Option<Misdriven>
    requires { IsKeyTally tally.now (block_count blocks.now) }
    ensures { result ≡ first (memories_from blocks.now 0 memories.now) }
{
    for (place, memory) in memories.iter().enumerate() {
        let found = memory_fault(blocks, tally, place, memory.room.first);
        if found.is_some() {
            return found;
        }
    }
    None
}

/// The first of two lists of findings that has one.
fn or_else(found: Option<Misdriven>, other: Option<Misdriven>) -> Option<Misdriven>
    ensures { (xs ys : List Misdriven) → found ≡ first xs → other ≡ first ys → result ≡ first (xs ++ ys) }
{
    match found {
        Some(one) => Some(one),
        None => other,
    }
}

/// E8 (this project's profile): the first net, and its lowest bit, that hasn't exactly one driver: a wire, or a port that isn't
/// `output reg`, where the top's inputs are driven by the pins; or that is a reg that more than one always block names as a target,
/// with bit 0 and their number. After all nets the first memory that more than one always block names.
///
/// `kinds` has the kind of each net, in the order of the nets; past its end a net is a wire. `drivers` and `blocks` are those of the
/// design, as are the nets and memories. A bit counts as driven as often as the targets of `assign`, wires and connections name it;
/// an `always @*` and a clocked block count once for each reg that they name, also where no bit of it is in range. Bits past 127
/// aren't looked at.
///
/// # Errors
///
/// `Memory`.
pub fn misdriven(
    alloc: Global,
    nets: &[Net],
    kinds: &[NetKind],
    memories: &[DesignMemory],
    drivers: &[Driver],
    blocks: &[Code],
) -> Result<Option<Misdriven>, Memory>
    ensures { IfOk result (λ found. found ≡ first (drive_faults nets.now kinds.now memories.now drivers.now blocks.now)) }
{
    let places = wire_places(alloc, drivers)?;
    let named = named_by(alloc, drivers, blocks)?;
    let wires = tally_places(alloc, places.as_slice())?;
    let regs = tally_blocks(alloc, named.nets.as_slice())?;
    let words = tally_blocks(alloc, named.rooms.as_slice())?;
    let memory = first_memory(named.rooms.as_slice(), &words, memories);
    let writers = Writers {
        places,
        wires,
        blocks: named.nets,
        regs,
    };
    let net = writers.first_net(nets, kinds);
    Ok(or_else(net, memory))
}
